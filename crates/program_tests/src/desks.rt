//! Desks in one thread and in many. The expected results were worked out by hand.
ghost use Rattle.std.specs.Prelude.{◌≡◌, ◌<◌, ◌≤◌, All, vec_len};
ghost use Rattle.job_pool.specs.Seats.{IsSeatOf};

use core_book::Claim;
use job_pool::*;
use std::alloc::{AllocError, Global};
use std::process::Abort;
use std::thread;
use std::thread::Threads;

/// Returns what was drawn, if every seat is handed in.
fn close_with_all_seats(rt: &impl Abort, alloc: Global, desk: Desk, seats: Vec<DeskSeat>) -> Closed
    requires { All (IsSeatOf desk) seats.items }
{
    match desk.close(alloc, seats) {
        Ok(closed) => closed,
        Err(fault) => panic!(rt; "not closed, a seat is missing: {}", fault.missing),
    }
}

/// Draws until there is no number left.
fn draw_until_empty(desk: &Desk, seat: &mut DeskSeat)
    requires { IsSeatOf desk.now seat.old }
    ensures { IsSeatOf desk.now seat.new }
{
    while let Claim::Number(_) = desk.claim(seat) {}
}

/// Draws with each seat in a thread of its own.
fn draw_in_threads<R: Threads + Sync>(rt: &R, desk: &Desk, seats: &mut [DeskSeat])
    requires { All (IsSeatOf desk.now) seats.old }
    ensures { All (IsSeatOf desk.now) seats.new }
{
    let threads = seats.len().max(1);
    thread::for_each_mut(rt, seats, threads, &|_, seat| draw_until_empty(desk, seat));
}

/// Returns whether two new seats draw three numbers and the end in turn.
fn are_draws_in_turn_right(desk: &Desk, first: &mut DeskSeat, second: &mut DeskSeat) -> bool
    requires { IsSeatOf desk.now first.old × IsSeatOf desk.now second.old }
    ensures { IsSeatOf desk.now first.new × IsSeatOf desk.now second.new }
{
    let zero = desk.claim(first);
    let left = desk.left(second);
    let one = desk.claim(second);
    let two = desk.claim(first);
    let empty = desk.claim(second);
    let rest = desk.left(first);
    let again = desk.claim(second);
    left == 2
        && rest == 0
        && [zero, one, two] == [Claim::Number(0), Claim::Number(1), Claim::Number(2)]
        && [empty, again] == [Claim::Empty, Claim::Empty]
}

/// Returns whether two lists of draws are these.
fn are_draws_equal_to(draws: &[Vec<usize>], first: &[usize], second: &[usize]) -> bool {
    match draws {
        [one, two] => one.as_slice() == first && two.as_slice() == second,
        _ => false,
    }
}

#[test]
fn two_seats_draw_three_numbers(rt: HostRuntime) {
    let (desk, mut seats) = Desk::open(rt.alloc(), 3, 2).expect(&rt, "a desk");
    let mut second = seats.remove(1);
    assert!(rt; are_draws_in_turn_right(&desk, &mut seats[0], &mut second));
    let Err(fault) = desk.close(rt.alloc(), seats) else {
        panic!(rt; "closed without the second seat")
    };
    assert!(rt; fault.missing);
    let CloseFault {
        desk,
        mut seats,
        missing: _,
    } = fault;
    seats.push(second).expect(&rt, "room");
    let Closed { draws, counter } = close_with_all_seats(&rt, rt.alloc(), desk, seats);
    assert!(rt; are_draws_equal_to(&draws, &[0, 2], &[1, 3]) && counter == 4);
}

/// Draws with each of the seats, in a thread of its own, until there is no number left.
fn draw_every_number<R: Abort + Threads + Sync>(
    rt: &R,
    alloc: Global,
    numbers: usize,
    threads: usize,
)
    requires { (numbers ≤ 1024) × (0 < threads) × (threads ≤ 64) }
{
    let (desk, mut seats) = Desk::open(alloc, numbers, threads).expect(rt, "a desk");
    draw_in_threads(rt, &desk, seats.as_mut_slice());
    let Closed { draws, counter } = close_with_all_seats(rt, alloc, desk, seats);
    let all = sorted_draws(alloc, &draws).expect(rt, "memory");
    assert!(rt; counter == numbers + threads && all.iter().copied().eq(0..counter));
}

/// Returns all draws, in order.
fn sorted_draws(alloc: Global, draws: &[Vec<usize>]) -> Result<Vec<usize>, AllocError> {
    let mut all = Vec::new(alloc);
    for drawn in draws {
        all.extend_from_slice(drawn)?;
    }
    all.sort()?;
    Ok(all)
}

#[test]
fn no_number_is_drawn_where_there_is_none(rt: HostRuntime) {
    let (desk, mut seats) = Desk::open(rt.alloc(), 0, 1).expect(&rt, "a desk");
    assert!(rt; draws_empty_twice(&desk, &mut seats[0]));
    let Closed { draws, counter } = close_with_all_seats(&rt, rt.alloc(), desk, seats);
    assert!(rt; draws.len() == 1 && draws[0].as_slice() == [0].as_slice() && counter == 1);
}

fn draws_empty_twice(desk: &Desk, seat: &mut DeskSeat) -> bool
    requires { IsSeatOf desk.now seat.old }
    ensures { IsSeatOf desk.now seat.new }
{
    let left = desk.left(seat);
    left == 0 && [desk.claim(seat), desk.claim(seat)] == [Claim::Empty, Claim::Empty]
}

#[test]
fn four_threads_draw_every_number_once(rt: HostRuntime) {
    draw_every_number(&rt, rt.alloc(), 1000, 4);
}

#[test]
fn the_largest_desk_hands_out_every_number_once(rt: HostRuntime) {
    draw_every_number(&rt, rt.alloc(), 1024, 64);
}

/// Returns a desk of two numbers with two seats: that of the second opening, if no memory was found for the first.
fn desk_for_two_seats(rt: &impl Abort, alloc: Global) -> (Desk, Vec<DeskSeat>)
    ensures { All (IsSeatOf result.0) result.1.items × (vec_len result.1 ≡ 2) }
{
    if let Ok(opened) = Desk::open(alloc, 2, 2) {
        return opened;
    }
    match Desk::open(alloc, 2, 2) {
        Ok(opened) => opened,
        Err(_) => panic!(rt; "no memory at the second try"),
    }
}

/// Opens and closes a desk. It is made to be run with each growth of memory refused in turn.
///
/// A desk opens whole or not at all, and closes later if there was no memory for it.
#[test]
fn a_desk_opens_and_closes_at_the_second_try(rt: HostRuntime) {
    let (desk, mut seats) = desk_for_two_seats(&rt, rt.alloc());
    assert!(rt; desk.claim(&mut seats[1]) == Claim::Number(0));
    let Closed { draws, counter } = match desk.close(rt.alloc(), seats) {
        Ok(closed) => closed,
        Err(fault) => {
            assert!(rt; !fault.missing);
            close_with_all_seats(&rt, rt.alloc(), fault.desk, fault.seats)
        }
    };
    assert!(rt; are_draws_equal_to(&draws, &[], &[0]) && counter == 1);
}
