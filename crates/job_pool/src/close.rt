//! The end of a desk.
ghost use Rattle.std.specs.Prelude.{◌≡◌, ◌↔◌, ◌<◌, ◌≤◌, [], map, vec_len, vec_capacity, IfOk, IfErr, IsTrue, All, Any};
ghost use Rattle.core_book.specs.Draws.{past_last};
ghost use Rattle.job_pool.specs.Lists.{joined, AreAllDraws};
ghost use Rattle.job_pool.specs.Seats.{IsSeatOf, drawn_by, number_count_of, seat_count_of};

use crate::desk::{Desk, DeskSeat};
use crate::rule::{SplitOrJoinStep, View};
use atomic_table::Seat;
use std::alloc::Global;

/// The numbers that were drawn at a desk.
#[derive(Drop)]
pub struct Closed {
    /// The draws of each seat in their order, the seats in the order in which they were handed in.
    pub draws: Vec<Vec<usize>>,
    /// How many draws there were, the last of each seat included.
    pub counter: usize,
}

/// A desk that was not closed, with all that was handed in.
#[derive(Drop)]
pub struct CloseFault {
    pub desk: Desk,
    pub seats: Vec<DeskSeat>,
    /// Whether fewer seats were handed in than were opened. Otherwise there was no memory.
    pub missing: bool,
}

impl Desk {
    ghost use Rattle.job_pool.specs.Closings.{draws_of};
    ghost use Rattle.job_pool.specs.Rule.{HasAllPlaces};

    /// Ends the desk, for all its seats. It tests first whether a seat is missing.
    pub fn close(self, alloc: Global, seats: Vec<DeskSeat>) -> Result<Closed, CloseFault>
        requires { All (IsSeatOf self) seats.items }
        ensures draws { IfOk result (λ c. draws_of c ≡ map drawn_by seats.items) }
        ensures all { IfOk result (λ c. AreAllDraws (number_count_of self) (seat_count_of self)
            c.counter (draws_of c)) }
        // where some seat met the end, each number was drawn
        ensures ended { IfOk result (λ c. Any (λ s. number_count_of self < past_last (drawn_by s))
            seats.items → number_count_of self < c.counter) }
        ensures inputs_returned { IfErr result (λ f. (f.desk ≡ self) × (f.seats ≡ seats)) }
        ensures missing { IfErr result (λ f. IsTrue f.missing
            ↔ (vec_len seats < seat_count_of self)) }
    {
        if seats.len() < self.seats {
            return Err(CloseFault {
                desk: self,
                seats,
                missing: true,
            });
        }
        let Ok(draws) = Vec::with_capacity(alloc, seats.len()) else {
            return Err(CloseFault {
                desk: self,
                seats,
                missing: false,
            });
        };
        let (seat, draws) = self.join(seats, draws);
        let counter = self.final_count(seat);
        Ok(Closed { draws, counter })
    }

    // Joins the seats into the first, and keeps the list of each.
    fn join(
        &self,
        seats: Vec<DeskSeat>,
        mut draws: Vec<Vec<usize>>,
    ) -> (Seat<(), View>, Vec<Vec<usize>>)
        requires seats { All (IsSeatOf self.now) seats.items }
        requires some { 0 < vec_len seats }
        requires empty { draws.items ≡ [] }
        requires room_for_draws { vec_len seats ≤ vec_capacity draws }
        ensures seat { (result.0.table_id ≡ self.now.table.shared.table_id)
            × (result.0.me.0.places ≡ vec_len seats) }
        ensures draws { map (λ v. v.items) result.1.items ≡ map drawn_by seats.items }
        ensures joined { result.0.me.0.draws ≡ joined (map drawn_by seats.items) }
    {
        let mut rest = seats.into_iter();
        let Some(first) = rest.next() else {
            unreachable!()
        };
        let DeskSeat {
            mut seat,
            drawn,
            numbers: _,
        } = first;
        draws.push_reserved(drawn);
        for other in rest {
            let DeskSeat {
                seat: other,
                drawn,
                numbers: _,
            } = other;
            self.table
                .shared
                .join_seat::<SplitOrJoinStep>(&mut seat, other);
            draws.push_reserved(drawn);
        }
        (seat, draws)
    }

    // The last count of the word, once one seat has all places.
    fn final_count(self, seat: Seat<(), View>) -> usize
        requires { (seat.table_id ≡ self.table.shared.table_id)
            × (seat_count_of self ≤ seat.me.0.places) }
        ensures { HasAllPlaces (number_count_of self) (seat_count_of self) result seat.me.0 }
    {
        let Desk { table, .. } = self;
        let closed = table.close_with(seat);
        let counter = closed.word(0) as usize;
        closed.free();
        counter
    }
}
