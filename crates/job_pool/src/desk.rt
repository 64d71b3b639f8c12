//! The desk as threads share it, and the seats that they draw with.
ghost use Rattle.std.specs.Prelude.{◌≡◌, ◌-◌, ◌<◌, ◌≤◌, [], length, vec_len, vec_capacity, IfOk, All};
ghost use Rattle.core_book.specs.Draws.{past_last};
ghost use Rattle.job_pool.specs.Lists.{all_but_last, past_greatest};
ghost use Rattle.lemmas.specs.Bounds.{max_modules};

use crate::rule::{ClaimStep, DeskRule, DeskSize, LookStep, SplitOrJoinStep, View};
use atomic_table::{Seat, Table};
use core_book::Claim;
use std::alloc::{AllocError, Global};

/// A desk that hands out the numbers below a count, each once, to the seats that were opened with it.
///
/// The count is at most 65,536, and the seats are 1 to 64. The desk is one word, the next number. It keeps the desk
/// rule at each moment, whoever draws: each number below the word was drawn by one seat, once. A claim adds 1 to the
/// word, in one atomic step. A look at the word, and the splits and joins of seats by `open` and `close`, add nothing.
/// There is no other step.
#[derive(Drop)]
pub struct Desk {
    pub(crate) table: Table<(), View, DeskSize, DeskRule, Global>,
    pub(crate) numbers: usize,
    pub(crate) seats: usize,
    ghost counts: { (table.shared.table_id.words ≡ 1) × (table.shared.table_id.slots ≡ 0) },
    ghost size: { (table.shared.key.numbers ≡ numbers) × (table.shared.key.seats ≡ seats) },
    ghost small: { (numbers ≤ max_modules) × (0 < seats) × (seats ≤ 64) },
}

/// A seat that was opened with a desk, with the numbers that it drew. One thread at a time draws with it.
///
/// A seat that is dropped is missing when its desk is closed.
#[derive(Drop)]
pub struct DeskSeat {
    pub(crate) seat: Seat<(), View>,
    pub(crate) drawn: Vec<usize>,
    pub(crate) numbers: usize,
    ghost same: { seat.me.0.draws ≡ drawn.items },
    ghost one_place: { seat.me.0.places ≡ 1 },
    ghost no_slot: { seat.me.1 ≡ [] },
    ghost room: { numbers < vec_capacity drawn },
    ghost seen_above: { past_greatest drawn.items ≤ seat.me.0.seen },
    ghost rising: { length drawn.items ≤ past_greatest drawn.items },
    ghost last_is_top: { past_greatest drawn.items ≡ past_last drawn.items },
    ghost front_below: { past_greatest (all_but_last drawn.items) ≤ numbers },
}

impl DeskSeat {
    ghost use Rattle.core_book.specs.Claims.{is_seat_finished};

    // Whether the seat met the end: then it draws no more.
    fn is_finished(&self) -> bool
        ensures { result ≡ is_seat_finished self.now.numbers self.now.drawn.items }
    {
        let count = self.drawn.len();
        count > 0 && self.drawn[count - 1] >= self.numbers
    }
}

impl Desk {
    ghost use Rattle.job_pool.specs.Rule.{seat_view};
    ghost use Rattle.job_pool.specs.Seats.{IsClaimOfSeat, IsNewSeatOf, IsSeatOf, IsAnswerToClaim, drawn_by, number_count_of, seat_count_of, seen_by};

    /// Opens a desk for the numbers below `numbers`, and its seats. It takes all memory that they need.
    pub fn open(
        alloc: Global,
        numbers: usize,
        seats: usize,
    ) -> Result<(Desk, Vec<DeskSeat>), AllocError>
        requires { (numbers ≤ max_modules) × (0 < seats) × (seats ≤ 64) }
        ensures desk { IfOk result (λ o. (number_count_of o.0 ≡ numbers)
            × (seat_count_of o.0 ≡ seats)) }
        ensures count { IfOk result (λ o. vec_len o.1 ≡ seats) }
        ensures seats { IfOk result (λ o. All (IsNewSeatOf o.0) o.1.items) }
    {
        let size = DeskSize {
            numbers: numbers as u64,
            seats: seats as u64,
        };
        let (table, whole) = Table::<(), View, DeskSize, DeskRule, Global>::of_words(
            alloc,
            &[0],
            &size,
        )?;
        let desk = Desk {
            table,
            numbers,
            seats,
        };
        let opened = desk.cut_into_seats(alloc, whole)?;
        Ok((desk, opened))
    }

    // Cuts one place off for each seat, which has room for all numbers and for the draw that tells it that there are no
    // more.
    fn cut_into_seats(
        &self,
        alloc: Global,
        mut rest: Seat<(), View>,
    ) -> Result<Vec<DeskSeat>, AllocError>
        requires { (rest.table_id ≡ self.now.table.shared.table_id)
            × (rest.me.0 ≡ seat_view [] 0 (seat_count_of self.now)) }
        ensures count { IfOk result (λ v. vec_len v ≡ seat_count_of self.now) }
        ensures each { IfOk result (λ v. All (IsNewSeatOf self.now) v.items) }
    {
        let mut opened = Vec::with_capacity(alloc, self.seats)?;
        for _ in 0..self.seats {
            let drawn = Vec::with_capacity(alloc, self.numbers + 1)?;
            let seat = self.table.shared.split_seat::<SplitOrJoinStep>(&mut rest);
            opened.push_reserved(DeskSeat {
                seat,
                drawn,
                numbers: self.numbers,
            });
        }
        Ok(opened)
    }

    /// Draws the next number for a seat, by one atomic step, which neither waits nor takes memory.
    ///
    /// It answers `Empty` if all numbers were drawn, by whatever seats. A seat that met `Empty` draws no more.
    pub fn claim(&self, seat: &mut DeskSeat) -> Claim
        requires { IsSeatOf self.now seat.old }
        ensures seat { IsSeatOf self.now seat.new }
        ensures claim { IsClaimOfSeat (number_count_of self.now) seat.old seat.new result }
        ensures answer { IsAnswerToClaim (number_count_of self.now) seat.old seat.new result }
        ensures seen { seen_by seat.old ≤ seen_by seat.new }
    {
        if seat.is_finished() {
            return Claim::Empty;
        }
        let found = self
            .table
            .shared
            .fetch_add::<ClaimStep>(&mut seat.seat, 0, 1) as usize;
        seat.drawn.push_reserved(found);
        if found < self.numbers {
            Claim::Number(found)
        } else {
            Claim::Empty
        }
    }

    /// Returns how many numbers are left, by one look at the word, which neither waits nor takes memory.
    ///
    /// A later answer to the same seat is never greater.
    pub fn left(&self, seat: &mut DeskSeat) -> usize
        requires { IsSeatOf self.now seat.old }
        ensures seat { IsSeatOf self.now seat.new }
        ensures left { result ≡ number_count_of self.now - seen_by seat.new }
        ensures falls { result ≤ number_count_of self.now - seen_by seat.old }
        ensures seen { seen_by seat.old ≤ seen_by seat.new }
        ensures draws { drawn_by seat.new ≡ drawn_by seat.old }
    {
        let found = self.table.shared.load::<LookStep>(&mut seat.seat, 0) as usize;
        self.numbers.saturating_sub(found)
    }
}
