//! The core: seats that draw numbers, and a book.
ghost use Rattle.std.specs.Prelude.{◌≡◌, ◌<◌, ◌≤◌, ◌^◌, IfErr, IfOk, OnErr, OnOk, [], length, map, replicate, vec_len};
ghost use Rattle.std.specs.Arc.{arc_value};
ghost use Rattle.core_book.specs.Claims.{claim_answer, draws_after_claim, next_unless_seat_finished, claim_answer_of_draw, is_seat_finished};
ghost use Rattle.core_book.specs.CoreView.{lists_of};
ghost use Rattle.lemmas.specs.Bounds.{max_draws, max_modules};

use crate::book::{BookState, NotFiled};
use crate::claim::Claim;
use crate::reply::Reply;
use certificate::Job;
use local_run::Finding;
use std::alloc::{AllocError, Global};
use std::marker::Model;
use std::sync::Arc;

/// An event of the core.
#[derive(Drop)]
pub enum Event {
    /// The seat of this number claims the next number.
    Claim(usize),
    /// A finding is filed.
    File(Finding),
    /// A number that was drawn is never filed.
    Lose(usize),
}

/// The answer to an event.
#[derive(Clone, Copy, Debug, PartialEq, Eq)]
pub enum Answer {
    /// The claim drew this number.
    Number(usize),
    /// The claim drew none of the numbers: all were drawn.
    Empty,
    /// The book's reply to a filing.
    Reply(Reply),
    /// A number was lost.
    Lost,
}

/// The event that could not be applied, since the core was out of memory.
#[derive(Drop)]
pub struct NotApplied {
    pub event: Event,
}

/// The next number, the numbers that each seat drew, and a book. Contracts see it as a `CoreView`.
///
/// By its type each number below the next was drawn by one seat, once, and no other by any.
#[derive(Drop)]
pub struct Core {
    next: usize,
    draws: Vec<Vec<usize>>,
    book: BookState,
}

impl Model for Core {
    ghost use Rattle.core_book.specs.Core.{CoreView};

    ghost Value = { CoreView };

    ghost use Rattle.local_run.specs.contracts.finding.Finding as finding;
    ghost use Rattle.std.specs.Coded.{codes};

    ghost coded = { Prim.hlevel (codes, finding.the_row.coded) };

    ghost use Rattle.core_book.specs.CoreView.{AreCoreFields, core_view};

    ghost view = { core_view };

    ghost invariant = { AreCoreFields };
}

impl Core {
    ghost use Rattle.core_book.specs.Draws.{IsEachNumberDrawnOnce};
    ghost use Rattle.core_book.specs.Core.{HasSeatBelow, after_claim, after_event, answer_to, claim_answer_of_seat, draws_of, new_core};

    /// Creates a core of these jobs, numbered from 0 in their order, and of seats that have drawn nothing.
    ///
    /// There are at most 65,536 jobs, and 1 to 64 seats.
    pub fn new(
        alloc: Global,
        digest: [u8; 32],
        jobs: Vec<Arc<Job>>,
        seats: usize,
    ) -> Result<Core, AllocError>
        requires jobs { vec_len jobs ≤ max_modules }
        requires seats { (0 < seats) × (seats ≤ 64) }
        ensures { IfOk result (λ c. c ≡ new_core digest (map arc_value jobs.items) seats) }
    {
        let draws = empty_draw_lists(alloc, seats)?;
        let book = BookState::new(alloc, digest, jobs)?;
        Ok(Core {
            next: 0,
            draws,
            book,
        })
    }

    /// Applies an event. The seat of a claim is one of the core's.
    ///
    /// # Errors
    ///
    /// `NotApplied` if the core is out of memory. The core is then as before, and the event comes back.
    pub fn apply(&mut self, event: Event) -> Result<Answer, NotApplied>
        requires { HasSeatBelow (length self.old.draws) event }
        ensures answer { IfOk result (λ a. a ≡ answer_to self.old event) }
        ensures after { OnOk result (self.new ≡ after_event self.old event) }
        ensures unchanged { OnErr result (self.new ≡ self.old) }
        ensures returned { IfErr result (λ e. e.event ≡ event) }
    {
        match event {
            Event::Claim(seat) => match self.claim(seat) {
                Ok(Claim::Number(number)) => Ok(Answer::Number(number)),
                Ok(Claim::Empty) => Ok(Answer::Empty),
                Err(AllocError) => Err(NotApplied {
                    event: Event::Claim(seat),
                }),
            },
            Event::File(finding) => match self.file(finding) {
                Ok(reply) => Ok(Answer::Reply(reply)),
                Err(NotFiled { finding }) => Err(NotApplied {
                    event: Event::File(finding),
                }),
            },
            Event::Lose(_) => Ok(Answer::Lost),
        }
    }

    // A claim of this seat.
    fn claim(&mut self, seat: usize) -> Result<Claim, AllocError>
        requires { seat < length self.old.draws }
        ensures answer { IfOk result (λ a. a ≡ claim_answer_of_seat self.old seat) }
        ensures after { OnOk result (self.new ≡ after_claim self.old seat) }
        ensures unchanged { OnErr result (self.new ≡ self.old) }
    {
        let count = self.book.jobs().len();
        let Ok((claim, next)) = next_claim(&mut self.draws[seat], count, self.next) else {
            return Err(AllocError);
        };
        self.next = next;
        Ok(claim)
    }

    // A filing.
    fn file(&mut self, finding: Finding) -> Result<Reply, NotFiled>
        ensures reply { IfOk result (λ r. Answer.Reply r
            ≡ answer_to self.old (Event.File finding)) }
        ensures after { OnOk result (self.new ≡ after_event self.old (Event.File finding)) }
        ensures unchanged { OnErr result (self.new ≡ self.old) }
        ensures returned { IfErr result (λ e. e.finding ≡ finding) }
    {
        let reply = self.book.file(finding)?;
        Ok(reply)
    }

    /// Returns the next number: at most 65,600.
    pub fn next(&self) -> usize
        ensures value { result ≡ self.now.next }
        ensures at_most { result ≤ max_draws }
    {
        self.next
    }

    /// Returns how many seats there are.
    pub fn seats(&self) -> usize
        ensures { result ≡ length self.now.draws }
    {
        self.draws.len()
    }

    /// Returns the numbers that a seat drew, in their order.
    ///
    /// Over all seats these are the numbers below the next, each once.
    pub fn draws(&self, seat: usize) -> &[usize]
        requires { seat < length self.now.draws }
        ensures value { result.now ≡ draws_of self.now seat }
        ensures drawn_once { IsEachNumberDrawnOnce self.now.next self.now.draws }
    {
        let draws = &self.draws;
        draws[seat].as_slice()
    }

    /// Returns the book.
    pub fn book(&self) -> &BookState
        ensures { result.now ≡ self.now.book }
    {
        &self.book
    }
}

// One claim of a seat that drew these: what it gets, and the next number after it.
fn next_claim(
    drawn: &mut Vec<usize>,
    count: usize,
    next: usize,
) -> Result<(Claim, usize), AllocError>
    requires { next < 2 ^ 63 }
    ensures answer { IfOk result (λ r. r.0 ≡ claim_answer count drawn.old.items next) }
    ensures next { IfOk result (λ r. r.1 ≡ next_unless_seat_finished count drawn.old.items next) }
    ensures draws { OnOk result (drawn.new.items ≡ draws_after_claim count drawn.old.items next) }
    ensures unchanged { OnErr result (drawn.new.items ≡ drawn.old.items) }
{
    if is_seat_finished(drawn.as_slice(), count) {
        return Ok((Claim::Empty, next));
    }
    drawn.push(next)?;
    Ok((claim_answer_of_draw(next, count), next + 1))
}

// Whether the draws of a seat end with one that is past the numbers.
fn is_seat_finished(drawn: &[usize], count: usize) -> bool
    ensures { result ≡ is_seat_finished count drawn.now }
{
    match drawn.last() {
        Some(last) => *last >= count,
        None => false,
    }
}

// What a draw gets.
fn claim_answer_of_draw(draw: usize, count: usize) -> Claim
    ensures { result ≡ claim_answer_of_draw count draw }
{
    if draw < count {
        Claim::Number(draw)
    } else {
        Claim::Empty
    }
}

// As many seats that drew nothing.
fn empty_draw_lists(alloc: Global, seats: usize) -> Result<Vec<Vec<usize>>, AllocError>
    ensures { IfOk result (λ v. lists_of v.items ≡ replicate seats []) }
{
    let mut draws = Vec::with_capacity(alloc, seats)?;
    for _seat in 0..seats {
        draws.push(Vec::new(alloc))?;
    }
    Ok(draws)
}
