//! Cells around the box of a module, and the events of another module's ring at such cells.
//!
//! The cells of that ring are counted from the corner of its own box.
ghost use Rattle.std.specs.Prelude.{pos, ◌+◌, ◌≤◌, ◌+ℤ◌, ◌≤ℤ◌, ◌-◌, ◌≡◌, ◌<◌, length, IsTrue, IfNone, IfSome};
ghost use Rattle.module_box.specs.Moments.{moment_cmp};
ghost use Rattle.module_box.specs.Moves.{moved_cell};
ghost use Rattle.module_box.specs.Schedules.{IsRising, moment_of};
ghost use Rattle.border_match.specs.Boards.{IsEventPlaceOf};
ghost use Rattle.border_match.specs.Surroundings.{HasNoWindowEventBetween, IsInOrAroundFromCorner, IsEventOutsideWindow, IsExtentOfEvents, IsFirstEventNotBefore};
ghost use Rattle.lemmas.specs.Bounds.{max_side};

use crate::window::Window;
use bbm_rule::Cell;
use module_box::{Box2, Moment, TimedSignal};
use std::cmp::Ordering;

// How many far events in a row the search looks at before it leaps, as long as its leaps are long.
const MIN_LOOKS_BEFORE_LEAP: usize = 4;

// The most of them. After each short leap the search waits twice as long.
const MAX_LOOKS_BEFORE_LEAP: usize = 64;

// How many places a long leap goes at least. A leap takes as long as a look at six events.
const MIN_LONG_LEAP: usize = 8;

/// A search's plan of leaps over events at far cells. It decides the time of the search and not its result.
#[derive(Clone, Copy)]
pub(crate) struct LeapPlan {
    // How many far events in a row the search looks at before a leap.
    wait: usize,
    // How many places the last leap went, and the one before it. Most times have the same lines, and one or two leaps
    // over them, so the next leap probably goes as many as the one before the last.
    length: usize,
    length_before: usize,
}

impl LeapPlan {
    /// Returns the state of a search at the first event.
    pub(crate) fn new() -> LeapPlan
        ensures wait { result.wait ≡ MIN_LOOKS_BEFORE_LEAP }
        ensures length { result.length ≡ 0 }
        ensures length_before { result.length_before ≡ 0 }
    {
        LeapPlan {
            wait: MIN_LOOKS_BEFORE_LEAP,
            length: 0,
            length_before: 0,
        }
    }

    // Returns the last place that a leap from a place passes if it is as long as the one before the last.
    fn last_place_of_leap(self, place: usize) -> usize
        ensures { place + self.length_before < usize.MAX →
            result ≡ place + self.length_before - 1 }
    {
        place.saturating_add(self.length_before).saturating_sub(1)
    }

    // Returns how long to wait after a leap of this length.
    fn looks_before_leap(self, length: usize) -> usize
        ensures most { result ≤ MAX_LOOKS_BEFORE_LEAP }
        ensures min_if_leap_long { MIN_LONG_LEAP ≤ length → result ≡ MIN_LOOKS_BEFORE_LEAP }
    {
        if length < MIN_LONG_LEAP {
            self.wait.saturating_mul(2).min(MAX_LOOKS_BEFORE_LEAP)
        } else {
            MIN_LOOKS_BEFORE_LEAP
        }
    }

    // Returns the state behind a leap.
    fn after_leap(self, place: usize, next: usize) -> LeapPlan
        requires { place ≤ next }
        ensures wait { result.wait ≤ MAX_LOOKS_BEFORE_LEAP }
        ensures length { result.length ≡ next - place }
        ensures length_before { result.length_before ≡ self.length }
    {
        let length = next - place;
        LeapPlan {
            wait: self.looks_before_leap(length),
            length,
            length_before: self.length,
        }
    }
}

// Returns whether `z`, counted from a corner, is one of the `n` numbers from `from` on or next to one of them.
fn is_in_or_next_to(from: u32, n: u32, corner: u32, z: i32) -> bool
    ensures true_if_next_to { let at = z +ℤ pos corner in
        pos from ≤ℤ (at +ℤ pos 1) → at ≤ℤ pos (from + n) → IsTrue result }
    ensures bounds { let at = z +ℤ pos corner in
        IsTrue result → (pos from ≤ℤ (at +ℤ pos 1)) × (at ≤ℤ pos (from + n)) }
{
    let at = z as i64 + corner as i64;
    if at + 1 < from as i64 {
        return false;
    }
    if at > from as i64 + n as i64 {
        return false;
    }
    true
}

// Returns whether a cell, counted from the corner of another box, is in the columns and rows of the area or next to
// them.
fn is_in_or_around_box(area: Box2, corner: Box2, cell: Cell) -> bool
    ensures true_if_around { IsInOrAroundFromCorner area corner cell → IsTrue result }
    ensures bounds { IsTrue result → IsInOrAroundFromCorner area corner cell }
{
    if !is_in_or_next_to(area.x, area.w, corner.x, cell.x) {
        return false;
    }
    is_in_or_next_to(area.y, area.h, corner.y, cell.y)
}

// Returns a cell that is counted from the corner of another box, counted from that of the plane. It returns `None` if
// the cell is not in the columns and rows of the area or next to them.
pub(crate) fn plane_cell_if_near(area: Box2, corner: Box2, cell: Cell) -> Option<Cell>
    requires area { (area.x + area.w ≤ max_side) × (area.y + area.h ≤ max_side) }
    requires corner { (corner.x ≤ max_side) × (corner.y ≤ max_side) }
    ensures cell_moved { IfSome result (λ c. c
        ≡ moved_cell (pos corner.x) (pos corner.y) cell) }
    ensures far_if_none { IfNone result (¬ IsInOrAroundFromCorner area corner cell) }
{
    if !is_in_or_around_box(area, corner, cell) {
        return None;
    }
    Some(Cell {
        x: cell.x + corner.x as i32,
        y: cell.y + corner.y as i32,
    })
}

/// Returns the place of the first event from `from` on that is not before a moment.
///
/// It looks first at the place `guess`, then at places ever further behind, and then between the last two.
#[tactic(auto, using(crate::proofs::FarEvents::not_less, crate::proofs::FarEvents::passed_to, crate::proofs::FarEvents::rest_from, crate::proofs::FarEvents::rest_none))]
pub(crate) fn find_first_event_not_before(
    events: &[TimedSignal],
    from: usize,
    guess: usize,
    at: Moment,
) -> usize
    requires start_within_events { from ≤ length events.now }
    requires rising_moments { IsRising moment_cmp moment_of events.now }
    ensures { IsFirstEventNotBefore events.now from at result }
{
    let mut low = from;
    let mut high = guess.max(from).min(events.len());
    let mut jump: usize = 0;
    'jumps: while high < events.len() {
        match events[high].at.compare(at) {
            Ordering::Less => {
                low = high + 1;
                high = low + jump.min(events.len() - low);
                jump = jump.saturating_mul(2).saturating_add(1);
            }
            _ => break,
        }
    }
    while low < high {
        let middle = low + (high - low) / 2;
        match events[middle].at.compare(at) {
            Ordering::Less => low = middle + 1,
            _ => high = middle,
        }
    }
    low
}

// Returns the place behind a leap over the events that cannot be at a cell of the window.
#[inline(never)]
fn leap(window: &Window, events: &[TimedSignal], place: usize, leaps: &mut LeapPlan) -> usize
    requires place_within_events { place < length events.now }
    requires rising_moments { IsRising moment_cmp moment_of events.now }
    requires event_far { IsEventOutsideWindow window.now events.now place }
    ensures place_moves_on { place < result }
    ensures passed_events_far { HasNoWindowEventBetween window.now events.now place result }
{
    let target = window.next_moment_near(events[place].at);
    let next = find_first_event_not_before(
        events,
        place + 1,
        leaps.last_place_of_leap(place),
        target,
    );
    *leaps = leaps.after_leap(place, next);
    next
}

/// Returns the first place from `from` on of an event at a cell of the window, or the end of the list. It may pass over
/// events at even times.
#[inline(always)]
pub(crate) fn next_near_event_place(
    window: &Window,
    events: &[TimedSignal],
    from: usize,
    leaps: &mut LeapPlan,
) -> usize
    requires rising_moments { IsRising moment_cmp moment_of events.now }
    ensures place_moves_on { from ≤ result }
    ensures passed_events_far { HasNoWindowEventBetween window.now events.now from result }
{
    let mut place = from;
    while place < events.len() {
        let begin = place;
        let end = begin + leaps.wait.min(events.len() - begin - 1) + 1;
        while place < end {
            if window.holds(events[place].at.cell) {
                return place;
            }
            place += 1;
        }
        place = leap(window, events, place - 1, leaps);
    }
    place
}

/// Returns the first place of an event at a cell of the window, as [`next_near_event_place`] does, where the cells of
/// all events are in the columns and rows of `extent`.
pub(crate) fn first_near_event_place(
    window: &Window,
    extent: &Window,
    events: &[TimedSignal],
    leaps: &mut LeapPlan,
) -> usize
    requires rising_moments { IsRising moment_cmp moment_of events.now }
    requires extent { IsExtentOfEvents events.now extent.now }
    ensures { HasNoWindowEventBetween window.now events.now 0 result }
{
    if extent.misses(*window) {
        return events.len();
    }
    next_near_event_place(window, events, 0, leaps)
}

// Returns whether the event at a place is at a moment.
#[inline(always)]
fn is_event_at(events: &[TimedSignal], place: usize, at: Moment) -> bool
    ensures { IsTrue result → IsEventPlaceOf events.now at place }
{
    if place >= events.len() {
        return false;
    }
    events[place].at == at
}

/// A walk along the events of a list, in their order.
#[derive(Clone, Copy)]
pub(crate) struct EventWalk {
    // The place behind the last event that was found.
    next: usize,
    // How many events the last long step passed over. Most times have the same lines, so the next one probably passes
    // over as many.
    passed: usize,
}

impl EventWalk {
    /// Returns the walk before its first step.
    pub(crate) fn new() -> EventWalk
        ensures next { result.next ≡ 0 }
        ensures passed { result.passed ≡ 0 }
    {
        EventWalk { next: 0, passed: 0 }
    }

    /// Goes behind the event at a place.
    #[inline(always)]
    pub(crate) fn pass(&mut self, place: usize)
        ensures next { place < usize.MAX → self.new.next ≡ place + 1 }
        ensures passed { self.new.passed ≡ self.old.passed }
    {
        self.next = place.saturating_add(1);
    }
}

// Returns the place of the event at a moment, or `None` if the search along the walk meets none.
#[inline(never)]
fn search_event_place(events: &[TimedSignal], walk: &mut EventWalk, at: Moment) -> Option<usize>
    requires { IsRising moment_cmp moment_of events.now }
    ensures found { IfSome result (IsEventPlaceOf events.now at) }
    ensures passed { IfSome result (λ place. walk.new.passed ≡ place - walk.old.next) }
{
    let start = walk.next.min(events.len());
    let guess = start.saturating_add(walk.passed).saturating_sub(1);
    let place = find_first_event_not_before(events, start, guess, at);
    if is_event_at(events, place, at) {
        walk.passed = place.saturating_sub(walk.next);
        return Some(place);
    }
    None
}

/// Returns the place of the event at a moment, or `None` if the search along the walk meets none.
// Most often it is the next event or the one behind it, since modules on two sides of a third take turns. Else it is
// probably as far away as the last one that was searched for.
#[inline(always)]
pub(crate) fn find_event_place(
    events: &[TimedSignal],
    walk: &mut EventWalk,
    at: Moment,
) -> Option<usize>
    requires { IsRising moment_cmp moment_of events.now }
    ensures { IfSome result (IsEventPlaceOf events.now at) }
{
    if is_event_at(events, walk.next, at) {
        return Some(walk.next);
    }
    let second = walk.next.saturating_add(1);
    if is_event_at(events, second, at) {
        return Some(second);
    }
    let probable = walk.next.saturating_add(walk.passed);
    if is_event_at(events, probable, at) {
        return Some(probable);
    }
    search_event_place(events, walk, at)
}
