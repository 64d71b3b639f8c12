//! The cells of ring and halo of which a module's lines say something at a time.

ghost use Rattle.module_job.specs.Jobs.{IsJob};
ghost use Rattle.module_job.specs.Shapes.{shape_of};
ghost use Rattle.module_box.specs.Moments.{moment_cmp};
ghost use Rattle.module_box.specs.Schedules.{IsRising, all_times_at, event_at, moment_of, signal_at};
ghost use Rattle.local_run.specs.Quiet.{AreStarredCellMarks, AreStarredCellsMarked, AreLineMarks, box_at_origin, HasRoomForBoxAndHaloMarks, HasBothCellMarks, AreUnmarkedSignalsZero, TakesNoMarkOff};
ghost use Rattle.local_run.specs.Leaps.{AreEventsLaterFrom};
ghost use Rattle.local_run.specs.Places.{halo_coord};
ghost use Rattle.local_run.specs.Steady.{AreEventMarks, AreUnmarkedSignalsSteady, HasRoomForNumberMarks, IsCellNumberMarked, IsNumberOfCell, IsOutsideBoxAndHalo};
ghost use Rattle.std.specs.Prelude.{ℕ, nat_lt, true, ◌||◌, ◌≢◌, MatchOption, ◌≡◌, ◌<◌, ◌+◌, ◌*◌, ◌/◌, ◌%◌, ◌≤◌, length, vec_len, slice_get, Some, IfOk, IfSome};
ghost use Rattle.std.specs.Int.{div_ceil};
ghost use Rattle.lemmas.specs.Bounds.{max_side, max_steps};

use crate::leaps::{first_event_place_from, valid_start_place};
use bbm_rule::Cell;
use bbm_rule::marks::mark;
use module_box::{AllTimesSignal, Box2, Moment, Schedule, Signal, TimedSignal};
use module_job::{Job, Shape};
use std::alloc::{AllocError, Global};

// The column or row of a coordinate, counted from the halo of a span of `count` numbers, if it is there.
#[tactic(auto, unfolding(crate::specs::Places::halo_coord))]
fn number_from_halo(coordinate: i32, first: u32, count: u32) -> Option<usize>
    requires { (first ≤ max_side) × (count ≤ 64) }
    ensures { MatchOption result ((k : ℕ) → k < count + 2 → coordinate ≢ halo_coord first k)
        (λ k. (k < count + 2) × (coordinate ≡ halo_coord first k)) }
{
    let before = first as i32 - 1;
    if coordinate < before || before + count as i32 + 1 < coordinate {
        return None;
    }
    Some((coordinate - before) as usize)
}

/// Returns the number of a cell's own mark. `number` is the number of the cell in its plane, and each plane has `cells`
/// cells.
#[inline(always)]
#[tactic(auto, using(crate::proofs::QuietLemmas::part_within))]
pub fn cell_line_mark_number(number: usize, cells: usize, x: usize, y: usize) -> usize
    requires { (number < cells) × (cells ≤ 4096) }
    ensures number { result ≡ number + cells * (1 + 2 * (y % 2) + x % 2) }
    ensures range { result < 5 * cells }
{
    number + cells * (1 + 2 * (y % 2) + x % 2)
}

// Marks the cell, if it is in the box or its halo: a mark for its number in the planes, and one of its own. Returns
// this number.
fn mark_cell(marks: &mut [u64], area: Box2, cell: Cell) -> Option<usize>
    requires { HasRoomForBoxAndHaloMarks area marks.old }
    ensures marks_kept { TakesNoMarkOff marks.old marks.new }
    ensures marked { HasBothCellMarks area cell marks.new }
    ensures number { MatchOption result (IsOutsideBoxAndHalo area cell)
        (λ u. (u < (area.w / 2 + 1) * (area.h / 2 + 1)) × IsNumberOfCell area cell u) }
{
    let Some(x) = number_from_halo(cell.x, area.x, area.w) else {
        return None;
    };
    let Some(y) = number_from_halo(cell.y, area.y, area.h) else {
        return None;
    };
    let stride = area.w as usize / 2 + 1;
    let number = stride * (y / 2) + x / 2;
    mark(marks, number);
    let cells = stride * (area.h as usize / 2 + 1);
    mark(marks, cell_line_mark_number(number, cells, x, y));
    Some(number)
}

// Marks the cell of an event, as `mark_cell` does, and its number among those of events.
#[tactic(auto, using(crate::proofs::Steady::number_marked, crate::proofs::Steady::outside_marked))]
fn mark_event_cell(marks: &mut [u64], numbers: &mut [u64], area: Box2, cell: Cell)
    requires room_for_marks { HasRoomForBoxAndHaloMarks area marks.old }
    requires room_for_numbers { HasRoomForNumberMarks area numbers.old }
    ensures marks_kept { TakesNoMarkOff marks.old marks.new }
    ensures marked { HasBothCellMarks area cell marks.new }
    ensures numbers_kept { TakesNoMarkOff numbers.old numbers.new }
    ensures number_marked { IsCellNumberMarked area cell numbers.new }
{
    if let Some(number) = mark_cell(marks, area, cell) {
        mark(numbers, number);
    }
}

// Marks the cells of signals at all times.
fn mark_starred_cells(marks: &mut [u64], area: Box2, list: &[AllTimesSignal])
    requires { HasRoomForBoxAndHaloMarks area marks.old }
    ensures marks_kept { TakesNoMarkOff marks.old marks.new }
    ensures marked { (i : ℕ) (h : AllTimesSignal) → slice_get list.now i ≡ Some h →
        HasBothCellMarks area h.cell marks.new }
{
    for all_times in list {
        mark_cell(marks, area, all_times.cell);
    }
}

// Marks the cells of the events from place `first` up to place `end`, and their numbers.
fn mark_events(
    marks: &mut [u64],
    numbers: &mut [u64],
    area: Box2,
    list: &[TimedSignal],
    first: usize,
    end: usize,
)
    requires room_for_marks { HasRoomForBoxAndHaloMarks area marks.old }
    requires room_for_numbers { HasRoomForNumberMarks area numbers.old }
    requires range { end ≤ length list.now }
    ensures marks_kept { TakesNoMarkOff marks.old marks.new }
    ensures marked { (i : ℕ) (e : TimedSignal) → first ≤ i → i < end →
        slice_get list.now i ≡ Some e → HasBothCellMarks area e.at.cell marks.new }
    ensures numbers_kept { TakesNoMarkOff numbers.old numbers.new }
    ensures numbers_marked { (i : ℕ) (e : TimedSignal) → first ≤ i → i < end →
        slice_get list.now i ≡ Some e → IsCellNumberMarked area e.at.cell numbers.new }
{
    for k in first..end {
        mark_event_cell(marks, numbers, area, list[k].at.cell);
    }
}

// Whether all events from a place on are later than a time.
#[inline(always)]
fn are_events_later_from(events: &[TimedSignal], place: usize, time: u32) -> bool
    requires { IsRising moment_cmp moment_of events.now }
    ensures { result ≡ true → AreEventsLaterFrom events.now place time }
{
    if place < events.len() {
        return time < events[place].at.time;
    }
    true
}

// Marks the cells of the events of a time, which are sought from a place on, and their numbers. Returns their places.
//
// At most times no line begins or ends, which two looks show.
#[inline(always)]
#[tactic(auto, using(crate::proofs::QuietLemmas::events_between, crate::proofs::QuietLemmas::events_nowhere))]
fn mark_events_at(
    marks: &mut [u64],
    numbers: &mut [u64],
    area: Box2,
    list: &[TimedSignal],
    place: usize,
    time: u32,
) -> EventPlaces
    requires room_for_marks { HasRoomForBoxAndHaloMarks area marks.old }
    requires room_for_numbers { HasRoomForNumberMarks area numbers.old }
    requires rising_moments { IsRising moment_cmp moment_of list.now }
    requires range { time < max_steps }
    ensures marks_kept { TakesNoMarkOff marks.old marks.new }
    ensures marked { (i : ℕ) (e : TimedSignal) → slice_get list.now i ≡ Some e → e.at.time ≡ time →
        HasBothCellMarks area e.at.cell marks.new }
    ensures numbers_kept { TakesNoMarkOff numbers.old numbers.new }
    ensures numbers_marked { (i : ℕ) (e : TimedSignal) → slice_get list.now i ≡ Some e →
        e.at.time ≡ time → IsCellNumberMarked area e.at.cell numbers.new }
{
    let start = valid_start_place(list, place, time);
    if are_events_later_from(list, start, time) {
        return EventPlaces {
            first: start,
            end: start,
        };
    }
    let first = first_event_place_from(list, start, time);
    let end = first_event_place_from(list, first, time + 1);
    mark_events(marks, numbers, area, list, first, end);
    EventPlaces { first, end }
}

// Marks the cells of which a schedule says something at the time, where those of its signals at all times have marks,
// and the numbers of its events. These are sought from a place on. Returns their places.
#[inline(always)]
fn mark_schedule(
    marks: &mut [u64],
    numbers: &mut [u64],
    area: Box2,
    schedule: &Schedule,
    place: usize,
    time: u32,
) -> EventPlaces
    requires room_for_marks { HasRoomForBoxAndHaloMarks area marks.old }
    requires room_for_numbers { HasRoomForNumberMarks area numbers.old }
    requires range { time < max_steps }
    requires all_times { AreStarredCellsMarked schedule.now area marks.old }
    ensures marks_kept { TakesNoMarkOff marks.old marks.new }
    ensures unmarked_cells_zero { AreUnmarkedSignalsZero schedule.now area time marks.new }
    ensures numbers_kept { TakesNoMarkOff numbers.old numbers.new }
    ensures unmarked_numbers_steady { AreUnmarkedSignalsSteady schedule.now area time numbers.new }
{
    mark_events_at(marks, numbers, area, schedule.events(), place, time)
}

// The box of a shape, with its corner at (0, 0).
fn box_at_origin_of(shape: &Shape) -> Box2
    ensures { result ≡ box_at_origin shape.now }
{
    Box2 {
        x: 0,
        y: 0,
        w: shape.width(),
        h: shape.height(),
    }
}

/// The places of the events of one time in a list of events: from `first` up to before `end`.
///
/// They may be any: a search only begins there.
#[derive(Clone, Copy)]
pub struct EventPlaces {
    first: usize,
    end: usize,
}

impl EventPlaces {
    /// No place.
    pub const NO_PLACES: EventPlaces = EventPlaces { first: 0, end: 0 };
}

/// The places of the edge and halo lines of the time that was looked at last.
#[derive(Clone, Copy)]
pub struct LinePlaces {
    /// Those of the edge lines.
    pub edges: EventPlaces,
    /// Those of the halo lines.
    pub halos: EventPlaces,
}

impl LinePlaces {
    /// Returns whether there is any.
    pub fn has_any(&self) -> bool
        ensures { result ≡ (nat_lt self.now.edges.first self.now.edges.end
            || nat_lt self.now.halos.first self.now.halos.end) }
    {
        self.edges.first < self.edges.end || self.halos.first < self.halos.end
    }
}

// The most lines among which a cell's is sought one by one.
const MAX_NEAR_LINES: usize = 8;

// The signal of the event of a moment, if it is among the events at a few places.
fn signal_of_event_near(events: &[TimedSignal], moment: Moment, near: EventPlaces) -> Option<Signal>
    requires { IsRising moment_cmp moment_of events.now }
    ensures { IfSome result
        (λ s. event_at events.now moment.time moment.cell.x moment.cell.y ≡ Some s) }
{
    if near.end > near.first.saturating_add(MAX_NEAR_LINES) {
        return None;
    }
    for k in near.first..near.end.min(events.len()) {
        let event = events[k];
        if event.at == moment {
            return Some(event.signal);
        }
    }
    None
}

// The signal that a cell has at all times, which is sought one by one.
#[tactic(auto, using(crate::proofs::LeapLemmas::all_times_nowhere))]
fn find_all_times_signal(all_times: &[AllTimesSignal], cell: Cell) -> Option<Signal>
    ensures { result ≡ all_times_at all_times.now cell.x cell.y }
{
    for k in 0..all_times.len() {
        let found = all_times[k];
        if found.cell == cell {
            return Some(found.signal);
        }
    }
    None
}

/// Returns the signal of a cell at a time, as [`Schedule::at`] does. It looks first at the signals at all times, if
/// they are few, and then at the events at a few places.
#[tactic(auto, using(crate::proofs::LeapLemmas::steady_there, crate::proofs::LeapLemmas::signal_there))]
pub fn signal_at_moment(schedule: &Schedule, moment: Moment, near: EventPlaces) -> Signal
    ensures { result ≡ signal_at schedule.now moment.time moment.cell.x moment.cell.y }
{
    let all_times = schedule.all_times();
    if all_times.len() <= MAX_NEAR_LINES {
        if let Some(signal) = find_all_times_signal(all_times, moment.cell) {
            return signal;
        }
        if let Some(signal) = signal_of_event_near(schedule.events(), moment, near) {
            return signal;
        }
    }
    schedule.at(moment.time, moment.cell)
}

/// Marks the cells of which an edge or halo line says something at the time, and the numbers of those of which it says
/// this of the time alone.
///
/// The cells of which a line says something at all times have marks before.
#[tactic(auto, using(crate::proofs::QuietLemmas::still_quiet, crate::proofs::QuietLemmas::quiet_moved, crate::proofs::Steady::event_marks_of, crate::proofs::Steady::line_marks_of))]
pub fn mark_lines(
    marks: &mut [u64],
    numbers: &mut [u64],
    places: &mut LinePlaces,
    job: &Job,
    time: u32,
)
    requires all_times { AreStarredCellMarks (shape_of job.now) marks.old }
    requires room_for_numbers { HasRoomForNumberMarks job.now.area numbers.old }
    requires range { time < max_steps }
    ensures marks_kept { TakesNoMarkOff marks.old marks.new }
    ensures lines { AreLineMarks job.now time marks.new }
    ensures events { AreEventMarks job.now time numbers.new }
{
    let shape: &Shape = job.shape();
    let area = box_at_origin_of(shape);
    let edges = places.edges.end;
    places.edges = mark_schedule(marks, numbers, area, shape.edges(), edges, time);
    let halos = places.halos.end;
    places.halos = mark_schedule(marks, numbers, area, shape.halos(), halos, time);
}

// Marks the cells of which an edge or halo line says something at all times.
fn mark_stars_of_shape(marks: &mut [u64], shape: &Shape)
    requires { HasRoomForBoxAndHaloMarks (box_at_origin shape.now) marks.old }
    ensures marks_kept { TakesNoMarkOff marks.old marks.new }
    ensures edges { AreStarredCellsMarked shape.now.edges (box_at_origin shape.now) marks.new }
    ensures halos { AreStarredCellsMarked shape.now.halos (box_at_origin shape.now) marks.new }
{
    let area = box_at_origin_of(shape);
    mark_starred_cells(marks, area, shape.edges().all_times());
    mark_starred_cells(marks, area, shape.halos().all_times());
}

/// Returns how many words the marks on the numbers in a plane take.
pub fn number_mark_word_count(job: &Job) -> usize
    requires { IsJob job.now }
    ensures { result ≡ div_ceil ((job.now.area.w / 2 + 1) * (job.now.area.h / 2 + 1)) 64 }
{
    let area = job.area();
    ((area.w as usize / 2 + 1) * (area.h as usize / 2 + 1)).div_ceil(64)
}

/// Marks the cells of which an edge or halo line says something at all times, and their numbers in the planes.
pub fn marks_of_starred_cells(alloc: Global, job: &Job) -> Result<Vec<u64>, AllocError>
    requires { IsJob job.now }
    ensures marks { IfOk result (λ m. AreStarredCellMarks (shape_of job.now) m.items) }
    ensures count { IfOk result (λ m. vec_len m
        ≡ 5 * div_ceil ((job.now.area.w / 2 + 1) * (job.now.area.h / 2 + 1)) 64) }
{
    let mut marks = vec![in alloc; 0u64; 5 * number_mark_word_count(job)]?;
    mark_stars_of_shape(&mut marks, job.shape());
    Ok(marks)
}
