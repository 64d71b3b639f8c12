//! Times in which no edge or halo line of a job begins.

ghost use Rattle.std.specs.Prelude.{◌≡◌, ◌+◌, ◌<◌, ◌≤◌, ◌⊎◌, length};
ghost use Rattle.module_box.specs.Moments.{moment_cmp};
ghost use Rattle.module_box.specs.Schedules.{IsRising, moment_of};
ghost use Rattle.local_run.specs.Leaps.{HasNoEventsBetween, IsLeap, HasSameSignalsAtOddTimes, AreEventPlacesAroundTime};
ghost use Rattle.local_run.specs.Scans.{IsNextStop};
ghost use Rattle.lemmas.specs.Bounds.{max_steps};

use module_box::{Schedule, TimedSignal};
use module_job::{Job, Shape};

/// Returns the place of the first event at the time or after it, or how many events there are.
#[tactic(auto, using(crate::proofs::LeapLemmas::met))]
pub fn first_event_place(events: &[TimedSignal], time: u32) -> usize
    requires rising_moments { IsRising moment_cmp moment_of events.now }
    ensures range { result ≤ length events.now }
    ensures first { AreEventPlacesAroundTime events.now time result result }
{
    let mut low = 0;
    let mut high = events.len();
    while low < high {
        let middle = low + (high - low) / 2;
        if events[middle].at.time < time {
            low = middle + 1;
        } else {
            high = middle;
        }
    }
    low
}

/// Returns a place before which all events are earlier than the time: `place`, if it is one, or the first.
#[inline(always)]
#[tactic(auto, using(crate::proofs::LeapLemmas::any_place))]
pub fn valid_start_place(events: &[TimedSignal], place: usize, time: u32) -> usize
    requires rising_moments { IsRising moment_cmp moment_of events.now }
    ensures range { result ≤ length events.now }
    ensures start_is_valid { AreEventPlacesAroundTime events.now time result (length events.now) }
{
    if place == 0 || events.len() < place {
        return 0;
    }
    if events[place - 1].at.time < time {
        return place;
    }
    0
}

/// Returns the place of the first event at or after the time, as [`first_event_place`] does, by a search from a place
/// on. If the event is near it, a few looks are enough.
#[tactic(auto, using(crate::proofs::LeapLemmas::raise_time, crate::proofs::LeapLemmas::met))]
pub fn first_event_place_from(events: &[TimedSignal], place: usize, time: u32) -> usize
    requires rising_moments { IsRising moment_cmp moment_of events.now }
    ensures range { result ≤ length events.now }
    ensures first { AreEventPlacesAroundTime events.now time result result }
{
    let mut low = valid_start_place(events, place, time);
    let mut high = events.len();
    while low < high {
        if events[low].at.time < time {
            low += 1;
        } else {
            high = low;
        }
    }
    low
}

// The first time from `time` on at which there is an event, or `end`, whichever comes first.
#[tactic(auto, using(crate::proofs::LeapLemmas::above_at))]
fn next_event_time(events: &[TimedSignal], time: u32, end: u32) -> u32
    requires rising_moments { IsRising moment_cmp moment_of events.now }
    requires range { time ≤ end }
    ensures range { (time ≤ result) × (result ≤ end) }
    ensures no_event_passed { HasNoEventsBetween events.now time result }
{
    let first = first_event_place(events, time);
    if first < events.len() {
        let next = events[first].at.time;
        if next < end {
            return next;
        }
    }
    end
}

// A time, `end` at most, before which no event of the schedule stands from `time` on.
fn end_of_same_signals(schedule: &Schedule, time: u32, end: u32) -> u32
    requires { time ≤ end }
    ensures range { (time ≤ result) × (result ≤ end) }
    ensures signals_unchanged { HasSameSignalsAtOddTimes schedule.now time result }
{
    next_event_time(schedule.events(), time, end)
}

// A time, `end` at most, before which the signals of ring and halo at odd times from `time` on are those at `time`.
fn end_of_quiet_times(job: &Job, time: u32, end: u32) -> u32
    requires { time ≤ end }
    ensures range { (time ≤ result) × (result ≤ end) }
    ensures edges { HasSameSignalsAtOddTimes job.now.edges time result }
    ensures halos { HasSameSignalsAtOddTimes job.now.halos time result }
{
    job.prove_valid();
    let shape: &Shape = job.shape();
    let edges = end_of_same_signals(shape.edges(), time, end);
    end_of_same_signals(shape.halos(), time, edges)
}

// A time, `end` at most, before which there is no stop from `time` on, where `next` is the place of the first one.
fn next_stop_time(job: &Job, next: usize, time: u32, end: u32) -> u32
    requires next { IsNextStop job.now time next }
    requires range { time ≤ end }
    ensures range { (time ≤ result) × (result ≤ end) }
    ensures next { IsNextStop job.now result next }
{
    job.prove_valid();
    if next < job.stops() {
        let first = job.stop(next).at.time;
        if first < end {
            return first;
        }
    }
    end
}

/// Returns the time that comes next in a run. `next` is the place of the first stop after `time`.
///
/// It is the time after `time`, unless an odd step and the even one at `time` changed nothing. It is then a later time,
/// `steps` at most and no later than that stop. Before it the signals of ring and halo at odd times stay as they were
/// at the odd step.
pub fn next_time(job: &Job, time: u32, steps: u32, changed: bool, next: usize) -> u32
    requires range { (time < steps) × (steps ≤ max_steps) }
    requires next { IsNextStop job.now (time + 1) next }
    ensures range { (time < result) × (result ≤ steps) }
    ensures leap { (result ≡ time + 1) ⊎ IsLeap job.now time changed result }
    ensures next { IsNextStop job.now result next }
{
    if changed || time % 2 == 1 || time == 0 {
        return time + 1;
    }
    let quiet = end_of_quiet_times(job, time - 1, steps);
    if quiet <= time {
        return time + 1;
    }
    next_stop_time(job, next, time + 1, quiet)
}
