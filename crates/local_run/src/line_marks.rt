//! Marks on the cells of ring and halo of which a job's lines say something at a time.

ghost use Rattle.module_job.specs.Jobs.{IsJob};
ghost use Rattle.module_job.specs.Shapes.{shape_of};
ghost use Rattle.bbm_rule.specs.Marks.{IsNumberUnmarked};
ghost use Rattle.local_run.specs.Quiet.{AreStarredCellMarks, AreLineMarks, TakesNoMarkOff};
ghost use Rattle.local_run.specs.Steady.{AreEventMarks};
ghost use Rattle.std.specs.Prelude.{◌≡◌, ◌+◌, ◌*◌, ◌/◌, ◌%◌, ◌<◌, ◌≤◌, length, vec_len, IfOk, false};
ghost use Rattle.lemmas.specs.Bounds.{max_steps};

use crate::lines::{
    EventPlaces, LinePlaces, cell_line_mark_number, mark_lines, marks_of_starred_cells,
    number_mark_word_count,
};
use lanes::{Planes, is_marked};
use module_job::Job;
use std::alloc::{AllocError, Global};
use std::mem::swap;

/// Marks on the cells of ring and halo of which a job's lines say something at a time: one for the number of a cell in
/// its plane, and one of its own.
#[derive(Drop)]
pub struct LineMarks {
    time: u32,
    marks: Vec<u64>,
    // the marks for lines at all times, which all are marks
    all_times: Vec<u64>,
    // marks on the numbers of which a line says something at this time and not at all times
    events: Vec<u64>,
    // the same for the time that was looked at before
    last_event_marks: Vec<u64>,
    // whether they may have a mark
    has_last_events: bool,
    // where the search for the next time's lines begins
    places: LinePlaces,
    ghost same_long: { vec_len marks ≡ vec_len all_times },
    ghost five_parts: { vec_len marks ≡ 5 * vec_len events },
    ghost last_same_long: { vec_len last_event_marks ≡ vec_len events },
    ghost keeps: { TakesNoMarkOff all_times.items marks.items },
}

impl LineMarks {
    /// Creates marks for the lines of a job. No time was looked at.
    pub fn new(alloc: Global, job: &Job) -> Result<LineMarks, AllocError>
        requires { IsJob job.now }
        ensures { IfOk result (λ l. AreStarredCellMarks (shape_of job.now) l.all_times.items) }
    {
        let all_times = marks_of_starred_cells(alloc, job)?;
        let marks = all_times.as_slice().to_vec(alloc)?;
        let long = number_mark_word_count(job);
        let none = EventPlaces::NO_PLACES;
        Ok(LineMarks {
            time: 0,
            marks,
            all_times,
            events: vec![in alloc; 0u64; long]?,
            last_event_marks: vec![in alloc; 0u64; long]?,
            has_last_events: false,
            places: LinePlaces {
                edges: none,
                halos: none,
            },
        })
    }

    /// Marks the cells of which an edge or halo line of the job says something at a time.
    ///
    /// The marks of the time that was looked at before are taken off. Most times have none of their own. Those on the
    /// numbers of its events are kept as the last ones.
    pub fn mark_lines_at(&mut self, job: &Job, time: u32)
        requires all_times { AreStarredCellMarks (shape_of job.now) self.old.all_times.items }
        requires range { time < max_steps }
        ensures time { self.new.time ≡ time }
        ensures lines { AreLineMarks job.now time self.new.marks.items }
        ensures events { AreEventMarks job.now time self.new.events.items }
        ensures last_event_marks { self.new.last_event_marks.items ≡ self.old.events.items }
        ensures all_times { self.new.all_times ≡ self.old.all_times }
    {
        self.time = time;
        let has_events = self.places.has_any();
        if has_events {
            self.marks.copy_from_slice(&self.all_times);
        }
        // An exchange costs less than a copy. A mark that is left over would only cost a look.
        swap(&mut self.events, &mut self.last_event_marks);
        if self.has_last_events {
            self.events.fill(0);
        }
        self.has_last_events = has_events;
        mark_lines(
            &mut self.marks,
            &mut self.events,
            &mut self.places,
            job,
            time,
        );
    }

    /// Returns the time that was looked at.
    pub fn time(&self) -> u32
        ensures { result ≡ self.now.time }
    {
        self.time
    }

    /// Returns the marks.
    #[inline(always)]
    pub fn marks(&self) -> &[u64]
        ensures { result.now ≡ self.now.marks.items }
    {
        &self.marks
    }

    /// Returns the marks on the numbers of the events of the time that was looked at.
    #[inline(always)]
    pub fn events(&self) -> &[u64]
        ensures marks { result.now ≡ self.now.events.items }
        ensures long { vec_len self.now.marks ≡ 5 * length result.now }
    {
        &self.events
    }

    /// Returns the marks on the numbers of the events of the time that was looked at before it.
    #[inline(always)]
    pub fn last_event_marks(&self) -> &[u64]
        ensures marks { result.now ≡ self.now.last_event_marks.items }
        ensures long { vec_len self.now.marks ≡ 5 * length result.now }
    {
        &self.last_event_marks
    }

    /// Returns the places of the lines of the time that was looked at.
    pub fn places(&self) -> LinePlaces {
        self.places
    }

    /// Returns whether a line may say something of a cell, counted from the halo, at the time that was looked at.
    #[inline(always)]
    pub fn may_have_line(&self, planes: &Planes, x: usize, y: usize) -> bool
        requires place { (x / 2 < planes.now.stride) × (y / 2 < planes.now.rows) }
        requires room { 5 * (planes.now.stride * planes.now.rows) ≤ 64 * vec_len self.now.marks }
        ensures { result ≡ false →
            IsNumberUnmarked self.now.marks.items
            (planes.now.stride * (y / 2) + x / 2
            + planes.now.stride * planes.now.rows * (1 + 2 * (y % 2) + x % 2)) }
    {
        let number = planes.cell_number(x, y);
        let own = cell_line_mark_number(number, planes.cells_per_plane(), x, y);
        is_marked(&self.marks, own)
    }
}
