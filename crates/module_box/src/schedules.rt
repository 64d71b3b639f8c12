//! Signals at cells and times.

ghost use Rattle.std.specs.Prelude.{◌≡◌};
ghost use Rattle.bbm_rule.specs.CellOrder.{cell_cmp};
ghost use Rattle.module_box.specs.Moments.{moment_cmp};
ghost use Rattle.module_box.specs.Schedules.{IsRising, cell_of, moment_of, all_times_at, event_at, signal_at};

use bbm_rule::{Cell, compare_cells};
use std::cmp::Ordering;
use std::marker::Model;

/// The signal of a cell. A wire is named by its number among the wires that its module knows.
#[derive(Clone, Copy, Debug, PartialEq, Eq)]
pub enum Signal {
    /// Dead.
    Zero,
    /// Live.
    One,
    /// Live exactly if the wire of this number is true.
    Wire(u16),
}

/// A cell at a time.
#[derive(Clone, Copy, Debug, PartialEq, Eq)]
pub struct Moment {
    pub time: u32,
    pub cell: Cell,
}

/// A signal that a cell has at all times.
#[derive(Clone, Copy, Debug, PartialEq, Eq)]
pub struct AllTimesSignal {
    pub cell: Cell,
    pub signal: Signal,
}

/// A signal that a cell has at one time.
#[derive(Clone, Copy, Debug, PartialEq, Eq)]
pub struct TimedSignal {
    pub at: Moment,
    pub signal: Signal,
}

/// A list of signals at cells and times. A cell without a signal at a time has [`Signal::Zero`].
// The signals at all times rise strictly by y and x of their cells, the events by time, y and x.
#[derive(Debug, Drop)]
pub struct Schedule {
    all_times: Vec<AllTimesSignal>,
    events: Vec<TimedSignal>,
}

impl Model for Schedule {
    ghost use Rattle.module_box.specs.Schedules.{Signals};

    ghost Value = { Signals };

    ghost use Rattle.module_box.specs.ScheduleView.{signals, IsSchedule};

    ghost view = { signals };

    ghost invariant = { IsSchedule };
}

impl Moment {
    /// Compares moments by time, then y, then x.
    #[tactic(auto, unfolding(crate::specs::Moments::moment_cmp))]
    pub fn compare(self, other: Moment) -> Ordering
        ensures { result ≡ moment_cmp self other }
    {
        self.time
            .cmp(&other.time)
            .then(compare_cells(self.cell, other.cell))
    }
}

// the signal that the list holds for the cell.
fn find_signal_at_all_times(all_times: &[AllTimesSignal], cell: Cell) -> Option<Signal>
    requires { IsRising cell_cmp cell_of all_times.now }
    ensures { result ≡ all_times_at all_times.now cell.x cell.y }
{
    let mut low = 0;
    let mut high = all_times.len();
    while low < high {
        let middle = low + (high - low) / 2;
        let found = all_times[middle];
        match compare_cells(found.cell, cell) {
            Ordering::Less => low = middle + 1,
            Ordering::Greater => high = middle,
            Ordering::Equal => return Some(found.signal),
        }
    }
    None
}

// the signal that the list has for the cell at the time.
fn find_event(events: &[TimedSignal], moment: Moment) -> Option<Signal>
    requires { IsRising moment_cmp moment_of events.now }
    ensures { result ≡ event_at events.now moment.time moment.cell.x moment.cell.y }
{
    let mut low = 0;
    let mut high = events.len();
    while low < high {
        let middle = low + (high - low) / 2;
        let found = events[middle];
        match found.at.compare(moment) {
            Ordering::Less => low = middle + 1,
            Ordering::Greater => high = middle,
            Ordering::Equal => return Some(found.signal),
        }
    }
    None
}

impl Schedule {
    /// Creates the schedule of two lists, which may be empty.
    ///
    /// The signals at all times rise strictly by y, then x of their cells. The events rise strictly by time, then y,
    /// then x.
    pub fn new(all_times: Vec<AllTimesSignal>, events: Vec<TimedSignal>) -> Schedule
        requires all_times { IsRising cell_cmp cell_of all_times.items }
        requires events { IsRising moment_cmp moment_of events.items }
        ensures all_times { result.all_times ≡ all_times.items }
        ensures events { result.events ≡ events.items }
    {
        Schedule { all_times, events }
    }

    // Returns the signals at all times and the events.
    pub(crate) fn into_lists(self) -> (Vec<AllTimesSignal>, Vec<TimedSignal>)
        ensures all_times { result.0.items ≡ self.all_times }
        ensures events { result.1.items ≡ self.events }
        ensures rising_cells { IsRising cell_cmp cell_of result.0.items }
        ensures rising_moments { IsRising moment_cmp moment_of result.1.items }
    {
        let Schedule { all_times, events } = self;
        (all_times, events)
    }

    /// Returns the signals at all times, rising strictly by y, then x of their cells.
    pub fn all_times(&self) -> &[AllTimesSignal]
        ensures same_list { result.now ≡ self.now.all_times }
        ensures rising_cells { IsRising cell_cmp cell_of result.now }
    {
        &self.all_times
    }

    /// Returns the events, rising strictly by time, then y, then x.
    pub fn events(&self) -> &[TimedSignal]
        ensures same_list { result.now ≡ self.now.events }
        ensures rising_moments { IsRising moment_cmp moment_of result.now }
    {
        &self.events
    }

    /// Shows that the signals at all times rise strictly, and the events. It does nothing.
    #[inline(always)]
    pub fn prove_rising(&self)
        ensures cells { IsRising cell_cmp cell_of self.now.all_times }
        ensures moments { IsRising moment_cmp moment_of self.now.events }
    {
        self.all_times();
        self.events();
    }

    /// Returns the signal of the cell at time `t`. It takes no memory.
    ///
    /// It is the cell's signal at all times, else its event at `t`, else [`Signal::Zero`].
    #[tactic(auto, unfolding(crate::specs::Schedules::signal_at))]
    pub fn at(&self, t: u32, cell: Cell) -> Signal
        ensures { result ≡ signal_at self.now t cell.x cell.y }
    {
        if let Some(signal) = find_signal_at_all_times(&self.all_times, cell) {
            return signal;
        }
        match find_event(&self.events, Moment { time: t, cell }) {
            Some(signal) => signal,
            None => Signal::Zero,
        }
    }
}
