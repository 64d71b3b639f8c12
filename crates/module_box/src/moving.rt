//! Cells and signals that are moved.

ghost use Rattle.std.specs.Prelude.{◌≡◌, map};
ghost use Rattle.std.specs.List.{All};
ghost use Rattle.module_box.specs.Moves.{IsCellInShiftRange, IsSmallShift, moved_cell, moved_event, moved_all_times, moved_signals};

use crate::schedules::{AllTimesSignal, Moment, Schedule, TimedSignal};
use bbm_rule::Cell;

/// Returns the cell that lies `dx` columns and `dy` rows further. All these numbers are from -8192 to 8191.
pub fn moved_cell(cell: Cell, dx: i32, dy: i32) -> Cell
    requires cell { IsCellInShiftRange cell }
    requires small_shift { IsSmallShift dx × IsSmallShift dy }
    ensures { result ≡ moved_cell dx dy cell }
{
    Cell {
        x: cell.x + dx,
        y: cell.y + dy,
    }
}

/// Returns the event at the cell that lies `dx` columns and `dy` rows further. All these numbers are from -8192 to
/// 8191.
pub fn moved_event(event: TimedSignal, dx: i32, dy: i32) -> TimedSignal
    requires cell { IsCellInShiftRange event.at.cell }
    requires small_shift { IsSmallShift dx × IsSmallShift dy }
    ensures { result ≡ moved_event dx dy event }
{
    TimedSignal {
        at: Moment {
            time: event.at.time,
            cell: moved_cell(event.at.cell, dx, dy),
        },
        signal: event.signal,
    }
}

// Moves each signal at all times.
fn move_all_times(all_times: &mut Vec<AllTimesSignal>, dx: i32, dy: i32)
    requires cells { All (λ h. IsCellInShiftRange h.cell) all_times.old.items }
    requires small_shift { IsSmallShift dx × IsSmallShift dy }
    ensures { all_times.new.items ≡ map (moved_all_times dx dy) all_times.old.items }
{
    for signal in all_times.iter_mut() {
        signal.cell = moved_cell(signal.cell, dx, dy);
    }
}

// Moves each event.
fn move_events(events: &mut Vec<TimedSignal>, dx: i32, dy: i32)
    requires cells { All (λ e. IsCellInShiftRange e.at.cell) events.old.items }
    requires small_shift { IsSmallShift dx × IsSmallShift dy }
    ensures { events.new.items ≡ map (moved_event dx dy) events.old.items }
{
    for event in events.iter_mut() {
        event.at.cell = moved_cell(event.at.cell, dx, dy);
    }
}

impl Schedule {
    /// Returns the same signals at the cells that lie `dx` columns and `dy` rows further. All these numbers are from
    /// -8192 to 8191. It takes no memory.
    pub fn moved(self, dx: i32, dy: i32) -> Schedule
        requires all_times { All (λ h. IsCellInShiftRange h.cell) self.all_times }
        requires events { All (λ e. IsCellInShiftRange e.at.cell) self.events }
        requires small_shift { IsSmallShift dx × IsSmallShift dy }
        ensures { result ≡ moved_signals dx dy self }
    {
        let (mut all_times, mut events) = self.into_lists();
        move_all_times(&mut all_times, dx, dy);
        move_events(&mut events, dx, dy);
        Schedule::new(all_times, events)
    }
}
