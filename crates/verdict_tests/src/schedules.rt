//! Signals of cells at times, and equal schedules.

use bbm_rule::Cell;
use module_box::{AllTimesSignal, Moment, Schedule, Signal, TimedSignal};
use std::alloc::Global;
use std::process::Abort;

// a cell that holds wire 7, and a cell that is live at a time
fn schedule(rt: &impl Abort, alloc: Global, time: u32, live: Cell) -> Schedule {
    let (mut signals, mut events) = (Vec::new(alloc), Vec::new(alloc));
    let all_times = AllTimesSignal {
        cell: STARRED_CELL,
        signal: Signal::Wire(7),
    };
    let event = TimedSignal {
        at: Moment { time, cell: live },
        signal: Signal::One,
    };
    assert!(rt; signals.push(all_times).is_ok() && events.push(event).is_ok());
    Schedule::new(signals, events)
}

const STARRED_CELL: Cell = Cell { x: 4, y: 1 };

const EVENT_CELL: Cell = Cell { x: 5, y: 1 };

/// The signals of the cells of a schedule with an event at (5, 1) and time 3.
const CARRIED: [(u32, i32, i32, Signal); 7] = [
    (3, 4, 1, Signal::Wire(7)),
    (0, 4, 1, Signal::Wire(7)),
    (3, 5, 1, Signal::One),
    (2, 5, 1, Signal::Zero),
    (4, 5, 1, Signal::Zero),
    (3, 1, 5, Signal::Zero),
    (3, -4, 1, Signal::Zero),
];

#[test]
fn schedule_signals_at_times(rt: HostRuntime) {
    let apart = schedule(&rt, rt.alloc(), 3, EVENT_CELL);
    for (t, x, y, signal) in CARRIED {
        assert!(rt; apart.at(t, Cell { x, y }) == signal, "at {t}, {x}, {y}");
    }
    // what is held comes before an event
    assert!(rt; schedule(&rt, rt.alloc(), 3, STARRED_CELL).at(3, STARRED_CELL) == Signal::Wire(7));
}

#[test]
fn equal_schedules(rt: HostRuntime) {
    let apart = schedule(&rt, rt.alloc(), 3, EVENT_CELL);
    assert!(rt; apart == schedule(&rt, rt.alloc(), 3, EVENT_CELL));
    assert!(rt; apart != schedule(&rt, rt.alloc(), 4, EVENT_CELL));
}
