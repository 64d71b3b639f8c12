//! The orders of faults.

use bbm_rule::Cell;
use border_match::BorderFault;
use local_run::{Fault, Kind};
use std::cmp::Ordering;

/// Faults in order: time, kind, column, row and assignment.
const RISING_FAULTS: [(u32, Kind, i32, i32, u32); 6] = [
    (1, Kind::Edge, 7, 2, 3),
    (3, Kind::Edge, 0, 9, 9),
    (3, Kind::Stop, 1, 0, 0),
    (3, Kind::End, 9, 0, 5),
    (3, Kind::End, 2, 1, 4),
    (3, Kind::End, 2, 1, 6),
];

fn fault(place: usize) -> Option<Fault> {
    let (time, kind, x, y, assignment) = *RISING_FAULTS.get(place)?;
    Some(Fault {
        time,
        kind,
        cell: Cell { x, y },
        assignment,
    })
}

/// Returns the order of the faults at two places.
fn order(place: usize, other: usize) -> Option<Ordering> {
    Some(fault(place)?.compare(fault(other)?))
}

#[test]
fn compare_orders_faults(rt: HostRuntime) {
    for place in 0..6usize {
        for other in 0..6usize {
            let wanted = Some(place.cmp(&other));
            assert!(rt; order(place, other) == wanted, "{place} {other}");
        }
    }
    let (one, other) = (
        BorderFault {
            time: 1,
            cell: Cell { x: 7, y: 2 },
        },
        BorderFault {
            time: 3,
            cell: Cell { x: 0, y: 0 },
        },
    );
    assert!(rt; one.compare(other).is_lt() && other.compare(one).is_gt());
    assert!(rt; one.compare(one).is_eq());
}
