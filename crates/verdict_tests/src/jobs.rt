//! Jobs of modules. The expected results were worked out by hand from the lines.

ghost use Rattle.module_box.specs.Moves.{IsCellInShiftRange};

use bbm_rule::Cell;
use certificate::*;
use module_box::{Box2, Signal};
use std::alloc::{AllocError, Global};
use std::sync::Arc;
use test_support::{GOOD_BUNDLE, work_of};

/// The corner of a module's box, the cell of its ports, and the contents of the cells.
///
/// The contents are what is there at the start and what must be there at the end. Last comes what the cells (3, 3) and
/// (4, 4) carry at time 1, as edge and as halo.
type Quarter = (
    (u32, u32),
    (i32, i32),
    Signal,
    Demand,
    [Signal; 2],
    [Signal; 2],
);

/// Each module knows p, q, a, b, c and d by the numbers 0 to 5. The inputs are at (2, 2) and (5, 5), the outputs a at
/// (5, 2), b at (2, 2), c at (5, 5) and d at (2, 5). At time 1 the first ball is at (3, 3), and the second at (4, 4).
const MODULES: [Quarter; 4] = [
    ((0, 0), (2, 2), P, Demand::Wire(3), [P, ZERO], [ZERO, Q]),
    ((4, 0), (5, 2), ZERO, Demand::Wire(2), [ZERO, ZERO], [P, Q]),
    ((0, 4), (2, 5), ZERO, Demand::Wire(5), [ZERO, ZERO], [P, Q]),
    ((4, 4), (5, 5), Q, Demand::Wire(4), [ZERO, Q], [P, ZERO]),
];

const ZERO: Signal = Signal::Zero;

const P: Signal = Signal::Wire(0);

const Q: Signal = Signal::Wire(1);

/// Returns whether a cell starts and ends like this.
fn has_start_and_demand(job: &Job, cell: Cell, start: Signal, demand: Demand) -> bool {
    job.start(cell) == start && job.demand(cell) == demand
}

/// Returns whether one of 8 by 8 cells starts and ends like this, and the others are dead.
fn is_only_port(job: &Job, port: Cell, start: Signal, demand: Demand) -> bool {
    for y in 0..8 {
        for x in 0..8 {
            let cell = Cell { x, y };
            if cell != port && !has_start_and_demand(job, cell, ZERO, Demand::Dead) {
                return false;
            }
        }
    }
    has_start_and_demand(job, port, start, demand)
}

/// Returns whether a cell carries this at a time, as edge and as halo.
fn carries_edge_and_halo(job: &Job, time: u32, cell: Cell, edge: Signal, halo: Signal) -> bool
    requires { IsCellInShiftRange cell }
{
    job.edge(time, cell) == edge && job.halo(time, cell) == halo
}

/// Returns whether the cells (3, 3) and (4, 4) carry this at time 1, and nothing at time 3.
fn carries(job: &Job, edges: [Signal; 2], halos: [Signal; 2]) -> bool {
    let first = Cell { x: 3, y: 3 };
    let second = Cell { x: 4, y: 4 };
    carries_edge_and_halo(job, 1, first, edges[0], halos[0])
        && carries_edge_and_halo(job, 1, second, edges[1], halos[1])
        && carries_edge_and_halo(job, 3, first, ZERO, ZERO)
        && carries_edge_and_halo(job, 3, second, ZERO, ZERO)
}

/// Returns whether a job is of three steps in a box of 4 by 4 cells, with six wires of which two are cut, and has the
/// rest.
fn is_job_of_quarter(job: &Job, wanted: &Quarter) -> bool {
    let ((x, y), (column, row), start, demand, edges, halos) = *wanted;
    let port = Cell { x: column, y: row };
    job.area() == Box2 { x, y, w: 4, h: 4 }
        && job.steps() == 3
        && job.wiring().wires() == 6
        && job.wiring().cuts() == 2
        && is_only_port(job, port, start, demand)
        && carries(job, edges, halos)
}

/// Returns whether jobs at the same place are equal, and no others.
fn are_equal_at_same_place_only(jobs: &[Arc<Job>], again: &[Arc<Job>]) -> bool {
    for (number, job) in jobs.iter().enumerate() {
        for (other, second) in again.iter().enumerate() {
            if (**job == **second) != (number == other) {
                return false;
            }
        }
    }
    true
}

#[test]
fn jobs_of_four_modules(rt: HostRuntime) {
    let jobs = work_of(rt.alloc(), GOOD_BUNDLE).expect(&rt, "work").jobs;
    assert!(rt; jobs.len() == 4);
    for (number, (job, wanted)) in jobs.iter().zip(&MODULES).enumerate() {
        assert!(rt; is_job_of_quarter(job, wanted), "{number}");
    }
    let again = work_of(rt.alloc(), GOOD_BUNDLE).expect(&rt, "work").jobs;
    assert!(rt; are_equal_at_same_place_only(&jobs, &again));
}

/// A mirror across the border of two modules, a ball, a waste cell, and a wire that is cut in one of them.
const MIRROR_BUNDLE: &str =
    "circuit\ninput a\noutput a\nend\nlayout 8 4 2\nmirror 3 1 2 1\nball 1 2\nin a 6 2\nout a 6 2\nwaste 1 2\nend\ncertificate 1\nmodule 0 0 4 4\nedge * 3 1 1\nhalo * 4 1 1\nmodule 4 0 4 4\ncut a\nhalo * 3 1 1\nend\n";

/// The module, a cell, what is there at the start and to be there at the end, and what it carries at time 1 as edge and
/// as halo.
const MIRROR_BUNDLE_CELLS: [(usize, (i32, i32), Signal, Demand, Signal, Signal); 6] = [
    (0, (3, 1), Signal::One, Demand::Live, Signal::One, ZERO),
    (0, (1, 2), Signal::One, Demand::Any, ZERO, ZERO),
    (0, (4, 1), ZERO, Demand::Dead, ZERO, Signal::One),
    (1, (4, 1), Signal::One, Demand::Live, ZERO, ZERO),
    (1, (6, 2), P, Demand::Wire(0), ZERO, ZERO),
    (1, (3, 1), ZERO, Demand::Dead, ZERO, Signal::One),
];

#[test]
fn jobs_with_mirror_ball_waste(rt: HostRuntime) {
    let jobs = work_of(rt.alloc(), MIRROR_BUNDLE).expect(&rt, "work").jobs;
    assert!(rt; jobs.len() == 2);
    for (module, (x, y), start, demand, edge, halo) in MIRROR_BUNDLE_CELLS {
        let job = jobs.get(module).expect(&rt, "a job");
        let cell = Cell { x, y };
        assert!(rt; 0 <= x && x < 8 && 0 <= y && y < 8);
        let is_as_told = has_start_and_demand(job, cell, start, demand)
            && carries_edge_and_halo(job, 1, cell, edge, halo)
            && job.wiring().cuts() == module;
        assert!(rt; is_as_told, "{cell:?} of {module}");
    }
}

/// Two modules of one shape, at the left and at the right.
const SAME_SHAPE_TEXT: &str =
    "circuit\ninput a\ninput b\noutput a\noutput b\nend\nlayout 8 4 2\nin a 0 0\nin b 4 0\nout a 2 2\nout b 6 2\nend\ncertificate 1\nmodule 0 0 4 4\ncut a\nmodule 4 0 4 4\ncut b\nend\n";

#[test]
fn equal_shapes_are_one_group(rt: HostRuntime) {
    for (text, wanted) in [
        (SAME_SHAPE_TEXT, [0, 0].as_slice()),
        (GOOD_BUNDLE, [0, 1, 2, 3].as_slice()),
    ] {
        let jobs = work_of(rt.alloc(), text).expect(&rt, "work").jobs;
        let groups = job_groups(rt.alloc(), &jobs).expect(&rt, "groups");
        assert!(rt; groups.as_slice() == wanted);
    }
}

/// Returns the shapes of jobs.
fn shapes(alloc: Global, jobs: &[Arc<Job>]) -> Result<Vec<Arc<Shape>>, AllocError> {
    let mut shapes = Vec::with_capacity(alloc, jobs.len())?;
    for job in jobs {
        shapes.push(job.shape().clone()?)?;
    }
    Ok(shapes)
}

/// Returns the groups of shapes if each is given this key.
fn groups_of_one_key(
    alloc: Global,
    shapes: &[Arc<Shape>],
    key: [u8; 32],
) -> Result<Vec<usize>, AllocError> {
    let mut keys = Vec::with_capacity(alloc, shapes.len())?;
    for _ in shapes {
        keys.push(key)?;
    }
    shape_groups(alloc, shapes, keys.as_slice())
}

#[test]
fn equal_keys_keep_shapes_apart(rt: HostRuntime) {
    let jobs = work_of(rt.alloc(), GOOD_BUNDLE).expect(&rt, "work").jobs;
    let shapes = shapes(rt.alloc(), &jobs).expect(&rt, "shapes");
    let groups = groups_of_one_key(rt.alloc(), &shapes, [0; 32]).expect(&rt, "groups");
    assert!(rt; groups.as_slice() == [0, 1, 2, 3].as_slice());
}
