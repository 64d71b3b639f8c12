//! When steps turn whole planes, and when they go by marks.

ghost use Rattle.std.specs.Prelude.{◌+◌, ◌*◌, ◌≤◌};

// How many steps turn whole planes after one in which many blocks changed, at first and at most.
const FIRST_PHASE_STEPS: u32 = 62;

const MAX_PHASE_STEPS: u32 = 992;

/// The steps that turn whole planes come in phases. A step by marks follows each of them, and begins the next one if
/// many blocks change in it.
#[derive(Clone, Copy)]
pub(crate) struct WholePlaneSteps {
    // how many are left of this phase
    pub(crate) left: u32,
    // how many the next phase has: twice as many as this phase
    pub(crate) next: u32,
}

impl WholePlaneSteps {
    /// No phase.
    pub(crate) const NONE: WholePlaneSteps = WholePlaneSteps {
        left: 0,
        next: FIRST_PHASE_STEPS,
    };

    /// Returns the next phase.
    pub(crate) fn next_phase(self) -> WholePlaneSteps {
        WholePlaneSteps {
            left: self.next,
            next: self.next.saturating_mul(2).min(MAX_PHASE_STEPS),
        }
    }
}

// What a block that changes costs in a step by marks, in turns of a word, and what it costs more for each word of a
// cell.
const MARKED_BLOCK_COST: usize = 40;

const MARKED_WORD_COST: usize = 5;

// What a step that turns whole planes costs more for each cell of a row and each row.
const WHOLE_ROW_COST: usize = 48;

/// Returns whether it costs less to turn all blocks than to go by marks, if this many change.
///
/// A block that changes has up to four others looked at, two for each of its diagonals that changes. If all are turned,
/// only cells of frozen and empty blocks are known to be dead. Then the other cells of ring and halo are looked up at
/// odd times.
pub(crate) fn is_turning_all_cheaper(
    changed: usize,
    cells: usize,
    words: usize,
    columns_plus_rows: usize,
) -> bool
    requires { (changed ≤ 4096) × (cells ≤ 4096) × (words ≤ 64) × (columns_plus_rows ≤ 128) }
{
    changed * (MARKED_BLOCK_COST + MARKED_WORD_COST * words)
        > cells * words + WHOLE_ROW_COST * columns_plus_rows
}
