//! The rule of the desk's one word, and the four kinds of step on it: a claim, a look, a split and a join.
use atomic_table::{Join, Play, Split, TableRule};
use std::collections::LinkedList;

/// The knowledge of a seat: the numbers that it drew, a count that the word has reached, and of how many seats it has
/// the place.
///
/// No value of this type is made.
pub struct View {
    pub draws: LinkedList<u64>,
    pub seen: u64,
    pub places: u64,
}

/// The size of a desk: how many numbers it hands out, and to how many seats.
#[derive(Drop)]
pub struct DeskSize {
    pub numbers: u64,
    pub seats: u64,
}

/// The rule of a desk.
pub struct DeskRule;

impl<S> TableRule<S, View, DeskSize> for DeskRule {
    ghost use Rattle.job_pool.specs.Rule.{MeetsDeskRule, opening_view};

    ghost holds = { MeetsDeskRule };

    ghost first = { opening_view };
}

/// The step of a claim: it adds 1 to the word, and the seat draws what it found.
pub struct ClaimStep;

impl<S> Play<S, View> for ClaimStep {
    ghost use Rattle.job_pool.specs.Rule.{IsAfterClaim};

    ghost then = { IsAfterClaim };
}

/// The step of a look: it leaves the word, and the seat has seen what it found.
pub struct LookStep;

impl<S> Play<S, View> for LookStep {
    ghost use Rattle.job_pool.specs.Rule.{IsAfterLook};

    ghost then = { IsAfterLook };
}

/// The step of a split or a join: a split gives a new seat one place, and a join gives one seat the places and the
/// draws of another.
pub struct SplitOrJoinStep;

impl Split<View> for SplitOrJoinStep {
    ghost use Rattle.job_pool.specs.Rule.{view_after_split, split_off_view};

    ghost left = { view_after_split };

    ghost right = { split_off_view };
}

impl Join<View> for SplitOrJoinStep {
    ghost use Rattle.job_pool.specs.Rule.{joined_view, spent_view};

    ghost both = { joined_view };

    ghost spent = { spent_view };
}
