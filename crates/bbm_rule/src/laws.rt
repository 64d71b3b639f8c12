//! Laws on the definitions alone.

ghost use Rattle.bbm_rule.specs.Laws.{TurnTable, TwoBallsCollide, TwoBallsLeaveAtRightAngles, StepUndoesItself};
ghost use Rattle.bbm_rule.specs.Moves.{StepCommutesWithEvenMoves};

/// States what each of the sixteen blocks becomes.
#[tactic(auto, unfolding(crate::proofs::Imports::bit, crate::proofs::Imports::turned_block_number, crate::proofs::Imports::turned))]
pub fn turn_table()
    ensures { TurnTable }
{}

/// States that two balls that meet head on in a block leave it on its other diagonal.
///
/// It holds in each block of the plane and at each time (clause `turn`). Clause `collide` is one such meeting, with the
/// ways to it and from it.
pub fn two_balls_collide()
    ensures turn { TwoBallsLeaveAtRightAngles }
    ensures collide { TwoBallsCollide }
{}

/// States that the step at a time is its own inverse: a second step by the same partition restores the plane.
#[tactic(auto, using(crate::proofs::PlaneLemmas::step_twice))]
pub fn step_undoes_itself()
    ensures { StepUndoesItself }
{}

/// States that a step moves along with the state.
///
/// If a state is another one, moved by an even number of columns and of rows, so are the states after a step at any
/// time.
#[tactic(auto, using(crate::proofs::Moving::step_moved))]
pub fn step_commutes_with_even_moves()
    ensures { StepCommutesWithEvenMoves }
{}
