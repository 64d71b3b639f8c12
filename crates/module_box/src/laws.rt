//! Laws on the definitions alone.

ghost use Rattle.module_box.specs.Laws.{ChoicesAreAssignments, EvenStepStaysInBox, TileFaultMeansNoTiling, StepDependsOnBoxAndHalo, HaloCellIsRingCellOfOwner, LocalsEqualityDecides, LocalValuesAgreeWithCircuit, ScheduleEqualityDecides, UndefinedGateIsSeenLocally};
ghost use Rattle.module_box.specs.Moves.{RingsAndHalosMoveAlong, SignalsMoveAlong};
ghost use Rattle.module_box.specs.Numbers.{NumbersDetermineNetlists};

/// States that an even step maps the cells of an even box into the box.
///
/// The cells after the step depend on the box alone.
#[tactic(auto, using(crate::proofs::BoxSteps::even_step))]
pub fn even_step_stays_in_box()
    ensures { EvenStepStaysInBox }
{}

/// States that the cells of a box after a step depend on the box and its halo alone.
#[tactic(auto, using(crate::proofs::Neighbours::near_step))]
pub fn step_depends_on_box_and_halo()
    ensures { StepDependsOnBoxAndHalo }
{}

/// States that, if boxes tile a rectangle, a cell of a halo that lies in a box is in that box's ring.
#[tactic(auto, using(crate::proofs::Neighbours::halo_in_ring))]
pub fn halo_cell_is_ring_cell_of_owner()
    ensures { HaloCellIsRingCellOfOwner }
{}

/// States that every fault of [`owner_table`](crate::owner_table) but out of memory means that the boxes do not tile
/// the rectangle.
#[tactic(auto, using(crate::proofs::NoTilings::no_tiling))]
pub fn tile_fault_means_no_tiling()
    ensures { TileFaultMeansNoTiling }
{}

/// States that two [`Locals`](crate::Locals) are equal exactly if contracts see the same of both, and so two
/// [`Schedule`](crate::Schedule)s.
#[tactic(auto, using(crate::proofs::EqualTests::locals_decides, crate::proofs::EqualTests::signals_decides))]
pub fn equality_is_of_content()
    ensures locals { LocalsEqualityDecides }
    ensures schedules { ScheduleEqualityDecides }
{}

/// States that the wires of a module have their values in the circuit, under some assignment.
///
/// - Some assignment gives each cut the value that its wire has in the circuit.
/// - Under such an assignment each wire of the module has its value in the circuit.
/// - If a gate of the circuit has no row, the same gate has none in a module that uses it.
pub fn local_values_agree_with_circuit()
    ensures assignment { ChoicesAreAssignments }
    ensures agree { LocalValuesAgreeWithCircuit }
    ensures undefined { UndefinedGateIsSeenLocally }
{}

/// States that the ring and the halo of a box move along with it, and signals with the cells that carry them.
pub fn boxes_and_signals_move_along()
    ensures boxes { RingsAndHalosMoveAlong }
    ensures signals { SignalsMoveAlong }
{}

/// States that two wirings with the same numbers are the same, also if more numbers follow.
#[tactic(auto, using(crate::proofs::InjectiveNumbers::netlists_tell))]
pub fn numbers_determine_netlists()
    ensures { NumbersDetermineNetlists }
{}
