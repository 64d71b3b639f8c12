//! Laws of the whole plane, each the contract of a function without a body.
ghost use Rattle.soundness.specs.HeadlineLaws.{AcceptedHasValuation, AcceptedIsCorrect, AcceptedIsOnTime, PlaneEndsAsAsked, SomeBundleIsAccepted, InputsDecideTheRun, AcceptedHasNoUndefinedGate, ReadLayoutHasInputNames, ReadLayoutHasPortNames, PlaneStartsAsJobs, PlaneStepsAsJobs, SomeLayoutIsWrong};
ghost use Rattle.soundness.specs.FirstFaults.{EarliestLineIsFirstFault, EarliestLineIsReal, EndFaultMeansIncorrect, FirstFaultIsReal, GoodBordersKeepRunOfJobs};
ghost use Rattle.soundness.specs.PlainCertificates.{AcceptedKeepsOffRim, PlainVerdictDecidesDesign, PlainReportLinesHaveMeaning, PlainNoMeansWrongOrRimLive, UntimedIsOnTime};
ghost use Rattle.soundness.specs.ModuleLaws.{ModuleHasOneJob, ModuleHasSomeJob, VerdictExists};
ghost use Rattle.soundness.specs.MigrationLaws.{AcceptedStaysWithoutHalos, MigrationKeepsAcceptance};

/// States that the plane at the start is every job's own run in its box, and dead outside the rectangle.
pub fn plane_starts_as_jobs()
    ensures { PlaneStartsAsJobs }
{}

/// States that the plane is so after a step if it was so before, and if no job and no border has a fault.
///
/// It is enough that the edges and the borders have no fault at the time of the step, under the assignments of the
/// circuit's values.
pub fn plane_steps_as_jobs()
    ensures no_fault { PlaneStepsAsJobs }
    ensures good_borders { GoodBordersKeepRunOfJobs }
{}

/// States that the first fault under the circuit's values is one of the whole plane.
///
/// - The faulty cell is not as its module certifies.
/// - A first fault at the end means that the layout does not compute the circuit.
/// - If the earliest line of a report is a `local` line, its fault is the first one under each valuation that has its
///   assignment.
pub fn first_fault_is_real()
    ensures real { FirstFaultIsReal }
    ensures incorrect { EndFaultMeansIncorrect }
    ensures first { EarliestLineIsFirstFault }
    ensures earliest { EarliestLineIsReal }
{}

/// States that a plain certificate, of one module that is the whole rectangle, decides.
///
/// It is accepted exactly if the layout computes the circuit, no run touches the rim at an odd time, and the stops,
/// delays and meetings are right. So a no on it says that one of these is wrong. Each line of its report says which,
/// and for which inputs.
pub fn plain_verdict_decides_design()
    ensures off_rim { AcceptedKeepsOffRim }
    ensures decides { PlainVerdictDecidesDesign }
    ensures plain_no_is_wrong { PlainNoMeansWrongOrRimLive }
    ensures lines { PlainReportLinesHaveMeaning }
    ensures untimed { UntimedIsOnTime }
{}

/// States that the plane looks as the layout asks after the last step, if it is as the jobs say and no job has a fault.
pub fn plane_ends_as_asked()
    ensures { PlaneEndsAsAsked }
{}

/// States that no gate of an accepted bundle is the first one without a row.
///
/// So the circuit has a valuation whatever its inputs are.
pub fn accepted_has_no_undefined_gate()
    ensures none { AcceptedHasNoUndefinedGate }
    ensures valuation { AcceptedHasValuation }
{}

/// States that a layout that is accepted computes its circuit, and that nothing ever leaves its rectangle.
pub fn accepted_is_correct()
    ensures { AcceptedIsCorrect }
{}

/// States that each stop of an accepted layout holds on the whole plane, and that the rules on delays and meetings are
/// kept.
///
/// For all values of the inputs the cell of a stop is live at its time exactly if its wire is true.
pub fn accepted_is_on_time()
    ensures { AcceptedIsOnTime }
{}

/// States that the run depends on the values of the inputs alone, in a layout that was read with the names of the
/// circuit's ports.
///
/// Its input cells have the names of inputs, and each input and each output has a cell.
pub fn inputs_decide_the_run()
    ensures named { ReadLayoutHasInputNames }
    ensures all { ReadLayoutHasPortNames }
    ensures decided { InputsDecideTheRun }
{}

/// States that some bundle with an odd time is accepted.
pub fn something_is_accepted()
    ensures { SomeBundleIsAccepted }
{}

/// States that some layout whose ports are named as the circuit's does not compute it.
pub fn some_layout_is_wrong()
    ensures { SomeLayoutIsWrong }
{}

/// States that modules that are accepted with their halo lines are accepted with the edge lines beside them in place of
/// these.
///
/// So if version 1 is accepted, its migration to version 2 is accepted.
pub fn accepted_stays_without_halos()
    ensures modules { AcceptedStaysWithoutHalos }
    ensures migration { MigrationKeepsAcceptance }
{}

/// States that a module that is as the grammar asks has exactly one job.
pub fn module_has_one_job()
    ensures one { ModuleHasOneJob }
    ensures some { ModuleHasSomeJob }
{}

/// States that the modules of a certificate have a verdict, if circuit, layout and modules are as the grammars ask.
pub fn verdict_exists()
    ensures { VerdictExists }
{}
