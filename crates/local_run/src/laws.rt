//! Laws of findings.
ghost use Rattle.local_run.specs.Laws.{FindingsAgreeOnFaults, FindingsAgreeOnKeepFaults, NoneMeansNoFault, NoneMeansNoKeepFault, LeastFaultIsUnique, LeastKeepFaultIsUnique, NoFaultIfGateUndefined, OneValuationDecidesFault, SameHalosMeanSameFaults, LocalRunStaysInBox, QuietRunStaysUnchanged, QuietRunAddsNoEdgeFault};
ghost use Rattle.local_run.specs.Moves.{FaultsMoveWithJob, LeastFaultMovesWithJob, SameShapeSameLeastKeepFault};

/// States that two findings of one job have one fault, and one keep fault.
#[tactic(auto, using(crate::proofs::Least::least_unique, crate::proofs::Least::least_keep_unique))]
pub fn findings_of_one_job_agree()
    ensures faults { FindingsAgreeOnFaults }
    ensures keeps { FindingsAgreeOnKeepFaults }
{}

/// States that the job of a finding without a fault has none, and that of one without a keep fault has no keep fault.
pub fn none_means_no_fault()
    ensures faults { NoneMeansNoFault }
    ensures keeps { NoneMeansNoKeepFault }
{}

/// States that a job has one least fault, or none, and one least keep fault, or none.
#[tactic(auto, using(crate::proofs::Least::least_unique, crate::proofs::Least::least_keep_unique))]
pub fn least_fault_is_unique()
    ensures faults { LeastFaultIsUnique }
    ensures keeps { LeastKeepFaultIsUnique }
{}

/// States that a job has no fault under an assignment at which some used gate has no row.
pub fn no_fault_if_gate_undefined()
    ensures { NoFaultIfGateUndefined }
{}

/// States that any one local valuation under an assignment decides whether the job has a fault under it.
#[tactic(auto, using(crate::proofs::Decided::decided))]
pub fn one_valuation_decides_fault()
    ensures { OneValuationDecidesFault }
{}

/// States that jobs that differ in their halos alone have the same faults, if the halos agree at each odd time below
/// the steps.
#[tactic(auto, using(crate::proofs::SameHalos::same_halos_agree))]
pub fn same_halos_mean_same_faults()
    ensures { SameHalosMeanSameFaults }
{}

/// States that no cell outside the box is ever live.
#[tactic(auto, using(crate::proofs::LocalRuns::stays))]
pub fn local_run_stays_in_box()
    ensures { LocalRunStaysInBox }
{}

/// States that jobs of the same shape have the same faults but for their place.
///
/// The least fault of one is that of the other, moved. Their least keep fault is the same.
#[tactic(auto, using(crate::proofs::MovedJobs::faults_moved, crate::proofs::MovedJobs::least_moved, crate::proofs::MovedJobs::least_keep_stays))]
pub fn faults_move_with_job()
    ensures faults { FaultsMoveWithJob }
    ensures least { LeastFaultMovesWithJob }
    ensures keep { SameShapeSameLeastKeepFault }
{}

/// States that a run that does not change in two steps does not change until a signal of its halo does.
pub fn quiet_run_stays_unchanged()
    ensures { QuietRunStaysUnchanged }
{}

/// States that no edge fault comes up while the run, the signals of its halo and those of its ring stay as they are.
pub fn quiet_run_adds_no_edge_fault()
    ensures { QuietRunAddsNoEdgeFault }
{}
