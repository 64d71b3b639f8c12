//! Laws of the definitions, each the contract of a function without a body.
ghost use Rattle.certificate.specs.Laws.{FirstLimitsAreUnchanged, FirstSeenTimeIsLeast, SecondLimitsAreWider, HalolessLinesStayGood, HaloCarriesOwnersEdge, ObeyedLinesAreOnTime, LastSeenTimeIsGreatest, TimeLinesAreTrue, BothVersionsGiveModules, PrintsWhatIsRead, ReadsWhatIsPrinted, HalolessSectionIsVersionTwo};

pub use module_job::laws::{
    equality_is_of_content, job_is_placed_shape, shape_bytes_are_injective,
};

/// States that a certificate has one text.
///
/// The text of a certificate that is read is the text of the lines that it is read from. It is read as the same
/// certificate again.
#[tactic(auto, using(crate::proofs::RoundTrip::prints_what_is_read, crate::proofs::RoundTrip::reads_what_is_printed))]
pub fn text_round_trips()
    ensures printed { PrintsWhatIsRead }
    ensures read_again { ReadsWhatIsPrinted }
{}

/// States that the first time at which stops see a wire is the least of their times, and the last one the greatest.
#[tactic(auto, using(crate::proofs::SeenLaws::first_is_least, crate::proofs::SeenLaws::last_is_greatest))]
pub fn seen_times_are_extremes()
    ensures first { FirstSeenTimeIsLeast }
    ensures last { LastSeenTimeIsGreatest }
{}

/// States what stops say of gates.
///
/// Each line of [`Cert::times`](crate::Cert::times) says of its gate what `specs/Arrivals.antt` defines:
///
/// - A delay line of N steps: the first stop of the wire that the delay defines comes N steps after the last one of the
///   wire that it uses.
/// - A meeting at T: the last stops of those inputs that have any are at T.
///
/// So if all rules are kept, each delay takes as many steps as it says, and inputs meet.
#[tactic(auto, using(crate::proofs::ArrivalLemmas::kept_is_on_time, crate::proofs::ArrivalLemmas::lines_tell))]
pub fn time_lines_are_true()
    ensures each { TimeLinesAreTrue }
    ensures obeyed_is_on_time { ObeyedLinesAreOnTime }
{}

/// States that the modules of a certificate of version 2 are modules of version 1, whose halo lines are the edge lines
/// beside them.
#[tactic(auto, using(crate::proofs::FullModules::meant_modules, crate::proofs::HaloSignals::halo_is_edge_beside, crate::proofs::Migrated::good_without_halos, crate::proofs::Migrated::section_without_halos))]
pub fn version_2_maps_to_version_1()
    ensures modules { BothVersionsGiveModules }
    ensures halos { HaloCarriesOwnersEdge }
    ensures good { HalolessLinesStayGood }
    ensures section { HalolessSectionIsVersionTwo }
{}

/// States that the first limits are those of a text without the line `limits 2`, and that the second ones let in more.
pub fn first_limits_are_unchanged()
    ensures kept { FirstLimitsAreUnchanged }
    ensures wider { SecondLimitsAreWider }
{}
