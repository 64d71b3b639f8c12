//! Laws of the definitions, each the contract of a function without a body.
ghost use Rattle.pattern.specs.Laws.{FirstLineLimitsAreUnchanged, FirstSizeLimitsAreUnchanged, PrintsWhatIsRead, ReadsWhatIsPrinted, SecondLimitsAreWider};

/// States that a layout has one text.
///
/// The text of a layout that is read is the text of the lines that it is read from. It is read as the same layout
/// again.
#[tactic(auto, using(crate::proofs::RoundTrip::prints_what_is_read, crate::proofs::RoundTrip::reads_what_is_printed))]
pub fn text_round_trips()
    ensures printed { PrintsWhatIsRead }
    ensures read_again { ReadsWhatIsPrinted }
{}

/// States that the first limits are those of a text without the line `limits 2`, and that the second ones let in more.
pub fn first_limits_are_unchanged()
    ensures sizes_kept { FirstSizeLimitsAreUnchanged }
    ensures lines_kept { FirstLineLimitsAreUnchanged }
    ensures wider { SecondLimitsAreWider }
{}
