//! Laws of the definitions.
ghost use Rattle.circuit.specs.Laws.{PrintsWhatIsRead, ReadsWhatIsPrinted, GatesAreOrdered, HasValuationIfDefined, UndefinedHasNoValuation, OnlyInverseGatesAreUndefined, AtMostOneGateIsUndefined, ValuesStopAtUndefinedGate, HasAtMostOneValuation, NoninverseHasOneValuation, ValuesAreTheValuation, WiresAreNamed, WireNamesAreDistinct, InputsAreFirst, GatesKeepOnes, InverseGatesUndo, FirstLimitsAreUnchanged, SecondLimitsAreWider};

/// States that a circuit has one text.
///
/// The text of a circuit that is read is the text of the lines that it is read from. It is read as the same circuit
/// again.
#[tactic(auto, using(crate::proofs::RoundTrip::prints_what_is_read, crate::proofs::RoundTrip::reads_what_is_printed))]
pub fn text_round_trips()
    ensures printed { PrintsWhatIsRead }
    ensures read_again { ReadsWhatIsPrinted }
{}

/// States that the gates of good lines are ordered: each uses wires that inputs and earlier gates define.
#[tactic(auto, using(crate::proofs::Bridging::gates_are_ordered))]
pub fn gates_are_ordered()
    ensures { GatesAreOrdered }
{}

/// States that ordered gates have a valuation exactly if no gate is the first one without a row.
pub fn has_valuation_if_defined()
    ensures valuation_found { HasValuationIfDefined }
    ensures undefined_has_none { UndefinedHasNoValuation }
{}

/// States that only an inverse gate is the first one without a row, and that there is at most one such gate.
///
/// `Circuit::values` stops at it.
pub fn undefined_gate_is_unique()
    ensures inverse { OnlyInverseGatesAreUndefined }
    ensures at_most_one { AtMostOneGateIsUndefined }
    ensures stopped { ValuesStopAtUndefinedGate }
{}

/// States that ordered gates, inverse gates among them, have at most one valuation for their given wires.
pub fn has_at_most_one_valuation()
    ensures { HasAtMostOneValuation }
{}

/// States that a circuit without inverse gates has exactly one valuation, whatever its inputs are.
pub fn noninverse_has_one_valuation()
    ensures { NoninverseHasOneValuation }
{}

/// States that `Circuit::values` answers the values of that valuation, from wire 0 on.
pub fn values_are_the_valuation()
    ensures { ValuesAreTheValuation }
{}

/// States that wires are numbered in order of definition, inputs first, and that each has a name of its own.
#[tactic(auto, using(crate::proofs::Naming::wires_are_named, crate::proofs::Naming::names_are_own, crate::proofs::Naming::inputs_are_first))]
pub fn wires_are_named()
    ensures named { WiresAreNamed }
    ensures own_names { WireNamesAreDistinct }
    ensures first { InputsAreFirst }
{}

/// States that every gate but a source keeps the number of ones (Fredkin and Toffoli 1982).
#[tactic(auto, using(crate::proofs::GateLaws::gates_keep_ones))]
pub fn gates_keep_ones()
    ensures { GatesKeepOnes }
{}

/// States that `unswitch` undoes `switch`, that `uninteract` undoes `interact`, and that they have no other rows.
#[tactic(auto, using(crate::proofs::GateLaws::inverse_gates_undo))]
pub fn inverse_gates_undo()
    ensures { InverseGatesUndo }
{}

/// States that the first limits are those of a text without the line `limits 2`, and that the second ones let in more.
#[tactic(auto, using(crate::proofs::LimitLaws::first_limits_are_unchanged, crate::proofs::LimitLaws::second_limits_are_wider))]
pub fn first_limits_are_unchanged()
    ensures kept { FirstLimitsAreUnchanged }
    ensures wider { SecondLimitsAreWider }
{}
