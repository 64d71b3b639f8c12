//! Wires that a line defines, and marks on those that it consumes.
ghost use Rattle.std.specs.Prelude.{◌≡◌, ◌+◌, ◌<◌, ◌≤◌, true, false, [], ◌∷◌, ◌++◌, map, length, None, OnOk, OnErr, IfErr};
ghost use Rattle.std.specs.List.{All};
ghost use Rattle.section_text.specs.Words.{has};
ghost use Rattle.circuit.specs.Rules.{define_fault};
ghost use Rattle.circuit.specs.Wiring.{with_marks_set};
ghost use Rattle.section_text.specs.Adding.{HasRefusalCode};

use crate::number::WireNo;
use indexmap::IndexSet;
use section_text::{LineFault, Name, RefusalCode, Seed};

fn insert_wire_name(wires: &mut IndexSet<Name, Seed>, name: Name) -> Result<(), LineFault>
    ensures ok { OnOk result ((has wires.old.keys name ≡ false)
        × (wires.new.keys ≡ wires.old.keys ++ name ∷ [])) }
    ensures err { OnErr result (wires.new.keys ≡ wires.old.keys) }
    ensures fault { IfErr result (λ e. HasRefusalCode e (define_fault wires.old.keys (name ∷ []))) }
{
    match wires.insert(name) {
        Ok(true) => Ok(()),
        Ok(false) => Err(LineFault::Code(RefusalCode::DefinedTwice)),
        Err(_) => Err(LineFault::Memory),
    }
}

// Defines names from left to right. An error changes nothing.
fn insert_wire_names(wires: &mut IndexSet<Name, Seed>, names: &[Name]) -> Result<(), LineFault>
    ensures ok { OnOk result ((define_fault wires.old.keys names.now ≡ None)
        × (wires.new.keys ≡ wires.old.keys ++ names.now)) }
    ensures err { OnErr result (wires.new.keys ≡ wires.old.keys) }
    ensures fault { IfErr result (λ e. HasRefusalCode e (define_fault wires.old.keys names.now)) }
{
    let before = wires.len();
    for name in names {
        if let Err(fault) = insert_wire_name(wires, *name) {
            wires.truncate(before);
            return Err(fault);
        }
    }
    Ok(())
}

/// Defines names from left to right, and gives each an unset mark. An error changes nothing.
#[tactic(auto, using(crate::proofs::WireMarks::four_unset))]
pub(crate) fn define_wires(
    wires: &mut IndexSet<Name, Seed>,
    consumed: &mut Vec<bool>,
    names: &[Name],
) -> Result<(), LineFault>
    requires { length names.now ≤ 4 }
    ensures ok { OnOk result ((define_fault wires.old.keys names.now ≡ None)
        × (wires.new.keys ≡ wires.old.keys ++ names.now)) }
    ensures marks { OnOk result (consumed.new.items
        ≡ consumed.old.items ++ map (λ _. false) names.now) }
    ensures err { OnErr result ((wires.new.keys ≡ wires.old.keys)
        × (consumed.new.items ≡ consumed.old.items)) }
    ensures fault { IfErr result (λ e. HasRefusalCode e (define_fault wires.old.keys names.now)) }
{
    let first = wires.len();
    insert_wire_names(wires, names)?;
    if consumed
        .extend_from_slice(&[false; 4][..names.len()])
        .is_err()
    {
        wires.truncate(first);
        return Err(LineFault::Memory);
    }
    Ok(())
}

/// Sets the marks of wires.
pub(crate) fn mark_wires_consumed(consumed: &mut Vec<bool>, wires: &[WireNo])
    requires { All (λ w. w < length consumed.old.items) wires.now }
    ensures { consumed.new.items ≡ with_marks_set wires.now consumed.old.items }
{
    for wire in wires {
        consumed[wire.number() as usize] = true;
    }
}
