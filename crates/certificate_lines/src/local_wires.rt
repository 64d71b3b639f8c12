//! The wires that are local in a module, by their numbers in the circuit.
ghost use Rattle.std.specs.Prelude.{◌≡◌, ◌≤◌, ◌<◌, ◌++◌, ◌∷◌, [], length, map, IfSome, OnErr, OnOk};
ghost use Rattle.std.specs.List.{All, list_all};
ghost use Rattle.std.specs.Option.{option_and_then};
ghost use Rattle.module_box.specs.Locals.{is_among};
ghost use Rattle.certificate_lines.specs.BuilderView.{wires_made_local};
ghost use Rattle.certificate_lines.specs.Entries.{wire_name_in_line};
ghost use Rattle.circuit.specs.Meaning.{wire_of, wires};
ghost use Rattle.certificate_lines.specs.Rules.{are_new_and_distinct};

use crate::certificate_line::CertificateLine;
use crate::line_tables::LineTables;
use crate::wire_list::WireList;
use circuit::WireNo;
use std::alloc::{AllocError, Global};

/// Returns whether all these wires are local.
pub(crate) fn knows_all_wires(known: &WireList, wires: &[WireNo]) -> bool
    ensures { result ≡ list_all (is_among known.now.wires) wires.now }
{
    for wire in wires {
        if !known.contains(wire.number()) {
            return false;
        }
    }
    true
}

fn is_among_earlier(wires: &[WireNo], wire: WireNo) -> bool
    ensures { result ≡ is_among wires.now wire }
{
    wires.iter().any(|w| w.number() == wire.number())
}

/// Returns whether none of these wires is local, and none is in the list twice.
#[tactic(auto, using(crate::proofs::KnownLemmas::none_new, crate::proofs::KnownLemmas::old_wire, crate::proofs::KnownLemmas::new_wire))]
pub(crate) fn are_all_new_and_distinct(known: &WireList, wires: &[WireNo]) -> bool
    ensures { result ≡ are_new_and_distinct known.now.wires wires.now }
{
    for at in 0..wires.len() {
        let wire = wires[at];
        let is_known = known.contains(wire.number());
        let stands_twice = is_among_earlier(&wires[..at], wire);
        if is_known | stands_twice {
            return false;
        }
    }
    true
}

// Makes these wires local, where there is room for them.
fn push_wires(known: &mut WireList, wires: &[WireNo])
    requires room_for_wires { length wires.now ≤ known.old.spare }
    requires room_for_numbers { All (λ w. w < known.old.limit) wires.now }
    ensures { known.new.wires ≡ known.old.wires ++ wires.now }
{
    for wire in wires {
        known.push(wire.number());
    }
}

/// Makes room for the wires that a line of a module makes local.
pub(crate) fn make_room_for_wires(
    known: &mut WireList,
    tables: &LineTables,
    entry: &CertificateLine,
) -> Result<(), AllocError>
    ensures wires { known.new.wires ≡ known.old.wires }
    ensures room_for_wires { OnOk result
        (length (wires_made_local tables.now.circuit entry.now) ≤ known.new.spare) }
    ensures room_for_numbers { OnOk result (wires tables.now.circuit.netlist ≤ known.new.limit) }
{
    let count = match entry {
        CertificateLine::Cut(_) => 1,
        CertificateLine::Use(number) => match tables.gate(*number) {
            Some(gate) => gate.outs().len(),
            None => 0,
        },
        _ => 0,
    };
    known.reserve_for_numbers_below(count, tables.wire_count())
}

/// Makes the wires local that a line of a module makes local, where there is room for them.
///
/// `wire` is the wire that the line names, if it names one.
#[tactic(auto, using(module_box::proofs::LocalRows::all_below))]
pub(crate) fn push_line_wires(
    known: &mut WireList,
    tables: &LineTables,
    entry: &CertificateLine,
    wire: Option<u16>,
)
    requires wire { wire
        ≡ option_and_then (wire_of tables.now.circuit) (wire_name_in_line entry.now) }
    requires of_the_circuit { IfSome wire (λ w. w < wires tables.now.circuit.netlist) }
    requires room_for_numbers { wires tables.now.circuit.netlist ≤ known.old.limit }
    requires room_for_wires { length (wires_made_local tables.now.circuit entry.now) ≤
        known.old.spare }
    ensures { known.new.wires ≡ known.old.wires ++ wires_made_local tables.now.circuit entry.now }
{
    match entry {
        CertificateLine::Cut(_) => {
            if let Some(cut) = wire {
                known.push(cut);
            }
        }
        CertificateLine::Use(number) => {
            if let Some(gate) = tables.gate(*number) {
                push_wires(known, gate.outs());
            }
        }
        _ => {}
    }
}

/// Puts the local wires of a module that has ended behind those of the earlier ones. The next module has none.
pub(crate) fn move_wires_to_earlier(
    alloc: Global,
    earlier: &mut Vec<Vec<u16>>,
    known: &mut WireList,
) -> Result<(), AllocError>
    ensures earlier { OnOk result (map (λ s. s.items) earlier.new.items
        ≡ map (λ s. s.items) earlier.old.items ++ known.old.wires ∷ []) }
    ensures known_emptied { OnOk result (known.new.wires ≡ []) }
    ensures unchanged_on_error { OnErr result ((earlier.new.items ≡ earlier.old.items)
        × (known.new ≡ known.old)) }
{
    earlier.push(Vec::new(alloc))?;
    let last = earlier.len() - 1;
    known.move_to(&mut earlier[last]);
    Ok(())
}
