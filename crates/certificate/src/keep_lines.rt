//! The inverse gates that modules keep.
ghost use Rattle.std.specs.Prelude.{◌≡◌, ◌<◌, ◌≤◌, ◌^◌, ◌&&◌, ◌||◌, ◌++◌, ◌∷◌, [], ℕ, not, if◌then◌else◌, length, map, slice_index, IfOk, IsTrue, OnOk};
ghost use Rattle.std.specs.List.{All};
ghost use Rattle.circuit.specs.Meaning.{Circuit as Meant};
ghost use Rattle.module_box.specs.Locals.{is_among};
ghost use Rattle.certificate.specs.Grammars.{modules_in};
ghost use Rattle.certificate_lines.specs.Settings.{setting_of};
ghost use Rattle.certificate_lines.specs.StoredModules.{module_lines};
ghost use Rattle.certificate.specs.Keeps.{is_kept, unkept};

use crate::cert::Cert;
use certificate_lines::StoredModule;
use circuit::GateNo;
use indexmap::IndexSet;
use std::alloc::{AllocError, Global};

// The place of a gate among the used ones.
fn gate_place(gates: &[GateNo], gate: GateNo) -> u16
    requires at_most_64 { length gates.now ≤ 64 }
    requires used { IsTrue (is_among gates.now gate) }
    ensures within { result < length gates.now }
    ensures gate { slice_index gates.now result ≡ gate }
{
    for place in 0..gates.len() {
        if gates[place].number() == gate.number() {
            return place as u16;
        }
    }
    unreachable!()
}

/// Returns the gates that a module keeps, by their places among the used ones.
pub(crate) fn kept_places(
    alloc: Global,
    gates: &[GateNo],
    keeps: &[GateNo],
) -> Result<Vec<u16>, AllocError>
    requires at_most_64 { length gates.now ≤ 64 }
    requires used { All (λ k. IsTrue (is_among gates.now k)) keeps.now }
    ensures gates { IfOk result (λ places. map (slice_index gates.now) places.items ≡ keeps.now) }
    ensures within { IfOk result (λ places. All (λ place. place < length gates.now) places.items) }
{
    let mut places = Vec::with_capacity(alloc, keeps.len())?;
    for keep in keeps {
        places.push(gate_place(gates, *keep))?;
    }
    Ok(places)
}

// Notes the gates that a module keeps.
fn note_kept_gates(kept: &mut IndexSet<u32>, keeps: &[GateNo]) -> Result<(), AllocError>
    ensures { OnOk result ((n : ℕ) →
        is_among kept.new.keys n ≡ (is_among kept.old.keys n || is_among keeps.now n)) }
{
    for keep in keeps {
        kept.insert(u32::from(keep.number()))?;
    }
    Ok(())
}

// The gates that some of these modules keeps.
fn kept_gates(alloc: Global, modules: &[StoredModule]) -> Result<IndexSet<u32>, AllocError>
    ensures { IfOk result (λ kept. (c : Meant) (n : ℕ) →
        is_among kept.keys n ≡ is_kept (map (module_lines c) modules.now) n) }
{
    let mut kept = IndexSet::new(alloc);
    for module in modules {
        note_kept_gates(&mut kept, &module.keeps)?;
    }
    Ok(kept)
}

// Whether the gate is among those that are kept.
#[tactic(auto, using(module_box::proofs::WireLists::among))]
fn is_kept(kept: &IndexSet<u32>, gate: usize) -> bool
    requires { gate < 2 ^ 32 }
    ensures { result ≡ is_among kept.now.keys gate }
{
    kept.contains(&(gate as u32))
}

// Adds the number of an inverse gate that is not kept.
fn push_if_unkept_inverse(
    gates: &mut Vec<usize>,
    inverse: bool,
    kept: bool,
    number: usize,
) -> Result<(), AllocError>
    ensures { OnOk result (gates.new.items
        ≡ gates.old.items ++ (if inverse && not kept then number ∷ [] else [])) }
{
    if inverse & !kept {
        gates.push(number)?;
    }
    Ok(())
}

impl<'a> Cert<'a> {
    /// Returns the numbers of the inverse gates that no module keeps, in order.
    pub fn unkept(&self, alloc: Global) -> Result<Vec<usize>, AllocError>
        ensures { IfOk result (λ gates. gates.items
            ≡ unkept (setting_of self.now.circuit self.now.layout) (modules_in self.now)) }
    {
        let kept = kept_gates(alloc, &self.modules)?;
        let mut gates = Vec::new(alloc);
        let count = self.circuit.gates();
        for number in 0..count {
            let gate = self.circuit.gate(GateNo::of(number as u16));
            let keeps = is_kept(&kept, number);
            push_if_unkept_inverse(&mut gates, gate.kind().is_inverse(), keeps, number)?;
        }
        Ok(gates)
    }
}
