//! Whether an edge line names a wire that is not local in a module beside it.
ghost use Rattle.std.specs.Prelude.{◌≡◌, ◌<◌, List, map, ◌&&◌, Some, length, slice_get, IsTrue};
ghost use Rattle.std.specs.List.{All, flat_map, list_any};
ghost use Rattle.certificate_lines.specs.Entries.{ModuleLines, edges, known, modules_of};
ghost use Rattle.certificate_lines.specs.StoredModules.{HasCircuitWire, IsCellWithinLayout, border_line};
ghost use Rattle.certificate_lines.specs.Rules.{is_local_wire, whole};
ghost use Rattle.bbm_rule.specs.Boxes.{in_box};
ghost use Rattle.module_box.specs.Locals.{is_among};
ghost use Rattle.certificate_lines.specs.BuilderView.{does_neighbour_lack_wire, is_outside_and_nonlocal, is_nonlocal_in_neighbour, lacks_wire_of_some_edge};
ghost use Rattle.certificate_lines.specs.Versions.{has_nonlocal_edge_wire_beside};

use crate::builder::Builder;
use crate::stored_module::StoredBorder;
use bbm_rule::{Cell, odd_partner};

// Whether the wire is one of these.
fn is_among(wires: &[u16], wire: u16) -> bool
    ensures { result ≡ is_among wires.now wire }
{
    wires.iter().any(|w| *w == wire)
}

// Whether the wire is known, and one of these.
fn is_some_and_among(wires: &[u16], wire: Option<u16>) -> bool
    ensures { result ≡ is_local_wire wires.now wire }
{
    match wire {
        Some(wire) => is_among(wires, wire),
        None => false,
    }
}

impl<'a> Builder<'a> {
    // The wires that are local in the module of this number.
    fn local_wires_of_module(&self, number: usize) -> &[u16]
        requires { number < length (modules_of self.now.entries) }
        ensures { slice_get (map (known self.now.setting.circuit) (modules_of self.now.entries))
            number ≡ Some result.now }
    {
        let last = self.earlier.len();
        if number + 1 < last {
            self.earlier[number + 1].as_slice()
        } else {
            self.known.as_slice()
        }
    }
}

impl<'a> Builder<'a> {
    // Whether the cell is outside the module of this number, and the wire is unknown or not local there.
    #[tactic(auto, using(crate::proofs::StoredLemmas::count_stored))]
    fn is_outside_and_nonlocal(&self, number: usize, cell: Cell, wire: Option<u16>) -> bool
        requires { number < length (modules_of self.now.entries) }
        ensures { (m : ModuleLines) → slice_get (modules_of self.now.entries) number ≡ Some m →
            result ≡ is_outside_and_nonlocal self.now.setting.circuit cell wire m }
    {
        if self.modules[number].area.holds(cell) {
            return false;
        }
        !is_some_and_among(self.local_wires_of_module(number), wire)
    }

    // Whether some module has the cell `beside` and not the cell, and the wire is unknown or not local in it.
    // Inlined, since it runs three times for each edge line.
    #[inline(always)]
    #[tactic(auto, using(crate::proofs::OddBlocks::owner_within))]
    fn is_nonlocal_at_other_owner(&self, cell: Cell, wire: Option<u16>, beside: Cell) -> bool
        ensures { result
            ≡ list_any (λ m. in_box m.area beside.x beside.y
            && is_outside_and_nonlocal self.now.setting.circuit cell wire m)
            (modules_of self.now.entries) }
    {
        match self.owners.owner_if_any(beside) {
            Some(number) => self.is_outside_and_nonlocal(number, cell, wire),
            None => false,
        }
    }

    // Whether some module has the cell in its halo, and the wire is unknown or not local there.
    fn is_nonlocal_in_neighbour(&self, cell: Cell, wire: Option<u16>) -> bool
        requires { IsTrue (in_box (whole self.now.setting.size) cell.x cell.y) }
        ensures { result
            ≡ is_nonlocal_in_neighbour self.now.setting.circuit (modules_of self.now.entries) cell
            wire }
    {
        self.tables.prove_valid();
        let Cell { x, y } = cell;
        // Corners and sides are even, so a box with a neighbour of the cell has it or one of these.
        let column = odd_partner(x);
        let row = odd_partner(y);
        let beside = self.is_nonlocal_at_other_owner(cell, wire, Cell { x: column, y });
        let above = self.is_nonlocal_at_other_owner(cell, wire, Cell { x, y: row });
        let corner = self.is_nonlocal_at_other_owner(cell, wire, Cell { x: column, y: row });
        beside | above | corner
    }

    // Whether some module has the cell of an edge line in its halo, and lacks its wire.
    fn does_neighbour_lack_wire(&self, border: &StoredBorder) -> bool
        requires own { HasCircuitWire self.now.setting.circuit border.now }
        requires inside { IsCellWithinLayout self.now.setting.size border.now }
        ensures { result
            ≡ does_neighbour_lack_wire self.now.setting.circuit (modules_of self.now.entries)
            (border_line self.now.setting.circuit border.now) }
    {
        match border.wire {
            None => false,
            Some(_) => self.is_nonlocal_in_neighbour(border.cell(), border.wire),
        }
    }

    // Whether some module lacks the wire of one of these edge lines, by the modules beside each of them.
    #[tactic(auto, using(lemmas::proofs::Common::list_any_at))]
    fn do_neighbours_lack_a_wire(&self, lines: &[StoredBorder]) -> bool
        requires own { All (HasCircuitWire self.now.setting.circuit) lines.now }
        requires inside { All (IsCellWithinLayout self.now.setting.size) lines.now }
        ensures { result
            ≡ list_any (λ b. does_neighbour_lack_wire self.now.setting.circuit
            (modules_of self.now.entries) (border_line self.now.setting.circuit b)) lines.now }
    {
        for line in lines {
            if self.does_neighbour_lack_wire(line) {
                return true;
            }
        }
        false
    }

    // Whether some module lacks the wire of an edge line beside it, by the modules beside each edge line.
    fn does_any_neighbour_lack_a_wire(&self) -> bool
        ensures { result
            ≡ list_any (lacks_wire_of_some_edge self.now.setting.circuit
            (flat_map edges (modules_of self.now.entries))) (modules_of self.now.entries) }
    {
        for module in &self.modules {
            if self.do_neighbours_lack_a_wire(module.edges.as_slice()) {
                return true;
            }
        }
        false
    }
}

impl<'a> Builder<'a> {
    /// Returns whether some module lacks the wire of an edge line beside it.
    ///
    /// It asks at most three modules for each edge line.
    pub fn has_nonlocal_edge_wire_beside(&self) -> bool
        ensures { result
            ≡ has_nonlocal_edge_wire_beside self.now.setting (modules_of self.now.entries) }
    {
        let size = self.tables.size();
        if size.steps <= 1 {
            return false;
        }
        self.does_any_neighbour_lack_a_wire()
    }
}
