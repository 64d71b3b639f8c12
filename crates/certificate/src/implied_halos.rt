//! The halo lines that the edge lines of version 2 mean.
ghost use Rattle.std.specs.Prelude.{◌≡◌, ◌++◌, map, slice_get, IfOk, OnOk};
ghost use Rattle.std.specs.List.{All};
ghost use Rattle.std.specs.Option.{option_to_list};
ghost use Rattle.bbm_rule.specs.declared.block.Box2.{Box2};
ghost use Rattle.certificate_lines.specs.Entries.{Setting};
ghost use Rattle.certificate_lines.specs.Modules.{AreModules};
ghost use Rattle.certificate_lines.specs.StoredModules.{HasCircuitWire, HasCircuitWires, border_line, module_lines};
ghost use Rattle.certificate.specs.HaloPlaces.{edge_lines_at, edge_lines_at_place};
ghost use Rattle.certificate_lines.specs.Versions.{edge_lines_beside, sorted_border_lines};

use crate::neighbour_edges::EdgePlace;
use certificate_lines::{StoredBorder, StoredModule, compare_borders};
use std::alloc::{AllocError, Global};

// Adds the line at a place, if there is one.
fn push_line_at(
    lines: &mut Vec<StoredBorder>,
    edges: &[StoredBorder],
    place: u16,
) -> Result<(), AllocError>
    ensures { OnOk result (lines.new.items
        ≡ lines.old.items ++ option_to_list (slice_get edges.now place)) }
{
    match edges.get(place as usize) {
        Some(line) => Ok(lines.push(*line)?),
        None => Ok(()),
    }
}

// Adds the edge line at a place, if there is one.
#[tactic(auto, using(crate::proofs::HaloLists::place_found, crate::proofs::JobsSoFar::element_at))]
fn push_edge_at(
    lines: &mut Vec<StoredBorder>,
    modules: &[StoredModule],
    place: EdgePlace,
) -> Result<(), AllocError>
    ensures { OnOk result (lines.new.items
        ≡ lines.old.items ++ edge_lines_at_place modules.now place) }
{
    match modules.get(place.number as usize) {
        Some(module) => Ok(push_line_at(lines, &module.edges, place.line)?),
        None => Ok(()),
    }
}

// The edge lines at these places.
fn edge_lines_at(
    alloc: Global,
    modules: &[StoredModule],
    places: &[EdgePlace],
) -> Result<Vec<StoredBorder>, AllocError>
    ensures { IfOk result (λ lines. lines.items ≡ edge_lines_at modules.now places.now) }
{
    let mut lines = Vec::with_capacity(alloc, places.len())?;
    for place in places {
        push_edge_at(&mut lines, modules, *place)?;
    }
    Ok(lines)
}

/// Returns the halo lines of a module of version 2: the edge lines at these places, in order.
pub(crate) fn implied_halos(
    alloc: Global,
    modules: &[StoredModule],
    places: &[EdgePlace],
) -> Result<Vec<StoredBorder>, AllocError>
    ensures halos { IfOk result (λ halos. (g : Setting) (area : Box2) →
        AreModules g (map (module_lines g.circuit) modules.now) →
        map (border_line g.circuit) (edge_lines_at modules.now places.now)
        ≡ edge_lines_beside g (map (module_lines g.circuit) modules.now) area →
        map (border_line g.circuit) halos.items
        ≡ sorted_border_lines (edge_lines_beside g (map (module_lines g.circuit) modules.now)
        area)) }
    ensures wires { IfOk result (λ halos. (g : Setting) →
        All (HasCircuitWires g.circuit) modules.now → All (HasCircuitWire g.circuit) halos.items) }
{
    let mut halos = edge_lines_at(alloc, modules, places)?;
    halos.sort_by(|a, b| compare_borders(a, b))?;
    Ok(halos)
}
