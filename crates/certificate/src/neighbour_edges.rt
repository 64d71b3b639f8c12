//! The places of the edge lines beside each module.
ghost use Rattle.std.specs.Prelude.{◌≡◌, ◌≢◌, ◌<◌, ◌≤◌, ◌++◌, ◌∷◌, ◌&&◌, ◌≤ℤ◌, pos, [], ℕ, List, Some, not, length, map, slice_get, IfOk, OnOk, IsTrue};
ghost use Rattle.std.specs.List.{All, flat_map, list_any};
ghost use Rattle.bbm_rule.specs.Plane.{partner};
ghost use Rattle.bbm_rule.specs.Boxes.{in_box, in_halo};
ghost use Rattle.module_box.specs.Tiling.{rectangle};
ghost use Rattle.bbm_rule.specs.declared.block.Box2.{Box2};
ghost use Rattle.certificate_lines.specs.Entries.{areas};
ghost use Rattle.certificate_lines.specs.Settings.{setting_of};
ghost use Rattle.certificate_lines.specs.declared.stored_module.StoredModule.{StoredModule};
ghost use Rattle.certificate.specs.GoodModules.{AreGoodModules, IsLayoutOwnerTable, all_module_lines};
ghost use Rattle.certificate.specs.HaloPlaces.{AddsEdgePlacesInHalo, AddsPlaceIfBoxPasses, AreOwnersAndListsReady, HaveEdgePlacesFromModule, IsInnerCell, line_cell, list_at_or_empty};
ghost use Rattle.lemmas.specs.Bounds.{last_column_or_row, max_modules};

use crate::layout_tables::LayoutTables;
use bbm_rule::{Cell, odd_partner};
use certificate_lines::{StoredBorder, StoredModule, boxes_of};
use module_box::{Box2, Owners};
use std::alloc::{AllocError, Global};
use std::mem::{replace, size_of};

/// The place of an edge line: the number of its module, and its place among the edge lines there.
///
/// It takes 4 bytes, since the lists of all modules may hold millions of them.
#[derive(Clone, Copy)]
pub(crate) struct EdgePlace {
    pub(crate) number: u16,
    pub(crate) line: u16,
}

const _: () = prove!(size_of::<EdgePlace>() == 4);

#[tactic(auto, using(crate::proofs::HaloLists::list_left, crate::proofs::HaloLists::list_read, crate::proofs::HaloLists::list_written))]
fn push_place(
    lists: &mut Vec<Vec<EdgePlace>>,
    number: usize,
    place: EdgePlace,
) -> Result<(), AllocError>
    requires { number < length lists.old.items }
    ensures count { OnOk result (length lists.new.items ≡ length lists.old.items) }
    ensures place_pushed { OnOk result (list_at_or_empty (map (λ l. l.items) lists.new.items) number
        ≡ list_at_or_empty (map (λ l. l.items) lists.old.items) number ++ place ∷ []) }
    ensures others { OnOk result ((i : ℕ) → i ≢ number →
        list_at_or_empty (map (λ l. l.items) lists.new.items) i
        ≡ list_at_or_empty (map (λ l. l.items) lists.old.items) i) }
{
    lists[number].push(place)?;
    Ok(())
}

/// Takes the list of this number out, and leaves an empty one in its place.
#[tactic(auto, using(crate::proofs::HaloLists::list_left, crate::proofs::HaloLists::list_written))]
pub(crate) fn take_list(
    alloc: Global,
    lists: &mut Vec<Vec<EdgePlace>>,
    number: usize,
) -> Vec<EdgePlace>
    requires { number < length lists.old.items }
    ensures count { length lists.new.items ≡ length lists.old.items }
    ensures list_taken { list_at_or_empty (map (λ l. l.items) lists.old.items) number
        ≡ result.items }
    ensures empty { list_at_or_empty (map (λ l. l.items) lists.new.items) number ≡ [] }
    ensures others { (i : ℕ) → i ≢ number →
        list_at_or_empty (map (λ l. l.items) lists.new.items) i
        ≡ list_at_or_empty (map (λ l. l.items) lists.old.items) i }
{
    replace(&mut lists[number], Vec::new(alloc))
}

fn box_at(boxes: &[Box2], number: usize) -> Box2
    requires { number < length boxes.now }
    ensures { slice_get boxes.now number ≡ Some result }
{
    boxes[number]
}

fn is_any_cell_in_box(area: Box2, cells: &[Cell]) -> bool
    ensures { result ≡ list_any (λ c. in_box area c.x c.y) cells.now }
{
    cells.iter().any(|cell| area.holds(*cell))
}

// Adds the place to the list of the box that has the cell, if the box has none of the other cells.
fn push_place_if_owner_lacks_others(
    lists: &mut Vec<Vec<EdgePlace>>,
    owners: &Owners,
    boxes: &[Box2],
    place: EdgePlace,
    cell: Cell,
    others: &[Cell],
) -> Result<(), AllocError>
    requires table { AreOwnersAndListsReady boxes.now owners.now
        (map (λ l. l.items) lists.old.items) }
    requires inside { IsTrue (in_box (rectangle owners.now) cell.x cell.y) }
    ensures { OnOk result (AddsPlaceIfBoxPasses boxes.now
        (λ b. in_box b cell.x cell.y && not (list_any (λ c. in_box b c.x c.y) others.now)) place
        (map (λ l. l.items) lists.old.items) (map (λ l. l.items) lists.new.items)) }
{
    let number = owners.owner(cell);
    let area = box_at(boxes, number);
    if is_any_cell_in_box(area, others) {
        return Ok(());
    }
    push_place(lists, number, place)?;
    Ok(())
}

// The other cells of a block at odd times: in the cell's row, in its column, and the opposite one.
fn other_cells_of_odd_block(cell: Cell) -> (Cell, Cell, Cell)
    requires column { (pos 0 ≤ℤ cell.x) × (cell.x ≤ℤ pos last_column_or_row) }
    requires row { (pos 0 ≤ℤ cell.y) × (cell.y ≤ℤ pos last_column_or_row) }
    ensures side { (result.0.x ≡ partner 1 cell.x) × (result.0.y ≡ cell.y) }
    ensures above { (result.1.x ≡ cell.x) × (result.1.y ≡ partner 1 cell.y) }
    ensures corner { (result.2.x ≡ partner 1 cell.x) × (result.2.y ≡ partner 1 cell.y) }
{
    let Cell { x, y } = cell;
    let column = odd_partner(x);
    let row = odd_partner(y);
    (
        Cell { x: column, y },
        Cell { x, y: row },
        Cell { x: column, y: row },
    )
}

// Adds the place to the list of each box that has the cell in its halo.
fn push_place_for_halo_boxes(
    lists: &mut Vec<Vec<EdgePlace>>,
    owners: &Owners,
    boxes: &[Box2],
    place: EdgePlace,
    cell: Cell,
) -> Result<(), AllocError>
    requires table { AreOwnersAndListsReady boxes.now owners.now
        (map (λ l. l.items) lists.old.items) }
    requires inner { IsInnerCell (rectangle owners.now) cell }
    ensures { OnOk result (AddsPlaceIfBoxPasses boxes.now (λ b. in_halo b cell.x cell.y) place
        (map (λ l. l.items) lists.old.items) (map (λ l. l.items) lists.new.items)) }
{
    // Corners and sides are even, so a box with a neighbour of the cell has it or one of these.
    let (side, above, corner) = other_cells_of_odd_block(cell);
    push_place_if_owner_lacks_others(lists, owners, boxes, place, side, &[cell])?;
    push_place_if_owner_lacks_others(lists, owners, boxes, place, above, &[cell, side])?;
    push_place_if_owner_lacks_others(lists, owners, boxes, place, corner, &[cell, side, above])?;
    Ok(())
}

// Adds the places of the edge lines of the module of this number.
fn push_edge_places_of_module(
    lists: &mut Vec<Vec<EdgePlace>>,
    owners: &Owners,
    boxes: &[Box2],
    number: u16,
    edges: &[StoredBorder],
) -> Result<(), AllocError>
    requires table { AreOwnersAndListsReady boxes.now owners.now
        (map (λ l. l.items) lists.old.items) }
    requires inner { All (λ e. IsInnerCell (rectangle owners.now) (line_cell e)) edges.now }
    requires few { length edges.now ≤ 65536 }
    ensures count { OnOk result (length lists.new.items ≡ length lists.old.items) }
    ensures places { OnOk result ((ms : List StoredModule) (m : StoredModule) →
        slice_get ms number ≡ Some m → m.edges.items ≡ edges.now →
        AddsEdgePlacesInHalo ms boxes.now edges.now (map (λ l. l.items) lists.old.items)
        (map (λ l. l.items) lists.new.items)) }
{
    for (line, edge) in edges.iter().enumerate() {
        let place = EdgePlace {
            number,
            line: line as u16,
        };
        push_place_for_halo_boxes(lists, owners, boxes, place, edge.cell())?;
    }
    Ok(())
}

// Adds the places of all edge lines.
fn push_edge_places(
    lists: &mut Vec<Vec<EdgePlace>>,
    owners: &Owners,
    boxes: &[Box2],
    modules: &[StoredModule],
) -> Result<(), AllocError>
    requires table { AreOwnersAndListsReady boxes.now owners.now
        (map (λ l. l.items) lists.old.items) }
    requires inner { All (λ m. All (λ e. IsInnerCell (rectangle owners.now) (line_cell e))
        m.edges.items) modules.now }
    requires few_modules { length modules.now ≤ max_modules }
    requires few_lines { All (λ m. length m.edges.items ≤ 65536) modules.now }
    ensures { OnOk result (AddsEdgePlacesInHalo modules.now boxes.now
        (flat_map (λ m. m.edges.items) modules.now) (map (λ l. l.items) lists.old.items)
        (map (λ l. l.items) lists.new.items)) }
{
    for (number, module) in modules.iter().enumerate() {
        push_edge_places_of_module(lists, owners, boxes, number as u16, &module.edges)?;
    }
    Ok(())
}

// An empty list for each of `count` boxes.
#[tactic(auto, using(crate::proofs::HaloLists::list_pushed))]
fn empty_place_lists(alloc: Global, count: usize) -> Result<Vec<Vec<EdgePlace>>, AllocError>
    ensures count { IfOk result (λ lists. length lists.items ≡ count) }
    ensures empty { IfOk result (λ lists. (i : ℕ) →
        list_at_or_empty (map (λ l. l.items) lists.items) i ≡ []) }
{
    let mut lists = Vec::new(alloc);
    for _number in 0..count {
        lists.push(Vec::new(alloc))?;
    }
    Ok(lists)
}

/// Returns for each module the places of the edge lines beside it, in the order of the modules and their lines.
///
/// It looks at each edge line once.
pub(crate) fn neighbour_edge_places(
    alloc: Global,
    tables: &LayoutTables,
    owners: &Owners,
    modules: &[StoredModule],
) -> Result<Vec<Vec<EdgePlace>>, AllocError>
    requires good { AreGoodModules tables.now.circuit tables.now.layout modules.now }
    requires owners { IsLayoutOwnerTable tables.now.layout
        (areas (all_module_lines tables.now.circuit modules.now)) owners.now }
    ensures { IfOk result (λ lists. HaveEdgePlacesFromModule
        (setting_of tables.now.circuit tables.now.layout) modules.now 0
        (map (λ l. l.items) lists.items)) }
{
    let boxes = boxes_of(alloc, modules)?;
    let mut lists = empty_place_lists(alloc, modules.len())?;
    let size = tables.layout().size();
    if size.steps <= 1 {
        return Ok(lists);
    }
    push_edge_places(&mut lists, owners, &boxes, modules)?;
    Ok(lists)
}
