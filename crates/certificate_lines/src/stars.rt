//! The cells of lines with a `*`.
ghost use Rattle.std.specs.Prelude.{◌≡◌, ◌<◌, ◌≤◌, ◌||◌, ◌++◌, ◌∷◌, [], if◌then◌else◌, length, OnOk};
ghost use Rattle.std.specs.List.{list_any};
ghost use Rattle.indexmap.specs.IndexSet.{spare};
ghost use Rattle.certificate_lines.specs.BuilderView.{starred_lines};
ghost use Rattle.certificate_lines.specs.Entries.{edge_in, halo_in};
ghost use Rattle.certificate_lines.specs.Rules.{same_cell, is_starred_line_at};
ghost use Rattle.bbm_rule.specs.declared.block.Cell.{Cell};

use crate::certificate_line::{BorderLine, CertificateLine};
use bbm_rule::Cell;
use indexmap::IndexSet;
use std::alloc::AllocError;

/// Returns whether a line with a `*` is for the cell. If no line has one, it hashes nothing.
#[tactic(auto, using(crate::proofs::StarLemmas::none_starred))]
pub(crate) fn has_starred_line_at(stars: &IndexSet<Cell>, cell: Cell) -> bool
    ensures { result ≡ list_any (same_cell cell) stars.now.keys }
{
    if stars.is_empty() {
        return false;
    }
    stars.contains(&cell)
}

// Puts the cell of a line with a `*` behind the others, if it is not among them, where there is room.
#[inline(never)]
fn insert_star(stars: &mut IndexSet<Cell>, cell: Cell)
    requires { 0 < spare stars.old }
    ensures { stars.new.keys
        ≡ (if list_any (same_cell cell) stars.old.keys then stars.old.keys
        else stars.old.keys ++ cell ∷ []) }
{
    match stars.insert(cell) {
        Ok(_) => {}
        Err(_) => unreachable!(),
    }
}

// Notes the cell of a line that has a `*`, where there is room.
#[inline(always)]
#[tactic(auto, using(crate::proofs::StarLemmas::star_noted, crate::proofs::StarLemmas::no_star))]
fn note_if_starred(stars: &mut IndexSet<Cell>, border: &BorderLine)
    requires { length (starred_lines (border.now ∷ [])) ≤ spare stars.old }
    ensures { (c : Cell) →
        list_any (same_cell c) stars.new.keys
        ≡ (list_any (same_cell c) stars.old.keys || is_starred_line_at c border.now) }
{
    if border.time.is_some() {
        return;
    }
    insert_star(stars, border.cell);
}

// Makes room for the cell of a line that has a `*`.
#[inline(always)]
fn make_room_if_starred(stars: &mut IndexSet<Cell>, border: &BorderLine) -> Result<(), AllocError>
    ensures keys { stars.new.keys ≡ stars.old.keys }
    ensures room { OnOk result (length (starred_lines (border.now ∷ [])) ≤ spare stars.new) }
{
    if border.time.is_some() {
        return Ok(());
    }
    stars.reserve(1)
}

/// Makes room for the cell of an edge or halo line that has a `*`.
#[inline(always)]
pub(crate) fn make_room_if_starred_border_line(
    edges: &mut IndexSet<Cell>,
    halos: &mut IndexSet<Cell>,
    entry: &CertificateLine,
) -> Result<(), AllocError>
    ensures edges { edges.new.keys ≡ edges.old.keys }
    ensures halos { halos.new.keys ≡ halos.old.keys }
    ensures edge_room { OnOk result (length (starred_lines (edge_in entry.now)) ≤ spare edges.new) }
    ensures halo_room { OnOk result (length (starred_lines (halo_in entry.now)) ≤ spare halos.new) }
{
    match entry {
        CertificateLine::Edge(border) => make_room_if_starred(edges, border),
        CertificateLine::Halo(border) => make_room_if_starred(halos, border),
        _ => Ok(()),
    }
}

/// Notes the cell of an edge or halo line that has a `*`, if there is room.
#[inline(always)]
pub(crate) fn note_if_starred_border_line(
    edges: &mut IndexSet<Cell>,
    halos: &mut IndexSet<Cell>,
    entry: &CertificateLine,
)
    requires edges { length (starred_lines (edge_in entry.now)) ≤ spare edges.old }
    requires halos { length (starred_lines (halo_in entry.now)) ≤ spare halos.old }
    ensures edges { (c : Cell) →
        list_any (same_cell c) edges.new.keys
        ≡ (list_any (same_cell c) edges.old.keys || list_any (is_starred_line_at c)
        (edge_in entry.now)) }
    ensures halos { (c : Cell) →
        list_any (same_cell c) halos.new.keys
        ≡ (list_any (same_cell c) halos.old.keys || list_any (is_starred_line_at c)
        (halo_in entry.now)) }
{
    match entry {
        CertificateLine::Edge(border) => note_if_starred(edges, border),
        CertificateLine::Halo(border) => note_if_starred(halos, border),
        _ => {}
    }
}
