//! The order of the lines of a module.
ghost use Rattle.std.specs.Prelude.{◌≡◌, List, None, Option};
ghost use Rattle.certificate_lines.specs.Entries.{last_of};
ghost use Rattle.certificate_lines.specs.Orders.{AreLinesInOrder, rank_of, time_rank, sort_number_of, cell_of, may_precede, may_follow};
ghost use Rattle.certificate_lines.specs.LineKeys.{key_of, key_or_first};
ghost use Rattle.circuit.specs.Meaning.{Circuit};
ghost use Rattle.certificate_lines.specs.StoredModules.{border_line};
ghost use Rattle.certificate_lines.specs.Versions.{border_line_cmp};
ghost use Rattle.certificate_lines.specs.BuilderView.{IsBodyLine, body_line_or_none};
ghost use Rattle.certificate_lines.specs.declared.certificate_line.CertificateLine.{CertificateLine};

use crate::certificate_line::CertificateLine;
use crate::stored_module::StoredBorder;
use bbm_rule::{Cell, compare_cells};
use std::cmp::Ordering;

// The rank of cuts.
const CUT_RANK: u8 = 1;

// The rank of a line by its kind: the lines of a module are in order of their ranks.
#[inline(always)]
#[tactic(auto, unfolding(crate::specs::Orders::rank_of))]
fn rank(entry: &CertificateLine) -> u8
    ensures { result ≡ rank_of entry.now }
{
    match entry {
        CertificateLine::Module(_) => 0,
        CertificateLine::Cut(_) => 1,
        CertificateLine::Use(_) => 2,
        CertificateLine::Keep(_) => 3,
        CertificateLine::Edge(_) => 4,
        CertificateLine::Halo(_) => 5,
        CertificateLine::Stop(_) => 6,
    }
}

// The place of a `*` or a time among times.
fn rank_of_time(time: Option<u32>) -> u64
    ensures { result ≡ time_rank time }
{
    match time {
        None => 0,
        Some(t) => u64::from(t) + 1,
    }
}

// The number of a gate, the place of a border line's time, or the time of a stop.
#[inline(always)]
#[tactic(auto, unfolding(crate::specs::Orders::sort_number_of))]
fn sort_number(entry: &CertificateLine) -> u64
    ensures { result ≡ sort_number_of entry.now }
{
    match entry {
        CertificateLine::Module(_) => 0,
        CertificateLine::Cut(_) => 0,
        CertificateLine::Use(gate) => u64::from(*gate),
        CertificateLine::Keep(gate) => u64::from(*gate),
        CertificateLine::Edge(border) => rank_of_time(border.time),
        CertificateLine::Halo(border) => rank_of_time(border.time),
        CertificateLine::Stop(stop) => u64::from(stop.time),
    }
}

// The cell of a border line or of a stop.
#[tactic(auto, unfolding(crate::specs::Orders::cell_of))]
fn line_cell(entry: &CertificateLine) -> Cell
    ensures { result ≡ cell_of entry.now }
{
    match entry {
        CertificateLine::Edge(border) => border.cell,
        CertificateLine::Halo(border) => border.cell,
        CertificateLine::Stop(stop) => stop.cell,
        CertificateLine::Module(_) => Cell { x: 0, y: 0 },
        CertificateLine::Cut(_) => Cell { x: 0, y: 0 },
        CertificateLine::Use(_) => Cell { x: 0, y: 0 },
        CertificateLine::Keep(_) => Cell { x: 0, y: 0 },
    }
}

/// The place of a line in the order of its module's lines: its kind, its number or time, and its cell.
#[derive(Clone, Copy)]
pub(crate) struct LineKey {
    rank: u8,
    number: u64,
    cell: Cell,
}

/// Returns the key of a `module` line, and of no line.
pub(crate) fn module_line_key() -> LineKey
    ensures { result ≡ key_or_first None }
{
    LineKey {
        rank: 0,
        number: 0,
        cell: Cell { x: 0, y: 0 },
    }
}

/// Returns the key of a line.
#[inline(always)]
pub(crate) fn key_of(entry: &CertificateLine) -> LineKey
    ensures { result ≡ key_of entry.now }
{
    LineKey {
        rank: rank(entry),
        number: sort_number(entry),
        cell: line_cell(entry),
    }
}

// Whether a line of the first key may stand before one of the second. Cuts stand in any order.
#[inline(always)]
#[tactic(auto, using(crate::proofs::LineRanks::cut_rank, crate::proofs::OrderLemmas::cells_precede), unfolding(crate::specs::Orders::may_precede, crate::specs::Orders::line_cmp))]
fn may_precede(first: LineKey, second: LineKey) -> bool
    ensures { (i j : CertificateLine) → first ≡ key_of i → second ≡ key_of j →
        result ≡ may_precede i j }
{
    if first.rank != second.rank {
        return first.rank < second.rank;
    }
    if first.rank == CUT_RANK {
        return true;
    }
    if first.number != second.number {
        return first.number < second.number;
    }
    compare_cells(first.cell, second.cell).is_lt()
}

/// Returns whether a line of a module may follow the lines of the last module of a certificate.
///
/// `last` is the key of the last line. A `module` line comes before all lines of its module.
#[inline(always)]
pub(crate) fn may_follow(last: LineKey, entry: &CertificateLine) -> bool
    requires { IsBodyLine entry.now }
    ensures { (line : Option CertificateLine) (lines : List CertificateLine) →
        last ≡ key_or_first line → AreLinesInOrder lines → last_of lines ≡ body_line_or_none line →
        result ≡ may_follow lines entry.now }
{
    may_precede(last, key_of(entry))
}

/// Compares two edge lines, or two halo lines.
#[tactic(auto, unfolding(crate::specs::Versions::border_line_cmp))]
pub fn compare_borders(first: &StoredBorder, second: &StoredBorder) -> Ordering
    ensures { (c : Circuit) → result
        ≡ border_line_cmp (border_line c first.now) (border_line c second.now) }
{
    rank_of_time(first.time)
        .cmp(&rank_of_time(second.time))
        .then(compare_cells(first.cell(), second.cell()))
}
