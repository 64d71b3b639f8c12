//! The tests of a line of a module, after its order.
ghost use Rattle.std.specs.Prelude.{◌≡◌, ◌+◌, ℕ, List, Option};
ghost use Rattle.std.specs.Option.{is_some, option_and_then};
ghost use Rattle.circuit.specs.Meaning.{Circuit, wire_of};
ghost use Rattle.module_box.specs.Locals.{is_among};
ghost use Rattle.certificate_lines.specs.Rules.{whole, is_bad_box_side, is_odd_corner_or_outside, is_odd, is_local_wire, cut_line_code, use_line_code, keep_line_code, is_line_time_allowed, is_edge_place_and_time_allowed, is_halo_place_and_time_allowed, is_stop_place_and_time_allowed, border_or_stop_line_code};

use crate::certificate_line::{BorderLine, StopLine};
use crate::line_tables::LineTables;
use crate::local_wires::{are_all_new_and_distinct, knows_all_wires};
use crate::wire_list::WireList;
use circuit::GateNo;
use module_box::Box2;
use pattern::LayoutHeader;
use section_text::RefusalCode;

// The most cuts of a module, the most gates that it uses, and the most edge, halo and stop lines.
const MAX_CUTS: usize = 12;

const MAX_USED_GATES: usize = 64;

const MAX_TIMED_LINES: usize = 65_536;

/// Returns the whole rectangle of a layout.
pub(crate) fn whole_of(size: LayoutHeader) -> Box2
    ensures { result ≡ whole size }
{
    Box2 {
        x: 0,
        y: 0,
        w: size.w,
        h: size.h,
    }
}

fn is_odd_number(n: u32) -> bool
    ensures { result ≡ is_odd n }
{
    n % 2 == 1
}

/// Returns whether a box's side is odd, too small or too large.
pub(crate) fn is_bad_box_side(n: u32) -> bool
    ensures { result ≡ is_bad_box_side n }
{
    is_odd_number(n) || n < 2 || n > 64
}

/// Returns whether a box has an odd corner, or a cell outside the rectangle.
pub(crate) fn has_odd_corner_or_is_outside(size: LayoutHeader, area: Box2) -> bool
    ensures { result ≡ is_odd_corner_or_outside size area }
{
    let right = u64::from(area.x) + u64::from(area.w);
    let bottom = u64::from(area.y) + u64::from(area.h);
    is_odd_number(area.x)
        || is_odd_number(area.y)
        || right > u64::from(size.w)
        || bottom > u64::from(size.h)
}

/// Returns whether there is a wire, and it is local.
pub(crate) fn is_local_wire(known: &WireList, wire: Option<u16>) -> bool
    ensures { result ≡ is_local_wire known.now.wires wire }
{
    match wire {
        Some(wire) => known.contains(wire),
        None => false,
    }
}

/// Returns the code of a cut of this wire, if `count` wires are cut already. `None` for the wire means that the circuit
/// has no wire of the name.
#[tactic(auto, unfolding(crate::specs::Rules::cut_line_code))]
pub(crate) fn cut_code(count: usize, known: &WireList, wire: Option<u16>) -> Option<RefusalCode>
    ensures { (c : Circuit) (name : List ℕ) → wire ≡ wire_of c name →
        result ≡ cut_line_code c count known.now.wires name }
{
    if count >= MAX_CUTS {
        return Some(RefusalCode::PastLimit);
    }
    match wire {
        None => Some(RefusalCode::UnknownName),
        Some(wire) if known.contains(wire) => Some(RefusalCode::DefinedTwice),
        Some(_) => None,
    }
}

/// Returns the code of a used gate, if `count` gates are used already.
#[tactic(auto, unfolding(crate::specs::Rules::use_line_code, crate::specs::Rules::used_gate_fault))]
pub(crate) fn use_code(
    tables: &LineTables,
    count: usize,
    known: &WireList,
    number: u32,
) -> Option<RefusalCode>
    ensures { result ≡ use_line_code tables.now.circuit count known.now.wires number }
{
    if count >= MAX_USED_GATES {
        return Some(RefusalCode::PastLimit);
    }
    let Some(gate) = tables.gate(number) else {
        return Some(RefusalCode::UnknownName);
    };
    if !knows_all_wires(known, gate.ins()) {
        return Some(RefusalCode::NotLocal);
    }
    if !are_all_new_and_distinct(known, gate.outs()) {
        return Some(RefusalCode::DefinedTwice);
    }
    None
}

// Whether the gate of this number is one of those that are used.
fn is_used_gate(used: &[GateNo], number: u32) -> bool
    ensures { result ≡ is_among used.now number }
{
    used.iter().any(|gate| u32::from(gate.number()) == number)
}

/// Returns the code of a kept gate of a module that uses these gates.
#[tactic(auto, unfolding(crate::specs::Rules::keep_line_code))]
pub(crate) fn keep_code(tables: &LineTables, used: &[GateNo], number: u32) -> Option<RefusalCode>
    ensures { result ≡ keep_line_code tables.now.circuit used.now number }
{
    if !tables.is_inverse(number) {
        return Some(RefusalCode::UnknownName);
    }
    if !is_used_gate(used, number) {
        return Some(RefusalCode::NotLocal);
    }
    None
}

/// Returns the code of an edge, halo or stop line, if `count` of these lines are before it.
///
/// `placed` says whether the line may have its cell and time, and `named` whether its signal is a wire's name. The
/// circuit has no wire of that name if `wire` is `None`.
#[inline(always)]
#[tactic(auto, unfolding(crate::specs::Rules::border_or_stop_line_code, crate::specs::Rules::signal_fault))]
pub(crate) fn border_or_stop_code(
    count: usize,
    known: &WireList,
    placed: bool,
    named: bool,
    wire: Option<u16>,
) -> Option<RefusalCode>
    ensures { (c : Circuit) (signal : Option (List ℕ)) → named ≡ is_some signal →
        wire ≡ option_and_then (wire_of c) signal →
        result ≡ border_or_stop_line_code c count known.now.wires placed signal }
{
    if count >= MAX_TIMED_LINES {
        return Some(RefusalCode::PastLimit);
    }
    if !placed {
        return Some(RefusalCode::NoPlace);
    }
    if !named {
        return None;
    }
    match wire {
        None => Some(RefusalCode::UnknownName),
        Some(wire) if known.contains(wire) => None,
        Some(_) => Some(RefusalCode::NotLocal),
    }
}

// Whether a line may have its time, where its cell has a `*` or has none.
#[tactic(auto, unfolding(crate::specs::Rules::is_line_time_allowed))]
fn may_line_have_time(steps: u32, starred: bool, time: Option<u32>) -> bool
    ensures { result ≡ is_line_time_allowed steps starred time }
{
    match time {
        None => true,
        Some(t) => is_odd_number(t) & (t < steps) & !starred,
    }
}

/// Returns whether an edge line may have its cell and time.
#[inline(always)]
#[tactic(auto, unfolding(crate::specs::Rules::is_edge_place_and_time_allowed))]
pub(crate) fn may_edge_have_place_and_time(
    size: LayoutHeader,
    area: Box2,
    starred: bool,
    border: &BorderLine,
) -> bool
    ensures { result ≡ is_edge_place_and_time_allowed size area starred border.now }
{
    if !area.in_ring(border.cell) {
        return false;
    }
    if whole_of(size).in_ring(border.cell) {
        return false;
    }
    may_line_have_time(size.steps, starred, border.time)
}

/// Returns whether a halo line may have its cell and time.
#[inline(always)]
#[tactic(auto, unfolding(crate::specs::Rules::is_halo_place_and_time_allowed))]
pub(crate) fn may_halo_have_place_and_time(
    size: LayoutHeader,
    area: Box2,
    starred: bool,
    border: &BorderLine,
) -> bool
    ensures { result ≡ is_halo_place_and_time_allowed size area starred border.now }
{
    if !area.in_halo(border.cell) {
        return false;
    }
    if !whole_of(size).holds(border.cell) {
        return false;
    }
    may_line_have_time(size.steps, starred, border.time)
}

/// Returns whether a stop may have its cell and time.
#[tactic(auto, unfolding(crate::specs::Rules::is_stop_place_and_time_allowed))]
pub(crate) fn may_stop_have_place_and_time(size: LayoutHeader, area: Box2, stop: &StopLine) -> bool
    ensures { result ≡ is_stop_place_and_time_allowed size area stop.now }
{
    let inside = area.holds(stop.cell);
    inside & (stop.time <= size.steps)
}
