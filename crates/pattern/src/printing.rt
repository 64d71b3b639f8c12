//! The text of a layout.
ghost use Rattle.std.specs.Prelude.{◌≡◌, ◌++◌, ℕ, List, OnOk, OnErr, IfOk, codes};
ghost use Rattle.std.specs.List.{flat_map};
ghost use Rattle.section_text.specs.Spelling.{space_and_word, line_text};
ghost use Rattle.pattern.specs.Text.{cell_words, natural_or_zero, layout_text, port_words, box_words, size_words};

use crate::layout::Layout;
use crate::layout_line::{LayoutHeader, Port};
use bbm_rule::{Box2, Cell};
use section_text::{print_number, print_word};
use std::alloc::{AllocError, Global};

// A coordinate of a cell, which is not negative in a layout.
fn natural_or_zero(x: i32) -> u32
    ensures { result ≡ natural_or_zero x }
{
    if x < 0 { 0 } else { x as u32 }
}

/// Writes the column and the row of a cell at the end of `out`, each behind a space.
///
/// A negative one, which no cell of a layout has, is written as 0.
///
/// # Errors
///
/// Out of memory. A part of the bytes may then be written.
pub fn print_cell(out: &mut Vec<u8>, cell: Cell) -> Result<(), AllocError>
    ensures ok { OnOk result (out.new.items
        ≡ out.old.items ++ flat_map space_and_word (cell_words cell)) }
    ensures err { OnErr result ((part : List ℕ) × (out.new.items ≡ out.old.items ++ part)) }
{
    print_number(out, natural_or_zero(cell.x))?;
    print_number(out, natural_or_zero(cell.y))?;
    Ok(())
}

fn print_size(out: &mut Vec<u8>, size: LayoutHeader) -> Result<(), AllocError>
    ensures { OnOk result (out.new.items
        ≡ out.old.items ++ line_text (codes "layout") (size_words size)) }
{
    out.extend_from_slice(b"layout")?;
    print_number(out, size.w)?;
    print_number(out, size.h)?;
    print_number(out, size.steps)?;
    out.push(b'\n')?;
    Ok(())
}

/// Prints the corner and the sides of a box, as four numbers.
///
/// # Errors
///
/// Out of memory. A part of the bytes may then be written.
#[inline]
pub fn print_box(out: &mut Vec<u8>, area: Box2) -> Result<(), AllocError>
    ensures ok { OnOk result (out.new.items
        ≡ out.old.items ++ flat_map space_and_word (box_words area)) }
    ensures err { OnErr result ((part : List ℕ) × (out.new.items ≡ out.old.items ++ part)) }
{
    print_number(out, area.x)?;
    print_number(out, area.y)?;
    print_number(out, area.w)?;
    print_number(out, area.h)?;
    Ok(())
}

fn print_mirror(out: &mut Vec<u8>, area: Box2) -> Result<(), AllocError>
    ensures { OnOk result (out.new.items
        ≡ out.old.items ++ line_text (codes "mirror") (box_words area)) }
{
    out.extend_from_slice(b"mirror")?;
    print_box(out, area)?;
    out.push(b'\n')?;
    Ok(())
}

fn print_mirrors(out: &mut Vec<u8>, mirrors: &[Box2]) -> Result<(), AllocError>
    ensures { OnOk result (out.new.items
        ≡ out.old.items ++ flat_map (λ r. line_text (codes "mirror") (box_words r))
        mirrors.now) }
{
    for mirror in mirrors {
        print_mirror(out, *mirror)?;
    }
    Ok(())
}

fn print_lone_cell(out: &mut Vec<u8>, word: &[u8], cell: Cell) -> Result<(), AllocError>
    ensures { OnOk result (out.new.items ≡ out.old.items ++ line_text word.now (cell_words cell)) }
{
    out.extend_from_slice(word)?;
    print_cell(out, cell)?;
    out.push(b'\n')?;
    Ok(())
}

fn print_cells(out: &mut Vec<u8>, word: &[u8], cells: &[Cell]) -> Result<(), AllocError>
    ensures { OnOk result (out.new.items
        ≡ out.old.items ++ flat_map (λ c. line_text word.now (cell_words c)) cells.now) }
{
    for cell in cells {
        print_lone_cell(out, word, *cell)?;
    }
    Ok(())
}

fn print_port(out: &mut Vec<u8>, word: &[u8], port: &Port) -> Result<(), AllocError>
    ensures { OnOk result (out.new.items
        ≡ out.old.items ++ line_text word.now (port_words port.now)) }
{
    out.extend_from_slice(word)?;
    print_word(out, port.name.bytes())?;
    print_cell(out, port.cell)?;
    out.push(b'\n')?;
    Ok(())
}

fn print_ports(out: &mut Vec<u8>, word: &[u8], ports: &[Port]) -> Result<(), AllocError>
    ensures { OnOk result (out.new.items
        ≡ out.old.items ++ flat_map (λ p. line_text word.now (port_words p)) ports.now) }
{
    for port in ports {
        print_port(out, word, port)?;
    }
    Ok(())
}

/// Returns the text of a layout, from its size line to its `end` line.
///
/// It is the text that the layout was read from, and is read as the same layout (see the laws of this crate).
pub fn print_layout(alloc: Global, layout: &Layout) -> Result<Vec<u8>, AllocError>
    ensures { IfOk result (λ text. text.items ≡ layout_text layout.now) }
{
    let mut out = Vec::new(alloc);
    print_size(&mut out, layout.size())?;
    print_mirrors(&mut out, layout.mirrors())?;
    print_cells(&mut out, b"ball", layout.balls())?;
    print_ports(&mut out, b"in", layout.ins())?;
    print_ports(&mut out, b"out", layout.outs())?;
    print_cells(&mut out, b"waste", layout.wastes())?;
    out.extend_from_slice(b"end\n")?;
    Ok(out)
}
