//! The text of a certificate.
ghost use Rattle.std.specs.Prelude.{◌≡◌, ◌++◌, [], ◌∷◌, List, OnOk, IfOk, IfSome, codes};
ghost use Rattle.std.specs.List.{All, flat_map};
ghost use Rattle.std.specs.Option.{option_map};
ghost use Rattle.std.specs.Fmt.{decimal};
ghost use Rattle.section_text.specs.Spelling.{space_and_word, line_text};
ghost use Rattle.pattern.specs.Text.{box_words};
ghost use Rattle.circuit.specs.Bridge.{circuit_of};
ghost use Rattle.certificate.specs.Grammars.{version_number};
ghost use Rattle.certificate.specs.Text.{star_or_time_word, one_or_name_word, border_words, entry_text, stop_words, certificate_text};
ghost use Rattle.certificate_lines.specs.StoredModules.{HasCircuitWire, HasCircuitWires, IsCircuitWire, body_lines_with, border_line, lines_of_modules, stop_line, wire_name};
ghost use Rattle.certificate_lines.specs.declared.certificate_line.CertificateLine.TheVariants.{Module};

use crate::cert::Cert;
use crate::version::Version;
use certificate_lines::{StoredBorder, StoredModule, StoredStop};
use circuit::{Circuit, GateNo, WireNo};
use module_box::Box2;
use pattern::{print_box, print_cell};
use section_text::{print_number, print_word};
use std::alloc::{AllocError, Global};

/// Prints the header line.
pub(crate) fn print_header(out: &mut Vec<u8>, version: Version) -> Result<(), AllocError>
    ensures { OnOk result (out.new.items
        ≡ out.old.items ++ line_text (codes "certificate")
        (decimal (version_number version) ∷ [])) }
{
    out.extend_from_slice(b"certificate")?;
    print_number(out, version as u32)?;
    out.push(b'\n')?;
    Ok(())
}

fn print_module(out: &mut Vec<u8>, area: Box2) -> Result<(), AllocError>
    ensures { OnOk result (out.new.items
        ≡ out.old.items ++ line_text (codes "module") (box_words area)) }
{
    out.extend_from_slice(b"module")?;
    print_box(out, area)?;
    out.push(b'\n')?;
    Ok(())
}

// The name of a wire.
fn print_wire(out: &mut Vec<u8>, circuit: &Circuit, wire: WireNo) -> Result<(), AllocError>
    requires { IsCircuitWire (circuit_of circuit.now) wire }
    ensures { OnOk result (out.new.items
        ≡ out.old.items ++ space_and_word (wire_name (circuit_of circuit.now) wire)) }
{
    print_word(out, circuit.name(wire).bytes())?;
    Ok(())
}

// The lines that cut wires.
fn print_cuts(out: &mut Vec<u8>, circuit: &Circuit, cuts: &[WireNo]) -> Result<(), AllocError>
    requires { All (IsCircuitWire (circuit_of circuit.now)) cuts.now }
    ensures { OnOk result (out.new.items ≡ out.old.items
        ++ flat_map (λ w. line_text (codes "cut") (wire_name (circuit_of circuit.now) w ∷ []))
        cuts.now) }
{
    for wire in cuts {
        out.extend_from_slice(b"cut")?;
        print_wire(out, circuit, *wire)?;
        out.push(b'\n')?;
    }
    Ok(())
}

// The lines that use or keep gates.
fn print_use_or_keep_lines(
    out: &mut Vec<u8>,
    word: &[u8],
    gates: &[GateNo],
) -> Result<(), AllocError>
    ensures { OnOk result (out.new.items ≡ out.old.items
        ++ flat_map (λ k. line_text word.now (decimal k ∷ [])) gates.now) }
{
    for gate in gates {
        out.extend_from_slice(word)?;
        print_number(out, u32::from(gate.number()))?;
        out.push(b'\n')?;
    }
    Ok(())
}

// A time, or `*` for every odd time.
fn print_star_or_time(out: &mut Vec<u8>, time: Option<u32>) -> Result<(), AllocError>
    ensures { OnOk result (out.new.items
        ≡ out.old.items ++ space_and_word (star_or_time_word time)) }
{
    match time {
        None => print_word(out, b"*"),
        Some(number) => print_number(out, number),
    }
}

// The name of a wire, or the constant `1`.
fn print_one_or_wire(
    out: &mut Vec<u8>,
    circuit: &Circuit,
    wire: Option<u16>,
) -> Result<(), AllocError>
    requires { IfSome wire (IsCircuitWire (circuit_of circuit.now)) }
    ensures { OnOk result (out.new.items ≡ out.old.items
        ++ space_and_word (one_or_name_word
        (option_map (wire_name (circuit_of circuit.now)) wire))) }
{
    match wire {
        None => print_word(out, b"1"),
        Some(number) => print_wire(out, circuit, WireNo::of(number)),
    }
}

// Edge or halo lines.
fn print_borders(
    out: &mut Vec<u8>,
    word: &[u8],
    circuit: &Circuit,
    borders: &[StoredBorder],
) -> Result<(), AllocError>
    requires { All (HasCircuitWire (circuit_of circuit.now)) borders.now }
    ensures { OnOk result (out.new.items ≡ out.old.items
        ++ flat_map (λ b. line_text word.now
        (border_words (border_line (circuit_of circuit.now) b))) borders.now) }
{
    for border in borders {
        out.extend_from_slice(word)?;
        print_star_or_time(out, border.time)?;
        print_cell(out, border.cell())?;
        print_one_or_wire(out, circuit, border.wire)?;
        out.push(b'\n')?;
    }
    Ok(())
}

fn print_stops(out: &mut Vec<u8>, circuit: &Circuit, stops: &[StoredStop]) -> Result<(), AllocError>
    requires { All (λ s. IsCircuitWire (circuit_of circuit.now) s.wire) stops.now }
    ensures { OnOk result (out.new.items ≡ out.old.items
        ++ flat_map (λ s. line_text (codes "stop")
        (stop_words (stop_line (circuit_of circuit.now) s))) stops.now) }
{
    for stop in stops {
        out.extend_from_slice(b"stop")?;
        print_number(out, stop.time)?;
        print_wire(out, circuit, WireNo::of(stop.wire))?;
        print_cell(out, stop.cell())?;
        out.push(b'\n')?;
    }
    Ok(())
}

/// Prints the lines of a module, with these halo lines in place of its own.
pub(crate) fn print_module_lines(
    out: &mut Vec<u8>,
    circuit: &Circuit,
    stored: &StoredModule,
    halos: &[StoredBorder],
) -> Result<(), AllocError>
    requires wires { HasCircuitWires (circuit_of circuit.now) stored.now }
    requires halo_wires { All (HasCircuitWire (circuit_of circuit.now)) halos.now }
    ensures { OnOk result (out.new.items ≡ out.old.items
        ++ flat_map entry_text (Module stored.now.area
        ∷ body_lines_with (circuit_of circuit.now) stored.now halos.now)) }
{
    print_module(out, stored.area)?;
    print_cuts(out, circuit, &stored.cuts)?;
    print_use_or_keep_lines(out, b"use", &stored.gates)?;
    print_use_or_keep_lines(out, b"keep", &stored.keeps)?;
    print_borders(out, b"edge", circuit, &stored.edges)?;
    print_borders(out, b"halo", circuit, halos)?;
    print_stops(out, circuit, &stored.stops)?;
    Ok(())
}

// The lines of modules.
#[tactic(auto, using(crate::proofs::PrintedLines::module_more, crate::proofs::StoredSignals::all_at))]
fn print_modules(
    out: &mut Vec<u8>,
    circuit: &Circuit,
    modules: &[StoredModule],
) -> Result<(), AllocError>
    requires { All (HasCircuitWires (circuit_of circuit.now)) modules.now }
    ensures { OnOk result (out.new.items ≡ out.old.items
        ++ flat_map entry_text (lines_of_modules (circuit_of circuit.now) modules.now)) }
{
    for module in modules {
        print_module_lines(out, circuit, module, &module.halos)?;
    }
    Ok(())
}

/// Returns the text of a certificate: the bytes of its section, from its header line to its `end` line with the line
/// feed.
///
/// It is the text that the certificate was read from, and is read as the same certificate (see the laws of this crate).
#[tactic(auto, unfolding(crate::specs::Text::certificate_text))]
pub fn print_certificate(alloc: Global, cert: &Cert) -> Result<Vec<u8>, AllocError>
    ensures { IfOk result (λ text. text.items ≡ certificate_text cert.now) }
{
    let mut out = Vec::new(alloc);
    print_header(&mut out, cert.version)?;
    print_modules(&mut out, cert.circuit, &cert.modules)?;
    out.extend_from_slice(b"end\n")?;
    Ok(out)
}
