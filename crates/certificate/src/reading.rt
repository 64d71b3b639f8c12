//! The reader of the certificate section.
ghost use Rattle.std.specs.Prelude.{◌≡◌, [], true, IfOk};
ghost use Rattle.section_text.specs.Section.{Reads};
ghost use Rattle.certificate.specs.Grammars.{certificate_grammar, certificate_section, version_number};
ghost use Rattle.section_text.specs.declared.limits.Limits.TheVariants.{First};
ghost use Rattle.certificate_lines.specs.Settings.{setting_of};
ghost use Rattle.certificate_lines.specs.Versions.{is_halo_line};

use crate::cert::Cert;
use crate::version::Version;
use certificate_lines::{Builder, BuiltParts, CertificateLine, LineTables, line_form, port_tables};
use circuit::Circuit;
use pattern::Layout;
use section_text::{
    Feed, Form, Limits, Line, LineFault, ReadFault, RefusalCode, Section, read_section,
};
use std::alloc::Global;
use std::marker::{Brand, PhantomData};

// The circuit and the layout that a section is read for. No line changes them.
trait CertificateSetting {
    ghost use Rattle.certificate_lines.specs.Entries.{Setting};

    ghost setting: { Setting };
}

impl CertificateSetting for Brand {
    ghost use Rattle.std.specs.Prelude.{[]};

    ghost setting = { record {
      circuit = record { netlist = record { given = 0; gates = [] }; names = [] };
      size = record { w = 0; h = 0; steps = 0 };
      ports = [];
    } };
}

// A certificate that is read: its version, and its lines so far.
#[derive(Drop)]
struct Reading<'a, S: CertificateSetting> {
    alloc: Global,
    limits: Limits,
    version: Version,
    builder: Builder<'a>,
    read_for: PhantomData<S>,
    ghost same_setting: { builder.setting ≡ S.setting },
}

// Whether a line is a halo line.
#[tactic(auto, unfolding(certificate_lines::specs::Versions::is_halo_line))]
fn is_halo_line(line: &CertificateLine) -> bool
    ensures { result ≡ is_halo_line line.now }
{
    matches!(line, CertificateLine::Halo(_))
}

impl<'a, S: CertificateSetting> Section for Reading<'a, S> {
    type Header = u32;

    type Item = CertificateLine;

    ghost grammar = { λ r. certificate_grammar r.limits r.builder.setting };

    ghost header = { λ r. version_number r.version };

    ghost items = { λ r. r.builder.entries };

    #[inline(always)]
    fn form(&self, feed: &Feed, line: &Line) -> Option<Form<u32, CertificateLine>> {
        line_form(feed, line)
    }

    fn begin(&mut self, version: u32) -> Result<(), LineFault> {
        self.version = match version {
            1 => Version::WithHalos,
            2 => Version::WithoutHalos,
            _ => return Err(LineFault::Code(RefusalCode::PastLimit)),
        };
        Ok(())
    }

    fn add(&mut self, entry: CertificateLine) -> Result<(), LineFault> {
        if self.version.is_haloless() & is_halo_line(&entry) {
            return Err(LineFault::Code(RefusalCode::NoForm));
        }
        if let Some(code) = self.builder.module_limit_code(self.limits, &entry) {
            return Err(LineFault::Code(code));
        }
        self.builder.add(self.alloc, entry)
    }

    fn missing(&self) -> Option<RefusalCode> {
        if let Some(code) = self.builder.missing() {
            return Some(code);
        }
        if self.version.is_haloless() && self.builder.has_nonlocal_edge_wire_beside() {
            return Some(RefusalCode::SomethingMissing);
        }
        None
    }
}

// Reads the lines of a section into a builder without lines.
fn read_lines<'a, S: CertificateSetting>(
    alloc: Global,
    feed: &mut Feed,
    limits: Limits,
    builder: Builder<'a>,
) -> (Result<(), ReadFault>, Version, Builder<'a>)
    requires text_closed { feed.old.closed ≡ true }
    requires right_setting { builder.setting ≡ S.setting }
    requires builder_empty { builder.entries ≡ [] }
    ensures reads { Reads (certificate_grammar limits S.setting)
        (λ _. (version_number result.1, result.2.entries)) feed.old feed.new result.0 }
    ensures same_setting { result.2.setting ≡ S.setting }
{
    let mut reading: Reading<'a, S> = Reading {
        alloc,
        limits,
        version: Version::WithHalos,
        builder,
        read_for: PhantomData,
    };
    let read = read_section(feed, &mut reading);
    let Reading {
        version,
        builder,
        ..
    } = reading;
    (read, version, builder)
}

/// Reads a certificate section as `read_certificate_within` does, of at most 1024 modules.
pub fn read_certificate<'a>(
    alloc: Global,
    feed: &mut Feed,
    circuit: &'a Circuit,
    layout: &'a Layout,
) -> Result<Cert<'a>, ReadFault>
    requires { feed.old.closed ≡ true }
    ensures reads { Reads (certificate_grammar First (setting_of circuit.now layout.now))
        certificate_section feed.old feed.new result }
    ensures circuit { IfOk result (λ cert. cert.circuit ≡ circuit.now) }
    ensures layout { IfOk result (λ cert. cert.layout ≡ layout.now) }
{
    read_certificate_within(alloc, feed, Limits::First, circuit, layout)
}

/// Reads a certificate section for a circuit and a layout, in a text with these limits.
///
/// # Errors
///
/// Out of memory, or the first line that is refused, counted from 1 over the whole feed. The feed keeps its fault. The
/// code is that of the first test that the line fails:
///
/// - 12: it is not there or not ended;
/// - 1: it has none of the forms of this section, or it is a halo line in version 2;
/// - 6: it is out of its place, or its list does not rise;
/// - 11: it is `module` or `end`, and a port in the box of the module before it has a wire that is not local there;
/// - 11: it is `end`, and some cell of the rectangle lies in no box;
/// - 11: it is `end` in version 2, and a module does not know the wire of an edge line for a cell of its halo;
/// - 2: the version is not 1 or 2, or a side of a box is odd or not 2 to 64;
/// - 2: there are more modules than the limits allow, or more than twelve cuts, 64 used gates, or 65,536 edge, halo
///   and stop lines of a module;
/// - 8: a box has an odd corner, or a cell outside the rectangle or in an earlier box;
/// - 10: an edge, halo or stop line may not have its cell or time;
/// - 3: there is no wire of this name, no gate of this number, or, at `keep`, no inverse gate of this number;
/// - 9: the wire of a signal or a stop, or an input of a used gate, is not local, or a gate that is kept is not used;
/// - 4: a wire that is cut, or an output of a used gate, is local already.
pub fn read_certificate_within<'a>(
    alloc: Global,
    feed: &mut Feed,
    limits: Limits,
    circuit: &'a Circuit,
    layout: &'a Layout,
) -> Result<Cert<'a>, ReadFault>
    requires { feed.old.closed ≡ true }
    ensures reads { Reads (certificate_grammar limits (setting_of circuit.now layout.now))
        certificate_section feed.old feed.new result }
    ensures circuit { IfOk result (λ cert. cert.circuit ≡ circuit.now) }
    ensures layout { IfOk result (λ cert. cert.layout ≡ layout.now) }
{
    let Ok(ports) = port_tables(alloc, circuit, layout) else {
        return Err(feed.starve());
    };
    let Ok(builder) = Builder::new(alloc, LineTables::new(circuit, layout, &ports)) else {
        return Err(feed.starve());
    };
    let (read, version, builder) = read_lines::<Brand>(alloc, feed, limits, builder);
    let BuiltParts { modules, owners } = builder.into_parts();
    match read {
        Ok(()) => Ok(Cert {
            circuit,
            layout,
            version,
            modules,
            owners,
            ports,
        }),
        Err(fault) => Err(fault),
    }
}
