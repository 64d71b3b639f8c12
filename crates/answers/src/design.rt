//! The first two sections of a bundle.
ghost use Rattle.std.specs.Prelude.{◌≡◌, true, None, IfErr, IfOk};
ghost use Rattle.section_text.specs.Limits.{limits_line_count};
ghost use Rattle.section_text.specs.Section.{FailsAsReading, Reads};
ghost use Rattle.certificate.specs.Grammars.{certificate_grammar, certificate_section};
ghost use Rattle.certificate_lines.specs.Settings.{setting_of};
ghost use Rattle.answers.specs.BundleReading.{IsDesignRead};
ghost use Rattle.answers.specs.BundleText.{bundle_with_limits};

use certificate::{Cert, read_certificate_within};
use circuit::{Circuit, port_names, read_circuit_within};
use pattern::{Layout, read_layout_within};
use section_text::{Feed, Limits, ReadFault};
use std::alloc::Global;

/// The circuit and the layout of a bundle.
#[derive(Drop)]
pub struct Design {
    pub circuit: Circuit,
    pub layout: Layout,
}

impl Design {
    /// Reads a certificate for the circuit and the layout, with these limits. What follows it stays in the feed.
    pub fn read_certificate<'a>(
        &'a self,
        alloc: Global,
        text: &mut Feed,
        limits: Limits,
    ) -> Result<Cert<'a>, ReadFault>
        requires { text.old.closed ≡ true }
        ensures reads { Reads (certificate_grammar limits
            (setting_of self.now.circuit self.now.layout)) certificate_section text.old text.new
            result }
        ensures circuit { IfOk result (λ cert. cert.circuit ≡ self.now.circuit) }
        ensures layout { IfOk result (λ cert. cert.layout ≡ self.now.layout) }
    {
        read_certificate_within(alloc, text, limits, &self.circuit, &self.layout)
    }
}

/// Reads the circuit and the layout of a bundle with these limits. The lines before its first section were taken.
///
/// # Errors
///
/// The fault of reading the bundle, if one of its first two sections has one; or out of memory.
pub fn read_design(alloc: Global, text: &mut Feed, limits: Limits) -> Result<Design, ReadFault>
    requires text_closed { text.old.closed ≡ true }
    requires front_taken { text.old.taken ≡ limits_line_count limits }
    requires feed_not_stopped { text.old.stop ≡ None }
    ensures closed { text.new.closed ≡ true }
    ensures read { IfOk result (λ design. IsDesignRead limits text.old text.new design.circuit
        design.layout) }
    ensures fault { IfErr result (λ fault. FailsAsReading fault
        (bundle_with_limits limits text.old.text)) }
{
    let circuit = match read_circuit_within(alloc, text, limits) {
        Err(fault) => return Err(fault),
        Ok(circuit) => circuit,
    };
    let Ok(ports) = port_names(alloc, &circuit) else {
        return Err(ReadFault::Memory);
    };
    match read_layout_within(alloc, text, limits, &ports) {
        Err(fault) => Err(fault),
        Ok(layout) => Ok(Design { circuit, layout }),
    }
}
