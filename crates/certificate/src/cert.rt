//! Certificates.
ghost use Rattle.std.specs.Prelude.{◌≡◌, ◌<◌, ◌≤◌, [], length, map, slice_get, Some, None};
ghost use Rattle.pattern.specs.Layout.{parts_of};
ghost use Rattle.pattern.specs.Lines.{AreGoodAfter, size_fault};
ghost use Rattle.certificate_lines.specs.Entries.{areas, line_counts_of, modules_of};
ghost use Rattle.certificate.specs.GoodModules.{IsLayoutOwnerTable};
ghost use Rattle.certificate.specs.ValidCertificates.{IsValidCertificate};
ghost use Rattle.certificate_lines.specs.Versions.{is_haloless_version};

use crate::version::Version;
use certificate_lines::{Counts, PortTablePair, StoredModule};
use circuit::Circuit;
use module_box::Owners;
use pattern::{Layout, LayoutHeader};
use std::marker::Model;

/// A certificate, which cuts a layout of a circuit into modules.
///
/// Contracts see what it is for, its version and its lines, as a `CertView`.
#[derive(Drop)]
pub struct Cert<'a> {
    pub(crate) circuit: &'a Circuit,
    pub(crate) layout: &'a Layout,
    pub(crate) version: Version,
    pub(crate) modules: Vec<StoredModule>,
    // which module has each cell of the layout
    pub(crate) owners: Owners,
    pub(crate) ports: PortTablePair<'a>,
}

impl<'a> Model for Cert<'a> {
    ghost use Rattle.certificate.specs.Grammars.{CertView};

    ghost Value = { CertView };

    ghost use Rattle.certificate.specs.CertView.{AreCertFields, cert_view};

    ghost view = { cert_view };

    ghost invariant = { AreCertFields };
}

impl<'a> Cert<'a> {
    /// Returns the version that the header names, 1 or 2. In version 2 no module has halo lines of its own.
    pub fn version(&self) -> u8
        ensures version { result ≡ self.now.version }
        ensures one_or_two { (1 ≤ result) × (result ≤ 2) }
    {
        self.version as u8
    }

    /// Returns whether no module has halo lines of its own, as in version 2.
    pub fn is_haloless(&self) -> bool
        ensures { result ≡ is_haloless_version self.now.version }
    {
        self.version.is_haloless()
    }

    /// Returns the circuit that the certificate is for.
    pub fn circuit(&self) -> &Circuit
        ensures { result.now ≡ self.now.circuit }
    {
        self.circuit
    }

    /// Returns the layout that the certificate cuts.
    pub fn layout(&self) -> &Layout
        ensures { result.now ≡ self.now.layout }
    {
        self.layout
    }

    /// Returns the width, the height and the steps of the layout: even sides of 2 to 4096, and at most 1,048,576 steps.
    ///
    /// The whole contents of the layout are inside. No cell is taken twice at the start, or twice at the end.
    pub fn size(&self) -> LayoutHeader
        ensures size { result ≡ self.now.layout.size }
        ensures limits { size_fault result ≡ None }
        ensures good { AreGoodAfter result [] (parts_of self.now.layout) }
    {
        self.layout.size()
    }

    /// Returns how many modules the certificate has, at most 65,536. They are numbered from 0 in the order of their
    /// lines.
    ///
    /// - Each module has at most 65,536 edge, halo and stop lines of its own.
    /// - The boxes tile the layout's rectangle. Each has an even corner and even sides of 2 to 64.
    /// - The used gates of a module rise, and the wires that they use are local before them.
    /// - The edge lines of a module are in its ring and not on the rectangle's rim. Its halo lines are in its halo and
    ///   inside the rectangle. Their times are odd and below the steps, their wires are local, and they are in order.
    /// - The wires of the ports in its box are local too.
    /// - Each gate of the circuit uses wires that are defined before it, and the inputs are the circuit's first wires.
    ///
    /// All this holds of the modules as they were written. In version 2 it also holds with the halo lines that the edge
    /// lines beside them mean.
    pub fn modules(&self) -> usize
        ensures count { result ≡ length (modules_of self.now.entries) }
        ensures valid { IsValidCertificate self.now }
    {
        self.circuit.prove_valid();
        self.layout.prove_valid();
        self.modules.len()
    }

    /// Shows that the certificate is valid. It does nothing.
    #[inline(always)]
    pub fn prove_valid(&self)
        ensures { IsValidCertificate self.now }
    {
        self.modules();
    }

    /// Returns the box of a module, and how many lines of each kind it has, for a number below `modules()`.
    pub fn counts(&self, number: usize) -> Counts
        requires { number < length (modules_of self.now.entries) }
        ensures { slice_get (map line_counts_of (modules_of self.now.entries)) number
            ≡ Some result }
    {
        self.modules[number].counts()
    }

    /// Returns the module that has each cell of the layout's rectangle.
    #[tactic(auto, using(certificate_lines::proofs::StoredLemmas::modules_stored))]
    pub fn owners(&self) -> &Owners
        ensures { IsLayoutOwnerTable self.now.layout (areas (modules_of self.now.entries))
            result.now }
    {
        &self.owners
    }
}
