//! The versions of the certificate section.
ghost use Rattle.std.specs.Prelude.{◌≡◌};
ghost use Rattle.certificate.specs.Grammars.{version_number};
ghost use Rattle.certificate_lines.specs.Versions.{is_haloless_version};

// The versions, by their numbers in the header.
#[derive(Clone, Copy)]
pub(crate) enum Version {
    WithHalos = 1,
    WithoutHalos = 2,
}

impl Version {
    // Whether modules have no halo lines of their own.
    pub(crate) fn is_haloless(self) -> bool
        ensures { result ≡ is_haloless_version (version_number self) }
    {
        matches!(self, Version::WithoutHalos)
    }
}
