//! The reports on the worked bundles. The faults were worked out by hand, and the digests with `sha256sum`.

pub(crate) const YES_REPORT: &str =
    "bbmcheck 1\ncertificate d5179054236863287e44f81f6d885e72f8859fc7e868d6e92ed1d7c0a74ecc33\nmodules 4\nverdict yes\n";

/// Nothing comes back to (2, 2) under q alone, and the last module says that q is at (4, 4).
pub(crate) const NO_REPORT: &str =
    "bbmcheck 1\ncertificate 0b31fe62299923aac3ded52f5d0ba3b1d624efda618911affd45f7b0076457b4\nmodules 4\nverdict no\nlocal 0 end 3 2 2 2\nborder 0 1 4 4\n";
