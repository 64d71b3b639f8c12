//! The limits of a text.
ghost use Rattle.std.specs.Prelude.{◌≡◌};
ghost use Rattle.section_text.specs.Limits.{most_bytes, most_gates, most_modules, most_side, most_steps, most_wires};

/// The largest width and height of a layout and of a mirror, in cells.
pub const MAX_SIDE: u32 = 4096;

/// The most steps of a layout.
pub const MAX_STEPS: u32 = 1_048_576;

/// The most wires of a circuit.
pub const MAX_WIRES: usize = 65_000;

/// The most gates of a circuit, sources among them.
pub const MAX_GATES: usize = 16_384;

/// The most modules of a certificate.
pub const MAX_MODULES: usize = 65_536;

/// The most bytes of a text: 256 MiB.
pub const MAX_TEXT_BYTES: usize = 268_435_456;

/// The limits of a text: the first ones, or the second ones, which its first line chooses.
#[derive(Clone, Copy, Debug, PartialEq, Eq)]
pub enum Limits {
    /// Those of a text that begins with its first section.
    First,
    /// Those of a text that begins with the line `limits 2`.
    Second,
}

impl Limits {
    /// Returns how many wires a circuit may have.
    pub fn most_wires(self) -> usize
        ensures { result ≡ most_wires self }
    {
        match self {
            Limits::First => 4096,
            Limits::Second => MAX_WIRES,
        }
    }

    /// Returns how many gates a circuit may have, sources among them.
    pub fn most_gates(self) -> usize
        ensures { result ≡ most_gates self }
    {
        match self {
            Limits::First => 1024,
            Limits::Second => MAX_GATES,
        }
    }

    /// Returns how wide and how high a layout or a mirror may be, in cells.
    pub fn most_side(self) -> u32
        ensures { result ≡ most_side self }
    {
        match self {
            Limits::First => 512,
            Limits::Second => MAX_SIDE,
        }
    }

    /// Returns how many steps a layout may have.
    pub fn most_steps(self) -> u32
        ensures { result ≡ most_steps self }
    {
        match self {
            Limits::First => 65_536,
            Limits::Second => MAX_STEPS,
        }
    }

    /// Returns how many modules a certificate may have.
    pub fn most_modules(self) -> usize
        ensures { result ≡ most_modules self }
    {
        match self {
            Limits::First => 1024,
            Limits::Second => MAX_MODULES,
        }
    }

    /// Returns how many bytes a text may have, the line `limits 2` included.
    pub fn most_bytes(self) -> usize
        ensures { result ≡ most_bytes self }
    {
        match self {
            Limits::First => 16_777_216,
            Limits::Second => MAX_TEXT_BYTES,
        }
    }
}
