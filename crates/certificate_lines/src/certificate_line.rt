//! The lines of a certificate, and how many of each kind a module has.

use bbm_rule::Cell;
use module_box::Box2;
use section_text::Name;

/// The signal of a line: a wire's name, or `None` for the constant `1`.
pub type OneOrName = Option<Name>;

/// An edge or halo line: its time, its cell and its signal.
///
/// The time is `None` if the line has a `*`, for every odd time below the steps.
#[derive(Clone, Copy)]
pub struct BorderLine {
    pub time: Option<u32>,
    pub cell: Cell,
    pub signal: OneOrName,
}

/// A stop: a time, and a cell that is live then exactly if the wire of this name is true.
#[derive(Clone, Copy)]
pub struct StopLine {
    pub time: u32,
    pub wire: Name,
    pub cell: Cell,
}

/// A line of a certificate between the header and the end.
#[derive(Clone, Copy)]
pub enum CertificateLine {
    /// The beginning of a module: its box.
    Module(Box2),
    /// A wire that the module cuts: its run tries both values.
    Cut(Name),
    /// The number of a gate that the module uses: its run computes the outputs.
    Use(u32),
    /// The number of an inverse gate that the module answers for: a keep fault is an assignment without a row.
    Keep(u32),
    /// The signal of a cell of the box's ring.
    Edge(BorderLine),
    /// The signal of a cell of the box's halo.
    Halo(BorderLine),
    /// A time at which a cell of the box is live exactly if a wire is true.
    Stop(StopLine),
}

/// A module's box, and how many lines of each kind the module has. Keep lines are not counted.
#[derive(Clone, Copy, Debug, PartialEq, Eq)]
pub struct Counts {
    pub area: Box2,
    pub cuts: usize,
    pub gates: usize,
    pub edges: usize,
    pub halos: usize,
    pub stops: usize,
}
