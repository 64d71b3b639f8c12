//! Which names the ports of a layout may have.

use crate::name::Name;

/// The names that the ports of a layout may have: any, or only those of a circuit's inputs and outputs.
///
/// If they are given, each of them has a port.
#[derive(Drop)]
pub enum PortNames {
    /// Any name is good, and none has to be there.
    Any,
    /// An input port has a name of `ins`, an output port one of `outs`.
    Only { ins: Vec<Name>, outs: Vec<Name> },
}
