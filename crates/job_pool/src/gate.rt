//! The gate that hears of each number.

/// A gate that hears of each number that a worker draws, before and after the worker's work for it.
///
/// If the number is the first of a group of jobs of the same shape, the worker runs its job and files the findings of
/// all members of the group. For another number there is nothing to do, and another worker may file its finding, before
/// or later. The gate hears nothing after a number for which there was no memory.
///
/// All workers share it, and each reports its own numbers.
pub trait Gate {
    /// Hears that this number was drawn. Nothing was done for it yet.
    fn before(&self, number: usize);

    /// Hears that all was done for this number. If it is the first of its group, the findings of all members were
    /// filed.
    fn after(&self, number: usize);
}

/// A gate that does nothing.
#[derive(Clone, Copy, Debug)]
pub struct OpenGate;

impl Gate for OpenGate {
    fn before(&self, _number: usize) {}

    fn after(&self, _number: usize) {}
}
