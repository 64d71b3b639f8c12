//! The answers to claims.

/// The answer to a claim.
#[derive(Clone, Copy, Debug, PartialEq, Eq)]
pub enum Claim {
    /// A number that no other claim gives.
    Number(usize),
    /// All numbers were drawn.
    Empty,
}
