//! Replies to findings.

/// The part of a finding that does not match the book.
#[derive(Clone, Copy, Debug, PartialEq, Eq)]
pub enum Mismatch {
    /// It is for another certificate's digest.
    Digest,
    /// The book has no job of its number.
    Number,
    /// Its job is not the book's job of its number.
    Content,
}

/// The answer to a filing: the first that applies, in this order.
#[derive(Clone, Copy, Debug, PartialEq, Eq)]
pub enum Reply {
    /// The book is closed.
    Closed,
    /// The finding is not one of this book's.
    Stranger(Mismatch),
    /// A finding is held for this number already.
    Double(usize),
    /// The finding is held from now on.
    Accepted,
}
