//! Ledgers of filings.

use std::marker::Brand;
use std::sync::ledger::Ledger;

/// A ledger of the filings into one book. It names what the book is of, so all that is over it knows that too.
pub trait Filings: Ledger {
    ghost use Rattle.std.specs.Prelude.{ℕ, List};
    ghost use Rattle.module_job.specs.Jobs.{JobView};

    // The digest that the book is for.
    ghost digest: { List ℕ };

    // The book's jobs.
    ghost jobs: { List JobView };
}

impl Filings for Brand {
    ghost use Rattle.std.specs.Prelude.{[]};

    ghost digest = { [] };

    ghost jobs = { [] };
}
