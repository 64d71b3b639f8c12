//! Sets of names.
ghost use Rattle.std.specs.Prelude.{◌≡◌, ◌||◌, ◌<◌, ℕ, List, OnOk, OnErr, IfOk};
ghost use Rattle.std.specs.Str.{bytes_eq};
ghost use Rattle.indexmap.specs.IndexSet.{spare};
ghost use Rattle.section_text.specs.Words.{has};

use indexmap::IndexSet;
use section_text::{Name, Seed};
use std::alloc::{AllocError, Global};

/// Adds a name, if it is not there.
#[tactic(auto, using(crate::proofs::NameSets::has_push, crate::proofs::NameSets::has_again))]
pub(crate) fn add_name(index: &mut IndexSet<Name, Seed>, name: Name) -> Result<(), AllocError>
    ensures ok { OnOk result ((n : List ℕ) →
        has index.new.keys n ≡ (has index.old.keys n || bytes_eq n name)) }
    ensures err { OnErr result (index.new.keys ≡ index.old.keys) }
{
    match index.insert(name) {
        Ok(true) => Ok(()),
        Ok(false) => Ok(()),
        Err(_) => Err(AllocError),
    }
}

/// Adds a name if it is not there and there is room.
#[tactic(auto, using(crate::proofs::NameSets::has_push, crate::proofs::NameSets::has_again))]
pub(crate) fn put_name_if_room(index: &mut IndexSet<Name, Seed>, name: Name)
    requires { 0 < spare index.old }
    ensures { (n : List ℕ) → has index.new.keys n ≡ (has index.old.keys n || bytes_eq n name) }
{
    match index.insert(name) {
        Ok(true) => {}
        Ok(false) => {}
        Err(_) => unreachable!(),
    }
}

/// Returns the set of the names of a list. It hashes by the seed.
pub(crate) fn name_set(
    alloc: Global,
    seed: Seed,
    names: &[Name],
) -> Result<IndexSet<Name, Seed>, AllocError>
    ensures { IfOk result (λ index. (n : List ℕ) → has index.keys n ≡ has names.now n) }
{
    let mut index = IndexSet::with_hasher(alloc, seed);
    for name in names {
        add_name(&mut index, *name)?;
    }
    Ok(index)
}
