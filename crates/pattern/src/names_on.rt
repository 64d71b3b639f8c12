//! Which names are on.
ghost use Rattle.std.specs.Prelude.{◌≡◌, ◌++◌, map, OnOk, IfOk};
ghost use Rattle.section_text.specs.Words.{has};

use crate::names::name_set;
use indexmap::IndexSet;
use section_text::{Name, Seed};
use std::alloc::{AllocError, Global};

fn push_whether_name_is_on(
    bits: &mut Vec<bool>,
    names: &[Name],
    on: &IndexSet<Name, Seed>,
) -> Result<(), AllocError>
    ensures { OnOk result (bits.new.items
        ≡ bits.old.items ++ map (λ n. has on.now.keys n) names.now) }
{
    for name in names {
        bits.push(on.contains(name))?;
    }
    Ok(())
}

/// Returns for each of the names whether it is on, that is, one of the names `on`.
pub fn which_names_are_on(
    alloc: Global,
    names: &[Name],
    on: &[Name],
) -> Result<Vec<bool>, AllocError>
    ensures { IfOk result (λ bits. bits.items ≡ map (λ n. has on.now n) names.now) }
{
    let on = name_set(alloc, Seed::of_names(on), on)?;
    let mut bits = Vec::new(alloc);
    push_whether_name_is_on(&mut bits, names, &on)?;
    Ok(bits)
}
