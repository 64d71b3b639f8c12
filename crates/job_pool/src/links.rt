//! The members of groups, each linked to the next one, so that all members of all groups are met in one pass.
ghost use Rattle.std.specs.Prelude.{◌<◌, length, IfOk};
ghost use Rattle.std.specs.List.{All};
ghost use Rattle.job_pool.specs.Links.{AreGroupLinks};

use std::alloc::{AllocError, Global};

/// Returns for each number the next one of its group, or the count of all if there is none.
///
/// `groups` has for each number the first one of its group.
#[tactic(auto, using(crate::proofs::Linking::all_linked, crate::proofs::Linking::linked_one, crate::proofs::Linking::none_linked))]
pub(crate) fn link_members(alloc: Global, groups: &[usize]) -> Result<Vec<usize>, AllocError>
    requires { All (λ g. g < length groups.now) groups.now }
    ensures { IfOk result (λ links. AreGroupLinks groups.now links.items) }
{
    let count = groups.len();
    let mut links = vec![in alloc; count; count]?;
    // For each group, by its first number, the least member so far.
    let mut nearest = vec![in alloc; count; count]?;
    for done in 0..count {
        let number = count - 1 - done;
        let group = groups[number];
        links[number] = nearest[group];
        nearest[group] = number;
    }
    Ok(links)
}
