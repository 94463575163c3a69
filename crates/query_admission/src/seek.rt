//! The lists that a query names.

ghost use Rattle.std.specs.Prelude.{◌≡◌, ◌≤◌, [], length, vec_capacity, IfOk, IfSome, IfNone};
ghost use Rattle.query_admission.specs.Screening.{IsSought};
ghost use Rattle.query_admission.specs.declared.seek.Sought.TheVariants.{Known, Unknown};

use super::Memory;
use super::lists::{ListInfo, Lists};
use query_text::Names;
use std::alloc::Global;
use topk_base::MAX_LISTS;

/// What is found of the lists of a query.
#[derive(Drop)]
pub(crate) enum Sought {
    /// What each of them says of itself, in their order.
    Known(Vec<ListInfo>),
    /// No list has the name of the query's list of this number, and this is the first such.
    Unknown { list: u8 },
}

/// Puts what the list of each name says of itself into `known`, which is empty and has room for all, up to the first name that no list
/// has; and answers that name's number, if there is one. Takes no memory.
fn find_all<L: Lists>(lists: &L, names: &Names, known: &mut Vec<ListInfo>) -> Option<u8>
    requires few { length names.now ≤ MAX_LISTS }
    requires none { known.old.items ≡ [] }
    requires room { length names.now ≤ vec_capacity known.old }
    ensures unknown { IfSome result (λ list. IsSought (L.view lists.now) names.now (Unknown list)) }
    ensures known { IfNone result (IsSought (L.view lists.now) names.now (Known known.new)) }
{
    for name in names.iter() {
        let Some(found) = lists.find(name) else {
            let list = known.len() as u8;
            return Some(list);
        };
        known.push_reserved(found);
    }
    None
}

/// Finds the lists of these names.
pub(crate) fn seek<L: Lists>(alloc: Global, lists: &L, names: &Names) -> Result<Sought, Memory>
    requires { length names.now ≤ MAX_LISTS }
    ensures { IfOk result (IsSought (L.view lists.now) names.now) }
{
    let Ok(mut known) = Vec::with_capacity(alloc, names.len() as usize) else {
        return Err(Memory);
    };
    match find_all(lists, names, &mut known) {
        Some(list) => Ok(Sought::Unknown { list }),
        None => Ok(Sought::Known(known)),
    }
}
