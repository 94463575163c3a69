//! The lists of a bundle.

ghost use Rattle.std.specs.Prelude.{◌≡◌, ◌<◌, length, position, All, IfOk};
ghost use Rattle.std.specs.Str.{bytes_eq};
ghost use Rattle.bundle_text.specs.Bundle.{content, IsBundle};
ghost use Rattle.bundle_calls.specs.Bundled.{lists_at};

use super::told::ToldList;
use bundle_text::Bundle;
use query_admission::{ListInfo, Lists};
use std::alloc::Global;
use std::marker::Model;
use topk_base::Memory;

/// The lists of a bundle by name: all are told, all offer random access and can be read in order, and all are at version 0. The
/// number of a list's source is its place in the bundle. Contracts see the bundle's content.
#[derive(Drop)]
pub(crate) struct Bundled<'a> {
    bundle: &'a Bundle,
}

impl<'a> Model for Bundled<'a> {
    ghost use Rattle.bundle_text.specs.Bundle.{Content, content, IsBundle};

    ghost Value = { Content };

    ghost view = { λ a. content a.bundle.now };

    ghost invariant = { λ a. IsBundle (content a.bundle.now) };
}

impl<'a> Bundled<'a> {
    /// The lists of a bundle. Takes no memory.
    pub(crate) fn of(bundle: &'a Bundle) -> Bundled<'a>
        requires { IsBundle (content bundle.now) }
        ensures { result ≡ content bundle.now }
    {
        Bundled { bundle }
    }
}

impl<'a> Lists for Bundled<'a> {
    ghost use Rattle.bundle_calls.specs.Bundled.{bundle_view};

    ghost view = { bundle_view };

    fn find(&self, name: &[u8]) -> Option<ListInfo> {
        let Some(place) = place_of_name(&self.bundle.names, name) else {
            return None;
        };
        Some(ListInfo {
            size: Some(u64::from(self.bundle.lists[place].len())),
            random: true,
            sorted: true,
            source: place as u32,
            version: 0,
        })
    }
}

/// Where a name stands.
fn place_of_name(names: &[Vec<u8>], name: &[u8]) -> Option<usize>
    ensures { result ≡ position (λ other. bytes_eq other.items name.now) names.now }
{
    names.iter().position(|other| other.as_slice() == name)
}

/// The lists at these places of a bundle.
pub(crate) fn told_lists<'a>(
    alloc: Global,
    bundle: &'a Bundle,
    places: &[u32],
) -> Result<Vec<ToldList<'a>>, Memory>
    requires { All (λ place. place < length (content bundle.now).lists) places.now }
    ensures { IfOk result (λ lists. lists.items ≡ lists_at (content bundle.now) places.now) }
{
    let mut lists = Vec::new(alloc);
    for place in places {
        let list = ToldList::of(&bundle.lists[*place as usize]);
        let Ok(()) = lists.push(list) else {
            return Err(Memory);
        };
    }
    Ok(lists)
}
