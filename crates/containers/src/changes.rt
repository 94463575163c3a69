//! Changes of one key's rank.

ghost use Rattle.std.specs.Prelude.{◌≡◌, ◌+◌, ◌-◌, ◌<◌, ◌≤◌, ◌++◌, length, replicate, slice_set, vec_capacity};
ghost use Rattle.containers.specs.Tree.{place_of_key, ranks_of, IsHeap, IsLoose, IsWith, Keeps};

use super::tree::{Ranked, exchange, settle};

/// The place that is kept for a key, None where none is.
pub(crate) fn place_of_key(places: &[Option<u32>], key: u32) -> Option<u32>
    ensures { result ≡ place_of_key places.now key }
{
    match places.get(key as usize) {
        Some(place) => *place,
        None => None,
    }
}

/// Makes the places long enough for a key. There is memory for them.
pub(crate) fn reach(places: &mut Vec<Option<u32>>, key: u32)
    requires { key < vec_capacity places.old }
    ensures items { places.new.items ≡ places.old.items ++ replicate (key + 1 - length places.old.items) None }
    ensures capacity { vec_capacity places.old ≤ vec_capacity places.new }
{
    let len = key as usize + 1;
    if places.len() < len {
        places.resize(len, None).unwrap();
    }
}

/// Gives a key another rank, whose node is at this place.
pub(crate) fn change<T: Ord + Copy>(
    nodes: &mut [Ranked<T>],
    places: &mut [Option<u32>],
    place: u32,
    node: Ranked<T>,
)
    requires keeps { Keeps T.cmp nodes.old places.old }
    requires there { place_of_key places.old node.key ≡ Some place }
    requires within { place < length nodes.old }
    ensures keeps { Keeps T.cmp nodes.new places.new }
    ensures ranks { ranks_of nodes.new places.new ≡ slice_set (ranks_of nodes.old places.old) node.key (Some node.rank) }
    ensures nodes { length nodes.new ≡ length nodes.old }
    ensures places { length places.new ≡ length places.old }
{
    nodes[place as usize] = node;
    settle(nodes, places, place as usize);
}

/// Gives a rank to a key that has none. There is memory for its node.
pub(crate) fn add<T: Ord + Copy>(
    nodes: &mut Vec<Ranked<T>>,
    places: &mut [Option<u32>],
    node: Ranked<T>,
)
    requires keeps { Keeps T.cmp nodes.old.items places.old }
    requires within { node.key < length places.old }
    requires absent { place_of_key places.old node.key ≡ None }
    requires room { length places.old ≤ vec_capacity nodes.old }
    ensures keeps { Keeps T.cmp nodes.new.items places.new }
    ensures ranks { ranks_of nodes.new.items places.new ≡ slice_set (ranks_of nodes.old.items places.old) node.key (Some node.rank) }
    ensures places { length places.new ≡ length places.old }
    ensures capacity { vec_capacity nodes.new ≡ vec_capacity nodes.old }
{
    let place = nodes.len();
    nodes.push_reserved(node);
    places[node.key as usize] = Some(place as u32);
    settle(nodes, places, place);
}

/// Exchanges the node at a place, which is the key's, with the last one, and takes it away.
fn drop_node<T: Ord + Copy>(
    nodes: &mut Vec<Ranked<T>>,
    places: &mut [Option<u32>],
    place: u32,
    key: u32,
)
    requires keeps { Keeps T.cmp nodes.old.items places.old }
    requires there { place_of_key places.old key ≡ Some place }
    ensures left { IsWith nodes.new.items places.new (slice_set (ranks_of nodes.old.items places.old) key None) }
    ensures loose { place < length nodes.new.items → IsLoose T.cmp place nodes.new.items }
    ensures heap { length nodes.new.items ≤ place → IsHeap T.cmp nodes.new.items }
    ensures places { length places.new ≡ length places.old }
    ensures capacity { vec_capacity nodes.new ≡ vec_capacity nodes.old }
{
    let last = nodes.len() - 1;
    exchange(nodes, places, place as usize, last);
    nodes.pop();
    places[key as usize] = None;
}

/// Takes the rank of a key away, whose node is at this place.
pub(crate) fn take_out<T: Ord + Copy>(
    nodes: &mut Vec<Ranked<T>>,
    places: &mut [Option<u32>],
    place: u32,
    key: u32,
)
    requires keeps { Keeps T.cmp nodes.old.items places.old }
    requires there { place_of_key places.old key ≡ Some place }
    ensures keeps { Keeps T.cmp nodes.new.items places.new }
    ensures ranks { ranks_of nodes.new.items places.new ≡ slice_set (ranks_of nodes.old.items places.old) key None }
    ensures places { length places.new ≡ length places.old }
    ensures capacity { vec_capacity nodes.new ≡ vec_capacity nodes.old }
{
    drop_node(nodes, places, place, key);
    if (place as usize) < nodes.len() {
        settle(nodes, places, place as usize);
    }
}
