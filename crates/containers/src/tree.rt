//! The tree under a heap: a list of keys with ranks, of which none has a greater rank than the one above it. Under the node at
//! a place stand those at twice the place and one, and at the next. Beside the list, the place of each key's node.

ghost use Rattle.std.specs.Prelude.{◌≡◌, ◌+◌, ◌*◌, ◌<◌, ◌≤◌, length, slice_set, MatchOption, Some};
ghost use Rattle.std.specs.Ordering.{is_lt};
ghost use Rattle.containers.specs.Tree.{above, node_at, node_cmp, IsUpTo, IsHeap, IsLoose, IsRising, IsSinking, IsUnderNoGreater, CoversUnder, IsGreatestUnder, IsGreaterUnder, IsExchanged, IsPlaced, IsMoved};

use topk_base::MAX_OBJECTS;

/// A key that has a rank.
#[derive(Clone, Copy, Debug, PartialEq, Eq)]
pub struct Ranked<T> {
    pub key: u32,
    pub rank: T,
}

/// Exchanges two nodes.
pub(crate) fn exchange<T: Ord + Copy>(
    nodes: &mut [Ranked<T>],
    places: &mut [Option<u32>],
    one: usize,
    other: usize,
)
    requires placed { IsPlaced nodes.old places.old }
    requires one { one < length nodes.old }
    requires other { other < length nodes.old }
    ensures exchanged { IsExchanged one other nodes.old nodes.new }
    ensures moved { IsMoved nodes.old nodes.new places.old places.new }
{
    let first = nodes[one];
    let second = nodes[other];
    nodes[one] = second;
    nodes[other] = first;
    places[second.key as usize] = Some(one as u32);
    places[first.key as usize] = Some(other as u32);
}

/// Whether the node at the first place is less than the one at the second.
fn is_less<T: Ord + Copy>(nodes: &[Ranked<T>], first: usize, second: usize) -> bool
    requires first { first < length nodes.now }
    requires second { second < length nodes.now }
    ensures { result ≡ is_lt (node_cmp T.cmp (node_at nodes.now first) (node_at nodes.now second)) }
{
    nodes[first].rank < nodes[second].rank
}

/// Whether a node is less than the one at a place.
fn is_below<T: Ord + Copy>(node: Ranked<T>, nodes: &[Ranked<T>], place: usize) -> bool
    requires { place < length nodes.now }
    ensures { result ≡ is_lt (node_cmp T.cmp (Some node) (node_at nodes.now place)) }
{
    node.rank < nodes[place].rank
}

/// The place above a hole, where the node there is less than the one for the hole.
fn less_above<T: Ord + Copy>(nodes: &[Ranked<T>], hole: usize, node: Ranked<T>) -> Option<usize>
    requires { hole < length nodes.now }
    ensures { MatchOption result (1 ≤ hole → IsUpTo T.cmp (slice_set nodes.now hole node) hole (above hole)) (IsUnderNoGreater T.cmp (slice_set nodes.now hole node) hole) }
{
    if hole == 0 {
        return None;
    }
    let above = (hole - 1) / 2;
    if nodes[above].rank < node.rank {
        Some(above)
    } else {
        None
    }
}

/// The place of the greatest node under one, None where none is.
fn greatest_under<T: Ord + Copy>(nodes: &[Ranked<T>], place: usize) -> Option<usize>
    requires within { place < length nodes.now }
    requires few { length nodes.now ≤ MAX_OBJECTS }
    ensures { MatchOption result (length nodes.now ≤ 2 * place + 1) (IsGreatestUnder T.cmp nodes.now place) }
{
    let first = 2 * place + 1;
    let second = 2 * place + 2;
    if second < nodes.len() && is_less(nodes, first, second) {
        return Some(second);
    }
    if first < nodes.len() {
        Some(first)
    } else {
        None
    }
}

/// The place of the greatest node under a hole, where it is greater than the one for the hole.
fn greater_under<T: Ord + Copy>(nodes: &[Ranked<T>], hole: usize, node: Ranked<T>) -> Option<usize>
    requires within { hole < length nodes.now }
    requires few { length nodes.now ≤ MAX_OBJECTS }
    ensures { MatchOption result (CoversUnder T.cmp (slice_set nodes.now hole node) hole hole) (IsGreaterUnder T.cmp (slice_set nodes.now hole node) hole) }
{
    let under = greatest_under(nodes, hole)?;
    if is_below(node, nodes, under) {
        Some(under)
    } else {
        None
    }
}

/// Writes a node at a place, and the place of its key.
fn stand<T: Copy>(
    nodes: &mut [Ranked<T>],
    places: &mut [Option<u32>],
    place: usize,
    node: Ranked<T>,
)
    requires place { place < length nodes.old }
    requires few { length nodes.old ≤ MAX_OBJECTS }
    requires key { node.key < length places.old }
    ensures nodes { nodes.new ≡ slice_set nodes.old place node }
    ensures places { places.new ≡ slice_set places.old node.key (Some place) }
{
    nodes[place] = node;
    places[node.key as usize] = Some(place as u32);
}

/// Lets the node at a place rise above each that is less: these come down one after another, and it stands where the last one stood.
fn rise<T: Ord + Copy>(nodes: &mut [Ranked<T>], places: &mut [Option<u32>], from: usize)
    requires placed { IsPlaced nodes.old places.old }
    requires rising { IsRising T.cmp from nodes.old }
    ensures heap { IsHeap T.cmp nodes.new }
    ensures moved { IsMoved nodes.old nodes.new places.old places.new }
{
    let node = nodes[from];
    let mut hole = from;
    while let Some(above) = less_above(nodes, hole, node) {
        let other = nodes[above];
        stand(nodes, places, hole, other);
        hole = above;
    }
    stand(nodes, places, hole, node);
}

/// Lets the node at a place sink below each that is greater: these come up one after another, and it stands where the last one stood.
fn sink<T: Ord + Copy>(nodes: &mut [Ranked<T>], places: &mut [Option<u32>], from: usize)
    requires placed { IsPlaced nodes.old places.old }
    requires sinking { IsSinking T.cmp from nodes.old }
    ensures heap { IsHeap T.cmp nodes.new }
    ensures moved { IsMoved nodes.old nodes.new places.old places.new }
{
    let node = nodes[from];
    let mut hole = from;
    while let Some(under) = greater_under(nodes, hole, node) {
        let other = nodes[under];
        stand(nodes, places, hole, other);
        hole = under;
    }
    stand(nodes, places, hole, node);
}

/// Lets the node at a place, which may have any rank, go where it belongs.
pub(crate) fn settle<T: Ord + Copy>(
    nodes: &mut [Ranked<T>],
    places: &mut [Option<u32>],
    place: usize,
)
    requires placed { IsPlaced nodes.old places.old }
    requires loose { IsLoose T.cmp place nodes.old }
    ensures heap { IsHeap T.cmp nodes.new }
    ensures moved { IsMoved nodes.old nodes.new places.old places.new }
{
    match less_above(nodes, place, nodes[place]) {
        Some(_) => rise(nodes, places, place),
        None => sink(nodes, places, place),
    }
}
