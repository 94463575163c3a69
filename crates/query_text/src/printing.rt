//! Printing of queries.

ghost use Rattle.std.specs.Prelude.{◌≡◌, IfOk};
ghost use Rattle.tk_io.specs.Pieces.{Puts};
ghost use Rattle.monotone_fn.specs.Tree.{trees, terms};
ghost use Rattle.monotone_fn.specs.Shown.{tree_of};
ghost use Rattle.query_text.specs.Pieces.{text_of};
ghost use Rattle.query_text.specs.Shape.{expr_pieces};
ghost use Rattle.query_text.specs.Query.{printed, written, name_of};
ghost use Rattle.query_text.specs.Printing.{nodes_text, terms_text, algorithm_text, cost_text, room_text, comma_text};

use super::Memory;
use super::algorithm::Algorithm;
use super::names::Names;
use super::query::Query;
use super::text::Text;
use monotone_fn::{Costs, Node, Nodes, Terms};
use std::alloc::Global;
use tk_io::{Failed, Put, Writer};

/// The text of a query, with no LF behind it.
pub fn print(alloc: Global, query: &Query) -> Result<Vec<u8>, Memory>
    ensures { IfOk result (λ text. text.items ≡ printed query.now) }
{
    let mut text = Text::new(alloc);
    let mut writer = Writer::make(&mut text);
    put_query(&mut writer, query);
    match writer.end() {
        Ok(()) => Ok(text.into_vec()),
        Err(Failed) => Err(Memory),
    }
}

/// Puts the text of a query, with no LF behind it, behind the bytes that wait.
pub fn put_query<P: Put>(out: &mut P, query: &Query)
    ensures { Puts (P.at out.old) (P.at out.new) (printed query.now) }
{
    out.put(b"top ");
    out.put_number(u64::from(query.k));
    out.put(b" by ");
    put_expr(out, &query.names, query.expr.root());
    out.put(b" using ");
    put_algorithm(out, query.algorithm);
    put_cost(out, query.cost);
    put_room(out, query.room);
}

/// Puts the name of a list behind the bytes that wait.
fn put_name<P: Put>(out: &mut P, names: &Names, list: u8)
    ensures { Puts (P.at out.old) (P.at out.new) (name_of names.now list) }
{
    match names.get(u32::from(list)) {
        Some(name) => out.put(name),
        None => out.put(b""),
    }
}

/// Puts the comma before an argument that isn't the first.
fn put_comma<P: Put>(out: &mut P, place: usize)
    ensures { Puts (P.at out.old) (P.at out.new) (comma_text place) }
{
    out.put(if place == 0 { b"" } else { b"," });
}

/// Puts an expression behind the bytes that wait.
#[cycle(put)]
fn put_expr<P: Put>(out: &mut P, names: &Names, node: &Node)
    ensures { Puts (P.at out.old) (P.at out.new)
        (text_of (expr_pieces (written names.now (tree_of node.now)))) }
{
    match node {
        Node::List(list) => put_name(out, names, *list),
        Node::Min(nodes) => put_nodes(out, names, b"min(", nodes),
        Node::Max(nodes) => put_nodes(out, names, b"max(", nodes),
        Node::Sum(nodes) => put_nodes(out, names, b"sum(", nodes),
        Node::Median(nodes) => put_nodes(out, names, b"median(", nodes),
        Node::Wsum(terms) => put_terms(out, names, terms),
    }
}

/// Puts an operator over expressions behind the bytes that wait.
#[cycle(put)]
fn put_nodes<P: Put>(out: &mut P, names: &Names, opening: &[u8], nodes: &Nodes)
    ensures { Puts (P.at out.old) (P.at out.new)
        (nodes_text names.now opening.now (trees nodes.now)) }
{
    out.put(opening);
    for (place, node) in nodes.iter().enumerate() {
        put_comma(out, place);
        put_expr(out, names, node);
    }
    out.put(b")");
}

/// Puts a weighted sum behind the bytes that wait.
#[cycle(put)]
fn put_terms<P: Put>(out: &mut P, names: &Names, weighted: &Terms)
    ensures { Puts (P.at out.old) (P.at out.new)
        (terms_text names.now (terms weighted.now)) }
{
    out.put(b"wsum(");
    for (place, term) in weighted.iter().enumerate() {
        put_comma(out, place);
        out.put_number(term.weight);
        out.put(b"*");
        put_expr(out, names, &term.node);
    }
    out.put(b")");
}

/// Puts an algorithm behind the bytes that wait.
fn put_algorithm<P: Put>(out: &mut P, algorithm: Algorithm)
    ensures { Puts (P.at out.old) (P.at out.new) (algorithm_text algorithm) }
{
    out.put(algorithm.word());
    match algorithm {
        Algorithm::Theta { p, q } => {
            out.put_number(u64::from(p));
            out.put(b"/");
            out.put_number(u64::from(q));
        }
        Algorithm::Early { depth } => out.put_number(u64::from(depth)),
        Algorithm::Ta | Algorithm::Nra | Algorithm::Ca | Algorithm::Fa | Algorithm::Taz => {}
    }
}

/// Puts the costs, if there are any, behind the bytes that wait.
fn put_cost<P: Put>(out: &mut P, cost: Option<Costs>)
    ensures { Puts (P.at out.old) (P.at out.new) (cost_text cost) }
{
    let Some(cost) = cost else {
        return;
    };
    out.put(b" cost ");
    out.put_number(u64::from(cost.sorted));
    out.put(b" ");
    out.put_number(u64::from(cost.random));
}

/// Puts the room, if there is one, behind the bytes that wait.
fn put_room<P: Put>(out: &mut P, room: Option<u32>)
    ensures { Puts (P.at out.old) (P.at out.new) (room_text room) }
{
    let Some(room) = room else {
        return;
    };
    out.put(b" room ");
    out.put_number(u64::from(room));
}
