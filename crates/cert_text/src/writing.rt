//! Certificates, written.

ghost use Rattle.std.specs.Prelude.{◌≡◌, ◌++◌, ◌∷◌, [], length, map, option_map};
ghost use Rattle.std.specs.Fmt.{decimal};
ghost use Rattle.tk_io.specs.Pieces.{Puts};
ghost use Rattle.topk_base.specs.Lines.{unlines};
ghost use Rattle.topk_theory.specs.Transcript.{depth};
ghost use Rattle.query_text.specs.Query.{name_of};
ghost use Rattle.monotone_fn.specs.Shape.{list_count};
ghost use Rattle.cert_text.specs.Guarantee.{factor_of};
ghost use Rattle.cert_text.specs.Certificate.{spaced, version_line, version_lines, answer_line, guarantee_lines, access_line, certificate_lines};
ghost use Rattle.cert_text.specs.Outcome.{HasCost, factor_for, certificate_of, figures_line};

use super::algorithms::guarantee;
use super::factor::Guarantee;
use super::rows::put_row;
use super::words::{Word, put_line};
use access_log::{Access, Items, Transcript};
use machine_base::Answer;
use query_text::{Names, Query, put_query};
use tk_io::Put;

/// The name of a list by its place among the names.
fn name_at(names: &Names, list: u32) -> &[u8]
    ensures { result.now ≡ name_of names.now list }
{
    names.get(list).unwrap_or(b"")
}

/// The name of a list by its number in the query.
pub(crate) fn name_of(names: &Names, list: u8) -> &[u8]
    ensures { result.now ≡ name_of names.now list }
{
    name_at(names, u32::from(list))
}

/// The greatest depth to which a transcript reads a list.
pub fn depth_of(transcript: &Transcript) -> u64
    ensures { result ≡ depth transcript.now.lists transcript.now.accesses }
{
    let mut depth: u32 = 0;
    for list in 0..transcript.lists() {
        depth = depth.max(transcript.depth(list));
    }
    u64::from(depth)
}

/// Puts the line of a list's version behind the bytes that wait, or nothing where the version is 0.
fn put_version<P: Put>(out: &mut P, name: &[u8], version: u64)
    ensures { Puts (P.at out.old) (P.at out.new)
        (unlines (version_line name.now version)) }
{
    if version == 0 {
        return;
    }
    put_line(out, b"version", &[Word::Text(name), Word::Number(version)]);
}

/// Puts the lines of the versions of lists behind the bytes that wait.
fn put_versions<P: Put>(out: &mut P, names: &Names, versions: &[u64])
    requires { length versions.now ≡ length names.now }
    ensures { Puts (P.at out.old) (P.at out.new)
        (unlines (version_lines names.now versions.now)) }
{
    let lists = names.len();
    for list in 0..lists {
        let name = name_at(names, list);
        put_version(out, name, versions[list as usize]);
    }
}

/// Puts the lines of an answer's objects behind the bytes that wait.
fn put_items<P: Put>(out: &mut P, items: &Items)
    ensures { Puts (P.at out.old) (P.at out.new)
        (unlines (map answer_line items.now)) }
{
    for item in items.iter() {
        let object = Word::Number(u64::from(item.object));
        let bounds = [object, Word::Number(item.low), Word::Number(item.high)];
        put_line(out, b"answer", &bounds);
    }
}

/// Within which factor of the best an answer to a query is, where its algorithm guarantees one.
fn guarantee_for(query: &Query, answer: &Answer) -> Option<Guarantee>
    requires { list_count query.now.expr ≡ answer.now.transcript.lists }
    ensures { option_map factor_of result ≡ factor_for query.now answer.now }
{
    let items = answer.items.iter().as_slice();
    guarantee(query.algorithm, &answer.transcript, &query.expr, items)
}

/// Puts the line of a guarantee behind the bytes that wait, or nothing where there is none.
fn put_guarantee<P: Put>(out: &mut P, guarantee: Option<Guarantee>)
    ensures { Puts (P.at out.old) (P.at out.new)
        (unlines (guarantee_lines (option_map factor_of guarantee))) }
{
    let Some(factor) = guarantee else {
        return;
    };
    let numbers = [Word::Number(factor.p), Word::Number(factor.q)];
    put_line(out, b"guarantee", &numbers);
}

/// Puts the line of the figures of the accesses behind the bytes that wait.
fn put_figures<P: Put>(out: &mut P, query: &Query, transcript: &Transcript)
    requires { HasCost query.now transcript.now }
    ensures { Puts (P.at out.old) (P.at out.new)
        (figures_line query.now transcript.now ++ 10 ∷ []) }
{
    let figures = [
        Word::Text(b"depth"),
        Word::Number(depth_of(transcript)),
        Word::Text(b"sorted"),
        Word::Number(transcript.sorted()),
        Word::Text(b"random"),
        Word::Number(transcript.random()),
        Word::Text(b"cost"),
        Word::Number(transcript.cost(&query.costs_in_force())),
    ];
    put_line(out, b"stop", &figures);
}

/// Puts the line of an access of this kind behind the bytes that wait.
fn put_kind<P: Put>(out: &mut P, kind: u8, name: &[u8], object: u32, grade: u32)
    ensures { Puts (P.at out.old) (P.at out.new)
        (spaced ((kind ∷ []) ∷ name.now ∷ decimal object ∷ decimal grade ∷ []) ++ 10 ∷ []) }
{
    out.put(&[kind, b' ']);
    out.put(name);
    put_row(out, object, grade);
}

/// Puts the line of an access behind the bytes that wait.
fn put_access<P: Put>(out: &mut P, names: &Names, access: Access)
    ensures { Puts (P.at out.old) (P.at out.new)
        (access_line names.now access ++ 10 ∷ []) }
{
    match access {
        Access::Sorted {
            list,
            object,
            grade,
        } => put_kind(out, b's', name_of(names, list), object, grade),
        Access::Random {
            list,
            object,
            grade,
        } => put_kind(out, b'r', name_of(names, list), object, grade),
    }
}

/// Puts the lines of the accesses behind the bytes that wait.
fn put_accesses<P: Put>(out: &mut P, names: &Names, transcript: &Transcript)
    ensures { Puts (P.at out.old) (P.at out.new)
        (unlines (map (access_line names.now) transcript.now.accesses)) }
{
    for access in transcript.iter() {
        put_access(out, names, *access);
    }
}

/// Puts the certificate of an answer behind the bytes that wait.
pub(crate) fn put_certificate<P: Put>(
    out: &mut P,
    line: u64,
    query: &Query,
    count: u32,
    versions: &[u64],
    answer: &Answer,
)
    requires versioned { length versions.now ≡ length query.now.names }
    requires cost { HasCost query.now answer.now.transcript }
    requires lists { list_count query.now.expr ≡ answer.now.transcript.lists }
    ensures { Puts (P.at out.old) (P.at out.new)
        (unlines (certificate_lines (certificate_of line query.now count versions.now answer.now))) }
{
    put_line(out, b"certificate", &[Word::Number(line)]);
    out.put(b"query ");
    put_query(out, query);
    out.put(b"\n");
    put_line(out, b"count", &[Word::Number(u64::from(count))]);
    put_versions(out, &query.names, versions);
    put_items(out, &answer.items);
    put_guarantee(out, guarantee_for(query, answer));
    put_figures(out, query, &answer.transcript);
    put_accesses(out, &query.names, &answer.transcript);
    out.put(b"end\n");
}
