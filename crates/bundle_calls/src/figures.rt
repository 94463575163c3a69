//! What each algorithm reads for a query over lists that are told.

ghost use Rattle.std.specs.Prelude.{◌≡◌, IfOk};
ghost use Rattle.query_text.specs.Query.{IsRated};
ghost use Rattle.cert_text.specs.Outcome.{HasCost};
ghost use Rattle.bundle_calls.specs.Compare.{query_by};
ghost use Rattle.bundle_calls.specs.Comparing.{IsOver, figures_of, figures_by, compared_by};

use super::drive::answer_over;
use super::told::ToldList;
use access_log::Transcript;
use cert_text::depth_of;
use query_core::{DriveFault, Ready};
use query_text::{Algorithm, Query};
use std::alloc::Global;
use topk_base::Memory;

/// What an algorithm reads of lists: how deep, how many accesses of each kind, and what these cost.
#[derive(Clone, Copy)]
pub(crate) struct Figures {
    pub(crate) depth: u64,
    pub(crate) sorted: u64,
    pub(crate) random: u64,
    pub(crate) cost: u64,
}

/// The figures of each algorithm.
#[derive(Clone, Copy)]
pub(crate) struct Compared {
    pub(crate) ta: Figures,
    pub(crate) nra: Figures,
    pub(crate) ca: Figures,
    pub(crate) fa: Figures,
}

/// Asks a query by an algorithm, with no room stated.
fn ask_by(query: &mut Query, algorithm: Algorithm)
    ensures { query.new ≡ query_by algorithm query.old }
{
    query.algorithm = algorithm;
    query.room = None;
}

/// The figures of a transcript, at what accesses cost a query.
fn figures_of(query: &Query, transcript: &Transcript) -> Figures
    requires { HasCost query.now transcript.now }
    ensures { result ≡ figures_of query.now transcript.now }
{
    Figures {
        depth: depth_of(transcript),
        sorted: transcript.sorted(),
        random: transcript.random(),
        cost: transcript.cost(&query.costs_in_force()),
    }
}

/// What an algorithm reads for a query over its lists. The query is asked by it from then on, with no room stated.
///
/// *Cost*: `answer_over`.
fn figures_by(
    alloc: Global,
    ready: &mut Ready,
    lists: &mut [ToldList],
    algorithm: Algorithm,
) -> Result<Figures, Memory>
    requires rated { IsRated algorithm }
    requires over { IsOver ready.old lists.old }
    ensures over { IsOver ready.new lists.new }
    ensures query { ready.new.query ≡ query_by algorithm ready.old.query }
    ensures same { lists.new ≡ lists.old }
    ensures figures { IfOk result (λ figures. figures ≡ figures_by algorithm ready.old.query lists.old) }
{
    ask_by(&mut ready.query, algorithm);
    match answer_over(alloc, ready, lists) {
        Ok(answer) => Ok(figures_of(&ready.query, &answer.transcript)),
        Err(DriveFault::RoomFull { .. }) => unreachable!(),
        Err(DriveFault::Memory) => Err(Memory),
    }
}

/// What each algorithm reads for a query over its lists. Its own algorithm and its room play no part.
pub(crate) fn compare_all(
    alloc: Global,
    ready: &mut Ready,
    lists: &mut [ToldList],
) -> Result<Compared, Memory>
    requires { IsOver ready.old lists.old }
    ensures { IfOk result (λ compared. compared ≡ compared_by ready.old.query lists.old) }
{
    let Ok(ta) = figures_by(alloc, ready, lists, Algorithm::Ta) else {
        return Err(Memory);
    };
    let Ok(nra) = figures_by(alloc, ready, lists, Algorithm::Nra) else {
        return Err(Memory);
    };
    let Ok(ca) = figures_by(alloc, ready, lists, Algorithm::Ca) else {
        return Err(Memory);
    };
    let Ok(fa) = figures_by(alloc, ready, lists, Algorithm::Fa) else {
        return Err(Memory);
    };
    Ok(Compared { ta, nra, ca, fa })
}
