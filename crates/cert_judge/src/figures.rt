//! The figures of a certificate, against those that its accesses give.

ghost use Rattle.std.specs.Prelude.{◌≡◌, ◌<◌, ◌≤◌, ◌^◌, ◌==◌, ◌&&◌, ◌↔◌, length, map, filter, MatchOption, IsTrue, Option};
ghost use Rattle.cert_text.specs.declared.factor.Guarantee.{Guarantee};
ghost use Rattle.monotone_fn.specs.Shape.{list_count};
ghost use Rattle.monotone_fn.specs.Value.{value};
ghost use Rattle.topk_theory.specs.Bounds.{low, high, bounded};
ghost use Rattle.topk_theory.specs.Threshold.{item_objects};
ghost use Rattle.cert_text.specs.Certificate.{IsCertificate, guaranteed};
ghost use Rattle.cert_judge.specs.Transcripts.{log_of};
ghost use Rattle.cert_judge.specs.Figures.{item_figures, guarantee_figures, stop_figures, figures_from, has_line, refigured, FirstOf, HasItsFigures, IsFirstFigure};

use access_log::{Item, Transcript};
use cert_text::{Certificate, Guarantee, depth_of, guarantee};
use monotone_fn::Expr;
use ranked_list::Items;

/// The first line of a certificate with figures, where no version has a line above it.
const FIRST_FIGURES: u64 = 4;

/// How many of these versions have a line: those that aren't 0.
fn lines_of_versions(versions: &[u64]) -> usize
    ensures { result ≡ length (filter has_line versions.now) }
{
    versions.iter().filter(|version| **version != 0).count()
}

/// The first line of a certificate with figures, counted from 1.
fn figures_from(certificate: &Certificate) -> u64
    requires { IsCertificate certificate.now }
    ensures line { result ≡ figures_from certificate.now }
    ensures few { result < 2 ^ 32 }
{
    FIRST_FIGURES + lines_of_versions(certificate.versions.as_slice()) as u64
}

/// Whether an object's bounds are those that the accesses give.
fn has_bounds(transcript: &Transcript, expr: &Expr, item: &Item) -> bool
    requires { list_count expr.now ≡ transcript.now.lists }
    ensures { result ≡ ((item.now.low == low (value expr.now) transcript.now.lists transcript.now.accesses item.now.object)
        && (item.now.high == high (value expr.now) transcript.now.lists transcript.now.accesses item.now.object)) }
{
    let low = transcript.low(expr, item.object);
    let high = transcript.high(expr, item.object);
    item.low == low && item.high == high
}

/// The place, from 0, of the first object whose bounds aren't those that the accesses give.
fn first_item(transcript: &Transcript, expr: &Expr, items: &Items) -> Option<u32>
    requires { list_count expr.now ≡ transcript.now.lists }
    ensures { FirstOf (map item_figures items.now)
        (map item_figures (map (bounded (value expr.now) transcript.now.lists transcript.now.accesses) (item_objects items.now))) result }
{
    for (place, item) in items.iter().enumerate() {
        if !has_bounds(transcript, expr, item) {
            return Some(place as u32);
        }
    }
    None
}

/// Whether one factor that may be there is another.
fn is_same(own: Option<Guarantee>, given: Option<Guarantee>) -> bool
    ensures { IsTrue result ↔ ◌≡◌ {A = Option Guarantee} own given }
{
    own == given
}

/// Whether the guarantee is the one that the accesses give.
fn guarantees_so(certificate: &Certificate, transcript: &Transcript) -> bool
    requires made { transcript.now ≡ log_of certificate.now }
    ensures { IsTrue result ↔ (guaranteed certificate.now ≡ guaranteed (refigured certificate.now)) }
{
    let query = &certificate.query;
    let items = certificate.items.iter().as_slice();
    let given = guarantee(query.algorithm, transcript, &query.expr, items);
    is_same(certificate.guarantee, given)
}

/// How many lines a certificate has of its guarantee: 0 or 1.
fn lines_of_guarantee(certificate: &Certificate) -> u64
    ensures lines { result ≡ length (guarantee_figures (guaranteed certificate.now)) }
    ensures few { result ≤ 1 }
{
    match certificate.guarantee {
        Some(_) => 1,
        None => 0,
    }
}

/// Whether the figures of the stop line are those that the accesses give.
fn stops_so(certificate: &Certificate, transcript: &Transcript) -> bool
    requires certificate { IsCertificate certificate.now }
    requires few { length certificate.now.accesses < 2 ^ 40 }
    requires made { transcript.now ≡ log_of certificate.now }
    ensures { IsTrue result ↔ (stop_figures certificate.now ≡ stop_figures (refigured certificate.now)) }
{
    let cost = transcript.cost(&certificate.query.costs_in_force());
    certificate.depth == depth_of(transcript)
        && certificate.sorted == transcript.sorted()
        && certificate.random == transcript.random()
        && certificate.cost == cost
}

/// The first line, counted from 1, with a figure that isn't the one that the accesses give.
pub(crate) fn first_figure(certificate: &Certificate, transcript: &Transcript) -> Option<u64>
    requires certificate { IsCertificate certificate.now }
    requires few { length certificate.now.accesses < 2 ^ 40 }
    requires made { transcript.now ≡ log_of certificate.now }
    ensures { MatchOption result (HasItsFigures certificate.now) (IsFirstFigure certificate.now) }
{
    let first = figures_from(certificate);
    let items = &certificate.items;
    if let Some(place) = first_item(transcript, &certificate.query.expr, items) {
        return Some(first + u64::from(place));
    }
    let behind = first + u64::from(items.len());
    if !guarantees_so(certificate, transcript) {
        return Some(behind);
    }
    if stops_so(certificate, transcript) {
        return None;
    }
    Some(behind + lines_of_guarantee(certificate))
}
