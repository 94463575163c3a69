//! What printed outcomes come to.

use topk_base::{first_line, number_front, rest_after};

/// Sums over printed answers: how many there are, their depths, sorted and random accesses, and the lower bounds of their objects.
#[derive(Clone, Copy, PartialEq, Eq)]
pub struct Figures {
    pub answered: u64,
    pub depth: u64,
    pub sorted: u64,
    pub random: u64,
    pub values: u64,
}

/// The figures of no answer.
const NOTHING: Figures = Figures {
    answered: 0,
    depth: 0,
    sorted: 0,
    random: 0,
    values: 0,
};

/// The number behind a word, and what follows it.
fn number_after<'t>(word: &[u8], text: &'t [u8]) -> Option<(u32, &'t [u8])> {
    match rest_after(word, text) {
        Some(rest) => number_front(rest),
        None => None,
    }
}

/// The lower bound of an object, in the line that tells it.
fn low_in(line: &[u8]) -> Option<u32> {
    let Some((_, rest)) = number_after(b"answer ", line) else {
        return None;
    };
    match number_after(b" ", rest) {
        Some((low, _)) => Some(low),
        None => None,
    }
}

/// The depth, the sorted and the random accesses, in the line that tells them.
fn stop_in(line: &[u8]) -> Option<(u32, u32, u32)> {
    let Some((depth, rest)) = number_after(b"stop depth ", line) else {
        return None;
    };
    let Some((sorted, rest)) = number_after(b" sorted ", rest) else {
        return None;
    };
    match number_after(b" random ", rest) {
        Some((random, _)) => Some((depth, sorted, random)),
        None => None,
    }
}

/// The figures with those of one more line.
fn with_line(figures: Figures, line: &[u8]) -> Figures {
    let mut figures = figures;
    if let Some(low) = low_in(line) {
        figures.values = figures.values.saturating_add(u64::from(low));
    }
    if let Some((depth, sorted, random)) = stop_in(line) {
        figures.answered = figures.answered.saturating_add(1);
        figures.depth = figures.depth.saturating_add(u64::from(depth));
        figures.sorted = figures.sorted.saturating_add(u64::from(sorted));
        figures.random = figures.random.saturating_add(u64::from(random));
    }
    figures
}

/// The figures of a text, and the greatest depth in it.
pub fn figures_of(text: &[u8]) -> (Figures, u32) {
    let mut figures = NOTHING;
    let mut deepest = 0;
    let mut rest = text;
    for _ in 0..text.len() {
        let Some((line, more)) = first_line(rest) else {
            return (figures, deepest);
        };
        figures = with_line(figures, line);
        if let Some((depth, _, _)) = stop_in(line) {
            deepest = deepest.max(depth);
        }
        rest = more;
    }
    (figures, deepest)
}
