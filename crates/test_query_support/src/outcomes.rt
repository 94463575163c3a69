//! How queries are to end.

use access_log::Transcript;
use machine_base::{Answer, CoreFault};
use query_run::{Ended, Endings, Memory};
use query_text::Costs;
use source_state::LookFault;

/// What the accesses of an answer come to, where each costs 1.
#[derive(Clone, Copy, PartialEq, Eq)]
pub struct Figures {
    pub depth: u32,
    pub sorted: u64,
    pub random: u64,
    pub cost: u64,
}

/// How a query is to end.
#[derive(Clone, Copy)]
pub enum Expected {
    /// Items with their bounds, and the figures of the accesses.
    Answered(&'static [(u32, u64, u64)], Figures),
    Core(CoreFault),
    /// At this list of the query.
    Look(u8, LookFault),
}

/// A query: its text, and the sources of its lists.
pub type Asked = (&'static str, &'static [u32]);

/// The greatest depth of the lists.
fn depth_of(transcript: &Transcript) -> u32 {
    let mut depth = 0;
    for list in 0..transcript.lists() {
        depth = depth.max(transcript.depth(list));
    }
    depth
}

/// The figures of some accesses, which are few.
fn figures_of(transcript: &Transcript) -> Option<Figures> {
    if transcript.len() > 1000 {
        return None;
    }
    Some(Figures {
        depth: depth_of(transcript),
        sorted: transcript.sorted(),
        random: transcript.random(),
        cost: transcript.cost(&Costs {
            sorted: 1,
            random: 1,
        }),
    })
}

/// Whether an answer has these items and figures.
fn is_answer(answer: &Answer, items: &[(u32, u64, u64)], expected: Figures) -> bool {
    figures_of(&answer.transcript) == Some(expected)
        && answer.items.len() as usize == items.len()
        && has_items(answer, items)
}

/// Whether the items begin with these.
fn has_items(answer: &Answer, items: &[(u32, u64, u64)]) -> bool {
    let mut place = 0;
    for item in items {
        let Some(found) = answer.items.get(place) else {
            return false;
        };
        if (found.object, found.low, found.high) != *item || place > 100 {
            return false;
        }
        place += 1;
    }
    true
}

/// Whether a query ended so.
pub fn is_ended_so(ended: &Ended, expected: &Expected) -> bool {
    match (ended, expected) {
        (Ended::Answered(answer), Expected::Answered(items, figures)) => {
            is_answer(answer, items, *figures)
        }
        (Ended::Core { fault }, Expected::Core(refusal)) => fault == refusal,
        (Ended::Look { list, fault }, Expected::Look(at, refusal)) => {
            list == at && fault == refusal
        }
        _ => false,
    }
}

/// Whether a run ended so. What it gave is let go; without memory it didn't end.
pub fn has_ended_so(ended: Result<Ended, Memory>, expected: &Expected) -> bool {
    let Ok(ended) = ended else {
        return false;
    };
    let so = is_ended_so(&ended, expected);
    drop(ended);
    so
}

/// Lets the endings of queries go. Who owns some lets them go by this call, so that it is proved once.
pub fn let_endings_go(endings: Endings) {
    drop(endings);
}
