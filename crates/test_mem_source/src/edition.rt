//! Lists that a source in memory changes to.

ghost use Rattle.std.specs.Prelude.{◌≡◌, None, option_map};
ghost use Rattle.test_mem_source.specs.Editions.{as_edition, editions_of, comes, standing};

use ranked_list::Row;

/// What a source changes to just before the call of this number, all its calls counted together from 1.
#[derive(Drop)]
pub struct Later {
    /// The number of the call.
    pub call: u64,
    /// The version that replies state from then on.
    pub version: u64,
    /// The rows from then on.
    pub rows: Vec<Row>,
}

/// Which of these stands at the call of this number, None where none has come.
pub(crate) fn standing_at(later: &[Later], call: u64) -> Option<&Later>
    ensures { option_map (λ later. as_edition later.now) result ≡ standing call None (editions_of later.now) }
{
    let mut held = None;
    for next in later {
        if comes(held, next, call) {
            held = Some(next);
        }
    }
    held
}

/// Whether the next one has come by the call of this number, and no earlier than the one that stands.
fn comes(held: Option<&Later>, next: &Later, call: u64) -> bool
    ensures { result ≡ comes call (option_map (λ later. as_edition later.now) held.entry) (as_edition next.now) }
{
    let since = match held {
        Some(held) => held.call,
        None => 1,
    };
    since <= next.call && next.call <= call
}
