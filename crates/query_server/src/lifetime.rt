//! How long a generation lasts.

ghost use Rattle.std.specs.Prelude.{◌≡◌};
ghost use Rattle.std.specs.List.{list_any};
ghost use Rattle.query_server.specs.Lifetimes.{is_down, has_version, lifetime_of, pause_after};

use server_conn::OpenedEntry;

/// After how many seconds a list that isn't open is asked again, at first.
pub const MIN_PAUSE: u64 = 30;

/// After how many seconds at most it is asked again, and each list that states versions.
pub const MAX_PAUSE: u64 = 600;

/// Whether a list isn't open though it has a source.
fn is_down(entry: OpenedEntry) -> bool
    ensures { result ≡ is_down entry }
{
    match entry {
        OpenedEntry::Opened { .. } => false,
        OpenedEntry::NotOpened { source } => source.is_some(),
        OpenedEntry::TooLarge { source, .. } => source.is_some(),
    }
}

/// Whether a list is open at a version that its source states.
fn has_version(entry: OpenedEntry) -> bool
    ensures { result ≡ has_version entry }
{
    match entry {
        OpenedEntry::Opened { version, .. } => version != 0,
        OpenedEntry::NotOpened { .. } => false,
        OpenedEntry::TooLarge { .. } => false,
    }
}

/// Whether a list isn't open though it has a source.
fn any_down(entries: &[OpenedEntry]) -> bool
    ensures { result ≡ list_any is_down entries.now }
{
    entries.iter().any(|entry| is_down(*entry))
}

/// Whether a list states versions.
fn any_version(entries: &[OpenedEntry]) -> bool
    ensures { result ≡ list_any has_version entries.now }
{
    entries.iter().any(|entry| has_version(*entry))
}

/// After how many seconds a generation over these lists is to be followed by another, if ever: after this pause where a list isn't open.
pub(crate) fn lifetime_of(entries: &[OpenedEntry], pause: u64) -> Option<u64>
    ensures { result ≡ lifetime_of entries.now pause }
{
    if any_down(entries) {
        return Some(pause);
    }
    if any_version(entries) {
        return Some(MAX_PAUSE);
    }
    None
}

/// The pause after this one: twice as long where nothing has changed, and else the first one.
pub(crate) fn pause_after(changed: bool, pause: u64) -> u64
    ensures { result ≡ pause_after changed pause }
{
    if changed {
        return MIN_PAUSE;
    }
    pause.saturating_mul(2).min(MAX_PAUSE)
}
