//! What a dropped link leaves, which no contract can say.

use std::alloc::Global;
use std::sync::OnceLock;
use tk_io::{MemLink, Share, write_text};

/// Whether a share has nothing before its link is dropped, and then what the link took. None without memory.
fn left(alloc: Global) -> Option<[bool; 2]> {
    let share = Share::new(alloc, OnceLock::new()).ok()?;
    let kept = share.clone().ok()?;
    let mut link = MemLink::make(alloc, b"", 1, 9, &[], &[], Some(share)).ok()?;
    let was_unset = write_text(&mut link, b"reply").is_ok() && kept.get().is_none();
    drop(link);
    let is_left = match kept.get() {
        Some(taken) => taken.as_slice() == b"reply".as_slice(),
        None => false,
    };
    Some([was_unset, is_left])
}

#[test]
fn a_dropped_link_leaves_what_it_took(rt: HostRuntime) {
    assert_eq!(rt; left(rt.alloc()), Some([true, true]));
}
