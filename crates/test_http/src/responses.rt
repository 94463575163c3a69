//! What is read of a response.

use super::chunks::{BODIES, CODINGS};
use super::heads::HEADS;
use super::lengths::{STATED, TO_THE_END};
use super::messages::response_of;
use test_support::wrong_texts;

#[test]
fn responses_are_read(rt: HostRuntime) {
    for rows in [HEADS, STATED, TO_THE_END, CODINGS, BODIES] {
        assert_eq!(rt; wrong_texts(&rt, rt.alloc(), rows, response_of), 0);
    }
}
