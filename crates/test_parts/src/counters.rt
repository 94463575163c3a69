//! Counters that four passes count on, some that two passes want, and numbers that two passes draw.

use crate::draws::draw_by_two;
use crate::drives::{count_on_four, take_by_two};
use std::test::Fail;

#[test]
fn no_count_is_lost(rt: HostRuntime) -> Result<(), Fail> {
    let Some(counters) = count_on_four(&rt, rt.alloc(), 5, 2000) else {
        panic!(rt; "there was memory");
    };
    assert_eq!(rt; counters.len(), 2);
    for counter in counters.iter() {
        assert_eq!(rt; counter.count, 4005);
    }
    Ok(())
}

#[test]
fn a_taken_value_is_not_taken_again(rt: HostRuntime) -> Result<(), Fail> {
    assert_eq!(rt; take_by_two(rt.alloc()), Some((true, false, true, true)));
    Ok(())
}

#[test]
fn each_number_is_drawn(rt: HostRuntime) -> Result<(), Fail> {
    assert_eq!(rt; draw_by_two(&rt, rt.alloc(), 20_000), Some(20_000));
    Ok(())
}
