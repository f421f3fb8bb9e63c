//! Where sweeps begin, and the room that they take.
#![tactic(auto)]

use hyd_spec_certificates::Side;
use hyd_sweep::{Sweeper, begin};
use hyd_test_helpers::METRE;
use hyd_vector_check::{head_of, is_in_box};
use std::test::Fail;

#[test]
fn sweeps_begin_at_an_end_of_the_box(rt: HostRuntime) {
    let mut heads = [0i64; 2];
    begin(Side::Upper, &mut heads);
    assert_eq!(rt; heads, [-100_000 * METRE, -100_000 * METRE]);
    begin(Side::Lower, &mut heads);
    assert_eq!(rt; heads, [100_000 * METRE, 100_000 * METRE]);
}

#[test]
fn the_box_has_its_ends(rt: HostRuntime) {
    let heads = [-100_000 * METRE - 1, -100_000 * METRE, 100_000 * METRE];
    assert!(rt; !is_in_box(head_of(&heads, 0)));
    assert!(rt; is_in_box(head_of(&heads, 1)));
    assert!(rt; is_in_box(head_of(&heads, 2)));
}

#[test]
fn a_sweeper_has_room_for_the_most_junctions(rt: HostRuntime) -> Result<(), Fail> {
    let _sweeper = Sweeper::open(rt.alloc(), 10000)?;
    Ok(())
}
