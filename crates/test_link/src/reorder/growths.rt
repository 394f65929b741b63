//! The slots of the reorder buffer while one allocation is refused (`bench/scarce_memory`): the
//! call returns that refusal, and there are none.
use crate::reorder::packets::data;
use rly_link_reorder::ReorderBuffer;
use std::alloc::Global;
use std::process::Abort;
use test_support::{before, was_refused};

/// An early packet is delivered after the missing one.
fn expect_given<R: Abort>(rt: &R, early: &mut ReorderBuffer) {
    early.hear(2, &data(2));
    early.hear(1, &data(1));
    expect!(*rt; early.give(&mut [0; 21]) == Some(21));
}

fn expect_places<R: Abort>(rt: &R, alloc: Global) {
    before(alloc).expect(rt, "memory");
    let made = ReorderBuffer::new(alloc, 1_223);
    let refused = was_refused(alloc);
    match made {
        Ok(mut early) => {
            expect!(*rt; !refused);
            expect_given(rt, &mut early);
        }
        Err(_) => expect!(*rt; refused),
    }
}

#[test]
fn places_for_early_data(rt: HostRuntime) {
    expect_places(&rt, rt.alloc());
}
