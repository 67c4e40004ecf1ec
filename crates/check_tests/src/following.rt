//! An index that begins with nothing, fed with copies of what the ranks did.

use crate::fixture::{Read, known, layout};
use std::alloc::Global;
use std::process::Abort;
use trace_know::Knowledge;
use trace_ops::{RankOps, all_ops};
use trace_pair::PairIndex;

/// What each rank did, and a copy of the last one's.
fn copied<R: Abort>(rt: &R, alloc: Global, know: &Knowledge) -> Vec<RankOps> {
    let layout = layout(rt, alloc);
    let ops = all_ops(alloc, &layout, know).expect(rt, "memory");
    let mut copies = Vec::new(alloc);
    for own in &ops {
        copies
            .push(own.try_clone().expect(rt, "memory"))
            .expect(rt, "memory");
    }
    copies
}

/// How many messages and receives a rank did.
fn size(ops: &[RankOps], rank: usize) -> (usize, usize) {
    match ops.get(rank) {
        Some(own) => (own.sends().len(), own.receives().len()),
        None => (0, 0),
    }
}

#[test]
fn copies_of_what_ranks_did(rt: HostRuntime) {
    let know = known(&rt, rt.alloc(), Read::Told);
    let copies = copied(&rt, rt.alloc(), &know);
    assert!(rt;
        size(&copies, 0) == (0, 1) && size(&copies, 2) == (1, 0),
        "copies"
    );
}

#[test]
fn an_index_that_begins_with_nothing(rt: HostRuntime) {
    let index = PairIndex::new(rt.alloc(), 3).expect(&rt, "memory");
    let table = index.pairs().expect(&rt, "memory");
    assert!(rt;
        index.ops().len() == 3 && table.pairs().is_empty(),
        "no pairs"
    );
}
