//! Pieces that are taken, made ready, joined and copied: they tell the same in whatever way they come.

use crate::pieces::{Piece, Summary, known, segment, summary};
use std::alloc::Global;
use std::test::Fail;
use trace_know::{Knowledge, ReadySegment};

/// What the pieces tell, the last taken first and each as a copy of its segment.
fn taken_back(alloc: Global, pieces: &[Piece]) -> Result<Knowledge, Fail> {
    let mut know = Knowledge::new(alloc);
    for piece in pieces.iter().rev() {
        know.take_owned(segment(alloc, *piece)?.try_clone()?)?;
    }
    Ok(know)
}

/// What the pieces tell, each made ready, and a copy of it once more as the segment that it was.
fn taken_ready(alloc: Global, pieces: &[Piece]) -> Result<Knowledge, Fail> {
    let mut know = Knowledge::new(alloc);
    for piece in pieces {
        let ready = ReadySegment::new(alloc, segment(alloc, *piece)?)?;
        let back = ready.try_clone()?.into_segment(alloc)?;
        know.take_ready(ready)?;
        know.take(&back)?;
    }
    Ok(know)
}

/// What the first half of the pieces and the second tell, the second joined into the first, twice.
fn joined(alloc: Global, pieces: &[Piece]) -> Result<Knowledge, Fail> {
    let (front, back) = pieces.split_at(pieces.len() / 2);
    let mut know = known(alloc, front)?;
    let other = known(alloc, back)?;
    know.join(&other)?;
    know.join(&other)?;
    Ok(know)
}

/// What the pieces tell, by the way in which they come.
fn told(alloc: Global, pieces: &[Piece], way: u8) -> Result<Knowledge, Fail> {
    match way {
        0 => known(alloc, pieces),
        1 => taken_back(alloc, pieces),
        2 => taken_ready(alloc, pieces),
        3 => joined(alloc, pieces),
        _ => Ok(known(alloc, pieces)?.try_clone()?),
    }
}

/// What the pieces tell in this way, and whether it is what they tell when they are taken in their order.
fn compared(alloc: Global, pieces: &[Piece], way: u8) -> Result<(Summary, bool), Fail> {
    let know = told(alloc, pieces, way)?;
    Ok((summary(alloc, &know)?, know.same(&known(alloc, pieces)?)))
}

static ROWS: [(&str, &[Piece], Summary); 6] = [
    ("nothing", &[], (0, 0, 0, false)),
    (
        "over three runs and two gaps",
        &[(0, 2, 2, 0), (0, 4, 2, 0), (0, 6, 2, 0), (0, 0, 18, 0)],
        (18, 0, 18, false),
    ),
    (
        "a gap of one place",
        &[(0, 0, 1, 0), (0, 1, 2, 0)],
        (3, 0, 1, true),
    ),
    (
        "in the midst of a run, and other ranks",
        &[(0, 0, 12, 0), (0, 2, 2, 1), (3, 0, 1, 0)],
        (13, 2, 4, true),
    ),
    (
        "a contradiction on both sides of a gap that closes",
        &[
            (0, 0, 1, 0),
            (0, 0, 1, 1),
            (0, 1, 1, 0),
            (0, 1, 1, 1),
            (0, 0, 2, 0),
        ],
        (3, 2, 0, true),
    ),
    (
        "the last place of the last rank",
        &[(u32::MAX, 549_755_813_887, 2, 0), (0, 0, 2, 0)],
        (4, 0, 2, false),
    ),
];

#[test]
fn pieces_tell_the_same_in_whatever_way_they_come(rt: HostRuntime) -> Result<(), Fail> {
    for (name, pieces, wanted) in &ROWS {
        for way in 0..5 {
            let found = compared(rt.alloc(), pieces, way)?;
            assert!(rt; found == (*wanted, true), "{name}, way {way}: {found:?}");
        }
    }
    Ok(())
}
