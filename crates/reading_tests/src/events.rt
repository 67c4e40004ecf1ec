//! A call after one that has not returned, which no text has. What the numbers -1 and -2 mean in calls is data in
//! `tests/rows/frames.txt`.

use dumpi_calls::{CallSink, Collect};
use mpi_model::{Call, Stamp};
use std::alloc::Global;
use std::test::Fail;

/// How many events the first segment has of two calls that have not returned.
fn collected_of_two(alloc: Global) -> Result<Option<usize>, Fail> {
    let stamp = Stamp::new(0, 0).ok_or("a stamp")?;
    let mut collect = Collect::new(alloc);
    collect.on_other(b"MPI_Comm_rank", Call::Local, stamp, None)?;
    collect.on_other(b"MPI_Comm_rank", Call::Local, stamp, None)?;
    let segments = collect.into_ready(0, 0)?;
    Ok(segments.first().map(|segment| segment.count()))
}

#[test]
fn a_call_after_an_open_one_is_left_out(rt: HostRuntime) -> Result<(), Fail> {
    assert_eq!(rt; collected_of_two(rt.alloc())?, Some(1));
    Ok(())
}
