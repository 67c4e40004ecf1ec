//! Walks by a sink that counts, by one that adds up and refuses, and what a walk's fault prints.

use crate::sinks::SentTo;
use dumpi_calls::{Tally, WalkCause, WalkFault, Walked, walk};
use mpi_model::Device;
use std::alloc::Global;
use std::cell::Cell;
use std::fmt::Write;
use std::test::Fail;

/// A function for each callback, in the order of `Tally`.
static FUNCTIONS: [&str; 28] = [
    "MPI_Ssend",
    "MPI_Ibsend",
    "MPI_Recv",
    "MPI_Irecv",
    "MPI_Sendrecv",
    "MPI_Probe",
    "MPI_Wait",
    "MPI_Waitall",
    "MPI_Waitany",
    "MPI_Waitsome",
    "MPI_Test",
    "MPI_Testall",
    "MPI_Testany",
    "MPI_Testsome",
    "MPI_Cancel",
    "MPI_Request_free",
    "MPI_Reduce_c",
    "MPI_Iscatterv_c",
    "MPI_Rsend_init",
    "MPI_Recv_init",
    "MPI_Start",
    "MPI_Startall",
    "MPI_Mprobe",
    "MPI_Improbe",
    "MPI_Iprobe",
    "MPI_Imrecv_c",
    "MPI_Isendrecv",
    "MPI_Mrecv",
];

/// The parameters of all functions of the profile.
const PARAMETERS: &str =
    "count=4\ndatatype=11\ndest=1\nsource=0\ntag=7\ncomm=2\nsendcount=4\nsendtype=11\nsendtag=7\nrecvcount=4\nrecvtype=11\nrecvtag=7\nroot=0\nrequest=5\nrequests={5, 6}\nindex=0\nflag=1\n";

/// The lines of a call with these parameters.
fn put_call(text: &mut String, function: &str, parameters: &str) -> Result<(), Fail> {
    write!(
        text,
        "{function} entering at walltime 1.5, cputime 0.25 seconds in thread 0.\n{parameters}{function} returning at walltime 1.75, cputime 0.5 seconds in thread 0.\n"
    )?;
    Ok(())
}

/// How often each callback was called, in the order of `FUNCTIONS`.
fn counts(tally: Tally) -> [u64; 28] {
    [
        tally.on_send,
        tally.on_isend,
        tally.on_recv,
        tally.on_irecv,
        tally.on_sendrecv,
        tally.on_probe,
        tally.on_wait,
        tally.on_waitall,
        tally.on_waitany,
        tally.on_waitsome,
        tally.on_test,
        tally.on_testall,
        tally.on_testany,
        tally.on_testsome,
        tally.on_cancel,
        tally.on_request_free,
        tally.on_collective,
        tally.on_icollective,
        tally.on_send_init,
        tally.on_recv_init,
        tally.on_start,
        tally.on_startall,
        tally.on_mprobe,
        tally.on_improbe,
        tally.on_iprobe,
        tally.on_imrecv,
        tally.on_unread,
        tally.on_other,
    ]
}

/// What a walk over two calls of a function counts.
fn counted(alloc: Global, function: &str) -> Result<[u64; 28], Fail> {
    let mut text = String::new(alloc);
    put_call(&mut text, function, PARAMETERS)?;
    put_call(&mut text, function, PARAMETERS)?;
    let mut tally = Tally::new();
    walk(alloc, Device::new(text.as_bytes()), &mut tally)?;
    Ok(counts(tally))
}

#[test]
fn each_callback_is_counted(rt: HostRuntime) -> Result<(), Fail> {
    for (i, function) in FUNCTIONS.iter().enumerate() {
        let mut want = [0; 28];
        want[i] = 2;
        let found = counted(rt.alloc(), function)?;
        assert!(rt; found == want, "{function}: {found:?}");
    }
    Ok(())
}

/// The text of three sends of four elements to rank 1, of 19 lines each.
fn sends(alloc: Global) -> Result<String, Fail> {
    let mut text = String::new(alloc);
    for _ in 0..3 {
        put_call(&mut text, "MPI_Send", PARAMETERS)?;
    }
    Ok(text)
}

/// How a walk over the three sends ends that may have so many: the calls that were handed on and
/// the line of the one that was refused, if one was; how many elements were sent; and how often the sink was asked.
fn summed(alloc: Global, most: u64) -> Result<(u64, Option<u64>, u64, u64), Fail> {
    let text = sends(alloc)?;
    let mut sent = SentTo {
        rank: 1,
        elements: 0,
        calls_left: most,
        asked: Cell::new(0),
    };
    let (calls, line) = match walk(alloc, Device::new(text.as_bytes()), &mut sent) {
        Ok(Walked { calls, .. }) => (calls, None),
        Err(
            WalkFault {
                cause: WalkCause::Sink(_),
                line,
                calls,
            },
        ) => (calls, Some(line)),
        Err(_) => return Err("a fault of the text".into()),
    };
    Ok((calls, line, sent.elements, sent.asked.get()))
}

#[test]
fn a_sink_that_refuses_a_call_ends_the_walk(rt: HostRuntime) -> Result<(), Fail> {
    for (most, want) in [
        (0, (0, Some(1), 0, 1)),
        (1, (1, Some(20), 4, 2)),
        (2, (2, Some(39), 8, 3)),
        (3, (3, None, 12, 3)),
    ] {
        let found = summed(rt.alloc(), most)?;
        assert!(rt; found == want, "{most} calls: {found:?}");
    }
    Ok(())
}

/// The fault of a walk over a send with these parameters, as it is printed, or nothing where it has none.
fn printed(alloc: Global, parameters: &str) -> Result<String, Fail> {
    let mut text = String::new(alloc);
    put_call(&mut text, "MPI_Send", PARAMETERS)?;
    put_call(&mut text, "MPI_Send", parameters)?;
    match walk(alloc, Device::new(text.as_bytes()), &mut Tally::new()) {
        Ok(_) => Ok(String::new(alloc)),
        Err(fault) => Ok(format!(in alloc; "{fault}")?),
    }
}

static PRINTED: [(&str, &str); 3] = [
    (
        "count=4\n",
        "C1 Missing datatype, at line 20, after 1 calls",
    ),
    (
        "tag=x\ncount=4\ndatatype=11\ndest=1\ncomm=2\n",
        "C2 Wrong tag, at line 20, after 1 calls",
    ),
    (
        "=4\n",
        "F8 BadParameter at line 21, at line 21, after 1 calls",
    ),
];

#[test]
fn faults_of_walks_are_printed(rt: HostRuntime) -> Result<(), Fail> {
    for row in &PRINTED {
        let (parameters, want) = *row;
        let found = printed(rt.alloc(), parameters)?;
        assert!(rt; found.as_str() == want, "{parameters}: {found}");
    }
    Ok(())
}
