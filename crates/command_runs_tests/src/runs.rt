//! Runs over files in memory. A disk tells no bytes, so the clause on the output of a run speaks of no run
//! of the program: these show that an opener can tell its bytes, and that a run over one is whole. Their
//! readers can fail behind some bytes too, and their writer behind some. The rest is shown by the built
//! program, on the rows and cases of tests/.

ghost use Rattle.std.specs.Prelude.{Some, None, codes, if◌then◌else◌};
ghost use Rattle.std.specs.Str.{bytes_eq};

use command_runs::{Outcome, Run, check, replay, report};
use mpi_model::{MemoryReader, MemoryWriter, Write};
use run_inputs::{OpenFault, Opener, RunFault, SharedOpener, Unwatched, fault_line, input_at};
use side_by_side::ThreadCount;
use std::alloc::Global;
use std::process::Abort;
use std::thread::Threads;

/// The files of a run whose pieces are one file, how many bytes of it are read before its reader fails, and how many
/// threads read. It tells their bytes.
#[derive(Drop)]
struct Shelf<'a, H: Threads + Sync> {
    handle: &'a H,
    threads: usize,
    layout: &'static [u8],
    manifest: &'static [u8],
    piece: &'static [u8],
    until_failure: usize,
}

impl<'a, H: Threads + Sync> Opener for Shelf<'a, H> {
    type R = MemoryReader<'static>;

    ghost file = { λ shelf path.
        if bytes_eq path (codes "layout.json") then Some shelf.layout.now
        else if bytes_eq path (codes "manifest.json") then Some shelf.manifest.now
        else if bytes_eq path (codes "r0.txt") then Some shelf.piece.now
        else None };

    fn open(&self, path: &str) -> Result<MemoryReader<'static>, OpenFault> {
        if path == "layout.json" {
            return Ok(MemoryReader::new(self.layout));
        }
        if path == "manifest.json" {
            return Ok(MemoryReader::new(self.manifest));
        }
        if path != "r0.txt" {
            return Err(OpenFault::File);
        }
        Ok(MemoryReader::new(self.piece).failing_after(self.until_failure))
    }

    fn length(&self, path: &str) -> Option<u64> {
        if path == "layout.json" {
            return Some(self.layout.len() as u64);
        }
        if path == "manifest.json" {
            return Some(self.manifest.len() as u64);
        }
        if path != "r0.txt" {
            return None;
        }
        Some(self.piece.len() as u64)
    }
}

impl<'a, H: Threads + Sync> SharedOpener for Shelf<'a, H> {
    type Handle = H;

    fn handle(&self) -> &H {
        self.handle
    }

    fn threads(&self) -> ThreadCount {
        ThreadCount::Exactly(self.threads)
    }
}

const LAYOUT: &[u8] = br#"{"ranks":1,"world":2,"sends":"wait","comms":[{"id":2,"members":[0]}]}"#;

// (the piece goes to the second of two nodes)
const MANIFEST: &[u8] =
    br#"{"pieces":[{"rank":0,"first":0,"file":"r0.txt"}],"nodes":2,"schedule":[["post",0,1,0],["take",1]]}"#;

const LAYOUT_OF_THREE: &[u8] =
    br#"{"ranks":3,"world":2,"sends":"wait","comms":[{"id":2,"members":[0,1,2]}]}"#;

// (the ranks fall)
const MANIFEST_OF_THREE: &[u8] =
    br#"{"pieces":[{"rank":2,"first":0,"file":"r0.txt"},{"rank":0,"first":0,"file":"r0.txt"},{"rank":1,"first":0,"file":"r0.txt"}]}"#;

const PIECE: &[u8] = b"MPI_Barrier entering at walltime 1.5, cputime 0.25 seconds in thread 0.
MPI_Comm comm=2
MPI_Barrier returning at walltime 1.75, cputime 0.25 seconds in thread 0.
";

/// What is run.
#[derive(Clone, Copy)]
enum What {
    Report,
    Replay,
    Check,
}

/// The run over these files, which are named.
fn ran<O: SharedOpener, W: Write>(
    alloc: Global,
    what: What,
    files: &O,
    out: &mut W,
) -> Result<Outcome, RunFault>
where
    O::R: Send,
{
    let input = input_at(alloc, None, "layout.json", "manifest.json", files)?;
    let run = Run::new(alloc, &input, files);
    match what {
        What::Report => report(&run, &mut Unwatched, out),
        What::Replay => replay(&run, &mut Unwatched, out),
        What::Check => check(&run, &mut Unwatched, out),
    }
}

/// What a run writes, and then its fault line. Its output has room for so many bytes.
fn told<R: Abort + Threads + Sync>(
    rt: &R,
    alloc: Global,
    what: What,
    input: (&'static [u8], &'static [u8]),
    threads: usize,
    until_failure: usize,
    room: usize,
) -> String {
    let (layout, manifest) = input;
    let files = Shelf {
        handle: rt,
        threads,
        layout,
        manifest,
        piece: PIECE,
        until_failure,
    };
    let mut out = MemoryWriter::new(alloc).failing_after(room);
    let ended = ran(alloc, what, &files, &mut out);
    let mut text = std::str::from_utf8(out.bytes())
        .ok()
        .expect(rt, "a text")
        .to_string(alloc)
        .expect(rt, "memory");
    if let Err(fault) = ended {
        let line = fault_line(alloc, &fault).expect(rt, "memory");
        text.push_str(line.as_str()).expect(rt, "memory");
    }
    text
}

const ALL: usize = usize::MAX;

/// A name, what is run, how many bytes of the piece are read and how many of the output are
/// taken before a failure, and what is told
static RUNS: [(&str, What, usize, usize, &str); 5] = [
    (
        "a report",
        What::Report,
        ALL,
        ALL,
        "mpimatch report 1\nranks 1 sends wait\nrank 0 prefix 2 free\nround 2:0 barrier complete\nstuck none\nforeign 0\nend\n",
    ),
    (
        "a replay",
        What::Replay,
        ALL,
        ALL,
        "node 0\nmpimatch report 1\nranks 1 sends wait\nrank 0 prefix 0 free\nstuck none\nforeign 0\nend\nnode 1\nmpimatch report 1\nranks 1 sends wait\nrank 0 prefix 2 free\nround 2:0 barrier complete\nstuck none\nforeign 0\nend\n",
    ),
    (
        "a reader that fails within the second line",
        What::Report,
        80,
        ALL,
        "mpimatch: F1 Read at r0.txt:2\n",
    ),
    (
        "a reader that fails behind the last line",
        What::Replay,
        PIECE.len(),
        ALL,
        "mpimatch: F1 Read at r0.txt:4\n",
    ),
    (
        "a writer that takes a front of a report",
        What::Report,
        ALL,
        8,
        "mpimatchmpimatch: R1 Write\n",
    ),
];

#[test]
fn runs_over_files_that_tell_their_bytes(rt: HostRuntime) {
    for row in &RUNS {
        let (name, what, until_failure, room, want) = *row;
        let input = (LAYOUT, MANIFEST);
        for threads in [1, 3] {
            let found = told(&rt, rt.alloc(), what, input, threads, until_failure, room);
            assert!(rt;
                found.as_str() == want,
                "{name} by {threads} threads: {found}"
            );
        }
    }
}

/// What is run, how many threads read, how many bytes of each piece are read before a failure, and what is told
static SIDE_BY_SIDE: [(What, usize, usize, &str); 9] = [
    (What::Report, 1, ALL, OF_THREE),
    (What::Report, 2, ALL, OF_THREE),
    (What::Report, 3, ALL, OF_THREE),
    (What::Report, 1000, ALL, OF_THREE),
    (What::Report, 1, 80, "mpimatch: F1 Read at r0.txt:2\n"),
    (What::Report, 3, 80, "mpimatch: F1 Read at r0.txt:2\n"),
    (What::Check, 1, ALL, CHECKED),
    (What::Check, 3, ALL, CHECKED),
    (What::Check, 3, 80, "mpimatch: F1 Read at r0.txt:2\n"),
];

const CHECKED: &str = "check pairs 0 postponed 0 equal\ncheck stuck 0 released 0 valid\n";

const OF_THREE: &str =
    "mpimatch report 1\nranks 3 sends wait\nrank 0 prefix 2 free\nrank 1 prefix 2 free\nrank 2 prefix 2 free\nround 2:0 barrier complete\nstuck none\nforeign 0\nend\n";

#[test]
fn ranks_that_are_read_side_by_side(rt: HostRuntime) {
    for row in &SIDE_BY_SIDE {
        let (what, threads, until_failure, want) = *row;
        let input = (LAYOUT_OF_THREE, MANIFEST_OF_THREE);
        let found = told(&rt, rt.alloc(), what, input, threads, until_failure, ALL);
        assert!(rt; found.as_str() == want, "{threads} threads: {found}");
    }
}
