//! The texts of all ranks, as what their calls say of communicators.

ghost use Rattle.std.specs.Prelude.{◌≡◌, ◌-◌, ◌^◌, ◌<◌, IfErr, IfOk, length, min, ℕ};
ghost use Rattle.text_layouts.specs.Seats.{kept};
ghost use Rattle.run_inputs.specs.TextCalls.{AllSay, RefusesAt, RefusesOne, SaysAt};
ghost use Rattle.run_inputs.specs.TextReads.{text_of_rank};

use crate::faults::init_fault::InitFault;
use crate::load::opener::{Opener, SharedOpener};
use crate::load::text_reads::{TextJobs, TextRead};
use comm_makings::RankCalls;
use side_by_side::{Results, results_of};
use std::alloc::Global;

/// What the texts of all ranks say.
#[derive(Drop)]
pub(crate) struct AllCalls {
    /// What each rank's text says of communicators.
    pub(crate) ranks: Vec<RankCalls>,
    /// How many calls they have together, up to 2^64 - 1.
    pub(crate) calls: u64,
}

/// What the text of a rank says, where it has one.
fn said_of<O: Opener>(
    texts: &mut Results<'_, TextJobs<'_, O>>,
    rank: usize,
    buffer: &mut Vec<u8>,
) -> Result<(RankCalls, u64), InitFault>
    requires { rank < length texts.old.seats.now }
    ensures ok { IfOk result (λ read. SaysAt (O.file texts.old.files.now) (text_of_rank texts.old.seats.now rank) read.0 read.1) }
    ensures err { IfErr result (RefusesAt (O.file texts.old.files.now) (text_of_rank texts.old.seats.now rank)) }
    ensures same { texts.new ≡ texts.old }
{
    let TextRead { calls } = texts.take(rank, buffer);
    calls
}

/// What the texts of all ranks say, where each has one. Several threads read them.
pub(crate) fn calls_of_all<O: SharedOpener>(
    alloc: Global,
    seats: &[Option<String>],
    files: &O,
) -> Result<AllCalls, InitFault>
where
    O::R: Send,
    ensures ok { IfOk result (λ all. (calls : ℕ) × AllSay (O.file files.now) (kept seats.now) all.ranks.items calls
        × (all.calls ≡ min calls (2 ^ 64 - 1))) }
    ensures err { IfErr result (RefusesOne (O.file files.now) (kept seats.now)) }
{
    let jobs = TextJobs {
        alloc,
        seats,
        files,
    };
    let mut texts = results_of(files.handle(), alloc, files.threads(), &jobs)?;
    let mut buffer = Vec::new(alloc);
    let mut ranks = Vec::new(alloc);
    let mut calls: u64 = 0;
    for rank in 0..seats.len() {
        let (of_rank, count) = said_of(&mut texts, rank, &mut buffer)?;
        ranks.push(of_rank)?;
        calls = calls.saturating_add(count);
    }
    Ok(AllCalls { ranks, calls })
}
