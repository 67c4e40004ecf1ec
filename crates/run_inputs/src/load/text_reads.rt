//! The texts of all ranks, which several threads read for what their calls say of communicators.

ghost use Rattle.std.specs.Prelude.{◌≡◌, IfErr, IfOk, length, option_map, string_bytes};
ghost use Rattle.run_inputs.specs.TextCalls.{RefusesAt, RefusesText, Says, SaysAt, SaysNothing, is_no_text};
ghost use Rattle.run_inputs.specs.TextReads.{IsTextRead, text_of_rank};

use crate::faults::fault::RunFault;
use crate::faults::init_fault::InitFault;
use crate::faults::walk_fault::fault_of_walk;
use crate::load::input::opened;
use crate::load::opener::Opener;
use comm_makings::RankCalls;
use dumpi_calls::Walked;
use side_by_side::Jobs;
use std::alloc::Global;
use text_layouts::rank_calls_of;

/// The reading of the texts of all ranks: a job for each rank.
#[derive(Drop)]
pub(crate) struct TextJobs<'r, O: Opener> {
    pub(crate) alloc: Global,
    /// The name of each rank's text, where it has one.
    pub(crate) seats: &'r [Option<String>],
    pub(crate) files: &'r O,
}

/// What the text of a rank says of communicators, and how many calls it has; or why it is refused.
#[derive(Drop)]
pub(crate) struct TextRead {
    pub(crate) calls: Result<(RankCalls, u64), InitFault>,
}

impl<'r, O: Opener> Jobs for TextJobs<'r, O> {
    type Output = TextRead;

    ghost ready = { λ jobs. Unit {0} };

    ghost many = { λ jobs. length jobs.seats.now };

    ghost gives = { λ jobs number read. IsTextRead (O.file jobs.files.now) (text_of_rank jobs.seats.now number) read };

    fn count(&self) -> usize {
        self.seats.len()
    }

    fn size(&self, number: usize) -> u64 {
        match self.seats.get(number) {
            Some(Some(path)) => self.files.length(path.as_str()).unwrap_or(u64::MAX),
            _ => 0,
        }
    }

    #[tactic(auto, using(crate::proofs::Seats::text_there))]
    fn job(&self, number: usize, _buffer: &mut Vec<u8>) -> TextRead {
        read_text(self.alloc, &self.seats[number], self.files)
    }

    fn refuses(given: &TextRead) -> bool {
        given.calls.is_err()
    }
}

/// Reads the text of a rank.
fn read_text<O: Opener>(alloc: Global, seat: &Option<String>, files: &O) -> TextRead
    ensures { IsTextRead (O.file files.now) (option_map string_bytes seat.now) result }
{
    let calls = calls_of_seat(alloc, seat, files);
    TextRead { calls }
}

/// A text with lines and no call is none.
fn is_no_text(walked: &Walked) -> bool
    ensures { result ≡ is_no_text walked.now }
{
    walked.calls == 0 && walked.skipped > 0
}

/// What a text says of communicators, and how many calls it has.
#[tactic(auto, using(crate::proofs::Reading::said, crate::proofs::Reading::refused, crate::proofs::Reading::has_no_call, crate::proofs::Opening::text_unopened))]
fn calls_of<O: Opener>(alloc: Global, path: &str, files: &O) -> Result<(RankCalls, u64), InitFault>
    ensures ok { IfOk result (λ read. Says (O.file files.now path.now) read.0 read.1) }
    ensures err { IfErr result (RefusesText path.now (O.file files.now path.now)) }
{
    let reader = match opened(alloc, path, files) {
        Ok(reader) => reader,
        Err(RunFault::Memory) => return Err(InitFault::Memory),
        Err(fault) => return Err(InitFault::Text(fault)),
    };
    match rank_calls_of(alloc, reader) {
        Ok((calls, walked)) => {
            if is_no_text(&walked) {
                return Err(InitFault::NoCall {
                    path: path.to_string(alloc)?,
                });
            }
            Ok((calls, walked.calls))
        }
        Err(fault) => Err(InitFault::Text(fault_of_walk(alloc, path, fault)?)),
    }
}

/// A rank without a text says nothing.
fn nothing_said(alloc: Global) -> RankCalls
    ensures { SaysNothing result }
{
    RankCalls {
        world: None,
        own: None,
        size: None,
        calls: Vec::new(alloc),
        uses: Vec::new(alloc),
        windows: Vec::new(alloc),
        files: Vec::new(alloc),
    }
}

/// What the text of a rank says, where it has one.
fn calls_of_seat<O: Opener>(
    alloc: Global,
    seat: &Option<String>,
    files: &O,
) -> Result<(RankCalls, u64), InitFault>
    ensures ok { IfOk result (λ read. SaysAt (O.file files.now) (option_map string_bytes seat.now) read.0 read.1) }
    ensures err { IfErr result (RefusesAt (O.file files.now) (option_map string_bytes seat.now)) }
{
    match seat {
        Some(path) => calls_of(alloc, path.as_str(), files),
        None => Ok((nothing_said(alloc), 0)),
    }
}
