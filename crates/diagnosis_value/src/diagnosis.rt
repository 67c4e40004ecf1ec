//! The value of a diagnosis: lists of facts, each small.
//!
//! Ranks are those of the trace, and stand in rising order in each list. Objects (communicators, windows, files) are
//! named by their ids in the layout, and a round by its object and its number `k`, from 0. Times are wall times in
//! nanoseconds.

use mpi_model::{Call, CollectiveFunction, Message, Object, OpName, Receive, Sends};
use trace_stuck::{Condition, RoundName};

/// What holds up a run, proved or not, and what else is known of it.
#[derive(Drop)]
pub struct Diagnosis {
    /// The number of ranks.
    pub ranks: u32,
    /// How sends of standard mode complete.
    pub sends: Sends,
    pub times: Times,
    /// The stuck ranks, as the answer proves them.
    pub stuck: Vec<u32>,
    /// The ranks that would be stuck if sends completed in the other way; `None` if they are the same.
    pub other_sends: Option<Vec<u32>>,
    pub waiting: Waiting,
    pub rounds: Rounds,
    pub unmatched: Unmatched,
    pub doubts: Doubts,
    /// Each operation that some part of the diagnosis names, in order of their names.
    pub operations: Vec<Operation>,
}

/// The times of a run.
#[derive(Clone, Copy)]
pub struct Times {
    /// The earliest wall time of a readable Enter.
    pub begin: Option<u64>,
    /// The latest wall time of anything that is known.
    pub end: Option<u64>,
}

/// Which ranks wait for which ranks.
#[derive(Drop)]
pub struct Waiting {
    /// How each rank stands, that of rank r at place r.
    pub standing: Vec<Standing>,
    /// The ranks that poll.
    pub polls: Vec<Polling>,
    /// The ranks that can't go on by themselves.
    pub held: Vec<Held>,
    /// What holds them up.
    pub roots: Vec<Root>,
}

/// Whether a rank has ended, or else how far its last call has come.
#[derive(Clone, Copy, PartialEq, Eq)]
pub enum Stand {
    /// It has ended: its last call is `MPI_Finalize`, and nothing is known after it.
    Ended,
    /// In its last call, which hasn't returned.
    In,
    /// After its last call, which has returned.
    Behind,
    /// None of its calls can be read.
    Nowhere,
}

/// What ends the readable prefix of a rank, if more is known of it or was written.
#[derive(Clone, Copy, PartialEq, Eq)]
pub enum Beyond {
    /// Nothing is known of the next place.
    Gap,
    /// Two different events are known of the next place.
    Contradiction,
    /// The next call moves messages and isn't read, or is of a second thread.
    Unread,
    /// The text was cut off there.
    Cut,
}

/// How a rank stands.
#[derive(Drop)]
pub struct Standing {
    pub rank: u32,
    pub stand: Stand,
    /// Its last call whose Enter is readable; `None` if it has none.
    pub call: Option<LastCall>,
    pub beyond: Option<Beyond>,
}

/// The last call of a rank.
#[derive(Drop)]
pub struct LastCall {
    pub number: u64,
    /// The call, as it was entered.
    pub call: Call,
    /// The round that it entered, where it is collective and the layout knows its object.
    pub round: Option<RoundName>,
    /// The operations for which its active requests stand.
    pub open: Vec<OpName>,
    /// When it was entered.
    pub entered: u64,
    /// When it returned, or else was entered: the wall time of the rank's last readable event.
    pub wall: u64,
}

/// A rank that polls: its last calls are tests and probes without success, and local calls.
#[derive(Drop)]
pub struct Polling {
    pub rank: u32,
    /// The different ones, each the last of its content, in their order.
    pub calls: Vec<Polled>,
    /// How many of its last calls are polls that had no success.
    pub count: u64,
}

/// A test or a probe without success.
#[derive(Drop)]
pub struct Polled {
    pub number: u64,
    /// The call, as it was entered.
    pub call: Call,
    /// The operations for which its active requests stand.
    pub open: Vec<OpName>,
}

/// What a held rank needs: that another rank goes on, or that a round ends which can't.
#[derive(Clone, Copy, PartialEq, Eq)]
pub enum Need {
    /// That this rank goes on.
    Rank(u32),
    /// That this round ends, whose calls don't match.
    Round(RoundName),
}

/// A held rank, which can't go on by itself: its condition doesn't hold if no rank can go on.
#[derive(Drop)]
pub struct Held {
    pub rank: u32,
    /// What it waits or polls for.
    pub waits: Condition,
    /// The ranks and rounds that it needs, each once.
    pub needs: Vec<Need>,
}

/// What a root is. Roots of equal weight are printed in this order.
#[derive(Clone, Copy, PartialEq, Eq)]
pub enum RootKind {
    /// A round whose calls don't match.
    Mismatch(RoundName),
    /// Ranks that need one another, or one rank that needs itself.
    Cycle,
    /// Ranks that have ended.
    Ended,
    /// Ranks that haven't ended and aren't seen to wait.
    Silent,
    /// Ranks that wait, and may still go on by themselves.
    Open,
}

/// A root: what holds up ranks and is itself held up by nobody else.
#[derive(Drop)]
pub struct Root {
    pub kind: RootKind,
    /// Its own ranks; of a round those that have entered it.
    pub ranks: Vec<u32>,
    /// The held ranks outside it that need it, directly or through others.
    pub holds_up: Vec<u32>,
    /// All held ranks that need it directly, including its own.
    pub needed_by: Vec<u32>,
    /// Whether the root is proved: MPI leaves these ranks no way out.
    pub proved: bool,
}

/// The rounds that are printed.
#[derive(Drop)]
pub struct Rounds {
    /// The mismatched rounds, by object and number.
    pub mismatched: Vec<MismatchedRound>,
    /// The open rounds, which some members haven't entered, by object and number.
    pub open: Vec<OpenRound>,
}

/// A round whose calls don't match.
#[derive(Drop)]
pub struct MismatchedRound {
    pub round: RoundName,
    /// The groups of members whose calls match, in the order of their first ranks.
    pub groups: Vec<CallGroup>,
}

/// Ranks that entered a round by calls that match.
#[derive(Drop)]
pub struct CallGroup {
    pub function: CollectiveFunction,
    /// The root's rank in the group, where the kind has a root.
    pub root: Option<u32>,
    pub ranks: Vec<u32>,
    /// The call of the first of them.
    pub call: OpName,
}

/// A round that some members have entered and others haven't.
#[derive(Drop)]
pub struct OpenRound {
    pub round: RoundName,
    pub function: CollectiveFunction,
    /// The root's rank in the group, where the kind has a root.
    pub root: Option<u32>,
    pub entered: Vec<u32>,
    pub missing: Vec<u32>,
}

/// Messages that nobody received, receives that nothing matched, and requests that were never completed.
#[derive(Drop)]
pub struct Unmatched {
    /// In the order of their names.
    pub left_over: Vec<LeftOver>,
    /// In the order of their names.
    pub starving: Vec<Starving>,
    /// The messages in no pair that a receive in no pair may have taken, by name.
    pub undecided: Vec<Message>,
    /// The requests that were active when their ranks called `MPI_Finalize`, by name.
    pub unfinished: Vec<OpName>,
}

/// A left-over message: no receive can have taken it, and its receiver is held or isn't seen to wait.
#[derive(Drop)]
pub struct LeftOver {
    pub message: Message,
    /// How many messages with the same communicator, sender, receiver and tag were received.
    pub before: u64,
    /// The receives that nearly fit it: by kind of difference, then by name, at most three of a kind.
    pub near: Vec<NearReceive>,
}

/// A starving receive or probe: it waits for a message which nobody is known to have sent.
#[derive(Drop)]
pub struct Starving {
    pub receive: Receive,
    /// How many messages that fit it were received.
    pub before: u64,
    /// The messages that nearly fit it: by kind of difference, then by name, at most three of a kind.
    pub near: Vec<NearMessage>,
}

/// The one thing in which a message and a receive differ that would otherwise be a pair, in the order in which it is
/// printed.
#[derive(Clone, Copy)]
pub enum Why {
    /// Only the tag differs.
    Tag,
    /// Only the communicator differs.
    Comm,
    /// Only the source differs, which the receive names.
    Source,
    /// Only the receiving rank differs: the message would fit the receive, which names its sender, if it were sent
    /// there.
    Dest,
    /// The message fits, but an earlier receive that names less has taken it.
    Taken,
    /// The message fits, but an open receive may have taken it.
    Postponed,
    /// A persistent request would fit, but it isn't active.
    Idle,
}

/// A receive that a message nearly fits.
#[derive(Clone, Copy)]
pub struct NearReceive {
    pub why: Why,
    pub receive: Receive,
}

/// A message that a receive nearly fits.
#[derive(Clone, Copy)]
pub struct NearMessage {
    pub why: Why,
    pub message: Message,
    /// The receive that has or may have taken it.
    pub by: Option<OpName>,
}

/// What may make the diagnosis wrong, as far as the ranks' calls show it.
#[derive(Drop)]
pub struct Doubts {
    /// Calls of objects that the layout doesn't know, by sort and number.
    pub foreign: Vec<Foreign>,
    /// The ranks whose prefix ends at an unread call.
    pub unread: Vec<u32>,
    /// The ranks whose prefix ends at a gap.
    pub gaps: Vec<u32>,
    /// The ranks with contradictions.
    pub conflicts: Vec<u32>,
    /// The ranks of which nothing is known.
    pub no_calls: Vec<u32>,
}

/// An object that calls name and the layout doesn't know for them.
#[derive(Clone, Copy)]
pub struct Foreign {
    /// Whether it is a communicator, a window or a file.
    pub object: Object,
    /// The number by which the text names it; for the world, its id.
    pub number: u32,
    /// How many calls name it.
    pub calls: u64,
}

/// An operation, with the call that started it.
#[derive(Drop)]
pub struct Operation {
    pub name: OpName,
    /// The call, as it was entered.
    pub call: Call,
    /// If the call is a Start or Startall, the init whose request it has started.
    pub init: Option<Init>,
}

/// The call that made a persistent request.
#[derive(Drop)]
pub struct Init {
    pub number: u64,
    /// The call, as it was entered.
    pub call: Call,
}
