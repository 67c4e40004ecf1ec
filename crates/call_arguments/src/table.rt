//! Which arguments are compared, by the kind of the collective call: one table.

ghost use Rattle.std.specs.Prelude.{◌≡◌, false, true};
ghost use Rattle.dumpi_text.specs.Call.{TextCall};
ghost use Rattle.call_arguments.specs.Known.{is_empty};
ghost use Rattle.call_arguments.specs.Told.{told_of};
ghost use Rattle.call_arguments.specs.Table.{compared_of, count_name, counted, compares_counts, is_compared, is_list, line_by, lines_of, other_count_name, other_type_name, reduced, type_name};

use mpi_model::Kind;

/// The parameters that have a count, or counts, and their datatype.
#[derive(Clone, Copy, PartialEq, Eq)]
pub enum Parameters {
    /// `count`, with `datatype`.
    Count,
    /// `recvcount`, else `count`, with `datatype`, else `recvtype`.
    ReceiveCount,
    /// `recvcounts`, with `datatype`, else `recvtype`.
    ReceiveCounts,
    /// `sendcount`, with `sendtype`.
    Send,
    /// `recvcount`, with `recvtype`.
    Receive,
    /// `recvcounts`, with `recvtype`.
    ReceiveList,
    /// `sendcounts`, with `sendtype`.
    SendList,
}

/// How the counts of a round are compared.
#[derive(Clone, Copy, PartialEq, Eq)]
pub enum Rule {
    /// Not at all.
    Nothing,
    /// Those of all members are the same.
    Alike(Parameters),
    /// Those of the root, which come second, are the same as those of each other member.
    Rooted(Parameters, Parameters),
    /// The root has a list, which comes second: the i-th count is that of the i-th member.
    Listed(Parameters, Parameters),
}

/// What is compared of the calls of a round.
#[derive(Clone, Copy)]
pub struct Compared {
    /// Whether they have an operation, which is the same for all members (MPI 4.0, 6.9).
    pub operation: bool,
    pub counts: Rule,
}

/// A line of the table: one thing that is compared.
#[derive(Clone, Copy, PartialEq, Eq)]
pub enum Line {
    Operation,
    Alike,
    Rooted,
    Listed,
}

/// No operation, and counts by this rule.
fn counted(counts: Rule) -> Compared
    ensures { result ≡ counted counts }
{
    Compared {
        operation: false,
        counts,
    }
}

/// One operation, and counts by this rule.
fn reduced(counts: Rule) -> Compared
    ensures { result ≡ reduced counts }
{
    Compared {
        operation: true,
        counts,
    }
}

/// What is compared of the calls of a round, by their kind.
pub fn compared_of(kind: Kind) -> Compared
    ensures { result ≡ compared_of kind }
{
    match kind {
        Kind::Bcast => counted(Rule::Alike(Parameters::Count)),
        Kind::Reduce => reduced(Rule::Alike(Parameters::Count)),
        Kind::Allreduce => reduced(Rule::Alike(Parameters::Count)),
        Kind::Scan => reduced(Rule::Alike(Parameters::Count)),
        Kind::Exscan => reduced(Rule::Alike(Parameters::Count)),
        Kind::ReduceScatterBlock => reduced(Rule::Alike(Parameters::ReceiveCount)),
        Kind::ReduceScatter => reduced(Rule::Alike(Parameters::ReceiveCounts)),
        Kind::Allgather => counted(Rule::Alike(Parameters::ReceiveCount)),
        Kind::Alltoall => counted(Rule::Alike(Parameters::ReceiveCount)),
        Kind::Allgatherv => counted(Rule::Alike(Parameters::ReceiveCounts)),
        Kind::Gather => counted(Rule::Rooted(Parameters::Send, Parameters::Receive)),
        Kind::Scatter => counted(Rule::Rooted(Parameters::Receive, Parameters::Send)),
        Kind::Gatherv => counted(Rule::Listed(Parameters::Send, Parameters::ReceiveList)),
        Kind::Scatterv => counted(Rule::Listed(Parameters::Receive, Parameters::SendList)),
        _ => counted(Rule::Nothing),
    }
}

/// The line of counts.
fn line_by(rule: Rule) -> &'static [Line]
    ensures { result.now ≡ line_by rule }
{
    match rule {
        Rule::Nothing => &[],
        Rule::Alike(_) => &[Line::Alike],
        Rule::Rooted(_, _) => &[Line::Rooted],
        Rule::Listed(_, _) => &[Line::Listed],
    }
}

/// The same, behind that of the operation.
fn line_behind(rule: Rule) -> &'static [Line]
    ensures { result.now ≡ lines_of (reduced rule) }
{
    match rule {
        Rule::Nothing => &[Line::Operation],
        Rule::Alike(_) => &[Line::Operation, Line::Alike],
        Rule::Rooted(_, _) => &[Line::Operation, Line::Rooted],
        Rule::Listed(_, _) => &[Line::Operation, Line::Listed],
    }
}

/// The lines of what is compared, in their order.
pub fn lines_of(compared: Compared) -> &'static [Line]
    ensures { result.now ≡ lines_of compared }
{
    if compared.operation {
        line_behind(compared.counts)
    } else {
        line_by(compared.counts)
    }
}

/// Whether counts are compared.
fn compares_counts(rule: Rule) -> bool
    ensures { result ≡ compares_counts rule }
{
    match rule {
        Rule::Nothing => false,
        _ => true,
    }
}

/// Whether something is compared of the calls of a kind. Of others a call tells nothing.
#[tactic(auto, using(crate::proofs::Nothing::nothing_told))]
pub fn is_compared(kind: Kind) -> bool
    ensures compared { result ≡ is_compared kind }
    ensures nothing { result ≡ false → (raw : TextCall) → is_empty (told_of kind raw) ≡ true }
{
    let compared = compared_of(kind);
    compared.operation || compares_counts(compared.counts)
}

impl Parameters {
    /// The first name of the parameter that has the count or the counts.
    pub fn count_name(self) -> &'static [u8]
        ensures { result.now ≡ count_name self }
    {
        match self {
            Parameters::Count => b"count",
            Parameters::ReceiveCount => b"recvcount",
            Parameters::ReceiveCounts => b"recvcounts",
            Parameters::Send => b"sendcount",
            Parameters::Receive => b"recvcount",
            Parameters::ReceiveList => b"recvcounts",
            Parameters::SendList => b"sendcounts",
        }
    }

    /// The name that counts where the call doesn't have the first.
    pub(crate) fn other_count_name(self) -> &'static [u8]
        ensures { result.now ≡ other_count_name self }
    {
        match self {
            Parameters::ReceiveCount => b"count",
            other => other.count_name(),
        }
    }

    /// The first name of their datatype.
    pub(crate) fn type_name(self) -> &'static [u8]
        ensures { result.now ≡ type_name self }
    {
        match self {
            Parameters::Count => b"datatype",
            Parameters::ReceiveCount => b"datatype",
            Parameters::ReceiveCounts => b"datatype",
            Parameters::Send => b"sendtype",
            Parameters::Receive => b"recvtype",
            Parameters::ReceiveList => b"recvtype",
            Parameters::SendList => b"sendtype",
        }
    }

    /// The name that counts where the call doesn't have the first.
    pub(crate) fn other_type_name(self) -> &'static [u8]
        ensures { result.now ≡ other_type_name self }
    {
        match self {
            Parameters::ReceiveCount => b"recvtype",
            Parameters::ReceiveCounts => b"recvtype",
            other => other.type_name(),
        }
    }

    /// Whether there is one count for each member, in their order.
    pub(crate) fn is_list(self) -> bool
        ensures { result ≡ is_list self }
    {
        match self {
            Parameters::ReceiveCounts => true,
            Parameters::ReceiveList => true,
            Parameters::SendList => true,
            _ => false,
        }
    }
}
