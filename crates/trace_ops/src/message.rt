//! The messages of a rank, and its entries into collective calls.

ghost use Rattle.std.specs.Prelude.{◌≡◌, true, false};
ghost use Rattle.trace_ops.specs.Fate.{OfPost};
ghost use Rattle.trace_ops.specs.Groups.{plain, plain_group};
ghost use Rattle.trace_ops.specs.Message.{message_in, message_to, sent_by, sent_with, tag_of};
ghost use Rattle.trace_ops.specs.Round.{entered_by, entered_in, entry_of, root_in};
ghost use Rattle.trace_ops.specs.Steps.{starting};

use crate::entered::Entered;
use crate::fate::Fate;
use crate::group::{Group, peer_rank};
use crate::trust::trust_of_post;
use mpi_model::{Call, Collective, Envelope, Message, Mode, NonblockingCollective, OpName, Trust};

/// The tag of a send, which always names one.
fn tag_of(tag: Option<u32>) -> u32
    ensures { result ≡ tag_of tag }
{
    match tag {
        Some(tag) => tag,
        None => 0,
    }
}

/// The message of a call's envelope to a rank of the trace.
fn message_to(
    group: Group<'_>,
    name: OpName,
    mode: Mode,
    e: Envelope,
    trust: Trust,
    to: u32,
) -> Message
    ensures { result ≡ message_to (plain group.entry) name mode e trust to }
{
    Message {
        name,
        comm: group.comm,
        from: name.rank,
        to,
        tag: tag_of(e.tag),
        mode,
        trust,
        count: e.count,
        datatype: e.datatype,
    }
}

/// The message of a send to a rank of the group; a send to the null process moves nothing.
#[inline(always)]
fn sent_with(
    group: Group<'_>,
    name: OpName,
    mode: Mode,
    e: Envelope,
    trust: Trust,
) -> Option<Message>
    ensures { result ≡ sent_with (plain group.entry) name mode e trust }
{
    let peer = peer_rank(e.peer)?;
    let to = group.members.get(peer as usize)?;
    Some(message_to(group, name, mode, e, trust, *to))
}

/// The message that a step starts in its group as this call, where it starts one.
#[inline(always)]
fn sent_by(group: Group<'_>, name: OpName, call: &Call, fate: Option<Fate<'_>>) -> Option<Message>
    ensures { OfPost fate.entry (λ p. result ≡ sent_by (plain group.entry) name p.step p.later call.now) }
{
    match call {
        Call::Send(mode, e) => sent_with(group, name, *mode, e.envelope(), Trust::Sure),
        Call::Isend(mode, e) => {
            let trust = trust_of_post(fate, false);
            sent_with(group, name, *mode, e.envelope(), trust)
        }
        Call::Sendrecv(both) => {
            let e = both.send();
            sent_with(group, name, Mode::Standard, e, Trust::Sure)
        }
        _ => None,
    }
}

/// The message that a step of this name starts in its group as this call, by the fate of the request that it posts.
#[inline(always)]
pub(crate) fn message_in(
    group: Option<Group<'_>>,
    name: OpName,
    call: &Call,
    fate: Option<Fate<'_>>,
) -> Option<Message>
    ensures { OfPost fate.entry (λ p. call.now ≡ starting p.step → result ≡ message_in (plain_group group.entry) name p) }
{
    sent_by(group?, name, call, fate)
}

/// The root of a round: none on an intercommunicator, where each member names another.
fn root_in(group: Group<'_>, c: Collective) -> Option<u32>
    ensures { result ≡ root_in (plain group.entry) c }
{
    if group.inter { None } else { c.root() }
}

/// The entry of a blocking collective call into a round of its object.
fn entry_of_blocking(group: Group<'_>, n: u64, c: Collective) -> Entered
    ensures { result ≡ entry_of (plain group.entry) n c false }
{
    Entered {
        comm: group.comm,
        inter: group.inter,
        function: c.function(),
        root: root_in(group, c),
        call: n,
    }
}

/// The entry of one that doesn't block.
fn entry_of_nonblocking(group: Group<'_>, n: u64, c: NonblockingCollective) -> Entered
    ensures { result ≡ entry_of (plain group.entry) n c true }
{
    Entered {
        comm: group.comm,
        inter: group.inter,
        function: c.function(),
        root: root_in(group, c.call()),
        call: n,
    }
}

/// The entry of a call, where it is collective, blocking or not.
fn entered_by(group: Group<'_>, n: u64, call: &Call) -> Option<Entered>
    ensures { result ≡ entered_by (plain group.entry) n call.now }
{
    match call {
        Call::Collective(c) => Some(entry_of_blocking(group, n, *c)),
        Call::Icollective(c) => Some(entry_of_nonblocking(group, n, *c)),
        _ => None,
    }
}

/// The entry of call `n` into a round of its group, where it is a collective one.
pub(crate) fn entered_in(group: Option<Group<'_>>, n: u64, call: &Call) -> Option<Entered>
    ensures { result ≡ entered_in (plain_group group.entry) n call.now }
{
    entered_by(group?, n, call)
}
