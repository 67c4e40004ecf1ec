//! The receives of a rank, with their told sources, and what a probe looks for.

ghost use Rattle.std.specs.Prelude.{◌≡◌};
ghost use Rattle.std.specs.Option.{option_copied};
ghost use Rattle.trace_ops.specs.Ended.{ended_of_own};
ghost use Rattle.trace_ops.specs.Fate.{OfStep};
ghost use Rattle.trace_ops.specs.Groups.{plain, plain_group};
ghost use Rattle.trace_ops.specs.Receive.{has_taken, matched_with, probe_envelope, probed, receive_from, receive_in, taken_by, taken_with};
ghost use Rattle.trace_ops.specs.Source.{told_of_flag, told_of_own};
ghost use Rattle.trace_ops.specs.Steps.{starting};
ghost use Rattle.trace_ops.specs.Trust.{trust_by};

use crate::fate::{Fate, end_of_post, source_in};
use crate::group::{Group, group_named};
use crate::trust::{trust_of_post, trust_of_probe};
use mpi_model::{
    Call, Envelope, Layout, Object, OpName, Outs, Peer, ProbeEnvelope, Receive, Trust,
};

/// The most elements that an `int` counts: a matched probe takes a message of any count.
const ANY_COUNT: u32 = 2_147_483_647;

/// The receive of a call's envelope, with its source as far as that is told.
fn receive_from(
    group: Group<'_>,
    name: OpName,
    e: Envelope,
    trust: Trust,
    source: Option<u32>,
    ended: Option<u64>,
) -> Receive
    ensures { result ≡ receive_from (plain group.entry) name e trust source ended }
{
    Receive {
        name,
        comm: group.comm,
        at: name.rank,
        source,
        tag: e.tag,
        count: e.count,
        trust,
        datatype: e.datatype,
        ended,
    }
}

/// The receive as which a call looks for a message.
#[inline(always)]
fn taken_with(
    group: Group<'_>,
    name: OpName,
    e: Envelope,
    trust: Trust,
    told: Option<u32>,
    ended: Option<u64>,
) -> Option<Receive>
    ensures { result ≡ taken_with (plain group.entry) name e trust told ended }
{
    match e.peer {
        Peer::Null => None,
        Peer::Any => Some(receive_from(group, name, e, trust, told, ended)),
        Peer::Rank(p) => {
            let source = group.members.get(p as usize).copied();
            Some(receive_from(group, name, e, trust, source, ended))
        }
    }
}

/// The envelope that a probe looks for, with a number of elements.
fn probe_envelope(count: u32, envelope: ProbeEnvelope) -> Envelope
    ensures { result ≡ probe_envelope count envelope }
{
    Envelope {
        peer: envelope.source(),
        tag: envelope.tag(),
        comm: envelope.comm(),
        count,
        datatype: 0,
    }
}

/// The receive as which the Probe of call `n` looks for a message: with its source, or with none
/// where it names any. A probe of the null process looks for none. It takes nothing, so no list of
/// receives has it (MPI 4.0, 3.8.1).
pub fn probed(layout: &Layout, rank: u32, n: u64, envelope: ProbeEnvelope) -> Option<Receive>
    ensures { result ≡ probed layout.now rank n envelope }
{
    let asked = probe_envelope(0, envelope);
    let group = group_named(layout, rank, n, Object::Communicator, asked.comm)?;
    let name = OpName {
        rank,
        call: n,
        part: 0,
    };
    taken_with(group, name, asked, Trust::Sure, None, None)
}

/// What the outcome of a Recv, Sendrecv or Mprobe tells.
fn told_of_own(members: &[u32], outs: Option<&Outs>) -> Option<u32>
    ensures { result ≡ told_of_own members.now (option_copied outs.entry) }
{
    match outs {
        Some(Outs::Status(told)) => source_in(members, told.rank()),
        _ => None,
    }
}

/// What the outcome of an Improbe tells, where it has taken a message.
fn told_of_flag(members: &[u32], outs: Option<&Outs>) -> Option<u32>
    ensures { result ≡ told_of_flag members.now (option_copied outs.entry) }
{
    match outs {
        Some(Outs::Flag(true, told)) => source_in(members, told.rank()),
        _ => None,
    }
}

/// Whether an Improbe has taken a message: it has returned with its flag set.
fn has_taken(outs: Option<&Outs>) -> bool
    ensures { result ≡ has_taken (option_copied outs.entry) }
{
    matches!(outs, Some(Outs::Flag(true, _)))
}

/// The own call of a Recv, Sendrecv, Mprobe or Improbe that has returned.
fn ended_of_own(n: u64, outs: Option<&Outs>) -> Option<u64>
    ensures { result ≡ ended_of_own n (option_copied outs.entry) }
{
    match outs {
        Some(_) => Some(n),
        None => None,
    }
}

/// The receive of a matched probe, which takes its message itself.
fn matched_with(
    group: Group<'_>,
    name: OpName,
    envelope: ProbeEnvelope,
    told: Option<u32>,
    outs: Option<&Outs>,
    given_back: bool,
) -> Option<Receive>
    ensures { result ≡ matched_with (plain group.entry) name envelope (trust_by given_back) told (option_copied outs.entry) }
{
    let e = probe_envelope(ANY_COUNT, envelope);
    let ended = ended_of_own(name.call, outs);
    taken_with(group, name, e, trust_of_probe(given_back), told, ended)
}

/// The receive as which a step looks for a message in its group as this call, where it does.
#[inline(always)]
fn taken_by(
    group: Group<'_>,
    name: OpName,
    call: &Call,
    outs: Option<&Outs>,
    fate: Option<Fate<'_>>,
    given_back: bool,
) -> Option<Receive>
    ensures { OfStep outs.entry fate.entry given_back (λ p. result ≡ taken_by (plain group.entry) name p.step p.later call.now) }
{
    match call {
        Call::Recv(e) => {
            let told = told_of_own(group.members, outs);
            let ended = ended_of_own(name.call, outs);
            taken_with(group, name, e.envelope(), Trust::Sure, told, ended)
        }
        Call::Sendrecv(both) => {
            let told = told_of_own(group.members, outs);
            let ended = ended_of_own(name.call, outs);
            taken_with(group, name, both.receive(), Trust::Sure, told, ended)
        }
        Call::Irecv(e) => {
            let (told, ended) = end_of_post(group.members, fate);
            let trust = trust_of_post(fate, told.is_some());
            taken_with(group, name, e.envelope(), trust, told, ended)
        }
        Call::Mprobe(e) => {
            let told = told_of_own(group.members, outs);
            matched_with(group, name, *e, told, outs, given_back)
        }
        Call::Improbe(e) => {
            if has_taken(outs) {
                let told = told_of_flag(group.members, outs);
                matched_with(group, name, *e, told, outs, given_back)
            } else {
                None
            }
        }
        _ => None,
    }
}

/// The receive that a step of this name starts in its group as this call, by the fate of the request that it posts, and
/// by whether an Imrecv behind it may give a message back.
#[inline(always)]
pub(crate) fn receive_in(
    group: Option<Group<'_>>,
    name: OpName,
    call: &Call,
    outs: Option<&Outs>,
    fate: Option<Fate<'_>>,
    given_back: bool,
) -> Option<Receive>
    ensures { OfStep outs.entry fate.entry given_back (λ p. call.now ≡ starting p.step
        → result ≡ receive_in (plain_group group.entry) name p) }
{
    taken_by(group?, name, call, outs, fate, given_back)
}
