//! Persistent requests that aren't active: never started, or not again, or freed. Each is looked up as the message or
//! the receive that a start of it would make.

ghost use Rattle.std.specs.Prelude.{◌≡◌, not};
ghost use Rattle.std.specs.BTreeSet.{contains};
ghost use Rattle.std.specs.Ordering.{nat_cmp};

use crate::calls::{call_named, named};
use crate::inits::Inits;
use crate::unmatched::Run;
use mpi_model::{
    Call, CommRef, Envelope, Layout, Message, Mode, Object, OpName, Peer, Receive, Trust,
};
use std::alloc::{AllocError, Global};
use std::collections::BTreeSet;
use trace_know::Knowledge;
use trace_ops::{RankOps, is_foreign};

/// The inits that aren't active, as the messages and receives that they describe, by name.
#[derive(Drop)]
pub(crate) struct Idle {
    pub messages: Vec<Message>,
    pub receives: Vec<Receive>,
}

/// The inits of a rank whose requests are active.
fn active_inits(
    alloc: Global,
    know: &Knowledge,
    inits: &Inits,
    own: &RankOps,
) -> Result<BTreeSet<u64>, AllocError> {
    let mut found = BTreeSet::new(alloc);
    for post in own.active() {
        if let Some(init) = inits.started(know, post.1) {
            found.insert(init)?;
        }
    }
    Ok(found)
}

/// Whether the request that a call made isn't active.
fn is_idle(active: &BTreeSet<u64>, call: u64) -> bool
    ensures { result ≡ not (contains nat_cmp active.now call) }
{
    !active.contains(&call)
}

/// Those whose ranks a call of a rank names on its communicator, with that one's id.
fn group_of<'a>(
    layout: &'a Layout,
    rank: u32,
    number: u64,
    comm: CommRef,
) -> Option<(u32, &'a [u32])> {
    let comm = layout.named(rank, number, Object::Communicator, comm)?;
    Some((comm, layout.peers(comm, rank)?))
}

/// The message that an init describes.
fn message_of(layout: &Layout, name: OpName, mode: Mode, e: Envelope) -> Option<Message> {
    let (comm, members) = group_of(layout, name.rank, name.call, e.comm)?;
    match e.peer {
        Peer::Rank(place) => {
            let to = *members.get(place as usize)?;
            Some(Message {
                name,
                comm,
                from: name.rank,
                to,
                tag: e.tag.unwrap_or(0),
                mode,
                trust: Trust::Sure,
                count: e.count,
                datatype: e.datatype,
            })
        }
        Peer::Any | Peer::Null => None,
    }
}

/// The source that an init names, where it isn't the null process.
fn source_of(members: &[u32], peer: Peer) -> Option<Option<u32>> {
    match peer {
        Peer::Null => None,
        Peer::Any => Some(None),
        Peer::Rank(place) => Some(Some(*members.get(place as usize)?)),
    }
}

/// The receive that an init describes.
fn receive_of(layout: &Layout, name: OpName, e: Envelope) -> Option<Receive> {
    let (comm, members) = group_of(layout, name.rank, name.call, e.comm)?;
    let source = source_of(members, e.peer)?;
    Some(Receive {
        name,
        comm,
        at: name.rank,
        source,
        tag: e.tag,
        count: e.count,
        trust: Trust::Sure,
        datatype: e.datatype,
        ended: None,
    })
}

impl Idle {
    /// The table for all ranks. Fails with `AllocError` when memory is refused.
    pub fn of(alloc: Global, run: &Run<'_>, inits: &Inits) -> Result<Idle, AllocError> {
        let mut idle = Idle {
            messages: Vec::new(alloc),
            receives: Vec::new(alloc),
        };
        for rank in 0..run.ranks {
            if let Some(own) = run.ops.get(rank as usize) {
                idle.add_of(alloc, run, inits, rank, own)?;
            }
        }
        Ok(idle)
    }

    /// And those of a rank that did this.
    fn add_of(
        &mut self,
        alloc: Global,
        run: &Run<'_>,
        inits: &Inits,
        rank: u32,
        own: &RankOps,
    ) -> Result<(), AllocError> {
        if inits.of_rank(rank).is_empty() {
            return Ok(());
        }
        let active = active_inits(alloc, run.know, inits, own)?;
        self.add_rank(alloc, run.layout, run.know, inits, rank, &active)
    }

    /// And those of a rank with these active ones.
    fn add_rank(
        &mut self,
        alloc: Global,
        layout: &Layout,
        know: &Knowledge,
        inits: &Inits,
        rank: u32,
        active: &BTreeSet<u64>,
    ) -> Result<(), AllocError> {
        let mut calls = Vec::new(alloc);
        for made in inits.of_rank(rank) {
            calls.push(made.call)?;
        }
        calls.sort()?;
        for call in &calls {
            if is_idle(active, *call) {
                self.add(layout, know, named(rank, *call))?;
            }
        }
        Ok(())
    }

    /// And that of an init.
    fn add(&mut self, layout: &Layout, know: &Knowledge, name: OpName) -> Result<(), AllocError> {
        let Some(call) = call_named(know, name) else {
            return Ok(());
        };
        if is_foreign(layout, name.rank, name.call, call) {
            return Ok(());
        }
        match call {
            Call::SendInit(mode, e) => {
                if let Some(m) = message_of(layout, name, *mode, e.envelope()) {
                    self.messages.push(m)?;
                }
            }
            Call::RecvInit(e) => {
                if let Some(q) = receive_of(layout, name, e.envelope()) {
                    self.receives.push(q)?;
                }
            }
            _ => {}
        }
        Ok(())
    }
}
