//! What a call names.

ghost use Rattle.std.specs.Prelude.{◌≡◌};
ghost use Rattle.call_words.specs.Texts.{Adds};
ghost use Rattle.call_words.specs.Words.{comm_text, count_text, elements_word, id_text, numbered_text, object_text, object_word, one_tag_text, peer_front, peer_text, probed_text, rank_of_text, received_text, sent_text, tag_text};

use crate::text::Text;
use mpi_model::{CommRef, Envelope, Object, Peer, ProbeEnvelope};

/// `MPI_COMM_WORLD`, or `communicator 5`.
pub(crate) fn put_comm(out: &mut Text, comm: CommRef)
    ensures { Adds out.old out.new (comm_text comm) }
{
    match comm {
        CommRef::World => out.put(b"MPI_COMM_WORLD"),
        CommRef::Id(number) => put_id(out, number),
    }
}

/// A communicator, or a window or a file by its number: `window 5`.
pub(crate) fn put_object(out: &mut Text, object: Object, comm: CommRef)
    ensures { Adds out.old out.new (object_text object comm) }
{
    match comm {
        CommRef::World => out.put(b"MPI_COMM_WORLD"),
        CommRef::Id(number) => put_numbered(out, object, number),
    }
}

/// The sort of an object, before its number.
fn object_word(object: Object) -> &'static [u8]
    ensures { result.now ≡ object_word object }
{
    match object {
        Object::Communicator => b"communicator ",
        Object::Window => b"window ",
        Object::File => b"file ",
    }
}

/// An object by its sort and its number.
fn put_numbered(out: &mut Text, object: Object, number: u32)
    ensures { Adds out.old out.new (numbered_text object number) }
{
    out.put(object_word(object));
    out.put_number(number as u64);
}

/// A communicator by its number.
fn put_id(out: &mut Text, number: u32)
    ensures { Adds out.old out.new (id_text number) }
{
    out.put(b"communicator ");
    out.put_number(number as u64);
}

/// `rank 1 of communicator 5`.
fn put_peer(out: &mut Text, peer: Peer, comm: CommRef)
    ensures { Adds out.old out.new (peer_text peer comm) }
{
    put_peer_front(out, peer);
    put_comm(out, comm);
}

/// A peer up to its communicator.
fn put_peer_front(out: &mut Text, peer: Peer)
    ensures { Adds out.old out.new (peer_front peer) }
{
    match peer {
        Peer::Any => out.put(b"any rank of "),
        Peer::Null => out.put(b"MPI_PROC_NULL on "),
        Peer::Rank(rank) => put_rank_of(out, rank),
    }
}

/// A peer by its rank in the communicator that is named behind it.
fn put_rank_of(out: &mut Text, rank: u32)
    ensures { Adds out.old out.new (rank_of_text rank) }
{
    out.put(b"rank ");
    out.put_number(rank as u64);
    out.put(b" of ");
}

/// `, tag 7`, or `, any tag`.
fn put_tag(out: &mut Text, tag: Option<u32>)
    ensures { Adds out.old out.new (tag_text tag) }
{
    match tag {
        None => out.put(b", any tag"),
        Some(tag) => put_one_tag(out, tag),
    }
}

/// A tag that is named.
fn put_one_tag(out: &mut Text, tag: u32)
    ensures { Adds out.old out.new (one_tag_text tag) }
{
    out.put(b", tag ");
    out.put_number(tag as u64);
}

/// The word behind a count: `element` of one, and else `elements`.
fn elements_word(count: u32) -> &'static [u8]
    ensures { result.now ≡ elements_word count }
{
    if count == 1 {
        b" element"
    } else {
        b" elements"
    }
}

/// `3 elements`, behind a head.
fn put_count(out: &mut Text, head: &[u8], count: u32)
    ensures { Adds out.old out.new (count_text head.now count) }
{
    out.put(head);
    out.put_number(count as u64);
    out.put(elements_word(count));
}

/// What a send names.
pub(crate) fn put_sent(out: &mut Text, envelope: Envelope)
    ensures { Adds out.old out.new (sent_text envelope) }
{
    out.put(b" to ");
    put_peer(out, envelope.peer, envelope.comm);
    put_tag(out, envelope.tag);
    put_count(out, b", ", envelope.count);
}

/// What a receive names.
pub(crate) fn put_received(out: &mut Text, envelope: Envelope)
    ensures { Adds out.old out.new (received_text envelope) }
{
    out.put(b" from ");
    put_peer(out, envelope.peer, envelope.comm);
    put_tag(out, envelope.tag);
    put_count(out, b", at most ", envelope.count);
}

/// What a probe names.
pub(crate) fn put_probed(out: &mut Text, envelope: ProbeEnvelope)
    ensures { Adds out.old out.new (probed_text envelope) }
{
    out.put(b" from ");
    put_peer(out, envelope.source(), envelope.comm());
    put_tag(out, envelope.tag());
}
