//! The fields of a row: what the table, the call and its text say, together.

ghost use Rattle.std.specs.Prelude.{◌≡◌, option_map};
ghost use Rattle.trace_wait.specs.Collectives.{round_of_call};
ghost use Rattle.trace_wait.specs.Ranks.{ops_of};
ghost use Rattle.call_table.specs.Completed.{IsCompletion, posts};
ghost use Rattle.call_table.specs.Rows.{row_at};

use crate::completion::Completions;
use crate::functions::function_name;
use crate::known::{Called, called_at, count_of};
use crate::received::{ReceivedBytes, bytes_of};
use crate::row::Row;
use crate::slot::{Side, Slot, slot_at};
use crate::table::CallTable;
use crate::text::RankTexts;
use mpi_model::{Call, CommRef, Envelope, Layout, NULL_REQUEST, OpName, Outs, Peer, ProbeEnvelope};
use trace_know::Readable;
use trace_ops::started_by;
use trace_wait::RoundName;

/// The fields of a row. What doesn't apply, or isn't told, is `None`.
#[derive(Clone, Copy)]
pub struct Fields<'a> {
    /// The operation, by its rank, call and part.
    pub name: OpName,
    pub side: Option<Side>,
    /// The function, as the text has it.
    pub function: &'a [u8],
    /// When the call was entered, in nanoseconds of wall time.
    pub enter: u64,
    /// When it returned.
    pub exit: Option<u64>,
    /// The id of its object in the layout.
    pub object: Option<u32>,
    /// The rank in the trace to which it sends, from which it receives, or that is the root.
    pub peer: Option<u32>,
    pub tag: Option<u32>,
    /// How many elements it names.
    pub count: Option<u32>,
    /// The name of the datatype, as the text has it.
    pub datatype: Option<&'a [u8]>,
    /// The number of the datatype, for where no text has a name.
    pub type_number: Option<i64>,
    /// The bytes of the message, as the status of its receive tells them.
    pub bytes: Option<u64>,
    /// The request that the call posts, or that it names.
    pub request: Option<i64>,
    pub partner: Option<OpName>,
    /// The number of the round on the object.
    pub round: Option<u64>,
    /// The call that completes the request that is posted.
    pub completed_by: Option<u64>,
    /// From where in the program the call was made.
    pub site: Option<&'a [u8]>,
}

/// All that is known of one rank, of which rows are made.
#[derive(Clone, Copy)]
pub struct RankCalls<'a> {
    pub layout: &'a Layout,
    pub table: &'a CallTable<'a>,
    pub rank: u32,
    pub events: &'a Readable<'a>,
    pub texts: &'a RankTexts,
    pub completions: &'a Completions,
}

/// What a call names, on a side of it.
#[derive(Clone, Copy)]
struct Named {
    peer: Peer,
    tag: Option<u32>,
    count: Option<u32>,
    datatype: Option<i64>,
}

/// What an envelope names.
fn named_in(e: Envelope) -> Named {
    Named {
        peer: e.peer,
        tag: e.tag,
        count: Some(e.count),
        datatype: Some(e.datatype),
    }
}

/// What a probe names.
fn probed_in(e: ProbeEnvelope) -> Named {
    Named {
        peer: e.source(),
        tag: e.tag(),
        count: None,
        datatype: None,
    }
}

/// The root of a collective call, as a peer.
fn root_in(root: Option<u32>) -> Option<Named> {
    Some(Named {
        peer: Peer::Rank(root?),
        tag: None,
        count: None,
        datatype: None,
    })
}

/// What a call names on a side, where it names a peer.
fn named_by(call: &Call, side: Option<Side>) -> Option<Named> {
    match call {
        Call::Send(_, e) | Call::Isend(_, e) | Call::SendInit(_, e) => Some(named_in(e.envelope())),
        Call::Recv(e) | Call::Irecv(e) | Call::RecvInit(e) => Some(named_in(e.envelope())),
        Call::Sendrecv(both) => match side {
            Some(Side::Receive) => Some(named_in(both.receive())),
            _ => Some(named_in(both.send())),
        },
        Call::Probe(e) | Call::Mprobe(e) | Call::Improbe(e) | Call::Iprobe(e) => {
            Some(probed_in(*e))
        }
        Call::Collective(c) => root_in(c.root()),
        Call::Icollective(c) => root_in(c.call().root()),
        _ => None,
    }
}

/// A request, unless it is the null request.
fn number_in(request: i64) -> Option<i64> {
    if request == NULL_REQUEST {
        None
    } else {
        Some(request)
    }
}

/// The request that a call posts, or that it names; of a list the one of a part.
fn request_of(called: &Called<'_>, part: u32) -> Option<i64> {
    match (called.call, called.outs) {
        (_, Some(Outs::Posted(request))) => number_in(*request),
        (
            Call::Wait(request)
            | Call::Test(request)
            | Call::Cancel(request)
            | Call::Free(request)
            | Call::Start(request),
            _,
        ) => number_in(*request),
        (Call::Startall(_), _) => number_in(*started_by(called.call).get(part as usize)?),
        _ => None,
    }
}

/// Whether a call takes its message itself, by a matched probe: it names no number of elements.
fn is_matched_probe(call: &Call) -> bool {
    matches!(call, Call::Mprobe(_) | Call::Improbe(_))
}

/// Whether what a call starts is completed by another call.
fn posts(call: &Call) -> bool
    ensures { result ≡ posts call.now }
{
    matches!(
        call,
        Call::Isend(_, _)
            | Call::Irecv(_)
            | Call::Icollective(_)
            | Call::Imrecv
            | Call::Start(_)
            | Call::Startall(_)
    )
}

/// The number of a round on its object.
fn number_of(round: Option<RoundName>) -> Option<u64>
    ensures { result ≡ option_map (λ r. r.k) round }
{
    match round {
        Some(round) => Some(round.k),
        None => None,
    }
}

/// The side on which a row stands: that of its message or its receive.
fn side_of(row: &Row) -> Option<Side> {
    if row.message.is_some() {
        Some(Side::Send)
    } else if row.receive.is_some() {
        Some(Side::Receive)
    } else {
        None
    }
}

impl<'a> RankCalls<'a> {
    /// How many calls of the rank can be read.
    pub fn count(&self) -> u64 {
        count_of(self.events)
    }

    /// The call of a number, where it can be read.
    pub fn called(&self, number: u64) -> Option<Called<'a>> {
        called_at(self.events, number)
    }

    /// The fields of the row at a place of a call, by the bytes that receives tell.
    pub fn fields(
        &self,
        number: u64,
        called: &Called<'a>,
        place: u32,
        received: &ReceivedBytes,
    ) -> Fields<'a>
        ensures name { result.name ≡ (row_at self.now.table.now self.now.rank number called.now.call.now place).name }
        ensures partner { result.partner ≡ (row_at self.now.table.now self.now.rank number called.now.call.now place).partner }
        ensures round { result.round ≡ option_map (λ r. r.k) (round_of_call (ops_of self.now.table.now.ops self.now.rank) number) }
        ensures completed { IsCompletion (posts called.now.call.now) (row_at self.now.table.now self.now.rank number called.now.call.now place).receive result.completed_by }
    {
        let slot = slot_at(called.call, place);
        let row = self.table.row(self.rank, number, slot);
        let named = named_by(called.call, slot.side);
        let object = self.object_of(number, called.call, &row);
        let (datatype, type_number) = self.type_of(number, slot, &row, named);
        let entered = self.table.round(self.rank, number);
        let by = self.completed_by(called.call, &row);
        Fields {
            name: row.name,
            side: side_of(&row),
            function: self.function(number, called.call),
            enter: called.enter,
            exit: called.exit,
            object,
            peer: self.peer_of(object, &row, named),
            tag: tag_of(&row, named),
            count: self.count_of(number, called.call, &row, named),
            datatype,
            type_number,
            bytes: self.bytes_of(&row, received),
            request: request_of(called, slot.part),
            partner: row.partner,
            round: number_of(entered),
            completed_by: by,
            site: self.texts.caller(number),
        }
    }

    /// The name of a call's function: as its text has it, else by what the call is.
    pub fn function(&self, number: u64, call: &Call) -> &'a [u8] {
        match self.texts.function(number) {
            Some(name) => name,
            None => function_name(call),
        }
    }

    /// The object of a row, by its id in the layout.
    fn object_of(&self, number: u64, call: &Call, row: &Row) -> Option<u32> {
        if let Some(message) = row.message {
            return Some(message.comm);
        }
        if let Some(receive) = row.receive {
            return Some(receive.comm);
        }
        self.object_named(number, call)
    }

    /// The object that a call names, by its id in the layout.
    pub fn object_named(&self, number: u64, call: &Call) -> Option<u32> {
        let comm: CommRef = call.comm()?;
        self.layout.named(self.rank, number, call.object(), comm)
    }

    /// The rank in the trace of a peer that the rank names on an object: on an intercommunicator of the other group.
    pub fn rank_of(&self, object: Option<u32>, peer: Peer) -> Option<u32> {
        match peer {
            Peer::Rank(place) => {
                let peers = self.layout.peers(object?, self.rank)?;
                peers.get(place as usize).copied()
            }
            Peer::Any | Peer::Null => None,
        }
    }

    /// The rank at the other end of a row: of a receive from any rank the one that is told.
    fn peer_of(&self, object: Option<u32>, row: &Row, named: Option<Named>) -> Option<u32> {
        if let Some(message) = row.message {
            return Some(message.to);
        }
        if let Some(receive) = row.receive {
            return match receive.source {
                Some(source) => Some(source),
                None => row.partner.map(|partner| partner.rank),
            };
        }
        self.rank_of(object, named?.peer)
    }

    /// How many elements a row names.
    fn count_of(&self, number: u64, call: &Call, row: &Row, named: Option<Named>) -> Option<u32> {
        if let Some(message) = row.message {
            return Some(message.count);
        }
        if let Some(receive) = row.receive {
            return if is_matched_probe(call) {
                None
            } else {
                Some(receive.count)
            };
        }
        match call {
            Call::Collective(_) | Call::Icollective(_) => self.texts.count(number),
            _ => named?.count,
        }
    }

    /// The datatype of a row, by its name and by its number.
    fn type_of(
        &self,
        number: u64,
        slot: Slot,
        row: &Row,
        named: Option<Named>,
    ) -> (Option<&'a [u8]>, Option<i64>) {
        if let Some(name) = self.texts.datatype(number, slot.side) {
            return (Some(name), None);
        }
        let known = match (row.message, row.receive) {
            (Some(message), _) => Some(message.datatype),
            (None, Some(receive)) => Some(receive.datatype),
            (None, None) => match named {
                Some(named) => named.datatype,
                None => None,
            },
        };
        match known {
            Some(known) => (self.texts.type_name(known), Some(known)),
            None => (None, None),
        }
    }

    /// The bytes of a row's message.
    fn bytes_of(&self, row: &Row, received: &ReceivedBytes) -> Option<u64> {
        match (row.message, row.receive) {
            (Some(message), _) => received.of_message(self.table.partners(), message.name),
            (None, Some(receive)) => bytes_of(&receive, self.texts, self.completions),
            (None, None) => None,
        }
    }

    /// The call that completes what a row posts: of a receive as the answer has it.
    fn completed_by(&self, call: &Call, row: &Row) -> Option<u64>
        ensures { IsCompletion (posts call.now) row.now.receive result }
    {
        match (posts(call), row.receive) {
            (false, _) => None,
            (true, Some(receive)) => receive.ended,
            (true, None) => self.sent_by(row.name),
        }
    }

    /// The call that completes a send or a collective call, by the pass over the rank's calls.
    fn sent_by(&self, name: OpName) -> Option<u64> {
        let (by, _) = self.completions.of_part(name.call, name.part)?;
        Some(by)
    }
}

/// The tag that a row names.
fn tag_of(row: &Row, named: Option<Named>) -> Option<u32> {
    if let Some(message) = row.message {
        return Some(message.tag);
    }
    if let Some(receive) = row.receive {
        return receive.tag;
    }
    named?.tag
}
