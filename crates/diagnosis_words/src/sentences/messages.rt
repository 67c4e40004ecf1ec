//! What is said of messages, receives and requests that found no end.

use crate::writer::Writer;
use diagnosis_value::{LeftOver, NearMessage, NearReceive, Starving, Why};
use mpi_model::OpName;

/// The most nearest misses of a message or a receive that are told.
const MOST_NEAR: usize = 2;

impl<'a> Writer<'a> {
    /// A receive that a message misses by little:
    /// `rank 0 receives another tag: MPI_Irecv from rank 1, tag 9 (call 2, ..)`.
    fn put_near_receive(&mut self, near: &NearReceive) {
        let receive = &near.receive;
        self.put(b"; rank ");
        self.put_number(receive.at as u64);
        self.put(match near.why {
            Why::Tag => b" receives another tag: ".as_slice(),
            Why::Comm => b" receives on another communicator: ".as_slice(),
            Why::Source => b" receives from another source: ".as_slice(),
            Why::Dest => b" would receive it, were it sent there: ".as_slice(),
            Why::Taken | Why::Postponed => b" may have received it: ".as_slice(),
            Why::Idle => b" has a persistent receive for it that is not active: ".as_slice(),
        });
        self.put_op_function(receive.name);
        self.put(b" from ");
        self.put_receive(receive);
        self.put_in_brackets(receive.name);
    }

    /// A message that a receive misses by little: `rank 1 sent another tag: MPI_Send to rank 0, tag 8 (call 3, ..)`.
    fn put_near_message(&mut self, near: &NearMessage) {
        let message = &near.message;
        self.put(b"; rank ");
        self.put_number(message.from as u64);
        self.put(match near.why {
            Why::Tag => b" sent another tag: ".as_slice(),
            Why::Comm => b" sent on another communicator: ".as_slice(),
            Why::Source => b", another source, sent: ".as_slice(),
            Why::Dest => b" sent to another rank: ".as_slice(),
            Why::Taken => b" sent what fits, and an earlier receive took it: ".as_slice(),
            Why::Postponed =>
                b" sent what fits, and an open receive may have taken it: ".as_slice(),
            Why::Idle => b" has a persistent send for it that is not active: ".as_slice(),
        });
        self.put_op_function(message.name);
        self.put(b" to rank ");
        self.put_number(message.to as u64);
        self.put(b", ");
        self.put_message(message);
        self.put_in_brackets(message.name);
        if let Some(by) = near.by {
            self.put(b", taken by ");
            self.put_op_function(by);
            self.put_in_brackets(by);
        }
    }

    /// How many like it came through.
    fn put_before(&mut self, before: u64) {
        if before == 0 {
            self.put(b"; no such message came through before");
        } else {
            self.put(b"; ");
            self.put_number(before);
            self.put(if before == 1 {
                b" such message came through before".as_slice()
            } else {
                b" such messages came through before".as_slice()
            });
        }
    }

    /// A message that nobody has received.
    pub fn put_left_over(&mut self, left: &LeftOver) {
        let message = &left.message;
        self.put(b"  rank ");
        self.put_number(message.from as u64);
        self.put(b" to rank ");
        self.put_number(message.to as u64);
        self.put(b", ");
        self.put_message(message);
        self.put(b" (");
        self.put_by(message.name);
        self.put(b")");
        for (i, near) in left.near.iter().enumerate() {
            if i < MOST_NEAR || self.all {
                self.put_near_receive(near);
            }
        }
        self.put_before(left.before);
        self.put(b"\n");
    }

    /// A receive for which nobody is known to have sent a message.
    pub fn put_starving(&mut self, starving: &Starving) {
        let receive = &starving.receive;
        self.put(b"  rank ");
        self.put_number(receive.at as u64);
        self.put(b" from ");
        self.put_receive(receive);
        self.put(b" (");
        self.put_by(receive.name);
        self.put(b")");
        for (i, near) in starving.near.iter().enumerate() {
            if i < MOST_NEAR || self.all {
                self.put_near_message(near);
            }
        }
        self.put_before(starving.before);
        self.put(b"\n");
    }

    /// A request that was active when its rank ended.
    pub fn put_unfinished(&mut self, name: OpName) {
        self.put(b"  rank ");
        self.put_number(name.rank as u64);
        self.put(b", ");
        self.put_operation(name);
        if let Some(last) = self.source.last_call(name.rank) {
            self.put(b"; ");
            self.put_finalize(name.rank, last);
        }
        self.put(b"\n");
    }
}
