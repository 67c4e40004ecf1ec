//! Calls and operations in words.

use crate::writer::Writer;
use diagnosis_value::{LastCall, Operation, Polled};
use mpi_model::{Call, Collective, Message, OpName, Receive};

/// The most open requests of a call that are told.
const MOST_OPEN: usize = 3;

/// How many requests a call names, where it names a list of them.
fn requests_of(call: &Call) -> Option<usize> {
    match call {
        Call::Waitall(list) | Call::Waitany(list) | Call::Waitsome(list) => {
            Some(list.as_slice().len())
        }
        Call::Testall(list) | Call::Testany(list) | Call::Testsome(list) => {
            Some(list.as_slice().len())
        }
        _ => None,
    }
}

impl<'a> Writer<'a> {
    /// The name of a call's function.
    pub fn put_function(&mut self, rank: u32, number: u64, call: &Call) {
        let name = self.source.function(rank, number, call);
        self.put_name(name);
    }

    /// The object of a collective call, and its root.
    fn put_collective(&mut self, rank: u32, number: u64, collective: Collective) {
        self.put(b" on ");
        self.put_named(rank, number, collective.object(), collective.comm());
        if let Some(root) = collective.root() {
            self.put(b", root ");
            self.put_number(root as u64);
        }
    }

    /// What a call names beside its function: a peer and a tag, or an object.
    fn put_details(&mut self, rank: u32, number: u64, call: &Call) {
        match call {
            Call::Send(_, envelope) | Call::Isend(_, envelope) | Call::SendInit(_, envelope) => {
                self.put_envelope(b" to ", rank, number, envelope.envelope());
            }
            Call::Recv(envelope) | Call::Irecv(envelope) | Call::RecvInit(envelope) => {
                self.put_envelope(b" from ", rank, number, envelope.envelope());
            }
            Call::Sendrecv(exchange) => {
                self.put_envelope(b" to ", rank, number, exchange.send());
                self.put_envelope(b" and from ", rank, number, exchange.receive());
            }
            Call::Probe(envelope) | Call::Mprobe(envelope) | Call::Improbe(envelope) => {
                self.put_probed(rank, number, *envelope);
            }
            Call::Iprobe(envelope) => self.put_probed(rank, number, *envelope),
            Call::Collective(collective) => self.put_collective(rank, number, *collective),
            Call::Icollective(collective) => self.put_collective(rank, number, collective.call()),
            _ => {}
        }
    }

    /// A call: `MPI_Recv from rank 1, tag 3`.
    pub fn put_whole(&mut self, rank: u32, number: u64, call: &Call) {
        self.put_function(rank, number, call);
        self.put_details(rank, number, call);
    }

    /// How many elements a call moves, where it says that.
    pub fn put_size(&mut self, call: &Call) {
        match call {
            Call::Send(_, envelope) | Call::Isend(_, envelope) | Call::SendInit(_, envelope) => {
                self.put(b", ");
                self.put_counted(
                    envelope.envelope().count as usize,
                    b" element",
                    b" elements",
                );
            }
            Call::Recv(envelope) | Call::Irecv(envelope) | Call::RecvInit(envelope) => {
                self.put(b", at most ");
                self.put_counted(
                    envelope.envelope().count as usize,
                    b" element",
                    b" elements",
                );
            }
            Call::Sendrecv(exchange) => {
                self.put(b", ");
                self.put_counted(exchange.send().count as usize, b" element", b" elements");
                self.put(b" and at most ");
                self.put_number(exchange.receive().count as u64);
            }
            _ => {}
        }
    }

    /// An operation that is known, by the call that started it: `call 36: MPI_Irecv from rank 32, tag 3`.
    fn put_known(&mut self, operation: &Operation) {
        let name = operation.name;
        self.put(b"call ");
        self.put_number(name.call);
        self.put(b": ");
        self.put_whole(name.rank, name.call, &operation.call);
        if let Some(init) = &operation.init {
            self.put(b" of call ");
            self.put_number(init.number);
            self.put(b": ");
            self.put_whole(name.rank, init.number, &init.call);
        }
        self.put_site(name.rank, name.call);
    }

    /// An operation of a rank by its call.
    pub fn put_operation(&mut self, name: OpName) {
        match self.source.operation(name) {
            Some(operation) => self.put_known(operation),
            None => self.put_call(name.rank, name.call),
        }
    }

    /// Some operations, the first ones at least.
    fn put_operations(&mut self, names: &[OpName]) {
        for (i, name) in names.iter().enumerate() {
            if i == MOST_OPEN && !self.all {
                self.put(b"; ..");
                return;
            }
            self.put(if i == 0 {
                b"".as_slice()
            } else {
                b"; ".as_slice()
            });
            self.put_operation(*name);
        }
    }

    /// Which requests of a call are open: those that lack a partner, where there are such, those of the ranks asked for
    /// first.
    fn put_open(&mut self, call: &Call, open: &[OpName], asked: &[u32]) {
        let Ok(told) = self.source.told_requests(open, asked) else {
            self.out.give_up();
            return;
        };
        match requests_of(call) {
            Some(count) => {
                self.put_number(told.len() as u64);
                self.put(b" of ");
                self.put_counted(count, b" request", b" requests");
                self.put_either(told.len(), b" is open: ", b" are open: ");
            }
            None => self.put(b"its request is open: "),
        }
        self.put_operations(told.as_slice());
    }

    /// Which requests of a rank's last call are open, behind a colon, where there are any.
    pub fn put_open_of(&mut self, last: &LastCall, asked: &[u32]) {
        if !last.open.is_empty() {
            self.put(b": ");
            self.put_open(&last.call, last.open.as_slice(), asked);
        }
    }

    /// What a test or a probe without success looks for, by the last of these calls.
    pub fn put_polled(&mut self, rank: u32, polled: &Polled) {
        self.put_whole(rank, polled.number, &polled.call);
        self.put(b" (last ");
        self.put_call(rank, polled.number);
        self.put(b")");
        if polled.open.is_empty() {
            return;
        }
        if requests_of(&polled.call).is_some() {
            self.put(b": ");
            self.put_open(&polled.call, polled.open.as_slice(), &[]);
        } else {
            self.put(b" on ");
            self.put_operations(polled.open.as_slice());
        }
    }

    /// The function of an operation.
    pub fn put_op_function(&mut self, name: OpName) {
        match self.source.operation(name) {
            Some(operation) => self.put_function(name.rank, name.call, &operation.call),
            None => self.put(b"a call"),
        }
    }

    /// Where the call of an operation stands: ` (call 4, main.c:9 in main)`.
    pub fn put_in_brackets(&mut self, name: OpName) {
        self.put(b" (");
        self.put_call(name.rank, name.call);
        self.put(b")");
    }

    /// The call of an operation: `MPI_Send, call 4, main.c:9 in main`.
    pub fn put_by(&mut self, name: OpName) {
        if let Some(operation) = self.source.operation(name) {
            self.put_function(name.rank, name.call, &operation.call);
            self.put(b", ");
        }
        self.put_call(name.rank, name.call);
    }

    /// The tag of a message and its communicator, where that isn't the world.
    pub fn put_message(&mut self, message: &Message) {
        self.put(b"tag ");
        self.put_number(message.tag as u64);
        self.put_elsewhere(message.comm);
    }

    /// Writes from whom a receive takes, and which tag.
    pub fn put_receive(&mut self, receive: &Receive) {
        match receive.source {
            Some(source) => {
                self.put(b"rank ");
                self.put_number(source as u64);
            }
            None => self.put(b"any rank"),
        }
        self.put_tag(receive.tag);
        self.put_elsewhere(receive.comm);
    }

    /// A communicator, where it isn't the world.
    fn put_elsewhere(&mut self, comm: u32) {
        if comm != self.source.layout.world() {
            self.put(b", on ");
            self.put_object(comm);
        }
    }
}
