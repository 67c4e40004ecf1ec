//! A sink that keeps the events of its calls, and notes those that are not read.

ghost use Rattle.std.specs.Prelude.{◌≡◌};
ghost use Rattle.dumpi_calls.specs.Collected.{collected};
ghost use Rattle.mpi_model.specs.Failures.{one_more};
ghost use Rattle.text_notes.specs.Noted.{is_some_compared, last_size_with, nothing_noted};
ghost use Rattle.text_notes.specs.Arguments.{kind_of};

use crate::arguments::kind_of;
use crate::function::{UnreadFunction, place_of};
use crate::looking::is_local;
use crate::needs::{CallNotes, LookNeeds, is_some_compared};
use dumpi_calls::{CallSink, Collect, Memory};
use mpi_model::{Call, Exit, Stamp};
use std::alloc::Global;
use std::marker::Model;

/// The events of calls, as [`Collect`] keeps them, the functions of those that are not read, and for what they are looked
/// at a second time. Memory beside the events grows with the names of functions, not with their calls.
#[derive(Drop)]
pub struct Noting {
    collect: Collect,
    calls: u64,
    unread: Vec<UnreadFunction>,
    local: Vec<UnreadFunction>,
    last_size: Option<u64>,
    compares: bool,
}

impl Model for Noting {
    ghost use Rattle.text_notes.specs.Noted.{Noted};

    ghost Value = { Noted };

    ghost view = { λ n. record { events = n.collect; calls = n.calls; unread = n.unread.items; needs = record { local = n.local.items; last_size = n.last_size; compares = n.compares } } };
}

impl Noting {
    /// A sink that has got no call.
    pub fn new(alloc: Global) -> Noting
        ensures { result ≡ nothing_noted }
    {
        Noting {
            collect: Collect::new(alloc),
            calls: 0,
            unread: Vec::new(alloc),
            local: Vec::new(alloc),
            last_size: None,
            compares: false,
        }
    }

    /// The events, and what is noted of the calls.
    pub fn into_parts(self) -> (Collect, CallNotes)
        ensures events { result.0 ≡ self.events }
        ensures unread { result.1.unread ≡ self.unread }
        ensures needs { result.1.needs ≡ self.needs }
    {
        let Noting {
            collect,
            unread,
            local,
            last_size,
            compares,
            ..
        } = self;
        let needs = LookNeeds {
            local,
            last_size,
            compares,
        };
        (collect, CallNotes { unread, needs })
    }
}

/// The number of the last call of MPI_Comm_size, with a call more.
fn last_size_with(number: u64, name: &[u8], last_size: Option<u64>) -> Option<u64>
    ensures { result ≡ last_size_with number name.now last_size }
{
    if name == b"MPI_Comm_size".as_slice() {
        Some(number)
    } else {
        last_size
    }
}

impl CallSink for Noting {
    ghost use Rattle.text_notes.specs.Noted.{noted};

    type Fault = Memory;

    ghost step = { noted };

    fn on_send(&mut self, call: Call, enter: Stamp, exit: Option<Exit>) -> Result<(), Memory> {
        self.collect.on_send(call, enter, exit)?;
        self.calls = self.calls.saturating_add(1);
        Ok(())
    }

    fn on_isend(&mut self, call: Call, enter: Stamp, exit: Option<Exit>) -> Result<(), Memory> {
        self.collect.on_isend(call, enter, exit)?;
        self.calls = self.calls.saturating_add(1);
        Ok(())
    }

    fn on_recv(&mut self, call: Call, enter: Stamp, exit: Option<Exit>) -> Result<(), Memory> {
        self.collect.on_recv(call, enter, exit)?;
        self.calls = self.calls.saturating_add(1);
        Ok(())
    }

    fn on_irecv(&mut self, call: Call, enter: Stamp, exit: Option<Exit>) -> Result<(), Memory> {
        self.collect.on_irecv(call, enter, exit)?;
        self.calls = self.calls.saturating_add(1);
        Ok(())
    }

    fn on_sendrecv(&mut self, call: Call, enter: Stamp, exit: Option<Exit>) -> Result<(), Memory> {
        self.collect.on_sendrecv(call, enter, exit)?;
        self.calls = self.calls.saturating_add(1);
        Ok(())
    }

    fn on_probe(&mut self, call: Call, enter: Stamp, exit: Option<Exit>) -> Result<(), Memory> {
        self.collect.on_probe(call, enter, exit)?;
        self.calls = self.calls.saturating_add(1);
        Ok(())
    }

    fn on_wait(&mut self, call: Call, enter: Stamp, exit: Option<Exit>) -> Result<(), Memory> {
        self.collect.on_wait(call, enter, exit)?;
        self.calls = self.calls.saturating_add(1);
        Ok(())
    }

    fn on_waitall(&mut self, call: Call, enter: Stamp, exit: Option<Exit>) -> Result<(), Memory> {
        self.collect.on_waitall(call, enter, exit)?;
        self.calls = self.calls.saturating_add(1);
        Ok(())
    }

    fn on_waitany(&mut self, call: Call, enter: Stamp, exit: Option<Exit>) -> Result<(), Memory> {
        self.collect.on_waitany(call, enter, exit)?;
        self.calls = self.calls.saturating_add(1);
        Ok(())
    }

    fn on_waitsome(&mut self, call: Call, enter: Stamp, exit: Option<Exit>) -> Result<(), Memory> {
        self.collect.on_waitsome(call, enter, exit)?;
        self.calls = self.calls.saturating_add(1);
        Ok(())
    }

    fn on_test(&mut self, call: Call, enter: Stamp, exit: Option<Exit>) -> Result<(), Memory> {
        self.collect.on_test(call, enter, exit)?;
        self.calls = self.calls.saturating_add(1);
        Ok(())
    }

    fn on_testall(&mut self, call: Call, enter: Stamp, exit: Option<Exit>) -> Result<(), Memory> {
        self.collect.on_testall(call, enter, exit)?;
        self.calls = self.calls.saturating_add(1);
        Ok(())
    }

    fn on_testany(&mut self, call: Call, enter: Stamp, exit: Option<Exit>) -> Result<(), Memory> {
        self.collect.on_testany(call, enter, exit)?;
        self.calls = self.calls.saturating_add(1);
        Ok(())
    }

    fn on_testsome(&mut self, call: Call, enter: Stamp, exit: Option<Exit>) -> Result<(), Memory> {
        self.collect.on_testsome(call, enter, exit)?;
        self.calls = self.calls.saturating_add(1);
        Ok(())
    }

    fn on_cancel(&mut self, call: Call, enter: Stamp, exit: Option<Exit>) -> Result<(), Memory> {
        self.collect.on_cancel(call, enter, exit)?;
        self.calls = self.calls.saturating_add(1);
        Ok(())
    }

    fn on_request_free(
        &mut self,
        call: Call,
        enter: Stamp,
        exit: Option<Exit>,
    ) -> Result<(), Memory> {
        self.collect.on_request_free(call, enter, exit)?;
        self.calls = self.calls.saturating_add(1);
        Ok(())
    }

    fn on_collective(
        &mut self,
        call: Call,
        enter: Stamp,
        exit: Option<Exit>,
    ) -> Result<(), Memory> {
        let compares = self.compares || is_some_compared(kind_of(&call));
        self.collect.on_collective(call, enter, exit)?;
        self.compares = compares;
        self.calls = self.calls.saturating_add(1);
        Ok(())
    }

    fn on_icollective(
        &mut self,
        call: Call,
        enter: Stamp,
        exit: Option<Exit>,
    ) -> Result<(), Memory> {
        let compares = self.compares || is_some_compared(kind_of(&call));
        self.collect.on_icollective(call, enter, exit)?;
        self.compares = compares;
        self.calls = self.calls.saturating_add(1);
        Ok(())
    }

    fn on_send_init(&mut self, call: Call, enter: Stamp, exit: Option<Exit>) -> Result<(), Memory> {
        self.collect.on_send_init(call, enter, exit)?;
        self.calls = self.calls.saturating_add(1);
        Ok(())
    }

    fn on_recv_init(&mut self, call: Call, enter: Stamp, exit: Option<Exit>) -> Result<(), Memory> {
        self.collect.on_recv_init(call, enter, exit)?;
        self.calls = self.calls.saturating_add(1);
        Ok(())
    }

    fn on_start(&mut self, call: Call, enter: Stamp, exit: Option<Exit>) -> Result<(), Memory> {
        self.collect.on_start(call, enter, exit)?;
        self.calls = self.calls.saturating_add(1);
        Ok(())
    }

    fn on_startall(&mut self, call: Call, enter: Stamp, exit: Option<Exit>) -> Result<(), Memory> {
        self.collect.on_startall(call, enter, exit)?;
        self.calls = self.calls.saturating_add(1);
        Ok(())
    }

    fn on_mprobe(&mut self, call: Call, enter: Stamp, exit: Option<Exit>) -> Result<(), Memory> {
        self.collect.on_mprobe(call, enter, exit)?;
        self.calls = self.calls.saturating_add(1);
        Ok(())
    }

    fn on_improbe(&mut self, call: Call, enter: Stamp, exit: Option<Exit>) -> Result<(), Memory> {
        self.collect.on_improbe(call, enter, exit)?;
        self.calls = self.calls.saturating_add(1);
        Ok(())
    }

    fn on_iprobe(&mut self, call: Call, enter: Stamp, exit: Option<Exit>) -> Result<(), Memory> {
        self.collect.on_iprobe(call, enter, exit)?;
        self.calls = self.calls.saturating_add(1);
        Ok(())
    }

    fn on_imrecv(&mut self, call: Call, enter: Stamp, exit: Option<Exit>) -> Result<(), Memory> {
        self.collect.on_imrecv(call, enter, exit)?;
        self.calls = self.calls.saturating_add(1);
        Ok(())
    }

    fn on_unread(
        &mut self,
        name: &[u8],
        call: Call,
        enter: Stamp,
        exit: Option<Exit>,
    ) -> Result<(), Memory> {
        match place_of(&self.unread, name) {
            Some(at) => {
                self.collect.on_unread(name, call, enter, exit)?;
                self.unread[at].add(1);
                self.calls = self.calls.saturating_add(1);
                Ok(())
            }
            None => {
                let function = UnreadFunction::new(*self.unread.allocator(), name, self.calls, 1)?;
                self.unread.reserve(1)?;
                self.collect.on_unread(name, call, enter, exit)?;
                self.unread.push(function)?;
                self.calls = self.calls.saturating_add(1);
                Ok(())
            }
        }
    }

    fn on_other(
        &mut self,
        name: &[u8],
        call: Call,
        enter: Stamp,
        exit: Option<Exit>,
    ) -> Result<(), Memory> {
        if !is_local(&call) {
            self.collect.on_other(name, call, enter, exit)?;
            self.calls = self.calls.saturating_add(1);
            return Ok(());
        }
        match place_of(&self.local, name) {
            Some(at) => {
                self.collect.on_other(name, call, enter, exit)?;
                self.local[at].add(1);
                self.last_size = last_size_with(self.calls, name, self.last_size);
                self.calls = self.calls.saturating_add(1);
                Ok(())
            }
            None => {
                let function = UnreadFunction::new(*self.local.allocator(), name, self.calls, 1)?;
                self.local.reserve(1)?;
                self.collect.on_other(name, call, enter, exit)?;
                self.local.push(function)?;
                self.last_size = last_size_with(self.calls, name, self.last_size);
                self.calls = self.calls.saturating_add(1);
                Ok(())
            }
        }
    }
}
