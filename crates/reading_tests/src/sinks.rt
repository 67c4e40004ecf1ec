//! A sink of one's own, which folds and which refuses.

ghost use Rattle.std.specs.Prelude.{◌≡◌, ◌+◌, ◌-◌, ◌<◌, OnErr, OnOk};
ghost use Rattle.reading_tests.specs.Sent.{elements_after, elements_with};

use dumpi_calls::CallSink;
use mpi_model::{Call, Envelope, Exit, Peer, Stamp};
use std::cell::Cell;

/// How many elements a rank of the group was sent, by so many calls at most: the next one is refused. A cell counts how
/// often the sink was asked, which no clause sees.
#[derive(Drop)]
pub struct SentTo {
    pub rank: u32,
    pub elements: u64,
    pub calls_left: u64,
    pub asked: Cell<u64>,
}

/// The sink takes no more calls.
#[derive(Clone, Copy, PartialEq, Eq)]
pub struct Full;

/// The elements with those of one send more.
fn elements_with(rank: u32, elements: u64, sent: Envelope) -> u64
    ensures { result ≡ elements_with rank elements sent.peer sent.count }
{
    match sent.peer {
        Peer::Rank(to) if to == rank => elements.saturating_add(u64::from(sent.count)),
        _ => elements,
    }
}

/// The elements with those of one call more.
fn elements_after(rank: u32, elements: u64, call: &Call) -> u64
    ensures { result ≡ elements_after rank elements call.now }
{
    match call {
        Call::Send(_, envelope) => elements_with(rank, elements, envelope.envelope()),
        Call::Isend(_, envelope) => elements_with(rank, elements, envelope.envelope()),
        Call::Sendrecv(exchange) => elements_with(rank, elements, exchange.send()),
        _ => elements,
    }
}

impl SentTo {
    /// Adds what a call sends, unless too many came.
    fn add(&mut self, call: Call) -> Result<(), Full>
        ensures ok { OnOk result (self.new ≡ record {
          rank = self.old.rank;
          elements = elements_after self.old.rank self.old.elements call;
          calls_left = self.old.calls_left - 1;
          asked = self.old.asked;
        }) }
        ensures err { OnErr result (self.new ≡ self.old) }
    {
        self.asked.set(self.asked.get().saturating_add(1));
        if self.calls_left == 0 {
            return Err(Full);
        }
        self.calls_left -= 1;
        self.elements = elements_after(self.rank, self.elements, &call);
        Ok(())
    }
}

impl CallSink for SentTo {
    ghost use Rattle.std.specs.Prelude.{◌-◌};
    ghost use Rattle.reading_tests.specs.Sent.{elements_after};

    type Fault = Full;

    ghost step = { λ sink seen. record {
      rank = sink.rank;
      elements = elements_after sink.rank sink.elements seen.call;
      calls_left = sink.calls_left - 1;
      asked = sink.asked;
    } };

    fn on_send(&mut self, call: Call, _enter: Stamp, _exit: Option<Exit>) -> Result<(), Full> {
        self.add(call)
    }

    fn on_isend(&mut self, call: Call, _enter: Stamp, _exit: Option<Exit>) -> Result<(), Full> {
        self.add(call)
    }

    fn on_recv(&mut self, call: Call, _enter: Stamp, _exit: Option<Exit>) -> Result<(), Full> {
        self.add(call)
    }

    fn on_irecv(&mut self, call: Call, _enter: Stamp, _exit: Option<Exit>) -> Result<(), Full> {
        self.add(call)
    }

    fn on_sendrecv(&mut self, call: Call, _enter: Stamp, _exit: Option<Exit>) -> Result<(), Full> {
        self.add(call)
    }

    fn on_probe(&mut self, call: Call, _enter: Stamp, _exit: Option<Exit>) -> Result<(), Full> {
        self.add(call)
    }

    fn on_wait(&mut self, call: Call, _enter: Stamp, _exit: Option<Exit>) -> Result<(), Full> {
        self.add(call)
    }

    fn on_waitall(&mut self, call: Call, _enter: Stamp, _exit: Option<Exit>) -> Result<(), Full> {
        self.add(call)
    }

    fn on_waitany(&mut self, call: Call, _enter: Stamp, _exit: Option<Exit>) -> Result<(), Full> {
        self.add(call)
    }

    fn on_waitsome(&mut self, call: Call, _enter: Stamp, _exit: Option<Exit>) -> Result<(), Full> {
        self.add(call)
    }

    fn on_test(&mut self, call: Call, _enter: Stamp, _exit: Option<Exit>) -> Result<(), Full> {
        self.add(call)
    }

    fn on_testall(&mut self, call: Call, _enter: Stamp, _exit: Option<Exit>) -> Result<(), Full> {
        self.add(call)
    }

    fn on_testany(&mut self, call: Call, _enter: Stamp, _exit: Option<Exit>) -> Result<(), Full> {
        self.add(call)
    }

    fn on_testsome(&mut self, call: Call, _enter: Stamp, _exit: Option<Exit>) -> Result<(), Full> {
        self.add(call)
    }

    fn on_cancel(&mut self, call: Call, _enter: Stamp, _exit: Option<Exit>) -> Result<(), Full> {
        self.add(call)
    }

    fn on_request_free(
        &mut self,
        call: Call,
        _enter: Stamp,
        _exit: Option<Exit>,
    ) -> Result<(), Full> {
        self.add(call)
    }

    fn on_collective(
        &mut self,
        call: Call,
        _enter: Stamp,
        _exit: Option<Exit>,
    ) -> Result<(), Full> {
        self.add(call)
    }

    fn on_icollective(
        &mut self,
        call: Call,
        _enter: Stamp,
        _exit: Option<Exit>,
    ) -> Result<(), Full> {
        self.add(call)
    }

    fn on_send_init(&mut self, call: Call, _enter: Stamp, _exit: Option<Exit>) -> Result<(), Full> {
        self.add(call)
    }

    fn on_recv_init(&mut self, call: Call, _enter: Stamp, _exit: Option<Exit>) -> Result<(), Full> {
        self.add(call)
    }

    fn on_start(&mut self, call: Call, _enter: Stamp, _exit: Option<Exit>) -> Result<(), Full> {
        self.add(call)
    }

    fn on_startall(&mut self, call: Call, _enter: Stamp, _exit: Option<Exit>) -> Result<(), Full> {
        self.add(call)
    }

    fn on_mprobe(&mut self, call: Call, _enter: Stamp, _exit: Option<Exit>) -> Result<(), Full> {
        self.add(call)
    }

    fn on_improbe(&mut self, call: Call, _enter: Stamp, _exit: Option<Exit>) -> Result<(), Full> {
        self.add(call)
    }

    fn on_iprobe(&mut self, call: Call, _enter: Stamp, _exit: Option<Exit>) -> Result<(), Full> {
        self.add(call)
    }

    fn on_imrecv(&mut self, call: Call, _enter: Stamp, _exit: Option<Exit>) -> Result<(), Full> {
        self.add(call)
    }

    fn on_unread(
        &mut self,
        _name: &[u8],
        call: Call,
        _enter: Stamp,
        _exit: Option<Exit>,
    ) -> Result<(), Full> {
        self.add(call)
    }

    fn on_other(
        &mut self,
        _name: &[u8],
        call: Call,
        _enter: Stamp,
        _exit: Option<Exit>,
    ) -> Result<(), Full> {
        self.add(call)
    }
}
