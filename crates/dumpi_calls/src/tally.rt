//! A sink that counts.

ghost use Rattle.std.specs.Prelude.{◌≡◌};
ghost use Rattle.dumpi_calls.specs.Collected.{none_tallied};

use crate::sink::CallSink;
use mpi_model::{Call, Exit, Stamp};
use std::convert::Infallible;

/// How often each callback was called. A count saturates at the greatest value of its type. This sink refuses no call.
#[derive(Clone, Copy)]
pub struct Tally {
    pub on_send: u64,
    pub on_isend: u64,
    pub on_recv: u64,
    pub on_irecv: u64,
    pub on_sendrecv: u64,
    pub on_probe: u64,
    pub on_wait: u64,
    pub on_waitall: u64,
    pub on_waitany: u64,
    pub on_waitsome: u64,
    pub on_test: u64,
    pub on_testall: u64,
    pub on_testany: u64,
    pub on_testsome: u64,
    pub on_cancel: u64,
    pub on_request_free: u64,
    pub on_collective: u64,
    pub on_icollective: u64,
    pub on_send_init: u64,
    pub on_recv_init: u64,
    pub on_start: u64,
    pub on_startall: u64,
    pub on_mprobe: u64,
    pub on_improbe: u64,
    pub on_iprobe: u64,
    pub on_imrecv: u64,
    pub on_unread: u64,
    pub on_other: u64,
}

impl Tally {
    /// Every count at 0.
    pub fn new() -> Tally
        ensures { result ≡ none_tallied }
    {
        Tally {
            on_send: 0,
            on_isend: 0,
            on_recv: 0,
            on_irecv: 0,
            on_sendrecv: 0,
            on_probe: 0,
            on_wait: 0,
            on_waitall: 0,
            on_waitany: 0,
            on_waitsome: 0,
            on_test: 0,
            on_testall: 0,
            on_testany: 0,
            on_testsome: 0,
            on_cancel: 0,
            on_request_free: 0,
            on_collective: 0,
            on_icollective: 0,
            on_send_init: 0,
            on_recv_init: 0,
            on_start: 0,
            on_startall: 0,
            on_mprobe: 0,
            on_improbe: 0,
            on_iprobe: 0,
            on_imrecv: 0,
            on_unread: 0,
            on_other: 0,
        }
    }
}

impl CallSink for Tally {
    ghost use Rattle.dumpi_calls.specs.Collected.{tallied};

    type Fault = Infallible;

    ghost step = { λ t seen. tallied t seen.callback };

    fn on_send(&mut self, call: Call, _enter: Stamp, exit: Option<Exit>) -> Result<(), Infallible> {
        self.on_send = self.on_send.saturating_add(1);
        drop(call);
        drop(exit);
        Ok(())
    }

    fn on_isend(
        &mut self,
        call: Call,
        _enter: Stamp,
        exit: Option<Exit>,
    ) -> Result<(), Infallible> {
        self.on_isend = self.on_isend.saturating_add(1);
        drop(call);
        drop(exit);
        Ok(())
    }

    fn on_recv(&mut self, call: Call, _enter: Stamp, exit: Option<Exit>) -> Result<(), Infallible> {
        self.on_recv = self.on_recv.saturating_add(1);
        drop(call);
        drop(exit);
        Ok(())
    }

    fn on_irecv(
        &mut self,
        call: Call,
        _enter: Stamp,
        exit: Option<Exit>,
    ) -> Result<(), Infallible> {
        self.on_irecv = self.on_irecv.saturating_add(1);
        drop(call);
        drop(exit);
        Ok(())
    }

    fn on_sendrecv(
        &mut self,
        call: Call,
        _enter: Stamp,
        exit: Option<Exit>,
    ) -> Result<(), Infallible> {
        self.on_sendrecv = self.on_sendrecv.saturating_add(1);
        drop(call);
        drop(exit);
        Ok(())
    }

    fn on_probe(
        &mut self,
        call: Call,
        _enter: Stamp,
        exit: Option<Exit>,
    ) -> Result<(), Infallible> {
        self.on_probe = self.on_probe.saturating_add(1);
        drop(call);
        drop(exit);
        Ok(())
    }

    fn on_wait(&mut self, call: Call, _enter: Stamp, exit: Option<Exit>) -> Result<(), Infallible> {
        self.on_wait = self.on_wait.saturating_add(1);
        drop(call);
        drop(exit);
        Ok(())
    }

    fn on_waitall(
        &mut self,
        call: Call,
        _enter: Stamp,
        exit: Option<Exit>,
    ) -> Result<(), Infallible> {
        self.on_waitall = self.on_waitall.saturating_add(1);
        drop(call);
        drop(exit);
        Ok(())
    }

    fn on_waitany(
        &mut self,
        call: Call,
        _enter: Stamp,
        exit: Option<Exit>,
    ) -> Result<(), Infallible> {
        self.on_waitany = self.on_waitany.saturating_add(1);
        drop(call);
        drop(exit);
        Ok(())
    }

    fn on_waitsome(
        &mut self,
        call: Call,
        _enter: Stamp,
        exit: Option<Exit>,
    ) -> Result<(), Infallible> {
        self.on_waitsome = self.on_waitsome.saturating_add(1);
        drop(call);
        drop(exit);
        Ok(())
    }

    fn on_test(&mut self, call: Call, _enter: Stamp, exit: Option<Exit>) -> Result<(), Infallible> {
        self.on_test = self.on_test.saturating_add(1);
        drop(call);
        drop(exit);
        Ok(())
    }

    fn on_testall(
        &mut self,
        call: Call,
        _enter: Stamp,
        exit: Option<Exit>,
    ) -> Result<(), Infallible> {
        self.on_testall = self.on_testall.saturating_add(1);
        drop(call);
        drop(exit);
        Ok(())
    }

    fn on_testany(
        &mut self,
        call: Call,
        _enter: Stamp,
        exit: Option<Exit>,
    ) -> Result<(), Infallible> {
        self.on_testany = self.on_testany.saturating_add(1);
        drop(call);
        drop(exit);
        Ok(())
    }

    fn on_testsome(
        &mut self,
        call: Call,
        _enter: Stamp,
        exit: Option<Exit>,
    ) -> Result<(), Infallible> {
        self.on_testsome = self.on_testsome.saturating_add(1);
        drop(call);
        drop(exit);
        Ok(())
    }

    fn on_cancel(
        &mut self,
        call: Call,
        _enter: Stamp,
        exit: Option<Exit>,
    ) -> Result<(), Infallible> {
        self.on_cancel = self.on_cancel.saturating_add(1);
        drop(call);
        drop(exit);
        Ok(())
    }

    fn on_request_free(
        &mut self,
        call: Call,
        _enter: Stamp,
        exit: Option<Exit>,
    ) -> Result<(), Infallible> {
        self.on_request_free = self.on_request_free.saturating_add(1);
        drop(call);
        drop(exit);
        Ok(())
    }

    fn on_collective(
        &mut self,
        call: Call,
        _enter: Stamp,
        exit: Option<Exit>,
    ) -> Result<(), Infallible> {
        self.on_collective = self.on_collective.saturating_add(1);
        drop(call);
        drop(exit);
        Ok(())
    }

    fn on_icollective(
        &mut self,
        call: Call,
        _enter: Stamp,
        exit: Option<Exit>,
    ) -> Result<(), Infallible> {
        self.on_icollective = self.on_icollective.saturating_add(1);
        drop(call);
        drop(exit);
        Ok(())
    }

    fn on_send_init(
        &mut self,
        call: Call,
        _enter: Stamp,
        exit: Option<Exit>,
    ) -> Result<(), Infallible> {
        self.on_send_init = self.on_send_init.saturating_add(1);
        drop(call);
        drop(exit);
        Ok(())
    }

    fn on_recv_init(
        &mut self,
        call: Call,
        _enter: Stamp,
        exit: Option<Exit>,
    ) -> Result<(), Infallible> {
        self.on_recv_init = self.on_recv_init.saturating_add(1);
        drop(call);
        drop(exit);
        Ok(())
    }

    fn on_start(
        &mut self,
        call: Call,
        _enter: Stamp,
        exit: Option<Exit>,
    ) -> Result<(), Infallible> {
        self.on_start = self.on_start.saturating_add(1);
        drop(call);
        drop(exit);
        Ok(())
    }

    fn on_startall(
        &mut self,
        call: Call,
        _enter: Stamp,
        exit: Option<Exit>,
    ) -> Result<(), Infallible> {
        self.on_startall = self.on_startall.saturating_add(1);
        drop(call);
        drop(exit);
        Ok(())
    }

    fn on_mprobe(
        &mut self,
        call: Call,
        _enter: Stamp,
        exit: Option<Exit>,
    ) -> Result<(), Infallible> {
        self.on_mprobe = self.on_mprobe.saturating_add(1);
        drop(call);
        drop(exit);
        Ok(())
    }

    fn on_improbe(
        &mut self,
        call: Call,
        _enter: Stamp,
        exit: Option<Exit>,
    ) -> Result<(), Infallible> {
        self.on_improbe = self.on_improbe.saturating_add(1);
        drop(call);
        drop(exit);
        Ok(())
    }

    fn on_iprobe(
        &mut self,
        call: Call,
        _enter: Stamp,
        exit: Option<Exit>,
    ) -> Result<(), Infallible> {
        self.on_iprobe = self.on_iprobe.saturating_add(1);
        drop(call);
        drop(exit);
        Ok(())
    }

    fn on_imrecv(
        &mut self,
        call: Call,
        _enter: Stamp,
        exit: Option<Exit>,
    ) -> Result<(), Infallible> {
        self.on_imrecv = self.on_imrecv.saturating_add(1);
        drop(call);
        drop(exit);
        Ok(())
    }

    fn on_unread(
        &mut self,
        _name: &[u8],
        call: Call,
        _enter: Stamp,
        exit: Option<Exit>,
    ) -> Result<(), Infallible> {
        self.on_unread = self.on_unread.saturating_add(1);
        drop(call);
        drop(exit);
        Ok(())
    }

    fn on_other(
        &mut self,
        _name: &[u8],
        call: Call,
        _enter: Stamp,
        exit: Option<Exit>,
    ) -> Result<(), Infallible> {
        self.on_other = self.on_other.saturating_add(1);
        drop(call);
        drop(exit);
        Ok(())
    }
}
