//! By which call each request of a rank is completed.
//!
//! The calls of the rank are gone through once, from the first to the last. The call whose outcome completes a receive
//! is also known from the answer; this is for sends and collective calls too, and tells which status of that call it
//! is.

use crate::known::{Called, called_at, count_of};
use mpi_model::{Call, Element, NULL_REQUEST, Outs};
use std::alloc::{AllocError, Global};
use std::collections::{BTreeMap, BTreeSet};
use trace_know::Readable;
use trace_ops::started_by;

/// The operation that a call, or a part of a Startall, has posted, with what completes it.
#[derive(Clone, Copy)]
struct Completion {
    call: u64,
    part: u32,
    by: u64,
    /// The place of its status among those of the call that completes it.
    status: u32,
}

/// By which call each request of a rank is completed.
#[derive(Drop)]
pub struct Completions {
    /// In order of the operations.
    list: Vec<Completion>,
}

/// The requests of a rank, as its calls go on.
#[derive(Drop)]
struct Requests {
    /// The operation of each number, by its call and part.
    posted: BTreeMap<i64, (u64, u32)>,
    /// The numbers that inits hold.
    inits: BTreeSet<i64>,
    list: Vec<Completion>,
}

impl Completions {
    /// What completes the requests of the rank with these events. Fails with `AllocError` when memory is refused.
    pub fn of(alloc: Global, events: &Readable<'_>) -> Result<Completions, AllocError> {
        let mut requests = Requests {
            posted: BTreeMap::new(alloc),
            inits: BTreeSet::new(alloc),
            list: Vec::new(alloc),
        };
        for number in 0..count_of(events) {
            if let Some(called) = called_at(events, number) {
                requests.go_on(number, &called)?;
            }
        }
        let Requests { list, .. } = requests;
        let mut list = list;
        list.sort_by_key(|one| (one.call, one.part))?;
        Ok(Completions { list })
    }

    /// The call that completes what a part of a call has posted, and the place of its status among those of that call;
    /// `None` if no outcome that can be read does.
    pub fn of_part(&self, call: u64, part: u32) -> Option<(u64, u32)> {
        let list = self.list.as_slice();
        match list.binary_search_by_key(&(call, part), |one| (one.call, one.part)) {
            Ok(at) => {
                let found = list.get(at)?;
                Some((found.by, found.status))
            }
            Err(_) => None,
        }
    }
}

/// A place in a list as a number of 32 bits: those behind are none.
fn place_of(at: usize) -> u32 {
    u32::try_from(at).unwrap_or(u32::MAX)
}

impl Requests {
    /// Goes on by a call: it ends requests before it posts one.
    fn go_on(&mut self, number: u64, called: &Called<'_>) -> Result<(), AllocError> {
        let Some(outs) = called.outs else {
            return Ok(());
        };
        self.complete(number, called.call, outs)?;
        self.post(number, called.call, outs)
    }

    /// A request is complete.
    fn end(&mut self, request: i64, by: u64, status: u32) -> Result<(), AllocError> {
        if let Some((call, part)) = self.posted.remove(&request) {
            self.list.push(Completion {
                call,
                part,
                by,
                status,
            })?;
        }
        Ok(())
    }

    /// All requests of a list are complete.
    fn end_all(&mut self, requests: &[i64], by: u64) -> Result<(), AllocError> {
        for (at, request) in requests.iter().enumerate() {
            self.end(*request, by, place_of(at))?;
        }
        Ok(())
    }

    /// The request at a position of a list is complete.
    fn end_at(
        &mut self,
        requests: &[i64],
        position: u32,
        by: u64,
        status: u32,
    ) -> Result<(), AllocError> {
        match requests.get(position as usize) {
            Some(request) => self.end(*request, by, status),
            None => Ok(()),
        }
    }

    /// The requests at the positions of these elements are complete.
    fn end_some(
        &mut self,
        requests: &[i64],
        elements: &[Element],
        by: u64,
    ) -> Result<(), AllocError> {
        for (at, element) in elements.iter().enumerate() {
            self.end_at(requests, element.position, by, place_of(at))?;
        }
        Ok(())
    }

    /// What the outcome of a call completes. A request that is freed goes on, and nothing completes it.
    fn complete(&mut self, number: u64, call: &Call, outs: &Outs) -> Result<(), AllocError> {
        match (call, outs) {
            (Call::Wait(request), Outs::Status(_)) => self.end(*request, number, 0),
            (Call::Test(request), Outs::Flag(true, _)) => self.end(*request, number, 0),
            (Call::Waitall(list), Outs::Statuses(_)) => self.end_all(list.as_slice(), number),
            (Call::Testall(list), Outs::Statuses(_)) => self.end_all(list.as_slice(), number),
            (Call::Waitany(list), Outs::Index(Some(position), _)) => {
                self.end_at(list.as_slice(), *position, number, 0)
            }
            (Call::Testany(list), Outs::Index(Some(position), _)) => {
                self.end_at(list.as_slice(), *position, number, 0)
            }
            (Call::Waitsome(list), Outs::Several(elements)) => {
                self.end_some(list.as_slice(), elements.as_slice(), number)
            }
            (Call::Testsome(list), Outs::Several(elements)) => {
                self.end_some(list.as_slice(), elements.as_slice(), number)
            }
            (Call::Free(request), _) => {
                self.posted.remove(request);
                self.inits.remove(request);
                Ok(())
            }
            _ => Ok(()),
        }
    }

    /// What a call that has returned posts.
    fn post(&mut self, number: u64, call: &Call, outs: &Outs) -> Result<(), AllocError> {
        match (call, outs) {
            (Call::SendInit(_, _), Outs::Posted(request)) => self.hold(*request),
            (Call::RecvInit(_), Outs::Posted(request)) => self.hold(*request),
            (Call::Isend(_, _), Outs::Posted(request)) => self.give(*request, number),
            (Call::Irecv(_), Outs::Posted(request)) => self.give(*request, number),
            (Call::Icollective(_), Outs::Posted(request)) => self.give(*request, number),
            (Call::Imrecv, Outs::Posted(request)) => self.give(*request, number),
            (Call::Start(_), _) => self.start(number, started_by(call)),
            (Call::Startall(_), _) => self.start(number, started_by(call)),
            _ => Ok(()),
        }
    }

    /// An init comes to hold a number.
    fn hold(&mut self, request: i64) -> Result<(), AllocError> {
        if request != NULL_REQUEST {
            self.posted.remove(&request);
            self.inits.insert(request)?;
        }
        Ok(())
    }

    /// A number is given to an operation.
    fn give(&mut self, request: i64, number: u64) -> Result<(), AllocError> {
        if request != NULL_REQUEST {
            self.inits.remove(&request);
            self.posted.insert(request, (number, 0))?;
        }
        Ok(())
    }

    /// What inits hold is started.
    fn start(&mut self, number: u64, requests: &[i64]) -> Result<(), AllocError> {
        for (at, request) in requests.iter().enumerate() {
            if self.inits.contains(request) {
                self.posted.insert(*request, (number, place_of(at)))?;
            }
        }
        Ok(())
    }
}
