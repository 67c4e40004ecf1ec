//! From what is known of a rank to what it did.

ghost use Rattle.std.specs.Prelude.{◌≡◌, ◌<◌, ◌≤◌, ◌+◌, if◌then◌else◌, IfOk, IfSome, OnOk, length, reverse};
ghost use Rattle.std.specs.Ordering.{int_eq};
ghost use Rattle.indexmap.specs.IndexMap.{get};
ghost use Rattle.trace_ops.specs.Foreign.{is_foreign_in};
ghost use Rattle.trace_ops.specs.Groups.{IsWorldOf, plain_group};
ghost use Rattle.trace_ops.specs.Held.{Holds};
ghost use Rattle.trace_ops.specs.RankOps.{all_ops, ops_by_calls, ops_of};
ghost use Rattle.trace_ops.specs.Steps.{steps_of};

use crate::active::{idle_of, still_active};
use crate::called::{Called, Calls};
use crate::completed::push_some;
use crate::entered::Entered;
use crate::fate::fate_of;
use crate::group::{Group, group_given_world, is_foreign_in, world_of};
use crate::held::{
    Held, Init, Part, as_started, begun_at, holding_of, is_init, is_start, started_by,
};
use crate::message::{entered_in, message_in};
use crate::ops::RankOps;
use crate::rank_state::{state_of, waiting_of};
use crate::receive::receive_in;
use crate::room::Room;
use crate::table::Touched;
use crate::touched::{is_without_request, note, note_part};
use crate::trust::{cancelled_with, gives_back};
use mpi_model::{Call, Layout, Message, OpName, Receive};
use std::alloc::{AllocError, Global};
use trace_know::Knowledge;

/// The count of foreign calls with one call more.
fn with_call(count: u64, group: Option<Group<'_>>, call: &Call) -> u64
    requires { count < u64.MAX }
    ensures { result ≡ count + (if is_foreign_in (plain_group group.entry) call.now then 1 else 0) }
{
    if is_foreign_in(group, call) {
        count + 1
    } else {
        count
    }
}

/// What the steps from a place on tell, the last of them first.
#[derive(Drop)]
struct Gathered {
    sends: Vec<Message>,
    receives: Vec<Receive>,
    rounds: Vec<Entered>,
    active: Vec<(i64, OpName)>,
    cancelled: Vec<OpName>,
    foreign: u64,
    /// Whether one of the steps is an Imrecv that may give its message back.
    given_back: bool,
    touched: Touched,
}

impl Gathered {
    ghost use Rattle.std.specs.Prelude.{IsTrue};
    ghost use Rattle.trace_ops.specs.Called.{plain_called};
    ghost use Rattle.trace_ops.specs.Calls.{IsCallAt};
    ghost use Rattle.trace_ops.specs.Gathered.{AddsCall, AddsPart, AddsWhole, IsGathered};
    ghost use Rattle.std.specs.Prelude.{List, ℕ, []};
    ghost use Rattle.mpi_model.specs.Layouts.{Parts};
    ghost use Rattle.trace_ops.specs.Calls.{Entry};
    ghost use Rattle.trace_ops.specs.Request.{is_start};
    ghost use Rattle.trace_ops.specs.Touched.{IsWithoutRequest};

    /// Nothing is gathered of any step yet, and there is room for so many messages and receives.
    fn empty(alloc: Global, room: Room, calls: &Calls<'_>) -> Result<Gathered, AllocError>
        ensures few { IfOk result (λ g. g.foreign ≡ 0) }
        ensures gathered { IfOk result (λ g. (layout : Parts) (rank : ℕ) → IsGathered layout rank calls.now [] g) }
    {
        Ok(Gathered {
            sends: Vec::with_capacity(alloc, room.sends)?,
            receives: Vec::with_capacity(alloc, room.receives)?,
            rounds: Vec::new(alloc),
            active: Vec::new(alloc),
            cancelled: Vec::new(alloc),
            foreign: 0,
            given_back: false,
            touched: Touched::new(alloc, calls.len())?,
        })
    }

    /// Adds what a call tells that has to do with no request, behind which all steps were gathered.
    #[inline(always)]
    fn add_without_request(
        &mut self,
        layout: &Layout,
        rank: u32,
        n: usize,
        called: &Called<'_>,
        world: Option<Group<'_>>,
    ) -> Result<(), AllocError>
        requires world { IsWorldOf layout.now rank world }
        requires none { IsWithoutRequest called.now.call.now }
        requires few { self.old.foreign < u64.MAX }
        ensures few { OnOk result (self.new.foreign ≤ self.old.foreign + 1) }
        ensures gathered { OnOk result ((calls : List Entry) → AddsWhole layout.now rank calls n called.now self.old self.new) }
    {
        let call = called.call;
        let number = n as u64;
        let name = OpName {
            rank,
            call: number,
            part: 0,
        };
        let group = group_given_world(layout, rank, number, call, world);
        push_some(&mut self.sends, message_in(group, name, call, None))?;
        push_some(
            &mut self.receives,
            receive_in(group, name, call, called.outs, None, self.given_back),
        )?;
        push_some(&mut self.rounds, entered_in(group, number, call))?;
        self.foreign = with_call(self.foreign, group, call);
        Ok(())
    }

    /// Adds what a call at a place tells that is one step, behind which all steps were gathered.
    #[inline(always)]
    fn add_whole(
        &mut self,
        layout: &Layout,
        rank: u32,
        calls: &Calls<'_>,
        n: usize,
        called: &Called<'_>,
        world: Option<Group<'_>>,
    ) -> Result<(), AllocError>
        requires place { IsCallAt calls.now n (plain_called called.now) }
        requires world { IsWorldOf layout.now rank world }
        requires few { self.old.foreign < u64.MAX }
        ensures few { OnOk result (self.new.foreign ≤ self.old.foreign + 1) }
        ensures gathered { OnOk result (AddsWhole layout.now rank calls.now n called.now self.old self.new) }
    {
        let call = called.call;
        let number = n as u64;
        let name = OpName {
            rank,
            call: number,
            part: 0,
        };
        let group = group_given_world(layout, rank, number, call, world);
        let posted = called.posted();
        let touch = note(&mut self.touched, n, called)?;
        let fate = fate_of(touch, calls, posted);
        push_some(&mut self.sends, message_in(group, name, call, fate))?;
        push_some(
            &mut self.receives,
            receive_in(group, name, call, called.outs, fate, self.given_back),
        )?;
        push_some(&mut self.rounds, entered_in(group, number, call))?;
        push_some(&mut self.active, still_active(name, fate))?;
        push_some(&mut self.cancelled, cancelled_with(name, fate))?;
        self.foreign = with_call(self.foreign, group, call);
        self.given_back = gives_back(call, fate, self.given_back);
        Ok(())
    }

    /// Adds what a part of the Start or Startall at a place tells, behind which all steps were gathered.
    fn add_part(
        &mut self,
        layout: &Layout,
        rank: u32,
        calls: &Calls<'_>,
        n: usize,
        called: &Called<'_>,
        world: Option<Group<'_>>,
        part: Part<'_>,
    ) -> Result<(), AllocError>
        requires place { IsCallAt calls.now n (plain_called called.now) }
        requires world { IsWorldOf layout.now rank world }
        requires start { IsTrue (is_start called.now.call.now) }
        ensures few { OnOk result (self.new.foreign ≡ self.old.foreign) }
        ensures gathered { OnOk result (AddsPart layout.now rank calls.now n called.now part.entry self.old self.new) }
    {
        let call = as_started(part.init.call);
        let name = OpName {
            rank,
            call: n as u64,
            part: part.part,
        };
        let group = group_given_world(layout, rank, part.init.number, &call, world);
        let given = called.restarts(part.request);
        let touch = note_part(&mut self.touched, n, given)?;
        let fate = fate_of(touch, calls, given);
        push_some(&mut self.sends, message_in(group, name, &call, fate))?;
        push_some(
            &mut self.receives,
            receive_in(group, name, &call, called.outs, fate, self.given_back),
        )?;
        push_some(&mut self.active, still_active(name, fate))?;
        push_some(&mut self.cancelled, cancelled_with(name, fate))?;
        Ok(())
    }

    /// Adds what all parts of the Start or Startall at a place tell, by what holds its numbers.
    #[inline(never)]
    fn add_parts(
        &mut self,
        layout: &Layout,
        rank: u32,
        calls: &Calls<'_>,
        n: usize,
        called: &Called<'_>,
        world: Option<Group<'_>>,
        inits: &[Option<Init<'_>>],
    ) -> Result<(), AllocError>
        requires place { IsCallAt calls.now n (plain_called called.now) }
        requires world { IsWorldOf layout.now rank world }
        requires start { IsTrue (is_start called.now.call.now) }
        ensures few { OnOk result (self.new.foreign ≡ self.old.foreign) }
        ensures gathered { OnOk result (AddsCall layout.now rank calls.now n called.now inits.now self.old self.new) }
    {
        let requests = started_by(called.call);
        let mut place = requests.len();
        while place > 0 {
            place -= 1;
            match begun_at(inits, requests, place) {
                Some(part) => self.add_part(layout, rank, calls, n, called, world, part)?,
                None => {}
            }
        }
        Ok(())
    }

    /// Adds what a call at a place tells that is one step, behind which all steps were gathered.
    #[inline(always)]
    fn add_single(
        &mut self,
        layout: &Layout,
        rank: u32,
        calls: &Calls<'_>,
        n: usize,
        called: &Called<'_>,
        world: Option<Group<'_>>,
    ) -> Result<(), AllocError>
        requires place { IsCallAt calls.now n (plain_called called.now) }
        requires world { IsWorldOf layout.now rank world }
        requires few { self.old.foreign < u64.MAX }
        ensures few { OnOk result (self.new.foreign ≤ self.old.foreign + 1) }
        ensures gathered { OnOk result (AddsWhole layout.now rank calls.now n called.now self.old self.new) }
    {
        if is_without_request(called.call) {
            self.add_without_request(layout, rank, n, called, world)
        } else {
            self.add_whole(layout, rank, calls, n, called, world)
        }
    }

    /// Adds what the call at a place tells, behind which all steps were gathered, by what holds the numbers that it
    /// starts.
    fn add(
        &mut self,
        layout: &Layout,
        rank: u32,
        calls: &Calls<'_>,
        n: usize,
        called: &Called<'_>,
        world: Option<Group<'_>>,
        inits: &[Option<Init<'_>>],
    ) -> Result<(), AllocError>
        requires place { IsCallAt calls.now n (plain_called called.now) }
        requires world { IsWorldOf layout.now rank world }
        requires few { self.old.foreign < u64.MAX }
        ensures few { OnOk result (self.new.foreign ≤ self.old.foreign + 1) }
        ensures gathered { OnOk result (AddsCall layout.now rank calls.now n called.now inits.now self.old self.new) }
    {
        if is_start(called.call) {
            self.add_parts(layout, rank, calls, n, called, world, inits)
        } else {
            self.add_single(layout, rank, calls, n, called, world)
        }
    }

    /// What a rank did with these calls, all of whose steps were gathered, by what holds numbers at the end.
    fn into_ops(
        self,
        alloc: Global,
        layout: &Layout,
        rank: u32,
        beyond: bool,
        calls: &Calls<'_>,
        held: &Held<'_>,
    ) -> Result<RankOps, AllocError>
        requires gathered { IsGathered layout.now rank calls.now (steps_of calls.now) self }
        requires held { Holds (reverse calls.now) (get int_eq held.now) }
        ensures { IfOk result (λ ops. ops ≡ ops_by_calls layout.now rank beyond calls.now) }
    {
        let state = state_of(layout, rank, beyond, calls);
        let waiting = waiting_of(state, calls)?;
        let comms = layout.comms_with(alloc, rank)?;
        let mut sends = self.sends;
        let mut receives = self.receives;
        let mut rounds = self.rounds;
        let mut active = self.active;
        let mut cancelled = self.cancelled;
        sends.reverse();
        receives.reverse();
        rounds.reverse();
        active.reverse();
        cancelled.reverse();
        let idle = idle_of(alloc, held, &active, calls)?;
        Ok(RankOps {
            sends,
            receives,
            rounds,
            comms,
            active,
            idle,
            cancelled,
            state,
            waiting,
            foreign: self.foreign,
        })
    }
}

/// What a rank with these calls did, where none of them is an init or starts what one describes; nothing where the
/// first of these is met. They are gone through once, from the last to the first, so that what the steps behind a post
/// tell of its request is known when it is met. The lists are turned round at the end.
fn gather_without_inits(
    alloc: Global,
    layout: &Layout,
    rank: u32,
    beyond: bool,
    calls: &Calls<'_>,
) -> Result<Option<RankOps>, AllocError>
    ensures { IfOk result (λ found. IfSome found (λ ops. ops ≡ ops_by_calls layout.now rank beyond calls.now)) }
{
    let mut gathered = Gathered::empty(alloc, Room::guessed(calls), calls)?;
    let world = world_of(layout, rank);
    let mut n = calls.len();
    while n > 0 {
        n -= 1;
        let called = calls.at(n);
        if is_init(called.call) || is_start(called.call) {
            return Ok(None);
        }
        gathered.add_single(layout, rank, calls, n, &called, world)?;
    }
    let ops = gathered.into_ops(alloc, layout, rank, beyond, calls, &Held::new(alloc))?;
    Ok(Some(ops))
}

/// What a rank with these calls did. They are gone through from the first to the last, by which it is known which inits
/// hold the numbers that Starts and Startalls list; and then from the last to the first.
fn gather_with_inits(
    alloc: Global,
    layout: &Layout,
    rank: u32,
    beyond: bool,
    calls: &Calls<'_>,
) -> Result<RankOps, AllocError>
    ensures { IfOk result (λ ops. ops ≡ ops_by_calls layout.now rank beyond calls.now) }
{
    let holding = holding_of(alloc, calls)?;
    let mut gathered = Gathered::empty(alloc, holding.room, calls)?;
    let world = world_of(layout, rank);
    let mut left = holding.inits.len();
    let mut n = calls.len();
    while n > 0 {
        n -= 1;
        let called = calls.at(n);
        let end = left;
        left -= started_by(called.call).len();
        gathered.add(
            layout,
            rank,
            calls,
            n,
            &called,
            world,
            &holding.inits[left..end],
        )?;
    }
    gathered.into_ops(alloc, layout, rank, beyond, calls, &holding.held)
}

/// What a rank with these calls did. Few programs have persistent requests.
fn gather(
    alloc: Global,
    layout: &Layout,
    rank: u32,
    beyond: bool,
    calls: &Calls<'_>,
) -> Result<RankOps, AllocError>
    ensures { IfOk result (λ ops. ops ≡ ops_by_calls layout.now rank beyond calls.now) }
{
    match gather_without_inits(alloc, layout, rank, beyond, calls)? {
        Some(ops) => Ok(ops),
        None => gather_with_inits(alloc, layout, rank, beyond, calls),
    }
}

/// The ops of a rank of the layout, by its readable events. Fails with `AllocError` when memory is refused.
#[tactic(auto, unfolding(crate::specs::RankOps::ops_by))]
pub fn ops_of(
    alloc: Global,
    layout: &Layout,
    know: &Knowledge,
    rank: u32,
) -> Result<RankOps, AllocError>
    ensures { IfOk result (λ ops. ops ≡ ops_of layout.now know.now rank) }
{
    let local = Call::Local;
    let calls = Calls::new(know.readable(rank), &local);
    gather(alloc, layout, rank, know.beyond(rank), &calls)
}

/// The ops of all ranks of the layout, those of rank r at place r. Fails with `AllocError` when memory is refused.
pub fn all_ops(alloc: Global, layout: &Layout, know: &Knowledge) -> Result<Vec<RankOps>, AllocError>
    ensures { IfOk result (λ all. all.items ≡ all_ops layout.now know.now) }
{
    let mut all = Vec::new(alloc);
    for rank in 0..layout.ranks() {
        all.push(ops_of(alloc, layout, know, rank)?)?;
    }
    Ok(all)
}
