//! Messages that are left over, receives that starve, and the nearest misses of both.

ghost use Rattle.std.specs.Prelude.{◌≡◌, ◌++◌, ◌∷◌, [], if◌then◌else◌, All, Contains, IfOk, List, OnOk, filter, length, map, slice_get};
ghost use Rattle.std.specs.List.{flat_map};
ghost use Rattle.trace_ops.specs.Ops.{AreOwn};
ghost use Rattle.mpi_model.specs.declared.message.Message.{Message as Sent};
ghost use Rattle.diagnosis_value.specs.declared.diagnosis.Why.TheVariants.{Idle as AnIdle};
ghost use Rattle.trace_diagnosis.specs.Askers.{asker};
ghost use Rattle.trace_diagnosis.specs.LeftOver.{is_told, left_over, unfinished_of};
ghost use Rattle.trace_diagnosis.specs.Missed.{AreNearMessages, AreNearReceives, GoesOn, HasNearMessages, HasNearReceives, IsFitMessage, IsMessageOf, IsReceiveOf, nearest_messages, nearest_receives};
ghost use Rattle.trace_diagnosis.specs.Nearest.{LookAmong, LookForMessages, near_message, near_message_at, near_message_of, near_receive, near_receive_at, near_receive_of};
ghost use Rattle.trace_diagnosis.specs.Starving.{starving};
ghost use Rattle.trace_diagnosis.specs.Unmatched.{IsUnmatched, is_of_waiting};
ghost use Rattle.trace_diagnosis.specs.Ways.{why_of};

use crate::before::Through;
use crate::conditions::Poller;
use crate::firsts::Firsts;
use crate::holding::is_up;
use crate::idle::Idle;
use crate::inits::Inits;
use crate::loose::{left_over_of, loose_messages, undecided_of};
use crate::near::{NearMessages, NearReceives, Way, is_near};
use crate::patterns::{Pattern, pattern_of, patterns_of};
use crate::shelf::first_three;
use crate::starved::starving_of;
use crate::taken::{TakenBy, Takers, taken_of};
use diagnosis_value::{LeftOver, NearMessage, NearReceive, Starving, Unmatched, Why};
use mpi_model::{Layout, Message, OpName, Receive};
use std::alloc::{AllocError, Global};
use trace_know::Knowledge;
use trace_ops::{RankOps, State};
use trace_pair::{PairTable, Reaches, reaches_of};
use trace_wait::ends_asked;

/// Adds the requests that are active, where the rank has ended.
fn push_unfinished(own: &RankOps, names: &mut Vec<OpName>) -> Result<(), AllocError>
    ensures { OnOk result (names.new.items ≡ names.old.items ++ unfinished_of own.now) }
{
    if own.state() == State::Ended {
        push_posts(own.active(), names)?;
    }
    Ok(())
}

/// Adds the operations of active requests.
fn push_posts(active: &[(i64, OpName)], names: &mut Vec<OpName>) -> Result<(), AllocError>
    ensures { OnOk result (names.new.items ≡ names.old.items ++ map (λ p. p.1) active.now) }
{
    for post in active {
        names.push(post.1)?;
    }
    Ok(())
}

/// The requests of ranks that have ended which were active at their end.
pub(crate) fn unfinished_in(alloc: Global, ops: &[RankOps]) -> Result<Vec<OpName>, AllocError>
    ensures { IfOk result (λ names. names.items ≡ flat_map unfinished_of ops.now) }
{
    let mut names = Vec::new(alloc);
    for own in ops {
        push_unfinished(own, &mut names)?;
    }
    Ok(names)
}

/// What is asked of the run.
#[derive(Clone, Copy)]
pub(crate) struct Run<'a> {
    pub layout: &'a Layout,
    pub know: &'a Knowledge,
    pub ranks: u32,
    pub ops: &'a [RankOps],
    pub pairs: &'a PairTable,
    pub pollers: &'a [Poller<'a>],
    /// For each rank, whether it waits or polls.
    pub waits: &'a [bool],
    pub held: &'a [bool],
}

impl<'a> Run<'a> {
    /// Whether a message that is left over is told: it was sent to a rank that is held or has no condition.
    fn is_told(&self, m: &Message) -> bool
        ensures { result ≡ is_told self.now.held.now self.now.waits.now m.now }
    {
        is_up(self.held, m.to) || !is_up(self.waits, m.to)
    }
}

/// What starves and what is left over.
#[derive(Drop)]
struct Found {
    left: Vec<Message>,
    starving: Vec<Receive>,
    /// The messages in no pair that weren't cancelled.
    loose: Vec<Message>,
    undecided: Vec<Message>,
}

/// What starves and what is left over.
fn found_in(alloc: Global, run: &Run<'_>, reaches: &Reaches<'_>) -> Result<Found, AllocError>
    requires all { run.now.ranks ≡ length run.now.ops.now }
    requires own { AreOwn 0 run.now.ops.now }
    requires reaches { reaches.now ≡ run.now.ops.now }
    ensures left_over { IfOk result (λ f. f.left.items ≡ left_over run.now.ops.now run.now.pairs.now.pairs) }
    ensures starving { IfOk result (λ f. f.starving.items ≡ starving run.now.layout.now run.now.ops.now run.now.pairs.now.pairs (map asker run.now.pollers.now)) }
{
    let received = run.pairs.by_receive(alloc)?;
    let loose = loose_messages(alloc, run.pairs, run.ops)?;
    let ends = ends_asked(alloc, run.ops, &received)?;
    let left = left_over_of(alloc, &ends, reaches, &loose)?;
    let undecided = undecided_of(alloc, &ends, reaches, &loose)?;
    let starving = starving_of(
        alloc,
        run.layout,
        run.ops,
        run.ranks,
        &received,
        reaches,
        run.pollers,
        &loose,
    )?;
    Ok(Found {
        left,
        starving,
        loose,
        undecided,
    })
}

/// The patterns of the messages that are left over and of the receives that starve.
fn asked_of(alloc: Global, found: &Found) -> Result<Vec<Pattern>, AllocError> {
    let mut asked = Vec::new(alloc);
    for m in &found.left {
        asked.push(patterns_of(m)[3])?;
    }
    for q in &found.starving {
        asked.push(pattern_of(q))?;
    }
    Ok(asked)
}

/// Adds the receive, where it is a near miss of the message.
fn push_receive(
    why: Why,
    m: &Message,
    q: &Receive,
    near: &mut Vec<NearReceive>,
) -> Result<(), AllocError>
    ensures { OnOk result (near.new.items ≡ near.old.items ++ near_receive why m.now q.now) }
{
    if !is_near(why, m, q) {
        return Ok(());
    }
    near.push(NearReceive { why, receive: *q })?;
    Ok(())
}

/// The receive at a place.
fn receive_at(receives: &[Receive], place: usize) -> Option<Receive>
    ensures { result ≡ slice_get receives.now place }
{
    receives.get(place).copied()
}

/// Adds the receive, where there is one and it is a near miss of the message.
fn push_receive_of(
    why: Why,
    m: &Message,
    q: Option<Receive>,
    near: &mut Vec<NearReceive>,
) -> Result<(), AllocError>
    ensures { OnOk result (near.new.items ≡ near.old.items ++ near_receive_of why m.now q) }
{
    match q {
        Some(q) => push_receive(why, m, &q, near),
        None => Ok(()),
    }
}

/// Adds the receives at these places that are near misses of the message.
fn push_receives(
    why: Why,
    m: &Message,
    receives: &[Receive],
    places: &[usize],
    near: &mut Vec<NearReceive>,
) -> Result<(), AllocError>
    ensures exact { OnOk result (near.new.items ≡ near.old.items ++ flat_map (near_receive_at why m.now receives.now) places.now) }
    ensures sort { OnOk result (GoesOn (IsReceiveOf why m.now) near.old.items near.new.items) }
{
    for place in places {
        push_receive_of(why, m, receive_at(receives, *place), near)?;
    }
    Ok(())
}

/// Adds the message with what has or may have taken it, where it is a near miss of the receive.
fn push_message(
    why: Why,
    q: &Receive,
    m: &Message,
    by: Option<OpName>,
    near: &mut Vec<NearMessage>,
) -> Result<(), AllocError>
    ensures { OnOk result (near.new.items ≡ near.old.items ++ near_message why q.now by m.now) }
{
    if !is_near(why, m, q) {
        return Ok(());
    }
    near.push(NearMessage {
        why,
        message: *m,
        by,
    })?;
    Ok(())
}

/// The message at a place.
fn message_at(messages: &[Message], place: usize) -> Option<Message>
    ensures { result ≡ slice_get messages.now place }
{
    messages.get(place).copied()
}

/// Adds the message, where there is one and it is a near miss of the receive.
fn push_message_of(
    why: Why,
    q: &Receive,
    m: Option<Message>,
    near: &mut Vec<NearMessage>,
) -> Result<(), AllocError>
    ensures { OnOk result (near.new.items ≡ near.old.items ++ near_message_of why q.now m) }
{
    match m {
        Some(m) => push_message(why, q, &m, None, near),
        None => Ok(()),
    }
}

/// Adds the messages at these places that are near misses of the receive.
fn push_messages(
    why: Why,
    q: &Receive,
    messages: &[Message],
    places: &[usize],
    near: &mut Vec<NearMessage>,
) -> Result<(), AllocError>
    ensures exact { OnOk result (near.new.items ≡ near.old.items ++ flat_map (near_message_at why q.now messages.now) places.now) }
    ensures sort { OnOk result (GoesOn (IsMessageOf why q.now) near.old.items near.new.items) }
{
    for place in places {
        push_message_of(why, q, message_at(messages, *place), near)?;
    }
    Ok(())
}

/// Adds messages with what has or may have taken them.
fn push_taken(
    why: Why,
    q: &Receive,
    taken: &[TakenBy],
    near: &mut Vec<NearMessage>,
) -> Result<(), AllocError>
    ensures { OnOk result (GoesOn (IsMessageOf why q.now) near.old.items near.new.items) }
{
    for one in taken {
        push_message(why, q, &one.message, Some(one.by), near)?;
    }
    Ok(())
}

/// The patterns of receives.
fn patterns_of_receives(alloc: Global, receives: &[Receive]) -> Result<Vec<Pattern>, AllocError> {
    let mut asked = Vec::new(alloc);
    for q in receives {
        asked.push(pattern_of(q))?;
    }
    Ok(asked)
}

/// The patterns of messages.
fn patterns_of_messages(alloc: Global, messages: &[Message]) -> Result<Vec<Pattern>, AllocError> {
    let mut asked = Vec::new(alloc);
    for m in messages {
        asked.extend_from_slice(&patterns_of(m))?;
    }
    Ok(asked)
}

/// Adds the first three near misses of the message that differ from it in one thing.
fn push_near_receives(
    alloc: Global,
    m: &Message,
    by_thing: &NearReceives<'_>,
    near: &mut Vec<NearReceive>,
) -> Result<(), AllocError>
    ensures { OnOk result (near.new.items ≡ near.old.items ++ nearest_receives (why_of by_thing.now.0) m.now by_thing.now.1) }
{
    let places = by_thing.near(alloc, m)?;
    push_receives(by_thing.why(), m, by_thing.receives(), &places, near)?;
    Ok(())
}

/// What messages that are left over may miss by little.
#[derive(Drop)]
struct AllReceives<'a> {
    tag: NearReceives<'a>,
    comm: NearReceives<'a>,
    source: NearReceives<'a>,
    dest: NearReceives<'a>,
    idle: Firsts,
}

impl<'a> AllReceives<'a> {
    fn of(alloc: Global, found: &'a Found, idle: &Idle) -> Result<AllReceives<'a>, AllocError>
        ensures { IfOk result (LookAmong found.now.starving.items) }
    {
        let asked = if idle.receives.is_empty() {
            Vec::new(alloc)
        } else {
            patterns_of_messages(alloc, &found.left)?
        };
        let idle = Firsts::of_receives(alloc, &asked, &idle.receives)?;
        drop(asked);
        let starving = found.starving.as_slice();
        Ok(AllReceives {
            tag: NearReceives::of(alloc, Way::Tag, starving)?,
            comm: NearReceives::of(alloc, Way::Comm, starving)?,
            source: NearReceives::of(alloc, Way::Source, starving)?,
            dest: NearReceives::of(alloc, Way::Dest, starving)?,
            idle,
        })
    }

    /// The idle receives that would fit the message.
    fn idle_for(&self, alloc: Global, m: &Message) -> Result<Vec<usize>, AllocError> {
        let mut places = Vec::new(alloc);
        for pattern in &patterns_of(m) {
            places.extend_from_slice(self.idle.at(*pattern))?;
        }
        first_three(places)
    }

    /// Adds the idle receives that would fit the message.
    fn push_idle(
        &self,
        alloc: Global,
        idle: &Idle,
        m: &Message,
        near: &mut Vec<NearReceive>,
    ) -> Result<(), AllocError>
        ensures { OnOk result (GoesOn (IsReceiveOf AnIdle m.now) near.old.items near.new.items) }
    {
        let places = self.idle_for(alloc, m)?;
        push_receives(Why::Idle, m, &idle.receives, &places, near)?;
        Ok(())
    }

    /// The near misses of a message.
    fn near(
        &self,
        alloc: Global,
        found: &Found,
        idle: &Idle,
        m: &Message,
    ) -> Result<Vec<NearReceive>, AllocError>
        requires { LookAmong found.now.starving.items self.now }
        ensures { IfOk result (λ near. AreNearReceives found.now.starving.items m.now near.items) }
    {
        let mut near = Vec::new(alloc);
        push_near_receives(alloc, m, &self.tag, &mut near)?;
        push_near_receives(alloc, m, &self.comm, &mut near)?;
        push_near_receives(alloc, m, &self.source, &mut near)?;
        push_near_receives(alloc, m, &self.dest, &mut near)?;
        self.push_idle(alloc, idle, m, &mut near)?;
        Ok(near)
    }
}

/// Adds the first three near misses of the receive that differ from it in one thing.
fn push_near_messages(
    alloc: Global,
    q: &Receive,
    by_thing: &NearMessages<'_>,
    near: &mut Vec<NearMessage>,
) -> Result<(), AllocError>
    requires { Contains by_thing.now.2 q.now }
    ensures { OnOk result (near.new.items ≡ near.old.items ++ nearest_messages (why_of by_thing.now.0) q.now by_thing.now.1) }
{
    let places = by_thing.near(alloc, q)?;
    push_messages(by_thing.why(), q, by_thing.messages(), &places, near)?;
    Ok(())
}

/// The messages from which receives that starve may differ in one thing.
#[derive(Drop)]
struct InOneThing<'a> {
    tag: NearMessages<'a>,
    comm: NearMessages<'a>,
    source: NearMessages<'a>,
    dest: NearMessages<'a>,
}

impl<'a> InOneThing<'a> {
    fn of(alloc: Global, found: &'a Found) -> Result<InOneThing<'a>, AllocError>
        ensures { IfOk result (LookForMessages found.now.left.items found.now.starving.items) }
    {
        let left = found.left.as_slice();
        let starving = found.starving.as_slice();
        Ok(InOneThing {
            tag: NearMessages::of(alloc, Way::Tag, left, starving)?,
            comm: NearMessages::of(alloc, Way::Comm, left, starving)?,
            source: NearMessages::of(alloc, Way::Source, left, starving)?,
            dest: NearMessages::of(alloc, Way::Dest, left, starving)?,
        })
    }
}

/// What else receives that starve may miss by little.
#[derive(Drop)]
struct AllMessages<'a> {
    taken: Vec<Vec<TakenBy>>,
    loose: Firsts,
    takers: Takers<'a>,
    idle: Firsts,
}

impl<'a> AllMessages<'a> {
    fn of(
        alloc: Global,
        run: &Run<'a>,
        inits: &Inits,
        reaches: &'a Reaches<'a>,
        found: &Found,
        idle: &Idle,
    ) -> Result<AllMessages<'a>, AllocError> {
        let starving = found.starving.as_slice();
        let asked = patterns_of_receives(alloc, starving)?;
        let loose = Firsts::of_messages(alloc, &asked, &found.loose)?;
        let idle = Firsts::of_messages(alloc, &asked, &idle.messages)?;
        drop(asked);
        Ok(AllMessages {
            taken: taken_of(alloc, run.know, inits, run.ops, run.pairs, starving)?,
            loose,
            takers: Takers::of(alloc, run.ops, reaches)?,
            idle,
        })
    }

    /// The messages in no pair that fit a receive, with the open receives that may have taken them.
    fn postponed_for(
        &self,
        alloc: Global,
        found: &Found,
        q: &Receive,
    ) -> Result<Vec<TakenBy>, AllocError> {
        let mut postponed = Vec::new(alloc);
        for place in self.loose.at(pattern_of(q)) {
            if let Some(m) = found.loose.get(*place) {
                if let Some(taken) = self.takers.taken(alloc, m)? {
                    postponed.push(taken)?;
                }
            }
        }
        Ok(postponed)
    }

    /// Adds the messages that fit a receive: taken ones, those in no pair, and those of requests that aren't active.
    fn push_fit(
        &self,
        alloc: Global,
        found: &Found,
        idle: &Idle,
        at: usize,
        q: &Receive,
        near: &mut Vec<NearMessage>,
    ) -> Result<(), AllocError>
        ensures { OnOk result (GoesOn (IsFitMessage q.now) near.old.items near.new.items) }
    {
        push_taken(Why::Taken, q, taken_at(&self.taken, at), near)?;
        let postponed = self.postponed_for(alloc, found, q)?;
        push_taken(Why::Postponed, q, &postponed, near)?;
        push_messages(
            Why::Idle,
            q,
            &idle.messages,
            self.idle.at(pattern_of(q)),
            near,
        )?;
        Ok(())
    }

    /// The near misses of the receive at a place.
    fn near(
        &self,
        alloc: Global,
        found: &Found,
        idle: &Idle,
        tables: &InOneThing<'_>,
        at: usize,
        q: &Receive,
    ) -> Result<Vec<NearMessage>, AllocError>
        requires tables { LookForMessages found.now.left.items found.now.starving.items tables.now }
        requires among { Contains found.now.starving.items q.now }
        ensures { IfOk result (λ near. AreNearMessages found.now.left.items q.now near.items) }
    {
        let mut near = Vec::new(alloc);
        push_near_messages(alloc, q, &tables.tag, &mut near)?;
        push_near_messages(alloc, q, &tables.comm, &mut near)?;
        push_near_messages(alloc, q, &tables.source, &mut near)?;
        push_near_messages(alloc, q, &tables.dest, &mut near)?;
        self.push_fit(alloc, found, idle, at, q, &mut near)?;
        Ok(near)
    }
}

/// What was taken of the receive at a place.
fn taken_at(taken: &[Vec<TakenBy>], at: usize) -> &[TakenBy] {
    match taken.get(at) {
        Some(list) => list,
        None => &[],
    }
}

/// What is told of a message that is left over.
fn left_over_with(
    alloc: Global,
    receives: &AllReceives<'_>,
    found: &Found,
    idle: &Idle,
    through: &Through,
    m: &Message,
) -> Result<LeftOver, AllocError>
    requires { LookAmong found.now.starving.items receives.now }
    ensures message { IfOk result (λ l. l.message ≡ m.now) }
    ensures near { IfOk result (HasNearReceives found.now.starving.items) }
{
    Ok(LeftOver {
        message: *m,
        before: through.at(patterns_of(m)[3]),
        near: receives.near(alloc, found, idle, m)?,
    })
}

/// Adds a message that is left over, where it is told.
fn push_told(
    alloc: Global,
    run: &Run<'_>,
    receives: &AllReceives<'_>,
    found: &Found,
    idle: &Idle,
    through: &Through,
    m: &Message,
    told: &mut Vec<LeftOver>,
) -> Result<(), AllocError>
    requires { LookAmong found.now.starving.items receives.now }
    ensures messages { OnOk result (map (λ l. l.message) told.new.items ≡ map (λ l. l.message) told.old.items
        ++ (if is_told run.now.held.now run.now.waits.now m.now then m.now ∷ [] else [])) }
    ensures near { OnOk result (All (HasNearReceives found.now.starving.items) told.old.items → All (HasNearReceives found.now.starving.items) told.new.items) }
{
    if !run.is_told(m) {
        return Ok(());
    }
    let one = left_over_with(alloc, receives, found, idle, through, m)?;
    told.push(one)?;
    Ok(())
}

/// The messages that are left over and told.
fn told_messages(
    alloc: Global,
    run: &Run<'_>,
    found: &Found,
    idle: &Idle,
    through: &Through,
) -> Result<Vec<LeftOver>, AllocError>
    ensures messages { IfOk result (λ told. map (λ l. l.message) told.items ≡ filter (is_told run.now.held.now run.now.waits.now) found.now.left.items) }
    ensures near { IfOk result (λ told. All (HasNearReceives found.now.starving.items) told.items) }
{
    let receives = AllReceives::of(alloc, found, idle)?;
    let mut told = Vec::new(alloc);
    for m in &found.left {
        push_told(alloc, run, &receives, found, idle, through, m, &mut told)?;
    }
    Ok(told)
}

/// Adds what is told of a receive that starves.
fn push_starving(
    q: &Receive,
    before: u64,
    near: Vec<NearMessage>,
    told: &mut Vec<Starving>,
) -> Result<(), AllocError>
    ensures receives { OnOk result (map (λ s. s.receive) told.new.items ≡ map (λ s. s.receive) told.old.items ++ q.now ∷ []) }
    ensures near { OnOk result ((left : List Sent) → AreNearMessages left q.now near.items → All (HasNearMessages left) told.old.items → All (HasNearMessages left) told.new.items) }
{
    told.push(Starving {
        receive: *q,
        before,
        near,
    })?;
    Ok(())
}

/// The receives that starve and are told: those of ranks that wait or poll.
fn told_receives(
    alloc: Global,
    run: &Run<'_>,
    inits: &Inits,
    reaches: &Reaches<'_>,
    found: &Found,
    idle: &Idle,
    through: &Through,
) -> Result<Vec<Starving>, AllocError>
    ensures receives { IfOk result (λ told. map (λ s. s.receive) told.items ≡ filter (is_of_waiting run.now.waits.now) found.now.starving.items) }
    ensures near { IfOk result (λ told. All (HasNearMessages found.now.left.items) told.items) }
{
    let messages = AllMessages::of(alloc, run, inits, reaches, found, idle)?;
    let tables = InOneThing::of(alloc, found)?;
    let starving = found.starving.as_slice();
    let mut told = Vec::new(alloc);
    for at in 0..starving.len() {
        let q = &starving[at];
        if is_up(run.waits, q.at) {
            let near = messages.near(alloc, found, idle, &tables, at, q)?;
            push_starving(q, through.at(pattern_of(q)), near, &mut told)?;
        }
    }
    Ok(told)
}

/// What is left over, what starves, and what was never completed.
pub(crate) fn unmatched_of(
    alloc: Global,
    run: &Run<'_>,
    inits: &Inits,
) -> Result<Unmatched, AllocError>
    requires all { run.now.ranks ≡ length run.now.ops.now }
    requires own { AreOwn 0 run.now.ops.now }
    ensures { IfOk result (IsUnmatched run.now.layout.now run.now.ops.now run.now.pairs.now.pairs (map asker run.now.pollers.now) run.now.held.now run.now.waits.now) }
{
    let table = reaches_of(alloc, run.ops)?;
    let reaches = Reaches::new(run.ops, &table);
    let found = found_in(alloc, run, &reaches)?;
    let asked = asked_of(alloc, &found)?;
    let through = Through::of(alloc, &asked, run.pairs, run.ops)?;
    let idle = Idle::of(alloc, run, inits)?;
    let left_over = told_messages(alloc, run, &found, &idle, &through)?;
    let starving = told_receives(alloc, run, inits, &reaches, &found, &idle, &through)?;
    let unfinished = unfinished_in(alloc, run.ops)?;
    let Found { undecided, .. } = found;
    Ok(Unmatched {
        left_over,
        starving,
        undecided,
        unfinished,
    })
}
