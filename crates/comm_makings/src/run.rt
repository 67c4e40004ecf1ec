//! From the world to all communicators that are made of it.

ghost use Rattle.std.specs.Prelude.{◌≡◌, ◌∷◌, ◌+◌, ◌<◌, ◌^◌, [], ℕ, IfOk, IfSome, OnOk, Some, length, map, slice_set, true};
ghost use Rattle.std.specs.List.{filter_map, slice_get};
ghost use Rattle.std.specs.Option.{option_copied};
ghost use Rattle.comm_makings.specs.Derives.{group_call_at, member_with, world_members};
ghost use Rattle.comm_makings.specs.Each.{list_in};
ghost use Rattle.comm_makings.specs.Made.{IsFirstOf, IsMakingOrder, member_at, order_by, own_order, returned_at, smaller, world_order};
ghost use Rattle.comm_makings.specs.State.{AreAllDerivedGroups, AreDerived, AreDerivedGroups, AreMadeOf, AreInterMembers, AreInters, AreMembers, AreMembersIn, BindsInter, BindsMember, IsDerivedInter, NamesInter, IsDerivedComm, IsDerivedGroup, IfComms, IsEnded, IsFirstComm, IsOfDerived, IsReadTo, IsRun, KeepsComms, KeepsDerived, NamesMembers, NoneListed, NoneListedAt, NoneStands, NoneStandsAt, SetsStanding, dims_of, is_gained};
ghost use Rattle.comm_makings.specs.Offering.{Answer, IsOffer, MakesOfInter};
ghost use Rattle.comm_makings.specs.declared.run.Step.TheVariants as steps;
ghost use Rattle.comm_makings.specs.declared.state.Progress.TheVariants as progress;

use crate::answer::Why;
use crate::by_groups::{Found, Over, found_at};
use crate::calls::{Action, CommCall, GroupCall, RankCalls};
use crate::group_value::{GroupValue, value_of};
use crate::handle::{Gives, Meant};
use crate::here::{Here, all_kth, call_at, gives_some, handle_of, meant_at};
use crate::intercomms::{
    Joined, OfInter, Offer, Offered, OpenOffers, answer, answered, copied_of, first_size,
    join_groups, merged_of, most_merges, offer_at, own_calls,
};
use crate::outcomes::outcome_in;
use crate::part::Part;
use crate::parts::Outcome;
use crate::state::{HandleState, Made, Member, Order, Progress, comm_at, dims_of};
use crate::view::RankView;
use mpi_model::Object;
use std::alloc::{AllocError, Global};

/// What is derived so far.
#[derive(Drop)]
pub(crate) struct Run {
    /// For each rank how its handles stand.
    pub standings: Vec<Vec<HandleState>>,
    /// For each rank what its calls give, where they give groups.
    pub values: Vec<Vec<GroupValue>>,
    pub comms: Vec<Made>,
    pub inters: Vec<Made>,
    /// The ranks that have calls of MPI_Intercomm_create which are not read, each with the number of the next of these.
    pub joining: Vec<(u32, usize)>,
    pub open: OpenOffers,
    /// For each communicator how far its makings are read.
    pub next: Vec<Progress>,
    /// For each rank which calls of MPI_Comm_create_group are read.
    pub taken: Vec<Vec<bool>>,
    /// For each communicator what no MPI_Comm_create_group makes any more.
    pub over: Vec<Vec<Over>>,
    /// How many makings were read.
    pub read: u64,
}

/// Sets how a handle stands, where the rank has it.
fn set_in(row: &mut Vec<HandleState>, handle: usize, standing: HandleState)
    ensures { row.new.items ≡ slice_set row.old.items handle standing }
{
    if handle < row.len() {
        row[handle] = standing;
    }
}

/// Sets how a handle of a rank stands, where there is one. All others stand as before.
#[tactic(auto, using(crate::proofs::Standings::set_one, crate::proofs::Standings::set_none))]
pub(crate) fn set(
    standings: &mut Vec<Vec<HandleState>>,
    rank: u32,
    handle: usize,
    standing: HandleState,
)
    ensures { SetsStanding standings.old.items standings.new.items rank handle standing }
{
    let rank = rank as usize;
    if rank < standings.len() {
        set_in(&mut standings[rank], handle, standing);
    }
}

/// A handle is left out.
#[tactic(auto, using(crate::proofs::Standings::keeps_set))]
fn leave_one(standings: &mut Vec<Vec<HandleState>>, rank: u32, handle: usize, why: Why)
    ensures { KeepsDerived standings.old.items standings.new.items }
{
    set(standings, rank, handle, HandleState::Left(why));
}

/// What the calls give is left out.
#[tactic(auto, using(crate::proofs::Standings::keeps_all, crate::proofs::Standings::keeps_more))]
pub(crate) fn leave(standings: &mut Vec<Vec<HandleState>>, all: &[Option<Here>], why: Why)
    ensures { KeepsDerived standings.old.items standings.new.items }
{
    for here in all {
        if let Some(here) = here {
            if let Gives::Handle(handle) = here.gives {
                leave_one(standings, here.rank, handle, why);
            }
        }
    }
}

/// Which makings come behind an unsound one, or which merges: from this one on up to the end.
#[derive(Clone, Copy)]
struct Later {
    first: usize,
    end: usize,
    merges: bool,
}

/// The k-th calls of the members that make communicators of all of them, or that merge two groups.
fn calls_kth(
    alloc: Global,
    ranks: &[RankCalls],
    views: &[RankView],
    members: &[Member],
    k: usize,
    merges: bool,
) -> Result<Vec<Option<Here>>, AllocError> {
    if merges {
        own_calls(alloc, ranks, views, members, k, true)
    } else {
        all_kth(alloc, ranks, views, members, k)
    }
}

/// What these members make or merge later is left out.
#[tactic(auto, using(crate::proofs::Standings::keeps_all, crate::proofs::Standings::keeps_more))]
fn leave_behind(
    alloc: Global,
    ranks: &[RankCalls],
    views: &[RankView],
    members: &[Member],
    later: Later,
    standings: &mut Vec<Vec<HandleState>>,
) -> Result<(), AllocError>
    ensures { KeepsDerived standings.old.items standings.new.items }
{
    for k in later.first..later.end {
        let all = calls_kth(alloc, ranks, views, members, k, later.merges)?;
        leave(standings, &all, Why::Behind);
    }
    Ok(())
}

/// The call of the member at a place, where the text has one that returned.
fn returned_at(all: &[Option<Here>], place: u32) -> Option<Here>
    ensures { result ≡ returned_at all.now place }
{
    let here = all.get(place as usize).copied()?;
    let here = here?;
    if gives_some(here.gives) {
        Some(here)
    } else {
        None
    }
}

/// Of two calls the one of the smaller rank, where both are there.
fn smaller(first: Option<Here>, here: Option<Here>) -> Option<Here>
    ensures { result ≡ smaller first here }
{
    match first {
        None => here,
        Some(one) => match here {
            None => first,
            Some(other) => { if other.rank < one.rank { here } else { first } },
        },
    }
}

/// The making call of the smallest of these members whose text has it.
#[tactic(auto, using(crate::proofs::Firsts::first_none, crate::proofs::Firsts::first_more))]
fn first_returned(places: &[u32], all: &[Option<Here>]) -> Option<Here>
    ensures { IsFirstOf places.now all.now result }
{
    let mut first: Option<Here> = None;
    for place in places {
        first = smaller(first, returned_at(all, *place));
    }
    first
}

/// The order of a communicator by its making call, and then by the member that called it.
fn order_by(first: Option<Here>) -> Order
    ensures { result ≡ order_by first }
{
    match first {
        None => Order {
            class: 2,
            call: u64::MAX,
            rank: u32::MAX,
        },
        Some(here) => Order {
            class: 2,
            call: here.call,
            rank: here.rank,
        },
    }
}

/// The order of the communicator of these members.
fn order_of(places: &[u32], all: &[Option<Here>]) -> Order
    ensures { IsMakingOrder places.now all.now result }
{
    let first = first_returned(places, all);
    order_by(first)
}

/// The member at a place of the parent, by what its call gives.
fn member_at(members: &[Member], all: &[Option<Here>], place: u32) -> Option<Member>
    ensures { result ≡ member_at members.now all.now place }
{
    let member = members.get(place as usize).copied()?;
    let here = all.get(place as usize).copied()?;
    Some(Member {
        rank: member.rank,
        handle: handle_of(here),
    })
}

/// The members at these places of the parent.
fn members_at(
    alloc: Global,
    members: &[Member],
    all: &[Option<Here>],
    places: &[u32],
) -> Result<Vec<Member>, AllocError>
    ensures { IfOk result (λ v. v.items ≡ filter_map (member_at members.now all.now) places.now) }
{
    let mut chosen = Vec::new(alloc);
    for place in places {
        if let Some(member) = member_at(members, all, *place) {
            chosen.push(member)?;
        }
    }
    Ok(chosen)
}

/// The ranks of the members.
fn ranks_of(alloc: Global, members: &[Member]) -> Result<Vec<u32>, AllocError>
    ensures { IfOk result (λ v. v.items ≡ map (λ m. m.rank) members.now) }
{
    members.iter().map(|member| member.rank).collect(alloc)
}

/// The communicator of a part.
pub(crate) fn made_of(
    alloc: Global,
    members: &[Member],
    all: &[Option<Here>],
    part: &Part,
) -> Result<Made, AllocError>
    ensures members { IfOk result (λ c. c.members.items ≡ filter_map (member_at members.now all.now) part.now.places) }
    ensures ranks { IfOk result (λ c. c.ranks.items ≡ map (λ m. m.rank) c.members.items) }
    ensures dims { IfOk result (λ c. list_in c.dims ≡ part.now.dims) }
    ensures order { IfOk result (λ c. IsMakingOrder part.now.places all.now c.order) }
    ensures one_group { IfOk result (λ c. c.remote_size ≡ 0) }
{
    let chosen = members_at(alloc, members, all, &part.places)?;
    Ok(Made {
        object: Object::Communicator,
        ranks: ranks_of(alloc, &chosen)?,
        members: chosen,
        remote_size: 0,
        dims: dims_of(alloc, &part.dims)?,
        order: order_of(&part.places, all),
    })
}

/// The member's handle names the communicator at this place.
#[tactic(auto, using(crate::proofs::Standings::binds_set, crate::proofs::Standings::binds_none))]
fn bind_member(standings: &mut Vec<Vec<HandleState>>, member: Member, place: usize)
    ensures { BindsMember member place standings.old.items standings.new.items }
{
    if let Some(handle) = member.handle {
        set(standings, member.rank, handle, HandleState::Derived(place));
    }
}

/// The members' handles name the communicator at this place.
#[tactic(auto, using(crate::proofs::Standings::names_none, crate::proofs::Standings::names_bound))]
pub(crate) fn bind(standings: &mut Vec<Vec<HandleState>>, members: &[Member], place: usize)
    ensures { NamesMembers members.now place standings.old.items standings.new.items }
{
    for member in members {
        bind_member(standings, *member, place);
    }
}

/// How many makings the members have of the communicator, at most.
fn longest(views: &[RankView], comm: &Made) -> usize {
    let mut longest = 0;
    for member in &comm.members {
        longest = longest.max(count_of(views, *member));
    }
    longest
}

/// How many calls of a member make communicators of its handle by all its members.
fn count_of(views: &[RankView], member: Member) -> usize {
    match (views.get(member.rank as usize), member.handle) {
        (Some(view), Some(handle)) => match view.makings.get(handle) {
            Some(list) => list.len(),
            None => 0,
        },
        _ => 0,
    }
}

/// The call of a rank that gives a group, at this place of its list.
fn group_call_at(ranks: &[RankCalls], rank: usize, at: usize) -> Option<&GroupCall>
    ensures { option_copied result ≡ group_call_at ranks.now rank at }
{
    match &call_at(ranks, rank, at)?.action {
        Action::Group { group, .. } => Some(group),
        Action::Make { .. }
        | Action::CommRank { .. }
        | Action::Free { .. }
        | Action::Join { .. }
        | Action::Merge { .. }
        | Action::GivesComm { .. }
        | Action::MakeObject { .. }
        | Action::EndObject { .. } => None,
    }
}

/// The communicators that are derived so far, and the intercommunicators.
#[derive(Clone, Copy)]
struct AllMade<'a> {
    comms: &'a [Made],
    inters: &'a [Made],
}

/// The group that a call of a rank gives, by what is known of the calls before it.
#[tactic(auto, using(crate::proofs::Values::given_value))]
fn value_at(
    alloc: Global,
    ranks: &[RankCalls],
    views: &[RankView],
    made: AllMade<'_>,
    standings: &[HandleState],
    values: &[GroupValue],
    rank: usize,
    at: usize,
) -> Result<GroupValue, AllocError>
    requires comms { AreDerived ranks.now views.now made.comms.now }
    requires inters { AreInters ranks.now views.now made.inters.now }
    requires standings { AreMembersIn made.comms.now made.inters.now rank standings.now }
    requires groups { AreDerivedGroups ranks.now views.now made.comms.now rank values.now }
    ensures { IfOk result (IsDerivedGroup ranks.now views.now made.entry.comms.now rank at) }
{
    let Some(group) = group_call_at(ranks, rank, at) else {
        return Ok(GroupValue::Unknown);
    };
    let Some(meant) = meant_at(views, rank, at) else {
        return Ok(GroupValue::Unknown);
    };
    let value = value_of(
        alloc,
        group,
        &meant,
        values,
        standings,
        made.comms,
        made.inters,
    )?;
    Ok(value)
}

/// The groups of a rank that become known.
#[tactic(auto, using(crate::proofs::Values::group_set))]
fn refresh(
    alloc: Global,
    ranks: &[RankCalls],
    views: &[RankView],
    made: AllMade<'_>,
    standings: &[HandleState],
    rank: usize,
    values: &mut Vec<GroupValue>,
) -> Result<(), AllocError>
    requires comms { AreDerived ranks.now views.now made.comms.now }
    requires inters { AreInters ranks.now views.now made.inters.now }
    requires standings { AreMembersIn made.comms.now made.inters.now rank standings.now }
    requires groups { AreDerivedGroups ranks.now views.now made.comms.now rank values.old.items }
    ensures { OnOk result (AreDerivedGroups ranks.now views.now made.entry.comms.now rank values.new.items) }
{
    for at in 0..values.len() {
        if let Some(GroupValue::Waits) = values.get(at) {
            let value = value_at(alloc, ranks, views, made, standings, values, rank, at)?;
            if at < values.len() {
                values[at] = value;
            }
        }
    }
    Ok(())
}

/// The groups of all ranks that become known.
#[tactic(auto, using(crate::proofs::Values::members_in, crate::proofs::Values::groups_at, crate::proofs::Values::groups_set))]
fn refresh_all(
    alloc: Global,
    ranks: &[RankCalls],
    views: &[RankView],
    made: AllMade<'_>,
    standings: &[Vec<HandleState>],
    values: &mut Vec<Vec<GroupValue>>,
) -> Result<(), AllocError>
    requires comms { AreDerived ranks.now views.now made.comms.now }
    requires inters { AreInters ranks.now views.now made.inters.now }
    requires standings { AreMembers made.comms.now standings.now }
    requires sides { AreInterMembers made.inters.now standings.now }
    requires groups { AreAllDerivedGroups ranks.now views.now made.comms.now values.old.items }
    ensures { OnOk result (AreAllDerivedGroups ranks.now views.now made.entry.comms.now values.new.items) }
{
    for rank in 0..values.len() {
        if rank < standings.len() && rank < values.len() {
            refresh(
                alloc,
                ranks,
                views,
                made,
                &standings[rank],
                rank,
                &mut values[rank],
            )?;
        }
    }
    Ok(())
}

impl Run {
    /// The groups of all ranks that become known.
    #[tactic(auto, using(crate::proofs::Right::right_refreshed))]
    pub(crate) fn refresh(
        &mut self,
        alloc: Global,
        ranks: &[RankCalls],
        views: &[RankView],
    ) -> Result<(), AllocError>
        requires { IsRun ranks.now views.now self.old }
        ensures { OnOk result (IsRun ranks.now views.now self.new) }
    {
        let made = AllMade {
            comms: &self.comms,
            inters: &self.inters,
        };
        refresh_all(alloc, ranks, views, made, &self.standings, &mut self.values)
    }

    /// Adds a communicator. Its members' handles name it.
    #[tactic(auto, using(crate::proofs::Right::right_added, crate::proofs::Right::keeps_one))]
    fn add_one(
        &mut self,
        alloc: Global,
        ranks: &[RankCalls],
        views: &[RankView],
        comm: Made,
    ) -> Result<(), AllocError>
        requires right { IsRun ranks.now views.now self.old }
        requires comm { IsDerivedComm ranks.now views.now comm }
        ensures right { OnOk result (IsRun ranks.now views.now self.new) }
        ensures keeps { OnOk result (KeepsComms self.old.comms.items self.new.comms.items) }
    {
        bind(&mut self.standings, &comm.members, self.comms.len());
        self.comms.push(comm)?;
        self.next.push(Progress::At(0))?;
        self.over.push(Vec::new(alloc))?;
        Ok(())
    }

    /// Adds communicators. Their members' handles name them.
    #[tactic(auto, using(crate::proofs::Right::keeps_same, crate::proofs::Right::keeps_on))]
    pub(crate) fn add(
        &mut self,
        alloc: Global,
        ranks: &[RankCalls],
        views: &[RankView],
        made: Vec<Made>,
    ) -> Result<(), AllocError>
        requires right { IsRun ranks.now views.now self.old }
        requires made { AreDerived ranks.now views.now made.items }
        ensures right { OnOk result (IsRun ranks.now views.now self.new) }
        ensures keeps { OnOk result (KeepsComms self.old.comms.items self.new.comms.items) }
    {
        for comm in made {
            self.add_one(alloc, ranks, views, comm)?;
        }
        Ok(())
    }

    /// Takes what the k-th making of a communicator gives: these are its calls.
    #[tactic(auto, using(crate::proofs::Right::right_left, crate::proofs::Right::gained_now, crate::proofs::Right::gained_added))]
    fn take_gained(
        &mut self,
        alloc: Global,
        ranks: &[RankCalls],
        views: &[RankView],
        at: usize,
        k: usize,
        all: &[Option<Here>],
        gained: Gained,
    ) -> Result<Step, AllocError>
        requires right { IsRun ranks.now views.now self.old }
        requires comms { IfComms (AreDerived ranks.now views.now) gained }
        requires read { is_gained gained ≡ true → IsReadTo ranks.now views.now self.old.comms.items at (k + 1) }
        ensures right { OnOk result (IsRun ranks.now views.now self.new) }
        ensures read { IfOk result (λ step. step ≡ steps.Read → IsReadTo ranks.now views.now self.new.comms.items at (k + 1)) }
    {
        match gained {
            Gained::Comms(made) => {
                self.add(alloc, ranks, views, made)?;
                Ok(Step::Read)
            },
            Gained::Untold => {
                leave(&mut self.standings, all, Why::Untold);
                Ok(Step::Read)
            },
            Gained::Unsound => {
                leave(&mut self.standings, all, Why::Unsound);
                Ok(Step::Over)
            },
            Gained::Waits => Ok(Step::Waits),
        }
    }

    /// Reads the k-th making of a communicator, where all before are read. At last no group is waited for.
    #[tactic(auto, using(crate::proofs::Right::right_comm))]
    fn step(
        &mut self,
        alloc: Global,
        ranks: &[RankCalls],
        views: &[RankView],
        at: usize,
        k: usize,
        last: bool,
    ) -> Result<Step, AllocError>
        requires right { IsRun ranks.now views.now self.old }
        requires read { IsReadTo ranks.now views.now self.old.comms.items at k }
        ensures right { OnOk result (IsRun ranks.now views.now self.new) }
        ensures read { IfOk result (λ step. step ≡ steps.Read → IsReadTo ranks.now views.now self.new.comms.items at (k + 1)) }
    {
        let Some(parent) = comm_at(&self.comms, at) else {
            return Ok(Step::Over);
        };
        let all = all_kth(alloc, ranks, views, &parent.members, k)?;
        let made = made_in(alloc, ranks, views, &self.values, &self.comms, parent, &all)?;
        let gained = ended(made, last);
        self.take_gained(alloc, ranks, views, at, k, &all, gained)
    }

    /// What the members made of a communicator from the k-th making on is left out.
    #[tactic(auto, using(crate::proofs::Right::right_left))]
    fn leave_from(
        &mut self,
        alloc: Global,
        ranks: &[RankCalls],
        views: &[RankView],
        at: usize,
        k: usize,
        end: usize,
    ) -> Result<(), AllocError>
        requires { IsRun ranks.now views.now self.old }
        ensures { OnOk result (IsRun ranks.now views.now self.new) }
    {
        let Some(parent) = comm_at(&self.comms, at) else {
            return Ok(());
        };
        let later = Later {
            first: k,
            end,
            merges: false,
        };
        leave_behind(
            alloc,
            ranks,
            views,
            &parent.members,
            later,
            &mut self.standings,
        )
    }

    /// Notes that a making was read: all before the k-th are.
    #[tactic(auto, using(crate::proofs::Right::right_read))]
    fn note_read(&mut self, ranks: &[RankCalls], views: &[RankView], at: usize, k: usize)
        requires right { IsRun ranks.now views.now self.old }
        requires read { IsReadTo ranks.now views.now self.old.comms.items at k }
        ensures right { IsRun ranks.now views.now self.new }
        ensures comms { self.new.comms ≡ self.old.comms }
    {
        self.read = self.read.saturating_add(1);
        if at < self.next.len() {
            self.next[at] = Progress::At(k);
        }
    }

    /// Notes that a making was read behind which nothing more is made of the communicator.
    #[tactic(auto, using(crate::proofs::Right::right_over))]
    fn note_over(&mut self, ranks: &[RankCalls], views: &[RankView], at: usize)
        requires { IsRun ranks.now views.now self.old }
        ensures { IsRun ranks.now views.now self.new }
    {
        self.read = self.read.saturating_add(1);
        if at < self.next.len() {
            self.next[at] = Progress::Over;
        }
    }

    /// The first making of a communicator that is not read, unless nothing more is made of it.
    fn unread(&self, at: usize) -> Option<usize>
        ensures { IfSome result (λ k. slice_get self.now.next.items at ≡ Some (progress.At k)) }
    {
        match self.next.get(at).copied()? {
            Progress::At(next) => Some(next),
            Progress::Over => None,
        }
    }

    /// How many makings the members of a communicator have of it, at most.
    fn making_count(&self, views: &[RankView], at: usize) -> usize {
        match self.comms.get(at) {
            Some(comm) => longest(views, comm),
            None => 0,
        }
    }

    /// Reads the makings of a communicator, as far as they don't wait. Says whether one does.
    #[tactic(auto, using(crate::proofs::Right::reads_at))]
    pub(crate) fn advance(
        &mut self,
        alloc: Global,
        ranks: &[RankCalls],
        views: &[RankView],
        at: usize,
        last: bool,
    ) -> Result<bool, AllocError>
        requires { IsRun ranks.now views.now self.old }
        ensures { OnOk result (IsRun ranks.now views.now self.new) }
    {
        let Some(first) = self.unread(at) else {
            return Ok(false);
        };
        let end = self.making_count(views, at);
        for k in first..end {
            match self.step(alloc, ranks, views, at, k, last)? {
                Step::Waits => return Ok(true),
                Step::Read => self.note_read(ranks, views, at, k + 1),
                Step::Over => {
                    self.leave_from(alloc, ranks, views, at, k + 1, end)?;
                    self.note_over(ranks, views, at);
                    return Ok(false);
                },
            }
        }
        Ok(false)
    }

    /// Notes which calls of MPI_Comm_create_group are read, and what they leave out.
    #[tactic(auto, using(crate::proofs::Right::right_left))]
    fn note_calls(
        &mut self,
        ranks: &[RankCalls],
        views: &[RankView],
        at: usize,
        read: &[(u32, usize)],
        left: &[(u32, usize)],
        over: Vec<Over>,
    ) -> Result<(), AllocError>
        requires { IsRun ranks.now views.now self.old }
        ensures { OnOk result (IsRun ranks.now views.now self.new) }
    {
        self.read = self.read.saturating_add(read.len() as u64);
        mark_all(&mut self.taken, read);
        leave_handles(&mut self.standings, left);
        extend_at(&mut self.over, at, over)
    }

    /// Takes what was found in the calls of MPI_Comm_create_group on a communicator.
    fn take(
        &mut self,
        alloc: Global,
        ranks: &[RankCalls],
        views: &[RankView],
        at: usize,
        found: Found,
    ) -> Result<(), AllocError>
        requires right { IsRun ranks.now views.now self.old }
        requires found { AreDerived ranks.now views.now found.made.items }
        ensures { OnOk result (IsRun ranks.now views.now self.new) }
    {
        let Found {
            made,
            over,
            read,
            left,
            ..
        } = found;
        self.note_calls(ranks, views, at, &read, &left, over)?;
        self.add(alloc, ranks, views, made)
    }

    /// Reads the calls of MPI_Comm_create_group on a communicator, as far as they don't wait. Says whether one does.
    fn advance_groups(
        &mut self,
        alloc: Global,
        ranks: &[RankCalls],
        views: &[RankView],
        at: usize,
        last: bool,
    ) -> Result<bool, AllocError>
        requires { IsRun ranks.now views.now self.old }
        ensures { OnOk result (IsRun ranks.now views.now self.new) }
    {
        let found = found_at(alloc, ranks, views, self, at, last)?;
        let waits = found.waits;
        self.take(alloc, ranks, views, at, found)?;
        Ok(waits)
    }

    /// Reads the makings of these communicators, as far as they don't wait. Gives those of which one does.
    fn advance_all(
        &mut self,
        alloc: Global,
        ranks: &[RankCalls],
        views: &[RankView],
        todo: &[usize],
        last: bool,
    ) -> Result<Vec<usize>, AllocError>
        requires { IsRun ranks.now views.now self.old }
        ensures { OnOk result (IsRun ranks.now views.now self.new) }
    {
        let mut waiting = Vec::new(alloc);
        for at in todo {
            let waits = self.advance(alloc, ranks, views, *at, last)?;
            let groups_wait = self.advance_groups(alloc, ranks, views, *at, last)?;
            if waits || groups_wait {
                waiting.push(*at)?;
            }
        }
        Ok(waiting)
    }

    /// One round: what was made last, and what waits. Gives what is to be read next.
    fn round(
        &mut self,
        alloc: Global,
        ranks: &[RankCalls],
        views: &[RankView],
        todo: &[usize],
        last: bool,
    ) -> Result<Vec<usize>, AllocError>
        requires { IsRun ranks.now views.now self.old }
        ensures { OnOk result (IsRun ranks.now views.now self.new) }
    {
        self.refresh(alloc, ranks, views)?;
        let known = self.comms.len();
        let mut next = self.advance_all(alloc, ranks, views, todo, last)?;
        self.advance_joins(alloc, ranks, views)?;
        for at in known..self.comms.len() {
            next.push(at)?;
        }
        Ok(next)
    }

    /// Derives all that can be: each round but the last two reads some call, or passes over one.
    fn derive_all(
        &mut self,
        alloc: Global,
        ranks: &[RankCalls],
        views: &[RankView],
    ) -> Result<(), AllocError>
        requires { IsRun ranks.now views.now self.old }
        ensures { OnOk result (IsRun ranks.now views.now self.new) }
    {
        let mut todo = places_to(alloc, self.comms.len())?;
        let mut last = false;
        for _ in 0..call_count(ranks).saturating_add(2) {
            let read = self.read;
            todo = self.round(alloc, ranks, views, &todo, last)?;
            if self.read != read {
                continue;
            }
            if self.pass_over(ranks, views) {
                continue;
            }
            if last {
                return Ok(());
            }
            last = true;
        }
        Ok(())
    }
}

/// What a call of MPI_Intercomm_create is that is read.
enum Reading {
    Read,
    Waits,
    /// The later ones of its rank are no offers.
    Over,
}

/// The place of the i-th call of a rank that joins two groups.
fn join_at(views: &[RankView], rank: u32, i: usize) -> Option<usize> {
    views.get(rank as usize)?.all_joins.get(i).copied()
}

/// Of each rank the next of these calls, behind the one that waits.
fn pass_each(joining: &mut Vec<(u32, usize)>) {
    for i in 0..joining.len() {
        if let Some(waiting) = joining.get_mut(i) {
            waiting.1 = waiting.1.saturating_add(1);
        }
    }
}

/// How many calls of a rank join two groups.
fn joins_in(views: &[RankView], rank: u32) -> usize {
    match views.get(rank as usize) {
        Some(view) => view.all_joins.len(),
        None => 0,
    }
}

/// The member's handle names the intercommunicator at this place, of whose groups it is in the second or in the first.
#[tactic(auto, using(crate::proofs::Sides::binds_inter_set, crate::proofs::Sides::binds_inter_none))]
fn bind_side(standings: &mut Vec<Vec<HandleState>>, member: Member, place: usize, second: bool)
    ensures { BindsInter member place second standings.old.items standings.new.items }
{
    if let Some(handle) = member.handle {
        set(
            standings,
            member.rank,
            handle,
            HandleState::Inter { place, second },
        );
    }
}

/// The members' handles name the intercommunicator at this place, of whose first group the first so many are.
fn bind_inter(standings: &mut Vec<Vec<HandleState>>, members: &[Member], size: usize, place: usize)
    ensures { NamesInter members.now size place standings.old.items standings.new.items }
{
    for (at, member) in members.iter().enumerate() {
        bind_side(standings, *member, place, at >= size);
    }
}

impl Run {
    /// Adds an intercommunicator. Its members' handles name it.
    #[tactic(auto, using(crate::proofs::Sides::right_joined))]
    fn add_inter(
        &mut self,
        ranks: &[RankCalls],
        views: &[RankView],
        inter: Made,
    ) -> Result<(), AllocError>
        requires right { IsRun ranks.now views.now self.old }
        requires inter { IsDerivedInter ranks.now views.now inter }
        ensures { OnOk result (IsRun ranks.now views.now self.new) }
    {
        let size = first_size(&inter);
        bind_inter(&mut self.standings, &inter.members, size, self.inters.len());
        self.inters.push(inter)?;
        Ok(())
    }

    /// Takes what calls of an intercommunicator's members make of it. Says whether more may be made so.
    #[tactic(auto, using(crate::proofs::Right::right_left, crate::proofs::Sides::inter_made, crate::proofs::Sides::comm_made))]
    fn take_of_inter(
        &mut self,
        alloc: Global,
        ranks: &[RankCalls],
        views: &[RankView],
        all: &[Option<Here>],
        made: OfInter,
    ) -> Result<bool, AllocError>
        requires right { IsRun ranks.now views.now self.old }
        requires made { MakesOfInter ranks.now views.now made }
        ensures { OnOk result (IsRun ranks.now views.now self.new) }
    {
        match made {
            OfInter::Inter(inter) => {
                self.add_inter(ranks, views, inter)?;
                Ok(true)
            },
            OfInter::Comm(comm) => {
                self.add_one(alloc, ranks, views, comm)?;
                Ok(true)
            },
            OfInter::Untold => {
                leave(&mut self.standings, all, Why::Untold);
                Ok(true)
            },
            OfInter::Unsound => {
                leave(&mut self.standings, all, Why::Unsound);
                Ok(false)
            },
        }
    }

    /// Reads the k-th of the calls that make communicators of an intercommunicator. Says whether more may be made so.
    fn copy_kth(
        &mut self,
        alloc: Global,
        ranks: &[RankCalls],
        views: &[RankView],
        at: usize,
        k: usize,
    ) -> Result<bool, AllocError>
        requires { IsRun ranks.now views.now self.old }
        ensures { OnOk result (IsRun ranks.now views.now self.new) }
    {
        let Some(inter) = comm_at(&self.inters, at) else {
            return Ok(false);
        };
        let all = all_kth(alloc, ranks, views, &inter.members, k)?;
        let made = copied_of(alloc, ranks, views, inter, k)?;
        self.take_of_inter(alloc, ranks, views, &all, made)
    }

    /// Reads the k-th of the calls that merge the groups of an intercommunicator. Says whether more may be made so.
    fn merge_kth(
        &mut self,
        alloc: Global,
        ranks: &[RankCalls],
        views: &[RankView],
        at: usize,
        k: usize,
    ) -> Result<bool, AllocError>
        requires { IsRun ranks.now views.now self.old }
        ensures { OnOk result (IsRun ranks.now views.now self.new) }
    {
        let Some(inter) = comm_at(&self.inters, at) else {
            return Ok(false);
        };
        let all = own_calls(alloc, ranks, views, &inter.members, k, true)?;
        let made = merged_of(alloc, ranks, views, inter, k)?;
        self.take_of_inter(alloc, ranks, views, &all, made)
    }

    /// What the members make or merge later of an intercommunicator is left out.
    #[tactic(auto, using(crate::proofs::Right::right_left))]
    fn leave_of_inter(
        &mut self,
        alloc: Global,
        ranks: &[RankCalls],
        views: &[RankView],
        at: usize,
        later: Later,
    ) -> Result<(), AllocError>
        requires { IsRun ranks.now views.now self.old }
        ensures { OnOk result (IsRun ranks.now views.now self.new) }
    {
        let Some(inter) = comm_at(&self.inters, at) else {
            return Ok(());
        };
        leave_behind(
            alloc,
            ranks,
            views,
            &inter.members,
            later,
            &mut self.standings,
        )
    }

    /// Reads what is made of an intercommunicator, up to the first making that is unsound.
    fn read_copies(
        &mut self,
        alloc: Global,
        ranks: &[RankCalls],
        views: &[RankView],
        at: usize,
    ) -> Result<(), AllocError>
        requires { IsRun ranks.now views.now self.old }
        ensures { OnOk result (IsRun ranks.now views.now self.new) }
    {
        let end = match self.inters.get(at) {
            Some(inter) => longest(views, inter),
            None => 0,
        };
        for k in 0..end {
            if !self.copy_kth(alloc, ranks, views, at, k)? {
                let later = Later {
                    first: k + 1,
                    end,
                    merges: false,
                };
                return self.leave_of_inter(alloc, ranks, views, at, later);
            }
        }
        Ok(())
    }

    /// Reads the merges of an intercommunicator, up to the first that is unsound.
    fn read_merges(
        &mut self,
        alloc: Global,
        ranks: &[RankCalls],
        views: &[RankView],
        at: usize,
    ) -> Result<(), AllocError>
        requires { IsRun ranks.now views.now self.old }
        ensures { OnOk result (IsRun ranks.now views.now self.new) }
    {
        let end = match self.inters.get(at) {
            Some(inter) => most_merges(views, inter),
            None => 0,
        };
        for k in 0..end {
            if !self.merge_kth(alloc, ranks, views, at, k)? {
                let later = Later {
                    first: k + 1,
                    end,
                    merges: true,
                };
                return self.leave_of_inter(alloc, ranks, views, at, later);
            }
        }
        Ok(())
    }

    /// Reads what is made of the intercommunicators from this one on, those among them that are made of another.
    fn read_inters(
        &mut self,
        alloc: Global,
        ranks: &[RankCalls],
        views: &[RankView],
        first: usize,
    ) -> Result<(), AllocError>
        requires { IsRun ranks.now views.now self.old }
        ensures { OnOk result (IsRun ranks.now views.now self.new) }
    {
        for at in first..usize::MAX {
            if at >= self.inters.len() {
                return Ok(());
            }
            self.read_copies(alloc, ranks, views, at)?;
            self.read_merges(alloc, ranks, views, at)?;
        }
        Ok(())
    }

    /// Joins the groups of two offers that answer each other, of which the first is of the smaller rank.
    #[tactic(auto, using(crate::proofs::Right::right_left))]
    fn join_two(
        &mut self,
        alloc: Global,
        ranks: &[RankCalls],
        views: &[RankView],
        one: Offer,
        other: Offer,
    ) -> Result<(), AllocError>
        requires right { IsRun ranks.now views.now self.old }
        requires one { IsOffer ranks.now views.now self.old.standings.items self.old.comms.items one }
        requires other { IsOffer ranks.now views.now self.old.standings.items self.old.comms.items other }
        requires answer { Answer one other }
        ensures { OnOk result (IsRun ranks.now views.now self.new) }
    {
        let first = self.inters.len();
        match join_groups(
            alloc,
            ranks,
            views,
            &self.standings,
            &self.comms,
            one,
            other,
        )? {
            Joined::Inter(inter) => {
                self.add_inter(ranks, views, inter)?;
                self.read_inters(alloc, ranks, views, first)
            },
            Joined::Left(all) => {
                leave(&mut self.standings, &all, Why::Unsound);
                Ok(())
            },
        }
    }

    /// Joins the groups of two offers, of which the second was kept, where they still answer each other.
    #[tactic(auto, using(crate::proofs::Sides::answer_back))]
    fn join(
        &mut self,
        alloc: Global,
        ranks: &[RankCalls],
        views: &[RankView],
        offer: Offer,
        kept: Offer,
    ) -> Result<(), AllocError>
        requires right { IsRun ranks.now views.now self.old }
        requires offer { IsOffer ranks.now views.now self.old.standings.items self.old.comms.items offer }
        requires kept { IsOffer ranks.now views.now self.old.standings.items self.old.comms.items kept }
        ensures { OnOk result (IsRun ranks.now views.now self.new) }
    {
        if !answer(offer, kept) {
            return Ok(());
        }
        if offer.rank < kept.rank {
            self.join_two(alloc, ranks, views, offer, kept)
        } else {
            self.join_two(alloc, ranks, views, kept, offer)
        }
    }

    /// Takes an offer: it answers one that is kept, or is kept itself.
    fn take_offer(
        &mut self,
        alloc: Global,
        ranks: &[RankCalls],
        views: &[RankView],
        offer: Offer,
    ) -> Result<(), AllocError>
        requires right { IsRun ranks.now views.now self.old }
        requires offer { IsOffer ranks.now views.now self.old.standings.items self.old.comms.items offer }
        ensures { OnOk result (IsRun ranks.now views.now self.new) }
    {
        let Some((rank, at)) = answered(alloc, &mut self.open, offer)? else {
            return Ok(());
        };
        match offer_at(ranks, views, &self.standings, &self.comms, rank, at) {
            Offered::Offers(kept) => self.join(alloc, ranks, views, offer, kept),
            Offered::Nothing | Offered::Waits | Offered::Unknown => Ok(()),
        }
    }

    /// Reads a call of MPI_Intercomm_create, and says what it is.
    fn read_join(
        &mut self,
        alloc: Global,
        ranks: &[RankCalls],
        views: &[RankView],
        rank: u32,
        at: usize,
    ) -> Result<Reading, AllocError>
        requires { IsRun ranks.now views.now self.old }
        ensures { OnOk result (IsRun ranks.now views.now self.new) }
    {
        match offer_at(ranks, views, &self.standings, &self.comms, rank, at) {
            Offered::Offers(offer) => {
                self.take_offer(alloc, ranks, views, offer)?;
                Ok(Reading::Read)
            },
            Offered::Nothing => Ok(Reading::Read),
            Offered::Waits => Ok(Reading::Waits),
            Offered::Unknown => Ok(Reading::Over),
        }
    }

    /// Reads the calls of a rank that join two groups, from this one on, as far as they don't wait. Gives the number of
    /// one that waits.
    fn read_joins(
        &mut self,
        alloc: Global,
        ranks: &[RankCalls],
        views: &[RankView],
        rank: u32,
        first: usize,
    ) -> Result<Option<usize>, AllocError>
        requires { IsRun ranks.now views.now self.old }
        ensures { OnOk result (IsRun ranks.now views.now self.new) }
    {
        for i in first..joins_in(views, rank) {
            let Some(at) = join_at(views, rank, i) else {
                return Ok(None);
            };
            match self.read_join(alloc, ranks, views, rank, at)? {
                Reading::Waits => return Ok(Some(i)),
                Reading::Over => return Ok(None),
                Reading::Read => self.read = self.read.saturating_add(1),
            }
        }
        Ok(None)
    }

    /// Passes over the calls that join two groups and wait: nothing more derives of which one of their communicators is.
    /// Says whether there were some.
    fn pass_over(&mut self, ranks: &[RankCalls], views: &[RankView]) -> bool
        requires { IsRun ranks.now views.now self.old }
        ensures { IsRun ranks.now views.now self.new }
    {
        let count = self.joining.len();
        pass_each(&mut self.joining);
        self.read = self.read.saturating_add(count as u64);
        count > 0
    }

    /// Reads the calls that join two groups, as far as they don't wait: each of a rank behind those before it.
    fn advance_joins(
        &mut self,
        alloc: Global,
        ranks: &[RankCalls],
        views: &[RankView],
    ) -> Result<(), AllocError>
        requires { IsRun ranks.now views.now self.old }
        ensures { OnOk result (IsRun ranks.now views.now self.new) }
    {
        let mut waiting = Vec::new(alloc);
        for i in 0..self.joining.len() {
            let Some((rank, first)) = self.joining.get(i).copied() else {
                return Ok(());
            };
            if let Some(next) = self.read_joins(alloc, ranks, views, rank, first)? {
                waiting.push((rank, next))?;
            }
        }
        self.joining = waiting;
        Ok(())
    }
}

/// The places of so many communicators.
fn places_to(alloc: Global, count: usize) -> Result<Vec<usize>, AllocError> {
    let mut places = Vec::new(alloc);
    for place in 0..count {
        places.push(place)?;
    }
    Ok(places)
}

/// Marks a call as read.
fn mark(taken: &mut Vec<Vec<bool>>, rank: u32, at: usize) {
    if let Some(taken) = taken.get_mut(rank as usize) {
        if let Some(read) = taken.get_mut(at) {
            *read = true;
        }
    }
}

/// Adds to the list at this place.
fn extend_at(lists: &mut Vec<Vec<Over>>, at: usize, more: Vec<Over>) -> Result<(), AllocError> {
    let mut more = more;
    if let Some(list) = lists.get_mut(at) {
        list.append(&mut more)?;
    }
    Ok(())
}

/// Marks these calls as read, each by its rank and its place in the rank's list.
fn mark_all(taken: &mut Vec<Vec<bool>>, read: &[(u32, usize)]) {
    for (rank, at) in read {
        mark(taken, *rank, *at);
    }
}

/// These handles are left out: the calls that give them are unsound.
#[tactic(auto, using(crate::proofs::Standings::keeps_all, crate::proofs::Standings::keeps_more))]
fn leave_handles(standings: &mut Vec<Vec<HandleState>>, left: &[(u32, usize)])
    ensures { KeepsDerived standings.old.items standings.new.items }
{
    for (rank, handle) in left {
        leave_one(standings, *rank, *handle, Why::Unsound);
    }
}

/// Whether the call gives a group.
fn is_group(call: &CommCall) -> bool {
    match &call.action {
        Action::Group { .. } => true,
        _ => false,
    }
}

/// What the calls of a rank give before anything is derived: those that give groups wait, and the others give none.
#[tactic(auto, using(crate::proofs::Right::listed_none, crate::proofs::Right::listed_more))]
fn first_values(alloc: Global, calls: &[CommCall]) -> Result<Vec<GroupValue>, AllocError>
    ensures { IfOk result (λ v. NoneListed v.items) }
{
    let mut values = Vec::new(alloc);
    for call in calls {
        if is_group(call) {
            values.push(GroupValue::Waits)?;
        } else {
            values.push(GroupValue::Unknown)?;
        }
    }
    Ok(values)
}

/// Each rank has the world as its first handle.
fn world_members(alloc: Global, ranks: u32) -> Result<Vec<Member>, AllocError>
    ensures { IfOk result (λ v. v.items ≡ world_members ranks) }
{
    let mut members = Vec::new(alloc);
    for rank in 0..ranks {
        members.push(Member {
            rank,
            handle: Some(0),
        })?;
    }
    Ok(members)
}

/// The world.
fn world_of(alloc: Global, ranks: u32) -> Result<Made, AllocError>
    ensures { IfOk result (IsFirstComm (world_members ranks) world_order) }
{
    let members = world_members(alloc, ranks)?;
    Ok(Made {
        object: Object::Communicator,
        ranks: ranks_of(alloc, &members)?,
        members,
        remote_size: 0,
        dims: None,
        order: Order {
            class: 0,
            call: 0,
            rank: 0,
        },
    })
}

/// MPI_COMM_SELF of a rank, its second handle.
fn own_of(alloc: Global, rank: u32) -> Result<Made, AllocError>
    ensures { IfOk result (IsFirstComm (member_with 1 rank ∷ []) (own_order rank)) }
{
    Ok(Made {
        object: Object::Communicator,
        members: vec![in alloc;
            Member {
                rank,
                handle: Some(1)
            },
        ]?,
        ranks: vec![in alloc; rank]?,
        remote_size: 0,
        dims: None,
        order: Order {
            class: 1,
            call: 0,
            rank,
        },
    })
}

/// Adds the world, and MPI_COMM_SELF of each rank that tells its number, where nothing is derived yet.
fn add_first(
    alloc: Global,
    ranks: &[RankCalls],
    views: &[RankView],
    comms: &mut Vec<Made>,
) -> Result<(), AllocError>
    requires few { length ranks.now < 2 ^ 32 }
    requires none { comms.old.items ≡ [] }
    ensures { OnOk result (AreDerived ranks.now views.now comms.new.items) }
{
    comms.push(world_of(alloc, ranks.len() as u32)?)?;
    let mut rank = 0u32;
    for calls in ranks {
        if calls.own.is_some() {
            comms.push(own_of(alloc, rank)?)?;
        }
        rank += 1;
    }
    Ok(())
}

/// The world, and MPI_COMM_SELF of each rank that tells its number.
fn first_comms(
    alloc: Global,
    ranks: &[RankCalls],
    views: &[RankView],
) -> Result<Vec<Made>, AllocError>
    requires { length ranks.now < 2 ^ 32 }
    ensures { IfOk result (λ comms. AreDerived ranks.now views.now comms.items) }
{
    let mut comms = Vec::new(alloc);
    add_first(alloc, ranks, views, &mut comms)?;
    Ok(comms)
}

/// The handle that the call at this place gives.
fn handle_at(meant: &[Meant], at: usize) -> Option<usize> {
    match meant.get(at)?.gives {
        Gives::Handle(handle) => Some(handle),
        Gives::Nothing | Gives::Null | Gives::Taken(_) | Gives::Unknown => None,
    }
}

/// A function that gives communicators from which nothing is derived leaves its handle out.
#[tactic(auto, using(crate::proofs::Right::stands_set))]
fn leave_others(calls: &[CommCall], meant: &[Meant], standings: &mut Vec<HandleState>)
    requires { NoneStands standings.old.items }
    ensures { NoneStands standings.new.items }
{
    for (at, call) in calls.iter().enumerate() {
        if let Action::GivesComm { .. } = &call.action {
            if let Some(handle) = handle_at(meant, at) {
                set_in(standings, handle, HandleState::Left(Why::Function));
            }
        }
    }
}

/// How a rank's handles stand before anything is derived: open, but for those of functions from which nothing is
/// derived.
#[tactic(auto, using(crate::proofs::Right::stands_open))]
fn first_standings(
    alloc: Global,
    calls: &[CommCall],
    view: &RankView,
) -> Result<Vec<HandleState>, AllocError>
    ensures { IfOk result (λ v. NoneStands v.items) }
{
    let mut standings = vec![in alloc; HandleState::Open; view.handles.len()]?;
    leave_others(calls, &view.meant, &mut standings);
    Ok(standings)
}

/// A rank before anything is derived.
#[tactic(auto, using(crate::proofs::Right::stands_more, crate::proofs::Right::all_listed_more))]
fn begin(alloc: Global, calls: &RankCalls, view: &RankView, run: &mut Run) -> Result<(), AllocError>
    requires standings { NoneStandsAt run.old.standings.items }
    requires values { NoneListedAt run.old.values.items }
    ensures standings { OnOk result (NoneStandsAt run.new.standings.items) }
    ensures values { OnOk result (NoneListedAt run.new.values.items) }
    ensures comms { run.new.comms ≡ run.old.comms }
    ensures next { run.new.next ≡ run.old.next }
    ensures inters { run.new.inters ≡ run.old.inters }
{
    run.standings
        .push(first_standings(alloc, &calls.calls, view)?)?;
    run.values.push(first_values(alloc, &calls.calls)?)?;
    run.taken.push(vec![in alloc; false; calls.calls.len()]?)?;
    Ok(())
}

/// All ranks before anything is derived.
fn begin_ranks(
    alloc: Global,
    ranks: &[RankCalls],
    views: &[RankView],
    run: &mut Run,
) -> Result<(), AllocError>
    requires standings { NoneStandsAt run.old.standings.items }
    requires values { NoneListedAt run.old.values.items }
    ensures standings { OnOk result (NoneStandsAt run.new.standings.items) }
    ensures values { OnOk result (NoneListedAt run.new.values.items) }
    ensures comms { OnOk result (run.new.comms ≡ run.old.comms) }
    ensures next { OnOk result (run.new.next ≡ run.old.next) }
    ensures inters { OnOk result (run.new.inters ≡ run.old.inters) }
{
    for (at, calls) in ranks.iter().enumerate() {
        if let Some(view) = views.get(at) {
            begin(alloc, calls, view, run)?;
        }
    }
    Ok(())
}

/// The ranks that have calls of MPI_Intercomm_create, none of which is read.
fn joining_of(
    alloc: Global,
    ranks: &[RankCalls],
    views: &[RankView],
) -> Result<Vec<(u32, usize)>, AllocError>
    requires { length ranks.now < 2 ^ 32 }
{
    let mut joining = Vec::new(alloc);
    for rank in 0..ranks.len() as u32 {
        if joins_in(views, rank) > 0 {
            joining.push((rank, 0))?;
        }
    }
    Ok(joining)
}

/// Nothing is derived yet.
#[tactic(auto, using(crate::proofs::Right::stands_none, crate::proofs::Right::all_listed_none))]
fn begin_all(alloc: Global, ranks: &[RankCalls], views: &[RankView]) -> Result<Run, AllocError>
    requires { length ranks.now < 2 ^ 32 }
    ensures standings { IfOk result (λ run. NoneStandsAt run.standings.items) }
    ensures values { IfOk result (λ run. NoneListedAt run.values.items) }
    ensures comms { IfOk result (λ run. run.comms.items ≡ []) }
    ensures next { IfOk result (λ run. run.next.items ≡ []) }
    ensures inters { IfOk result (λ run. run.inters.items ≡ []) }
{
    let mut run = Run {
        standings: Vec::new(alloc),
        values: Vec::new(alloc),
        comms: Vec::new(alloc),
        inters: Vec::new(alloc),
        joining: joining_of(alloc, ranks, views)?,
        open: OpenOffers::new(alloc),
        next: Vec::new(alloc),
        taken: Vec::new(alloc),
        over: Vec::new(alloc),
        read: 0,
    };
    begin_ranks(alloc, ranks, views, &mut run)?;
    Ok(run)
}

/// The world and MPI_COMM_SELF are derived.
#[tactic(auto, using(crate::proofs::Right::right_first))]
fn start(alloc: Global, ranks: &[RankCalls], views: &[RankView]) -> Result<Run, AllocError>
    requires { length ranks.now < 2 ^ 32 }
    ensures { IfOk result (IsRun ranks.now views.now) }
{
    let mut run = begin_all(alloc, ranks, views)?;
    run.add(alloc, ranks, views, first_comms(alloc, ranks, views)?)?;
    Ok(run)
}

/// How many calls there are.
fn call_count(ranks: &[RankCalls]) -> usize {
    let mut count = 0usize;
    for rank in ranks {
        count = count.saturating_add(rank.calls.len());
    }
    count
}

/// Derives all that can be.
pub(crate) fn run_of(
    alloc: Global,
    ranks: &[RankCalls],
    views: &[RankView],
) -> Result<Run, AllocError>
    requires { length ranks.now < 2 ^ 32 }
    ensures { IfOk result (IsRun ranks.now views.now) }
{
    let mut run = start(alloc, ranks, views)?;
    run.derive_all(alloc, ranks, views)?;
    Ok(run)
}

/// What became of a making.
enum Step {
    Read,
    /// Nothing more is made of its parent.
    Over,
    Waits,
}

/// The communicators of the parts.
#[tactic(auto, using(crate::proofs::Derivations::made_none, crate::proofs::Derivations::made_more))]
fn all_made(
    alloc: Global,
    members: &[Member],
    all: &[Option<Here>],
    parts: &[Part],
) -> Result<Vec<Made>, AllocError>
    ensures { IfOk result (λ made. AreMadeOf members.now all.now parts.now made.items) }
{
    let mut made = Vec::new(alloc);
    for part in parts {
        made.push(made_of(alloc, members, all, part)?)?;
    }
    Ok(made)
}

/// What the calls of a making give.
#[derive(Drop)]
enum Gained {
    Comms(Vec<Made>),
    Untold,
    Unsound,
    Waits,
}

/// What is gained, where at last a making that waits is unsound.
fn ended(gained: Gained, last: bool) -> Gained
    ensures { IsEnded gained result }
{
    match gained {
        Gained::Waits => { if last { Gained::Unsound } else { Gained::Waits } },
        Gained::Comms(made) => Gained::Comms(made),
        Gained::Untold => Gained::Untold,
        Gained::Unsound => Gained::Unsound,
    }
}

/// The communicators that the k-th calls of a parent's members make.
#[tactic(auto, using(crate::proofs::Derivations::gained_comms, crate::proofs::Derivations::gained_untold, crate::proofs::Derivations::gained_unsound, crate::proofs::Derivations::gained_waits))]
fn made_in(
    alloc: Global,
    ranks: &[RankCalls],
    views: &[RankView],
    values: &[Vec<GroupValue>],
    comms: &[Made],
    parent: &Made,
    all: &[Option<Here>],
) -> Result<Gained, AllocError>
    requires parent { IsDerivedComm ranks.now views.now parent.now }
    requires groups { AreAllDerivedGroups ranks.now views.now comms.now values.now }
    ensures { IfOk result (IsOfDerived ranks.now views.now parent.now.members.items (dims_of parent.now) all.now) }
{
    match outcome_in(alloc, ranks, views, values, comms, parent, all)? {
        Outcome::Parts(parts) => Ok(Gained::Comms(all_made(alloc, &parent.members, all, &parts)?)),
        Outcome::Untold => Ok(Gained::Untold),
        Outcome::Unsound => Ok(Gained::Unsound),
        Outcome::Waits => Ok(Gained::Waits),
    }
}
