//! What the numbers in a rank's calls mean.

ghost use Rattle.std.specs.Prelude.{◌≡◌, ◌++◌, ◌∷◌, [], IfOk, None, OnOk, Some, false, length, nat_eq, true};
ghost use Rattle.std.specs.Option.{option_and_then};
ghost use Rattle.indexmap.specs.IndexMap.{get};
ghost use Rattle.comm_makings.specs.Naming.{AreNamed, after_group, comm_of_group, first_handles, first_naming, first_of_group, gives_as, group_of_making, handles_of, meant_by, meant_from, meant_in, meant_of, naming_after, naming_from, naming_of, second_of_group, taken_by, with_given, with_number, without_number};
ghost use Rattle.comm_makings.specs.declared.calls.Action.TheVariants as actions;
ghost use Rattle.comm_makings.specs.declared.calls.Given.TheVariants as givens;
ghost use Rattle.comm_makings.specs.declared.handle.GroupAt.TheVariants as groups;
ghost use Rattle.comm_makings.specs.Names.{always, from_next, group_at, handles_ended};

use crate::calls::{Action, CommCall, Given, GroupCall, GroupName, Leaders, Making, RankCalls};
use crate::handle::{Gives, GroupAt, Handle, Meant};
use indexmap::IndexMap;
use std::alloc::{AllocError, Global};

/// What a rank's numbers mean between two of its calls.
#[derive(Drop)]
pub(crate) struct Names {
    world: u32,
    own: Option<u32>,
    /// All handles that were given so far.
    handles: Vec<Handle>,
    /// The handle that each number names now.
    comms: IndexMap<u32, usize>,
    /// The call that gave each group that a number names now.
    groups: IndexMap<u32, usize>,
}

/// A number over all calls of a rank.
pub(crate) fn always(number: u32) -> Handle
    ensures { result ≡ always number }
{
    Handle {
        number,
        first: 0,
        end: None,
    }
}

/// The handle at a place ends before a call.
fn end_at(handles: &mut Vec<Handle>, place: usize, call: u64)
    ensures { handles.new.items ≡ handles_ended false call (Some place) handles.old.items }
{
    if place < handles.len() {
        handles[place].end = Some(call);
    }
}

/// The handles before the first call: the world's, and that of MPI_COMM_SELF where the rank tells its number.
fn first_handles(alloc: Global, world: u32, own: Option<u32>) -> Result<Vec<Handle>, AllocError>
    ensures { IfOk result (λ handles. handles.items ≡ first_handles world own) }
{
    let mut handles = Vec::new(alloc);
    handles.push(always(world))?;
    if let Some(number) = own {
        handles.push(always(number))?;
    }
    Ok(handles)
}

/// Which of them the numbers name: where both have one number, it names the world.
fn first_comms(
    alloc: Global,
    world: u32,
    own: Option<u32>,
) -> Result<IndexMap<u32, usize>, AllocError>
    ensures { IfOk result (λ comms. AreNamed comms (first_naming world own).comms) }
{
    let mut comms = IndexMap::new(alloc);
    match name_first(&mut comms, world, own) {
        Ok(()) => Ok(comms),
        Err(fault) => {
            drop(comms);
            Err(fault)
        },
    }
}

/// Names them, where nothing is named yet.
fn name_first(
    comms: &mut IndexMap<u32, usize>,
    world: u32,
    own: Option<u32>,
) -> Result<(), AllocError>
    requires { AreNamed comms.old (λ m. None) }
    ensures { OnOk result (AreNamed comms.new (first_naming world own).comms) }
{
    if let Some(number) = own {
        comms.insert(number, 1)?;
    }
    comms.insert(world, 0)?;
    Ok(())
}

impl Names {
    /// Before the first call: the world, and MPI_COMM_SELF where the rank tells its number.
    pub(crate) fn new(alloc: Global, world: u32, own: Option<u32>) -> Result<Names, AllocError>
        ensures naming { IfOk result (λ names. naming_of names ≡ first_naming world own) }
        ensures world { IfOk result (λ names. names.world ≡ world) }
        ensures own { IfOk result (λ names. names.own ≡ own) }
    {
        Ok(Names {
            world,
            own,
            handles: first_handles(alloc, world, own)?,
            comms: first_comms(alloc, world, own)?,
            groups: IndexMap::new(alloc),
        })
    }

    /// All handles that were given.
    fn into_handles(self) -> Vec<Handle>
        ensures { result.items ≡ self.handles.items }
    {
        let Names {
            handles,
            comms,
            groups,
            ..
        } = self;
        drop(comms);
        drop(groups);
        handles
    }

    /// Whether it is the number of the world or of MPI_COMM_SELF.
    fn is_taken(&self, number: u32) -> bool
        ensures { result ≡ taken_by self.now number }
    {
        if number == self.world {
            return true;
        }
        match self.own {
            Some(own) => number == own,
            None => false,
        }
    }

    /// The handle that the number names now.
    fn comm(&self, number: Option<u32>) -> Option<usize>
        ensures { result ≡ option_and_then (get nat_eq self.now.comms) number }
    {
        self.comms.get(&number?).copied()
    }

    /// The group that the name means now.
    fn group(&self, name: GroupName) -> GroupAt
        ensures { result ≡ group_at (get nat_eq self.now.groups) name }
    {
        match name {
            GroupName::Empty => GroupAt::Empty,
            GroupName::Unknown => GroupAt::Unknown,
            GroupName::Number(number) => match self.groups.get(&number) {
                Some(place) => GroupAt::Given(*place),
                None => GroupAt::Unknown,
            },
        }
    }

    /// From this call on the number names nothing.
    fn end(&mut self, number: u32, call: u64)
        ensures names { AreNamed self.new.comms (without_number self.old call number).comms }
        ensures handles { self.new.handles.items ≡ (without_number self.old call number).handles }
        ensures groups { self.new.groups ≡ self.old.groups }
        ensures world { self.new.world ≡ self.old.world }
        ensures own { self.new.own ≡ self.old.own }
    {
        if self.is_taken(number) {
            return;
        }
        if let Some(place) = self.comms.swap_remove(&number) {
            end_at(&mut self.handles, place, call);
        }
    }

    /// A handle from the call behind this one on.
    fn add(&mut self, number: u32, call: u64) -> Result<usize, AllocError>
        ensures place { IfOk result (λ place. place ≡ length self.old.handles.items) }
        ensures handles { OnOk result (self.new.handles.items ≡ self.old.handles.items ++ from_next call number ∷ []) }
        ensures names { self.new.comms ≡ self.old.comms }
        ensures groups { self.new.groups ≡ self.old.groups }
        ensures world { self.new.world ≡ self.old.world }
        ensures own { self.new.own ≡ self.old.own }
    {
        let place = self.handles.len();
        self.handles.push(Handle {
            number,
            first: call.saturating_add(1),
            end: None,
        })?;
        Ok(place)
    }

    /// A new handle from a call that gives this number. The number may have named another communicator: in the call
    /// itself it still does.
    fn give_number(&mut self, number: u32, call: u64) -> Result<Gives, AllocError>
        ensures gives { IfOk result (λ g. g ≡ gives_as self.old true (givens.Number number)) }
        ensures names { OnOk result (AreNamed self.new.comms (with_number self.old call number).comms) }
        ensures handles { OnOk result (self.new.handles.items ≡ (with_number self.old call number).handles) }
        ensures groups { self.new.groups ≡ self.old.groups }
        ensures world { self.new.world ≡ self.old.world }
        ensures own { self.new.own ≡ self.old.own }
    {
        if self.is_taken(number) {
            return Ok(Gives::Taken(self.add(number, call)?));
        }
        self.end(number, call.saturating_add(1));
        let handle = self.add(number, call)?;
        self.comms.insert(number, handle)?;
        Ok(Gives::Handle(handle))
    }

    /// What a call gives.
    fn give(&mut self, call: &CommCall, given: Given) -> Result<Gives, AllocError>
        ensures gives { IfOk result (λ g. g ≡ gives_as self.old call.now.returned given) }
        ensures names { OnOk result (AreNamed self.new.comms (with_given self.old call.now given).comms) }
        ensures handles { OnOk result (self.new.handles.items ≡ (with_given self.old call.now given).handles) }
        ensures groups { self.new.groups ≡ self.old.groups }
        ensures world { self.new.world ≡ self.old.world }
        ensures own { self.new.own ≡ self.old.own }
    {
        if !call.returned {
            return Ok(Gives::Nothing);
        }
        match given {
            Given::Null => Ok(Gives::Null),
            Given::Unknown => Ok(Gives::Unknown),
            Given::Number(number) => self.give_number(number, call.call),
        }
    }

    /// Behind the call that gives it a number names the new group.
    fn give_group(&mut self, call: &CommCall, at: usize, given: GroupName) -> Result<(), AllocError>
        ensures groups { OnOk result (AreNamed self.new.groups (after_group at (naming_of self.old) call.now given).groups) }
        ensures names { self.new.comms ≡ self.old.comms }
        ensures handles { self.new.handles ≡ self.old.handles }
        ensures world { self.new.world ≡ self.old.world }
        ensures own { self.new.own ≡ self.old.own }
    {
        if !call.returned {
            return Ok(());
        }
        if let GroupName::Number(number) = given {
            self.groups.insert(number, at)?;
        }
        Ok(())
    }

    /// What a call means that makes communicators.
    fn made(
        &mut self,
        call: &CommCall,
        parent: Option<u32>,
        making: &Making,
        given: Given,
    ) -> Result<Meant, AllocError>
        ensures meant { IfOk result (λ m. m ≡ meant_by self.old call.now.returned (actions.Make parent making.now given)) }
        ensures naming { OnOk result (naming_of self.new ≡ with_given self.old call.now given) }
        ensures world { self.new.world ≡ self.old.world }
        ensures own { self.new.own ≡ self.old.own }
    {
        let comm = self.comm(parent);
        let group = self.group(group_of_making(making));
        let gives = self.give(call, given)?;
        Ok(Meant {
            comm,
            gives,
            group,
            second: GroupAt::Unknown,
            bridge: None,
        })
    }

    /// What a call means that joins two groups.
    fn joined(
        &mut self,
        call: &CommCall,
        local: Option<u32>,
        leaders: Leaders,
        given: Given,
    ) -> Result<Meant, AllocError>
        ensures meant { IfOk result (λ m. m ≡ meant_by self.old call.now.returned (actions.Join local leaders given)) }
        ensures naming { OnOk result (naming_of self.new ≡ with_given self.old call.now given) }
        ensures world { self.new.world ≡ self.old.world }
        ensures own { self.new.own ≡ self.old.own }
    {
        let comm = self.comm(local);
        let bridge = self.comm(leaders.bridge);
        let gives = self.give(call, given)?;
        Ok(Meant {
            comm,
            gives,
            group: GroupAt::Unknown,
            second: GroupAt::Unknown,
            bridge,
        })
    }

    /// What a call means that gives a group.
    fn grouped(
        &mut self,
        call: &CommCall,
        at: usize,
        group: &GroupCall,
        given: GroupName,
    ) -> Result<Meant, AllocError>
        ensures meant { IfOk result (λ m. m ≡ meant_by self.old call.now.returned (actions.Group group.now given)) }
        ensures groups { OnOk result (AreNamed self.new.groups (after_group at (naming_of self.old) call.now given).groups) }
        ensures names { self.new.comms ≡ self.old.comms }
        ensures handles { self.new.handles ≡ self.old.handles }
        ensures world { self.new.world ≡ self.old.world }
        ensures own { self.new.own ≡ self.old.own }
    {
        let meant = Meant {
            comm: self.comm(comm_of_group(group)),
            gives: Gives::Nothing,
            group: self.group(first_of_group(group)),
            second: self.group(second_of_group(group)),
            bridge: None,
        };
        self.give_group(call, at, given)?;
        Ok(meant)
    }

    /// Reads a call at this place of the rank's list.
    fn read(&mut self, at: usize, call: &CommCall) -> Result<Meant, AllocError>
        ensures meant { IfOk result (λ m. m ≡ meant_in (taken_by self.old) (naming_of self.old) call.now) }
        ensures naming { OnOk result (naming_of self.new ≡ naming_after (taken_by self.old) at (naming_of self.old) call.now) }
        ensures world { self.new.world ≡ self.old.world }
        ensures own { self.new.own ≡ self.old.own }
    {
        match &call.action {
            Action::Make {
                parent,
                making,
                given,
            } => self.made(call, *parent, making, *given),
            Action::CommRank { comm, .. } => Ok(naming(self.comm(*comm), Gives::Nothing)),
            Action::Free { comm } => {
                let meant = naming(self.comm(*comm), Gives::Nothing);
                if let Some(number) = *comm {
                    self.end(number, call.call.saturating_add(1));
                }
                Ok(meant)
            },
            Action::Group { group, given } => self.grouped(call, at, group, *given),
            Action::Join {
                local,
                leaders,
                given,
            } => self.joined(call, *local, *leaders, *given),
            Action::Merge { comm, given, .. } => {
                let comm = self.comm(*comm);
                let gives = self.give(call, *given)?;
                Ok(naming(comm, gives))
            },
            Action::GivesComm { comm, given, .. } => {
                let comm = self.comm(*comm);
                let gives = self.give(call, *given)?;
                Ok(naming(comm, gives))
            },
            Action::MakeObject { parent, .. } => { Ok(naming(self.comm(*parent), Gives::Nothing)) },
            Action::EndObject { .. } => Ok(naming(None, Gives::Nothing)),
        }
    }
}

/// A call that names no group.
fn naming(comm: Option<usize>, gives: Gives) -> Meant
    ensures { result ≡ record { comm = comm; gives = gives; group = groups.Unknown; second = groups.Unknown; bridge = None } }
{
    Meant {
        comm,
        gives,
        group: GroupAt::Unknown,
        second: GroupAt::Unknown,
        bridge: None,
    }
}

/// The group that a making names.
fn group_of_making(making: &Making) -> GroupName
    ensures { result ≡ group_of_making making.now }
{
    match making {
        Making::Create { group } => *group,
        Making::CreateGroup { group, .. } => *group,
        Making::Dup
        | Making::DupWithInfo
        | Making::Idup
        | Making::IdupWithInfo
        | Making::Split { .. }
        | Making::CartCreate { .. }
        | Making::CartSub { .. }
        | Making::GraphCreate { .. }
        | Making::DistGraphCreate { .. }
        | Making::DistGraphCreateAdjacent { .. } => GroupName::Unknown,
    }
}

/// The number of the communicator whose group a call gives.
fn comm_of_group(group: &GroupCall) -> Option<u32>
    ensures { result ≡ comm_of_group group.now }
{
    match group {
        GroupCall::OfComm { comm } => *comm,
        GroupCall::OfRemote { comm } => *comm,
        GroupCall::Incl { .. }
        | GroupCall::Excl { .. }
        | GroupCall::RangeIncl { .. }
        | GroupCall::RangeExcl { .. }
        | GroupCall::Union { .. }
        | GroupCall::Intersection { .. }
        | GroupCall::Difference { .. }
        | GroupCall::Unread => None,
    }
}

/// The group that a call makes another of, or the first of two.
fn first_of_group(group: &GroupCall) -> GroupName
    ensures { result ≡ first_of_group group.now }
{
    match group {
        GroupCall::OfComm { .. } | GroupCall::OfRemote { .. } | GroupCall::Unread => {
            GroupName::Unknown
        },
        GroupCall::Incl { group, .. } => *group,
        GroupCall::Excl { group, .. } => *group,
        GroupCall::RangeIncl { group, .. } => *group,
        GroupCall::RangeExcl { group, .. } => *group,
        GroupCall::Union { first, .. } => *first,
        GroupCall::Intersection { first, .. } => *first,
        GroupCall::Difference { first, .. } => *first,
    }
}

/// The second of two groups that a call makes another of.
fn second_of_group(group: &GroupCall) -> GroupName
    ensures { result ≡ second_of_group group.now }
{
    match group {
        GroupCall::Union { second, .. } => *second,
        GroupCall::Intersection { second, .. } => *second,
        GroupCall::Difference { second, .. } => *second,
        GroupCall::OfComm { .. }
        | GroupCall::OfRemote { .. }
        | GroupCall::Incl { .. }
        | GroupCall::Excl { .. }
        | GroupCall::RangeIncl { .. }
        | GroupCall::RangeExcl { .. }
        | GroupCall::Unread => GroupName::Unknown,
    }
}

/// What each of the calls means, and what the numbers mean behind the last.
fn read_all(alloc: Global, names: &mut Names, calls: &[CommCall]) -> Result<Vec<Meant>, AllocError>
    ensures meant { IfOk result (λ v. v.items ≡ meant_from (taken_by names.old) 0 (naming_of names.old) calls.now) }
    ensures naming { OnOk result (naming_of names.new ≡ naming_from (taken_by names.old) 0 (naming_of names.old) calls.now) }
{
    let mut meant = Vec::new(alloc);
    for (at, call) in calls.iter().enumerate() {
        meant.push(names.read(at, call)?)?;
    }
    Ok(meant)
}

/// The handles of a rank, the world's first, and what each of its calls means.
pub(crate) fn names_of(
    alloc: Global,
    world: u32,
    rank: &RankCalls,
) -> Result<(Vec<Handle>, Vec<Meant>), AllocError>
    ensures handles { IfOk result (λ r. r.0.items ≡ handles_of world rank.now.own rank.now.calls.items) }
    ensures meant { IfOk result (λ r. r.1.items ≡ meant_of world rank.now.own rank.now.calls.items) }
{
    let mut names = Names::new(alloc, world, rank.own)?;
    match read_all(alloc, &mut names, &rank.calls) {
        Ok(meant) => Ok((names.into_handles(), meant)),
        Err(fault) => {
            drop(names);
            Err(fault)
        },
    }
}
