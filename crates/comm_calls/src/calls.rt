//! The calls of a text on communicators and groups, windows and files.

ghost use Rattle.std.specs.Prelude.{◌≡◌, [], IfOk, IfSome, None, OnErr, OnOk, is_some};
ghost use Rattle.comm_calls.specs.Calls.{IsCommCall, Reads, nothing_read, read_of, reading};
ghost use Rattle.comm_calls.specs.Functions.{function_of};
ghost use Rattle.comm_makings.specs.Names.{number_given};
ghost use Rattle.comm_calls.specs.Uses.{changed_of_call, number_returned};

use crate::action::action_in;
use crate::beside::known_or_beside;
use crate::function::{Function, function_named};
use crate::size::known_or_size;
use crate::uses::{NumberUses, named_number};
use comm_makings::{Action, CommCall, Given, RankCalls, object_made};
use dumpi_calls::{Memory, RawSink};
use dumpi_text::RawCall;
use mpi_model::{Call, Object};
use std::alloc::Global;
use std::marker::Model;

/// Collects what the calls of a text say of communicators and groups, windows and files. It gets the calls in their
/// order, each once: as the sink of a walk over the text, or by [`read`](CommCalls::read).
#[derive(Drop)]
pub struct CommCalls {
    alloc: Global,
    place: u64,
    world: Option<u32>,
    own: Option<u32>,
    size: Option<u32>,
    calls: Vec<CommCall>,
    uses: NumberUses,
    windows: NumberUses,
    files: NumberUses,
}

impl Model for CommCalls {
    ghost use Rattle.comm_calls.specs.Calls.{ReadCalls, read_of};

    ghost Value = { ReadCalls };

    ghost view = { λ c. record { place = c.place; world = c.world; own = c.own; size = c.size; calls = c.calls.items; uses = read_of c.uses; windows = read_of c.windows; files = read_of c.files } };
}

/// The function of a call, where it is read.
fn function_of(raw: &RawCall) -> Option<Function>
    ensures { result ≡ function_of raw.now }
{
    if raw.threads() {
        return None;
    }
    function_named(raw.name())
}

/// A call of this function, with its place among all calls of the text.
fn comm_call(
    alloc: Global,
    function: Function,
    place: u64,
    raw: &RawCall,
) -> Result<CommCall, Memory>
    ensures { IfOk result (IsCommCall function place raw.now) }
{
    Ok(CommCall {
        call: place,
        returned: raw.exit().is_some(),
        action: action_in(alloc, function, raw)?,
    })
}

/// The number that a call gives, if it returned.
fn given_number(call: &CommCall, given: Given) -> Option<u32>
    ensures { result ≡ number_given call.now.returned given }
{
    if !call.returned {
        return None;
    }
    match given {
        Given::Number(number) => Some(number),
        Given::Null | Given::Unknown => None,
    }
}

/// The number that a call gives, where it gives one and returned.
fn returned_number(call: &CommCall, given: Option<u32>) -> Option<u32>
    ensures { result ≡ number_returned call.now.returned given }
{
    if call.returned { given } else { None }
}

/// The sort of what a call gives or ends by a number, and the number.
fn changed_of(call: &CommCall) -> (Object, Option<u32>)
    ensures { result ≡ changed_of_call call.now }
{
    match &call.action {
        Action::Make { given, .. } => (Object::Communicator, given_number(call, *given)),
        Action::Join { given, .. } => (Object::Communicator, given_number(call, *given)),
        Action::Merge { given, .. } => (Object::Communicator, given_number(call, *given)),
        Action::GivesComm { given, .. } => (Object::Communicator, given_number(call, *given)),
        Action::Free { comm } => (Object::Communicator, *comm),
        Action::MakeObject { maker, given, .. } => {
            (object_made(*maker), returned_number(call, *given))
        },
        Action::EndObject { object, number } => (*object, *number),
        Action::CommRank { .. } | Action::Group { .. } => (Object::Communicator, None),
    }
}

impl CommCalls {
    ghost use Rattle.comm_calls.specs.Calls.{AddsSaid, NamesCall, Reads, ReadsNumber, TakesCall};

    /// The collection before the first call. Takes no memory.
    pub fn new(alloc: Global) -> CommCalls
        ensures { result ≡ nothing_read }
    {
        CommCalls {
            alloc,
            place: 0,
            world: None,
            own: None,
            size: None,
            calls: Vec::new(alloc),
            uses: NumberUses::new(alloc),
            windows: NumberUses::new(alloc),
            files: NumberUses::new(alloc),
        }
    }

    /// A call gives or ends a number of this sort, or none.
    fn change(&mut self, object: Object, changed: Option<u32>)
        ensures { ReadsNumber object None changed self.old self.new }
    {
        match object {
            Object::Communicator => self.uses.change(changed),
            Object::Window => self.windows.change(changed),
            Object::File => self.files.change(changed),
        }
    }

    /// A call of this function.
    #[tactic(auto, using(crate::proofs::Sorts::call_taken))]
    fn take(&mut self, function: Function, raw: &RawCall) -> Result<(), Memory>
        ensures ok { OnOk result (TakesCall function self.old raw.now self.new) }
        ensures err { OnErr result (self.new ≡ self.old) }
    {
        let read = comm_call(self.alloc, function, self.place, raw)?;
        let (object, changed) = changed_of(&read);
        self.calls.push(read)?;
        self.change(object, changed);
        Ok(())
    }

    /// What the next call says, but for the numbers beside names and the world's size.
    #[tactic(auto, using(crate::proofs::Changed::comm_said, crate::proofs::Changed::other_said))]
    fn add_said(&mut self, raw: &RawCall, call: &Call) -> Result<(), Memory>
        ensures ok { OnOk result (AddsSaid self.old raw.now call.now self.new) }
        ensures err { OnErr result (self.new ≡ self.old) }
    {
        match function_of(raw) {
            Some(function) => self.take(function, raw),
            None => self.name(call),
        }
    }

    /// A call names this number of this sort, or none.
    fn name_number(&mut self, object: Object, named: Option<u32>) -> Result<(), Memory>
        ensures ok { OnOk result (ReadsNumber object named None self.old self.new) }
        ensures err { OnErr result (self.new ≡ self.old) }
    {
        match object {
            Object::Communicator => self.uses.name(named, self.place),
            Object::Window => self.windows.name(named, self.place),
            Object::File => self.files.name(named, self.place),
        }
    }

    /// A call of the profile names a communicator, a window, a file or nothing.
    #[tactic(auto, using(crate::proofs::Sorts::object_named))]
    fn name(&mut self, call: &Call) -> Result<(), Memory>
        ensures ok { OnOk result (NamesCall self.old call.now self.new) }
        ensures err { OnErr result (self.new ≡ self.old) }
    {
        self.name_number(call.object(), named_number(call))
    }

    /// Reads the next call of the text: `raw` is the call as it stands there, `call` is what the profile makes of it.
    /// Memory grows only with a call that makes, tells or frees a communicator or a group, and with the first call
    /// after it that names the number. If memory runs out, nothing changes.
    pub fn read(&mut self, raw: &RawCall, call: &Call) -> Result<(), Memory>
        ensures ok { OnOk result (Reads self.old raw.now call.now self.new) }
        ensures err { OnErr result (self.new ≡ self.old) }
    {
        let alloc = self.alloc;
        let world = known_or_beside(alloc, self.world, "MPI_COMM_WORLD", raw)?;
        let own = known_or_beside(alloc, self.own, "MPI_COMM_SELF", raw)?;
        let size = known_or_size(alloc, self.size, raw)?;
        self.add_said(raw, call)?;
        self.world = world;
        self.own = own;
        self.size = size;
        self.place = self.place.saturating_add(1);
        Ok(())
    }

    /// How many calls were read.
    pub fn len(&self) -> u64
        ensures { result ≡ self.now.place }
    {
        self.place
    }

    /// The number that stands beside the name MPI_COMM_WORLD in the first parameter that has both; `None` if none has.
    pub fn world(&self) -> Option<u32>
        ensures { result ≡ self.now.world }
    {
        self.world
    }

    /// The calls on communicators and groups, windows and files, with the first numbers beside MPI_COMM_WORLD and
    /// MPI_COMM_SELF, the first size of MPI_COMM_WORLD that is told, and which calls of the profile name which numbers.
    pub fn into_rank_calls(self) -> RankCalls
        ensures world { result.world ≡ self.world }
        ensures own { result.own ≡ self.own }
        ensures size { result.size ≡ self.size }
        ensures calls { result.calls.items ≡ self.calls }
        ensures uses { result.uses.items ≡ self.uses.groups }
        ensures windows { result.windows.items ≡ self.windows.groups }
        ensures files { result.files.items ≡ self.files.groups }
    {
        let CommCalls {
            world,
            own,
            size,
            calls,
            uses,
            windows,
            files,
            ..
        } = self;
        RankCalls {
            world,
            own,
            size,
            calls,
            uses: uses.groups,
            windows: windows.groups,
            files: files.groups,
        }
    }
}

impl RawSink for CommCalls {
    type Fault = Memory;

    ghost step = { reading };

    fn on_call(&mut self, raw: &RawCall, call: Call) -> Result<(), Memory> {
        self.read(raw, &call)
    }
}
