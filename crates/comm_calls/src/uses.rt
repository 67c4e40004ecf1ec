//! Which calls of the profile name which communicators, windows and files by their numbers.

ghost use Rattle.std.specs.Prelude.{◌≡◌, ◌++◌, ◌∷◌, [], None, OnErr, OnOk, slice_get};
ghost use Rattle.comm_calls.specs.Uses.{AreGoing, first_use, going_in, longer_at, named_number, next_in, number_of, open_after, open_with, uses_after};

use comm_makings::Uses;
use dumpi_calls::Memory;
use indexmap::IndexMap;
use mpi_model::{Call, CommRef};
use std::alloc::Global;

/// The number by which a call names its communicator, window or file: MPI_COMM_WORLD is named by none.
pub(crate) fn named_number(call: &Call) -> Option<u32>
    ensures { result ≡ named_number call.now }
{
    match call.comm() {
        Some(CommRef::Id(number)) => Some(number),
        Some(CommRef::World) | None => None,
    }
}

/// A group of one call.
fn first_use(number: u32, place: u64) -> Uses
    ensures { result ≡ first_use place number }
{
    Uses {
        number,
        first: place,
        last: place,
        count: 1,
    }
}

/// The group at a place has one call more.
fn longer(uses: &mut Vec<Uses>, at: usize, place: u64)
    ensures { uses.new.items ≡ longer_at place at (slice_get uses.old.items at) uses.old.items }
{
    if at < uses.len() {
        let group = uses[at];
        uses[at] = Uses {
            number: group.number,
            first: group.first,
            last: place,
            count: group.count.saturating_add(1),
        };
    }
}

/// The groups of calls that name one number, in the order of their first calls.
#[derive(Drop)]
pub(crate) struct NumberUses {
    pub groups: Vec<Uses>,
    /// The group of each number that goes on.
    pub going: IndexMap<u32, usize>,
}

impl NumberUses {
    /// No group of calls. It takes no memory.
    pub(crate) fn new(alloc: Global) -> NumberUses
        ensures groups { result.groups.items ≡ [] }
        ensures going { result.going.entries ≡ [] }
    {
        NumberUses {
            groups: Vec::new(alloc),
            going: IndexMap::new(alloc),
        }
    }

    /// A group with this call alone.
    fn begin(&mut self, number: u32, place: u64) -> Result<(), Memory>
        ensures groups { OnOk result (self.new.groups.items ≡ self.old.groups.items ++ first_use place number ∷ []) }
        ensures going { OnOk result (AreGoing self.new (open_with number None (next_in self.old) (going_in self.old))) }
        ensures same { OnErr result (self.new.groups.items ≡ self.old.groups.items) }
        ensures still { OnErr result (self.new.going.entries ≡ self.old.going.entries) }
    {
        let at = self.groups.len();
        self.groups.push(first_use(number, place))?;
        match self.going.insert(number, at) {
            Ok(_) => Ok(()),
            Err(_) => {
                self.groups.pop();
                Err(Memory)
            }
        }
    }

    /// The call at a place names this number, or none.
    pub(crate) fn name(&mut self, named: Option<u32>, place: u64) -> Result<(), Memory>
        ensures groups { OnOk result (self.new.groups.items ≡ uses_after place named (going_in self.old) self.old.groups.items) }
        ensures going { OnOk result (AreGoing self.new (open_after named None (next_in self.old) (going_in self.old))) }
        ensures same { OnErr result (self.new.groups.items ≡ self.old.groups.items) }
        ensures still { OnErr result (self.new.going.entries ≡ self.old.going.entries) }
    {
        let Some(number) = named else {
            return Ok(());
        };
        match self.going.get(&number).copied() {
            Some(at) => {
                longer(&mut self.groups, at, place);
                Ok(())
            }
            None => self.begin(number, place),
        }
    }

    /// A call gives or frees this number, or none.
    pub(crate) fn change(&mut self, changed: Option<u32>)
        ensures groups { self.new.groups.items ≡ self.old.groups.items }
        ensures going { AreGoing self.new (open_after None changed (next_in self.old) (going_in self.old)) }
    {
        if let Some(number) = changed {
            self.going.swap_remove(&number);
        }
    }
}
