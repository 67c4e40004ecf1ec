//! Where the two files are kept: both or none.

ghost use Rattle.std.specs.Prelude.{◌≡◌, ◌≤◌, ◌↔◌, IfErr, IsTrue, List, None, OnErr, OnOk, Option, ℕ};
ghost use Rattle.mpi_model.specs.Failures.{CountsFailure, HasFailed};
ghost use Rattle.run_files.specs.Stores.{
  Adds,
  AddsBoth,
  AreDistinct,
  CountsAdding,
  Files,
  Goes,
  HasBoth,
  IsThere,
  LeavesNothing,
  LeftOfAdding,
  LeftOfReplacing,
  MayLack,
  Moves,
  NamesUnadded,
  NamesUnreplaced,
  RefusesAdding,
  RefusesNone,
  RefusesReplacing,
  Removes,
  RemovesBoth,
  Same,
  TellsAdding,
  TellsChange,
  Told,
  fault_of_adding,
  fault_of_spares,
  file_of,
  named,
  spare_name,
};
ghost use Rattle.run_files.specs.declared.store.StoreFault.TheVariants.{There};

use mpi_model::Failed;
use std::alloc::{AllocError, Global};

/// Why a store didn't add a file.
#[derive(Clone, Copy)]
pub enum StoreFault {
    /// There is a file of that name already.
    There,
    /// The system failed.
    Failed,
}

/// What keeps files by their names.
///
/// A contract knows the files of some stores; of others (a disk, which other programs write to) it doesn't.
pub trait Store: Drop {
    /// The bytes of the file of each name; `None` if no contract can know the files.
    ghost files: { Self → Option Files } = { λ _. None };

    /// How often it has failed, up to 2^64 - 1.
    ghost failures: { Self → ℕ };

    /// The name of the file at which it has failed last; `None` if no contract can know it.
    ghost refused: { Self → Option (List ℕ) } = { λ _. None };

    /// Adds a file of a name that no file has, whole or not at all. On an error no file changes; `There` says that
    /// there is such a file.
    fn add(&mut self, path: &str, bytes: &[u8]) -> Result<(), StoreFault>
        ensures ok { OnOk result (Goes (Adds path.now bytes.now) (files self.old) (files self.new)) }
        ensures err { OnErr result (Goes Same (files self.old) (files self.new)) }
        ensures there { IfErr result (λ fault. fault ≡ There → Told (IsThere path.now) (files self.old)) }
        ensures failures { CountsAdding (failures self.old) (failures self.new) result }
        ensures refused { TellsAdding path.now (refused self.old) (refused self.new) result };

    /// Removes a file. On `Failed` no file changes.
    fn remove(&mut self, path: &str) -> Result<(), Failed>
        ensures ok { OnOk result (Goes (Removes path.now) (files self.old) (files self.new)) }
        ensures err { OnErr result (Goes Same (files self.old) (files self.new)) }
        ensures failures { CountsFailure (failures self.old) (failures self.new) result }
        ensures refused { TellsChange path.now (refused self.old) (refused self.new) result };

    /// Renames a file, and replaces the file that has the new name. On `Failed` no file changes, and the file that it has
    /// failed at is that of the new name.
    fn rename(&mut self, from: &str, to: &str) -> Result<(), Failed>
        ensures ok { OnOk result (Goes (Moves from.now to.now) (files self.old) (files self.new)) }
        ensures err { OnErr result (Goes Same (files self.old) (files self.new)) }
        ensures failures { CountsFailure (failures self.old) (failures self.new) result }
        ensures refused { TellsChange to.now (refused self.old) (refused self.new) result };
}

/// A file to be written: its name and its bytes.
#[derive(Clone, Copy)]
pub struct NewFile<'a> {
    pub name: &'a str,
    pub bytes: &'a [u8],
}

/// Which of two files.
#[derive(Clone, Copy, Debug, PartialEq, Eq)]
pub enum Which {
    /// The one that was named first.
    First,
    /// The other one.
    Second,
}

/// Why two files weren't written.
#[derive(Clone, Copy, Debug, PartialEq, Eq)]
pub enum PutFault {
    /// Memory was refused.
    Memory,
    /// Both have one name.
    OneName,
    /// There is a file of its name already.
    There(Which),
    /// It is to replace a file, and there is a file of its name with `.new` appended.
    SpareThere(Which),
    /// It couldn't be written.
    Failed(Which),
    /// It couldn't be written, and part of what was to be written is left.
    Half(Which),
}

impl From<AllocError> for PutFault {
    ghost use Rattle.std.specs.Prelude.{◌≡◌};
    ghost use Rattle.run_files.specs.declared.store.PutFault.TheVariants.{Memory};

    ghost from_gives = { λ _ e. e ≡ Memory };

    fn from(_error: AllocError) -> PutFault {
        PutFault::Memory
    }
}

/// Why one of two files wasn't added.
fn fault_of(fault: StoreFault, which: Which) -> PutFault
    ensures { result ≡ fault_of_adding fault which }
{
    match fault {
        StoreFault::There => PutFault::There(which),
        StoreFault::Failed => PutFault::Failed(which),
    }
}

/// Writes two new files, both or none. At a fault the files are as they were, unless the fault is `Half`: then the first
/// one is left.
pub fn add_both<S: Store>(
    store: &mut S,
    one: NewFile<'_>,
    other: NewFile<'_>,
) -> Result<(), PutFault>
    ensures ok { OnOk result (Goes (AddsBoth (file_of one.entry) (file_of other.entry)) (S.files store.old) (S.files store.new)) }
    ensures err { IfErr result (λ fault. LeavesNothing fault → Goes Same (S.files store.old) (S.files store.new)) }
    ensures cause { IfErr result (RefusesAdding one.entry.name.now other.entry.name.now (S.files store.old)
        (HasFailed (S.failures store.old) (S.failures store.new))) }
    ensures failures { S.failures store.old ≤ S.failures store.new }
    ensures left { IfErr result (λ fault. Goes (LeftOfAdding (file_of one.entry) fault) (S.files store.old) (S.files store.new)) }
    ensures refused { IfErr result (λ fault. NamesUnadded one.entry.name.now other.entry.name.now fault (S.refused store.old) (S.refused store.new)) }
    ensures none { OnOk result (RefusesNone (S.refused store.old) (S.refused store.new)) }
{
    if one.name == other.name {
        return Err(PutFault::OneName);
    }
    if let Err(fault) = store.add(one.name, one.bytes) {
        return Err(fault_of(fault, Which::First));
    }
    match store.add(other.name, other.bytes) {
        Ok(()) => Ok(()),
        Err(fault) => match store.remove(one.name) {
            Ok(()) => Err(fault_of(fault, Which::Second)),
            Err(Failed) => Err(PutFault::Half(Which::Second)),
        },
    }
}

/// Whether no two of these names are the same.
fn are_distinct(a: &str, b: &str, c: &str, d: &str) -> bool
    ensures { IsTrue result ↔ AreDistinct a.now b.now c.now d.now }
{
    a != b && a != c && a != d && b != c && b != d && c != d
}

/// Takes both files away again.
fn remove_both<S: Store>(store: &mut S, one: &str, other: &str) -> Result<(), Failed>
    ensures ok { OnOk result (Goes (RemovesBoth one.now other.now) (S.files store.old) (S.files store.new)) }
    ensures failed { OnErr result (HasFailed (S.failures store.old) (S.failures store.new)) }
    ensures failures { S.failures store.old ≤ S.failures store.new }
    ensures left { OnErr result (Goes (MayLack one.now) (S.files store.old) (S.files store.new)) }
    ensures none { OnOk result (RefusesNone (S.refused store.old) (S.refused store.new)) }
{
    store.remove(one)?;
    store.remove(other)
}

/// Why two files don't take the place of others, where their spare files weren't added.
fn fault_of_spares(fault: PutFault) -> PutFault
    ensures { result ≡ fault_of_spares fault }
{
    match fault {
        PutFault::There(which) => PutFault::SpareThere(which),
        fault => fault,
    }
}

/// Writes both files under spare names first, so that nothing has changed where one can't be written.
fn replace_by<S: Store>(
    store: &mut S,
    one: NewFile<'_>,
    other: NewFile<'_>,
    spares: (&str, &str),
) -> Result<(), PutFault>
    requires distinct { AreDistinct one.name.now other.name.now spares.0.now spares.1.now }
    ensures ok { OnOk result (Goes (HasBoth (file_of one.entry) (file_of other.entry)) (S.files store.old) (S.files store.new)) }
    ensures err { IfErr result (λ fault. LeavesNothing fault → Goes Same (S.files store.old) (S.files store.new)) }
    ensures cause { IfErr result (RefusesReplacing one.entry.name.now other.entry.name.now spares.entry.0.now spares.entry.1.now
        (S.files store.old) (HasFailed (S.failures store.old) (S.failures store.new))) }
    ensures left { IfErr result (λ fault. Goes (LeftOfReplacing (file_of one.entry) (named spares.entry.0.now (file_of one.entry))
        (named spares.entry.1.now (file_of other.entry)) fault) (S.files store.old) (S.files store.new)) }
    ensures refused { IfErr result (λ fault. NamesUnreplaced one.entry.name.now spares.entry.0.now spares.entry.1.now fault
        (S.refused store.old) (S.refused store.new)) }
{
    let (first, second) = spares;
    let spare = NewFile {
        name: first,
        bytes: one.bytes,
    };
    let spare_of_other = NewFile {
        name: second,
        bytes: other.bytes,
    };
    if let Err(fault) = add_both(store, spare, spare_of_other) {
        return Err(fault_of_spares(fault));
    }
    if let Err(Failed) = store.rename(first, one.name) {
        return match remove_both(store, first, second) {
            Ok(()) => Err(PutFault::Failed(Which::First)),
            Err(Failed) => Err(PutFault::Half(Which::First)),
        };
    }
    match store.rename(second, other.name) {
        Ok(()) => Ok(()),
        Err(Failed) => Err(PutFault::Half(Which::Second)),
    }
}

/// Writes two files in place of those of their names, both or none. At a fault the files are as they were, unless the
/// fault is `Half`: then spare files are left, and the first file may be in its place. The file of the second name is the
/// old one.
pub fn replace_both<S: Store>(
    alloc: Global,
    store: &mut S,
    one: NewFile<'_>,
    other: NewFile<'_>,
) -> Result<(), PutFault>
    ensures ok { OnOk result (Goes (HasBoth (file_of one.entry) (file_of other.entry)) (S.files store.old) (S.files store.new)) }
    ensures err { IfErr result (λ fault. LeavesNothing fault → Goes Same (S.files store.old) (S.files store.new)) }
    ensures cause { IfErr result (RefusesReplacing one.entry.name.now other.entry.name.now (spare_name one.entry.name.now)
        (spare_name other.entry.name.now) (S.files store.old) (HasFailed (S.failures store.old) (S.failures store.new))) }
    ensures left { IfErr result (λ fault. Goes (LeftOfReplacing (file_of one.entry) (named (spare_name one.entry.name.now) (file_of one.entry))
        (named (spare_name other.entry.name.now) (file_of other.entry)) fault) (S.files store.old) (S.files store.new)) }
    ensures refused { IfErr result (λ fault. NamesUnreplaced one.entry.name.now (spare_name one.entry.name.now)
        (spare_name other.entry.name.now) fault (S.refused store.old) (S.refused store.new)) }
{
    let first = format!(in alloc; "{}.new", one.name)?;
    let second = format!(in alloc; "{}.new", other.name)?;
    if !are_distinct(one.name, other.name, first.as_str(), second.as_str()) {
        return Err(PutFault::OneName);
    }
    replace_by(store, one, other, (first.as_str(), second.as_str()))
}
