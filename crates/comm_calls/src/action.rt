//! What a call on communicators or groups, windows or files does.

ghost use Rattle.std.specs.Prelude.{◌≡◌, IfOk};
ghost use Rattle.std.specs.Option.{option_copied};
ghost use Rattle.comm_calls.specs.Actions.{IsAction, IsGroup, IsMake, called_on, leaders_in, merged_of, new_object_text, object_in, object_text, other_of};

use crate::function::{Function, Grouper, Maker};
use crate::group::{group_call_in, grouped_in};
use crate::making::{made_of, making_in, parent_of};
use crate::number::{comm_in, flag_in, given_in, int_in, natural_in, object_of};
use crate::parameter::{any_of, either_of, text_of};
use comm_makings::{Action, Leaders, OtherMaker, object_made};
use dumpi_calls::Memory;
use dumpi_text::RawCall;
use mpi_model::Object;
use std::alloc::Global;

/// The communicator that another function gives.
fn other_of(maker: OtherMaker, raw: &RawCall) -> Option<&[u8]>
    ensures { option_copied result ≡ other_of maker raw.now }
{
    match maker {
        OtherMaker::SplitType => text_of(raw, "newcomm"),
        OtherMaker::Accept | OtherMaker::Connect => text_of(raw, "newcomm"),
        OtherMaker::CreateFromGroup => text_of(raw, "newcomm"),
        OtherMaker::IntercommCreateFromGroups => text_of(raw, "newintercomm"),
        OtherMaker::Spawn | OtherMaker::SpawnMultiple => text_of(raw, "intercomm"),
        OtherMaker::Join => text_of(raw, "intercomm"),
        OtherMaker::GetParent => text_of(raw, "parent"),
    }
}

/// The communicator that such a function is called on.
fn called_on(maker: OtherMaker, raw: &RawCall) -> Option<&[u8]>
    ensures { option_copied result ≡ called_on maker raw.now }
{
    match maker {
        OtherMaker::SplitType => either_of(raw, "oldcomm", "comm"),
        OtherMaker::Accept | OtherMaker::Connect => text_of(raw, "comm"),
        OtherMaker::CreateFromGroup => text_of(raw, "comm"),
        OtherMaker::IntercommCreateFromGroups => None,
        OtherMaker::Spawn | OtherMaker::SpawnMultiple => text_of(raw, "comm"),
        OtherMaker::Join => text_of(raw, "comm"),
        OtherMaker::GetParent => None,
    }
}

/// What a call of MPI_Intercomm_create says of the leaders.
fn leaders_in(alloc: Global, raw: &RawCall) -> Result<Leaders, Memory>
    ensures { IfOk result (λ l. l ≡ leaders_in raw.now) }
{
    Ok(Leaders {
        own: natural_in(alloc, text_of(raw, "local_leader"))?,
        bridge: comm_in(alloc, either_of(raw, "peer_comm", "bridge_comm"))?,
        other: natural_in(alloc, text_of(raw, "remote_leader"))?,
        tag: int_in(alloc, text_of(raw, "tag"))?,
    })
}

/// What a call of MPI_Intercomm_create says.
fn join_in(alloc: Global, raw: &RawCall) -> Result<Action, Memory>
    ensures { IfOk result (IsAction Function.Join raw.now) }
{
    Ok(Action::Join {
        local: comm_in(alloc, text_of(raw, "local_comm"))?,
        leaders: leaders_in(alloc, raw)?,
        given: given_in(alloc, text_of(raw, "newintercomm"))?,
    })
}

/// The communicator that a call of MPI_Intercomm_merge gives.
fn merged_of(raw: &RawCall) -> Option<&[u8]>
    ensures { option_copied result ≡ merged_of raw.now }
{
    any_of(raw, "newintracomm", "newintercomm", "newcomm")
}

/// What a call of MPI_Intercomm_merge says.
fn merge_in(alloc: Global, raw: &RawCall) -> Result<Action, Memory>
    ensures { IfOk result (IsAction Function.Merge raw.now) }
{
    Ok(Action::Merge {
        comm: comm_in(alloc, text_of(raw, "intercomm"))?,
        high: flag_in(alloc, text_of(raw, "high"))?,
        given: given_in(alloc, merged_of(raw))?,
    })
}

/// The window or the file that a call ends.
fn object_text(object: Object, raw: &RawCall) -> Option<&[u8]>
    ensures { option_copied result ≡ object_text object raw.now }
{
    match object {
        Object::Communicator => None,
        Object::Window => text_of(raw, "win"),
        Object::File => either_of(raw, "fh", "file"),
    }
}

/// The window or the file that a call gives.
fn new_object_text(object: Object, raw: &RawCall) -> Option<&[u8]>
    ensures { option_copied result ≡ new_object_text object raw.now }
{
    match object {
        Object::Communicator => None,
        Object::Window => either_of(raw, "win", "newwin"),
        Object::File => either_of(raw, "fh", "file"),
    }
}

/// The number of the window or the file that a call gives, where it isn't null and can be read.
fn object_in(alloc: Global, object: Object, raw: &RawCall) -> Result<Option<u32>, Memory>
    ensures { IfOk result (λ n. n ≡ object_in object raw.now) }
{
    match new_object_text(object, raw) {
        Some(text) => object_of(alloc, object, text),
        None => Ok(None),
    }
}

/// What a call says that makes communicators of another.
fn make_in(alloc: Global, maker: Maker, raw: &RawCall) -> Result<Action, Memory>
    ensures { IfOk result (IsMake maker raw.now) }
{
    Ok(Action::Make {
        parent: comm_in(alloc, parent_of(maker, raw))?,
        making: making_in(alloc, maker, raw)?,
        given: given_in(alloc, made_of(maker, raw))?,
    })
}

/// What a call says that gives a group.
fn group_in(alloc: Global, grouper: Grouper, raw: &RawCall) -> Result<Action, Memory>
    ensures { IfOk result (IsGroup grouper raw.now) }
{
    Ok(Action::Group {
        group: group_call_in(alloc, grouper, raw)?,
        given: grouped_in(alloc, grouper, raw)?,
    })
}

/// What a call of MPI_Comm_rank says.
fn rank_in(alloc: Global, raw: &RawCall) -> Result<Action, Memory>
    ensures { IfOk result (IsAction Function.Rank raw.now) }
{
    Ok(Action::CommRank {
        comm: comm_in(alloc, text_of(raw, "comm"))?,
        rank: natural_in(alloc, text_of(raw, "rank"))?,
    })
}

/// What a call of such a function says.
pub(crate) fn action_in(alloc: Global, function: Function, raw: &RawCall) -> Result<Action, Memory>
    ensures { IfOk result (IsAction function raw.now) }
{
    match function {
        Function::Make(maker) => make_in(alloc, maker, raw),
        Function::Rank => rank_in(alloc, raw),
        Function::Free => Ok(Action::Free {
            comm: comm_in(alloc, text_of(raw, "comm"))?,
        }),
        Function::Group(grouper) => group_in(alloc, grouper, raw),
        Function::Join => join_in(alloc, raw),
        Function::Merge => merge_in(alloc, raw),
        Function::Give(maker) => Ok(Action::GivesComm {
            maker,
            comm: comm_in(alloc, called_on(maker, raw))?,
            given: given_in(alloc, other_of(maker, raw))?,
        }),
        Function::MakeObject(maker) => Ok(Action::MakeObject {
            maker,
            parent: comm_in(alloc, text_of(raw, "comm"))?,
            given: object_in(alloc, object_made(maker), raw)?,
        }),
        Function::EndObject(object) => Ok(Action::EndObject {
            object,
            number: natural_in(alloc, object_text(object, raw))?,
        }),
    }
}
