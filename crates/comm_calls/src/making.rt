//! Calls that make communicators of the members of another.

ghost use Rattle.std.specs.Prelude.{◌≡◌, IfOk, codes};
ghost use Rattle.std.specs.Option.{option_copied};
ghost use Rattle.comm_calls.specs.Actions.{IsCart, IsCartSub, IsMaking, made_of, parent_of, reorder_in};
ghost use Rattle.comm_calls.specs.Lists.{flags_in, sizes_in};
ghost use Rattle.comm_calls.specs.Parameters.{text_of};

use crate::function::Maker;
use crate::lists::{flags_in, sizes_in};
use crate::number::{color_in, flag_in, group_in, int_in};
use crate::parameter::{any_of, either_of, text_of};
use comm_makings::Making;
use dumpi_calls::Memory;
use dumpi_text::RawCall;
use std::alloc::Global;

/// The text of the parent.
pub(crate) fn parent_of(maker: Maker, raw: &RawCall) -> Option<&[u8]>
    ensures { option_copied result ≡ parent_of maker raw.now }
{
    match maker {
        Maker::CartCreate
        | Maker::GraphCreate
        | Maker::DistGraphCreate
        | Maker::DistGraphCreateAdjacent => any_of(raw, "oldcomm", "comm_old", "comm"),
        Maker::Dup
        | Maker::DupWithInfo
        | Maker::Idup
        | Maker::IdupWithInfo
        | Maker::Split
        | Maker::Create
        | Maker::CreateGroup
        | Maker::CartSub => either_of(raw, "oldcomm", "comm"),
    }
}

/// The text of the communicator that is given.
pub(crate) fn made_of(maker: Maker, raw: &RawCall) -> Option<&[u8]>
    ensures { option_copied result ≡ made_of maker raw.now }
{
    match maker {
        Maker::CartCreate => either_of(raw, "newcomm", "comm_cart"),
        Maker::GraphCreate => either_of(raw, "newcomm", "comm_graph"),
        Maker::DistGraphCreate | Maker::DistGraphCreateAdjacent => {
            either_of(raw, "newcomm", "comm_dist_graph")
        }
        Maker::Dup
        | Maker::DupWithInfo
        | Maker::Idup
        | Maker::IdupWithInfo
        | Maker::Split
        | Maker::Create
        | Maker::CreateGroup
        | Maker::CartSub => text_of(raw, "newcomm"),
    }
}

/// Whether the ranks may be ordered anew.
fn reorder_in(alloc: Global, raw: &RawCall) -> Result<Option<bool>, Memory>
    ensures { IfOk result (λ b. b ≡ reorder_in raw.now) }
{
    flag_in(alloc, text_of(raw, "reorder"))
}

/// What a call of MPI_Comm_split says.
fn split_in(alloc: Global, raw: &RawCall) -> Result<Making, Memory>
    ensures { IfOk result (IsMaking Maker.Split raw.now) }
{
    Ok(Making::Split {
        color: color_in(alloc, text_of(raw, "color"))?,
        key: int_in(alloc, text_of(raw, "key"))?,
    })
}

/// What a call of MPI_Comm_create says.
fn create_in(alloc: Global, raw: &RawCall) -> Result<Making, Memory>
    ensures { IfOk result (IsMaking Maker.Create raw.now) }
{
    Ok(Making::Create {
        group: group_in(alloc, text_of(raw, "group"))?,
    })
}

/// What a call of MPI_Comm_create_group says.
fn create_group_in(alloc: Global, raw: &RawCall) -> Result<Making, Memory>
    ensures { IfOk result (IsMaking Maker.CreateGroup raw.now) }
{
    Ok(Making::CreateGroup {
        group: group_in(alloc, text_of(raw, "group"))?,
        tag: int_in(alloc, text_of(raw, "tag"))?,
    })
}

/// What a call of MPI_Cart_create says.
fn cart_in(alloc: Global, raw: &RawCall) -> Result<Making, Memory>
    ensures { IfOk result (IsCart (sizes_in (text_of (codes "dims") raw.now)) (reorder_in raw.now)) }
{
    Ok(Making::CartCreate {
        dims: sizes_in(alloc, text_of(raw, "dims"))?,
        reorder: reorder_in(alloc, raw)?,
    })
}

/// What a call of MPI_Cart_sub says.
fn cart_sub_in(alloc: Global, raw: &RawCall) -> Result<Making, Memory>
    ensures { IfOk result (IsCartSub (flags_in (text_of (codes "remain_dims") raw.now))) }
{
    Ok(Making::CartSub {
        remain: flags_in(alloc, text_of(raw, "remain_dims"))?,
    })
}

/// What a call of MPI_Graph_create says.
fn graph_in(alloc: Global, raw: &RawCall) -> Result<Making, Memory>
    ensures { IfOk result (IsMaking Maker.GraphCreate raw.now) }
{
    Ok(Making::GraphCreate {
        nodes: int_in(alloc, either_of(raw, "nodes", "nnodes"))?,
        reorder: reorder_in(alloc, raw)?,
    })
}

/// What the call says of what it makes.
pub(crate) fn making_in(alloc: Global, maker: Maker, raw: &RawCall) -> Result<Making, Memory>
    ensures { IfOk result (IsMaking maker raw.now) }
{
    match maker {
        Maker::Dup => Ok(Making::Dup),
        Maker::DupWithInfo => Ok(Making::DupWithInfo),
        Maker::Idup => Ok(Making::Idup),
        Maker::IdupWithInfo => Ok(Making::IdupWithInfo),
        Maker::Split => split_in(alloc, raw),
        Maker::Create => create_in(alloc, raw),
        Maker::CreateGroup => create_group_in(alloc, raw),
        Maker::CartCreate => cart_in(alloc, raw),
        Maker::CartSub => cart_sub_in(alloc, raw),
        Maker::GraphCreate => graph_in(alloc, raw),
        Maker::DistGraphCreate => Ok(Making::DistGraphCreate {
            reorder: reorder_in(alloc, raw)?,
        }),
        Maker::DistGraphCreateAdjacent => Ok(Making::DistGraphCreateAdjacent {
            reorder: reorder_in(alloc, raw)?,
        }),
    }
}
