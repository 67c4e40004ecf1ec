//! The functions that programs call most, by how long their names are first: to find one among all names takes longer than
//! to read the rest of its call.

ghost use Rattle.std.specs.Prelude.{◌≡◌, IfSome};
ghost use Rattle.dumpi_calls.specs.Rows.{function_named};

use crate::function::{Function, is};
use mpi_model::{Kind, Mode};

/// The function of a name of 8 bytes.
#[tactic(auto, using(crate::proofs::UsualFunctions::send_by, crate::proofs::UsualFunctions::recv_by, crate::proofs::UsualFunctions::wait_by, crate::proofs::UsualFunctions::test_by, crate::proofs::UsualFunctions::init_by, crate::proofs::UsualFunctions::pack_by))]
fn eight_bytes(name: &[u8]) -> Option<Function>
    ensures { IfSome result (λ function. function ≡ function_named name.now) }
{
    if is(name, "MPI_Send") {
        Some(Function::Send(Mode::Standard))
    } else if is(name, "MPI_Recv") {
        Some(Function::Recv)
    } else if is(name, "MPI_Wait") {
        Some(Function::Wait)
    } else if is(name, "MPI_Test") {
        Some(Function::Test)
    } else if is(name, "MPI_Init") {
        Some(Function::Other)
    } else if is(name, "MPI_Pack") {
        Some(Function::Other)
    } else {
        None
    }
}

/// The function of a name of 9 bytes.
#[tactic(auto, using(crate::proofs::UsualFunctions::isend_by, crate::proofs::UsualFunctions::irecv_by, crate::proofs::UsualFunctions::probe_by, crate::proofs::UsualFunctions::bcast_by, crate::proofs::UsualFunctions::ssend_by, crate::proofs::UsualFunctions::start_by))]
fn nine_bytes(name: &[u8]) -> Option<Function>
    ensures { IfSome result (λ function. function ≡ function_named name.now) }
{
    if is(name, "MPI_Isend") {
        Some(Function::Isend(Mode::Standard))
    } else if is(name, "MPI_Irecv") {
        Some(Function::Irecv)
    } else if is(name, "MPI_Probe") {
        Some(Function::Probe)
    } else if is(name, "MPI_Bcast") {
        Some(Function::Collective(Kind::Bcast))
    } else if is(name, "MPI_Ssend") {
        Some(Function::Send(Mode::Synchronous))
    } else if is(name, "MPI_Start") {
        Some(Function::Start)
    } else {
        None
    }
}

/// The function of a name of 10 bytes.
#[tactic(auto, using(crate::proofs::UsualFunctions::iprobe_by, crate::proofs::UsualFunctions::reduce_by, crate::proofs::UsualFunctions::unpack_by, crate::proofs::UsualFunctions::gather_by, crate::proofs::UsualFunctions::mprobe_by))]
fn ten_bytes(name: &[u8]) -> Option<Function>
    ensures { IfSome result (λ function. function ≡ function_named name.now) }
{
    if is(name, "MPI_Iprobe") {
        Some(Function::Iprobe)
    } else if is(name, "MPI_Reduce") {
        Some(Function::Collective(Kind::Reduce))
    } else if is(name, "MPI_Unpack") {
        Some(Function::Other)
    } else if is(name, "MPI_Gather") {
        Some(Function::Collective(Kind::Gather))
    } else if is(name, "MPI_Mprobe") {
        Some(Function::Mprobe)
    } else {
        None
    }
}

/// The function of a name of 11 bytes.
#[tactic(auto, using(crate::proofs::UsualFunctions::waitall_by, crate::proofs::UsualFunctions::barrier_by, crate::proofs::UsualFunctions::testall_by, crate::proofs::UsualFunctions::waitany_by, crate::proofs::UsualFunctions::op_free_by, crate::proofs::UsualFunctions::gatherv_by, crate::proofs::UsualFunctions::scatter_by))]
fn eleven_bytes(name: &[u8]) -> Option<Function>
    ensures { IfSome result (λ function. function ≡ function_named name.now) }
{
    if is(name, "MPI_Waitall") {
        Some(Function::Waitall)
    } else if is(name, "MPI_Barrier") {
        Some(Function::Collective(Kind::Barrier))
    } else if is(name, "MPI_Testall") {
        Some(Function::Testall)
    } else if is(name, "MPI_Waitany") {
        Some(Function::Waitany)
    } else if is(name, "MPI_Op_free") {
        Some(Function::Other)
    } else if is(name, "MPI_Gatherv") {
        Some(Function::Collective(Kind::Gatherv))
    } else if is(name, "MPI_Scatter") {
        Some(Function::Collective(Kind::Scatter))
    } else {
        None
    }
}

/// The function of a name of 12 bytes.
#[tactic(auto, using(crate::proofs::UsualFunctions::waitsome_by, crate::proofs::UsualFunctions::testsome_by, crate::proofs::UsualFunctions::sendrecv_by, crate::proofs::UsualFunctions::alltoall_by, crate::proofs::UsualFunctions::scatterv_by, crate::proofs::UsualFunctions::comm_dup_by, crate::proofs::UsualFunctions::cart_sub_by, crate::proofs::UsualFunctions::startall_by))]
fn twelve_bytes(name: &[u8]) -> Option<Function>
    ensures { IfSome result (λ function. function ≡ function_named name.now) }
{
    if is(name, "MPI_Waitsome") {
        Some(Function::Waitsome)
    } else if is(name, "MPI_Testsome") {
        Some(Function::Testsome)
    } else if is(name, "MPI_Sendrecv") {
        Some(Function::Sendrecv)
    } else if is(name, "MPI_Alltoall") {
        Some(Function::Collective(Kind::Alltoall))
    } else if is(name, "MPI_Scatterv") {
        Some(Function::Collective(Kind::Scatterv))
    } else if is(name, "MPI_Comm_dup") {
        Some(Function::OnObject(Kind::CommDup, false))
    } else if is(name, "MPI_Cart_sub") {
        Some(Function::OnObject(Kind::CartSub, false))
    } else if is(name, "MPI_Startall") {
        Some(Function::Startall)
    } else {
        None
    }
}

/// The function of a name of 13 bytes.
#[tactic(auto, using(crate::proofs::UsualFunctions::comm_rank_by, crate::proofs::UsualFunctions::comm_size_by, crate::proofs::UsualFunctions::type_free_by, crate::proofs::UsualFunctions::comm_free_by, crate::proofs::UsualFunctions::allreduce_by, crate::proofs::UsualFunctions::allgather_by, crate::proofs::UsualFunctions::alltoallv_by, crate::proofs::UsualFunctions::get_count_by, crate::proofs::UsualFunctions::pack_size_by))]
fn thirteen_bytes(name: &[u8]) -> Option<Function>
    ensures { IfSome result (λ function. function ≡ function_named name.now) }
{
    if is(name, "MPI_Comm_rank") {
        Some(Function::Other)
    } else if is(name, "MPI_Comm_size") {
        Some(Function::Other)
    } else if is(name, "MPI_Type_free") {
        Some(Function::Other)
    } else if is(name, "MPI_Comm_free") {
        Some(Function::OnObject(Kind::CommFree, false))
    } else if is(name, "MPI_Allreduce") {
        Some(Function::Collective(Kind::Allreduce))
    } else if is(name, "MPI_Allgather") {
        Some(Function::Collective(Kind::Allgather))
    } else if is(name, "MPI_Alltoallv") {
        Some(Function::Collective(Kind::Alltoallv))
    } else if is(name, "MPI_Get_count") {
        Some(Function::Other)
    } else if is(name, "MPI_Pack_size") {
        Some(Function::Other)
    } else {
        None
    }
}

/// The function of a name of 14 bytes.
#[tactic(auto, using(crate::proofs::UsualFunctions::comm_split_by, crate::proofs::UsualFunctions::cart_shift_by, crate::proofs::UsualFunctions::group_free_by, crate::proofs::UsualFunctions::comm_group_by, crate::proofs::UsualFunctions::allgatherv_by))]
fn fourteen_bytes(name: &[u8]) -> Option<Function>
    ensures { IfSome result (λ function. function ≡ function_named name.now) }
{
    if is(name, "MPI_Comm_split") {
        Some(Function::OnObject(Kind::CommSplit, false))
    } else if is(name, "MPI_Cart_shift") {
        Some(Function::Other)
    } else if is(name, "MPI_Group_free") {
        Some(Function::Other)
    } else if is(name, "MPI_Comm_group") {
        Some(Function::Other)
    } else if is(name, "MPI_Allgatherv") {
        Some(Function::Collective(Kind::Allgatherv))
    } else {
        None
    }
}

/// The function of a name of 15 bytes.
#[tactic(auto, using(crate::proofs::UsualFunctions::get_address_by, crate::proofs::UsualFunctions::type_commit_by, crate::proofs::UsualFunctions::type_vector_by, crate::proofs::UsualFunctions::comm_create_by, crate::proofs::UsualFunctions::cart_create_by, crate::proofs::UsualFunctions::cart_coords_by, crate::proofs::UsualFunctions::dims_create_by))]
fn fifteen_bytes(name: &[u8]) -> Option<Function>
    ensures { IfSome result (λ function. function ≡ function_named name.now) }
{
    if is(name, "MPI_Get_address") {
        Some(Function::Other)
    } else if is(name, "MPI_Type_commit") {
        Some(Function::Other)
    } else if is(name, "MPI_Type_vector") {
        Some(Function::Other)
    } else if is(name, "MPI_Comm_create") {
        Some(Function::OnObject(Kind::CommCreate, false))
    } else if is(name, "MPI_Cart_create") {
        Some(Function::OnObject(Kind::CartCreate, false))
    } else if is(name, "MPI_Cart_coords") {
        Some(Function::Other)
    } else if is(name, "MPI_Dims_create") {
        Some(Function::Other)
    } else {
        None
    }
}

/// The function of a name of 19 bytes.
#[tactic(auto, using(crate::proofs::UsualFunctions::type_contiguous_by, crate::proofs::UsualFunctions::type_match_size_by, crate::proofs::UsualFunctions::type_get_extent_by))]
fn nineteen_bytes(name: &[u8]) -> Option<Function>
    ensures { IfSome result (λ function. function ≡ function_named name.now) }
{
    if is(name, "MPI_Type_contiguous") {
        Some(Function::Other)
    } else if is(name, "MPI_Type_match_size") {
        Some(Function::Other)
    } else if is(name, "MPI_Type_get_extent") {
        Some(Function::Other)
    } else {
        None
    }
}

/// The function of a name of 22 bytes.
#[tactic(auto, using(crate::proofs::UsualFunctions::type_create_struct_by))]
fn twenty_two_bytes(name: &[u8]) -> Option<Function>
    ensures { IfSome result (λ function. function ≡ function_named name.now) }
{
    if is(name, "MPI_Type_create_struct") {
        Some(Function::Other)
    } else {
        None
    }
}

/// The function of a name, if it is one that programs call much.
pub fn usual_function(name: &[u8]) -> Option<Function>
    ensures { IfSome result (λ function. function ≡ function_named name.now) }
{
    match name.len() {
        8 => eight_bytes(name),
        9 => nine_bytes(name),
        10 => ten_bytes(name),
        11 => eleven_bytes(name),
        12 => twelve_bytes(name),
        13 => thirteen_bytes(name),
        14 => fourteen_bytes(name),
        15 => fifteen_bytes(name),
        19 => nineteen_bytes(name),
        22 => twenty_two_bytes(name),
        _ => None,
    }
}
