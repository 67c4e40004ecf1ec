//! A look at the first bytes of a file: whether it begins as the text of a trace.

ghost use Rattle.std.specs.Prelude.{◌≡◌, ◌<◌, IfOk, IsTrue, OnErr, length};
ghost use Rattle.dumpi_text.specs.Failing.{Fails};
ghost use Rattle.run_inputs.specs.Looks.{BeginsAsText, IsLookAt, begins_call, has_call};

use crate::load::opener::Opener;
use crate::load::second_look::reopened;
use mpi_model::{Failed, Read, ReadFault, read_exactly};

/// How many bytes of a file are looked at: a text has a call among them.
pub(crate) const LONGEST_LOOK: usize = 4096;

/// A line begins at this byte, and a call with it.
fn begins_call(front: &[u8], i: usize) -> bool
    requires { i < length front.now }
    ensures { result ≡ begins_call front.now i }
{
    (i == 0 || front[i - 1] == b'\n') && front[i..].starts_with(b"MPI_")
}

/// Whether a call begins somewhere in these bytes.
fn has_call(front: &[u8]) -> bool
    ensures { result ≡ has_call front.now }
{
    for i in 0..front.len() {
        if begins_call(front, i) {
            return true;
        }
    }
    false
}

/// Whether a call begins in the first bytes of a file.
fn look_at<R: Read>(reader: R) -> Result<bool, Failed>
    ensures ok { IfOk result (IsLookAt (R.left reader)) }
    ensures err { OnErr result (Fails R.failures) }
{
    let mut reader = reader;
    let mut front = [0; LONGEST_LOOK];
    match read_exactly(&mut reader, &mut front) {
        Ok(()) => Ok(has_call(&front)),
        Err(ReadFault::Short { taken }) => Ok(has_call(&front[..taken])),
        Err(ReadFault::Failed { .. }) => Err(Failed),
    }
}

/// Whether the file begins as the text of a trace, where that can be looked at: what comes through a
/// pipe would be gone.
#[tactic(auto, using(crate::proofs::Looks::begins_told))]
pub fn begins_as_text<O: Opener>(path: &str, files: &O) -> bool
    ensures told { IsTrue result → BeginsAsText (O.file files.now path.now) }
{
    let Some(reader) = reopened(path, files) else {
        return false;
    };
    match look_at(reader) {
        Ok(begins) => begins,
        Err(_) => false,
    }
}
