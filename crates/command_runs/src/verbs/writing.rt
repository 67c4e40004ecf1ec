//! How what a run has to say is written.

ghost use Rattle.std.specs.Prelude.{◌≡◌, IfErr, IfOk, OnErr, OnOk};
ghost use Rattle.std.specs.Io.KnownBytes.{Appends};
ghost use Rattle.mpi_model.specs.Failures.{CountsFailure};
ghost use Rattle.run_inputs.specs.Writing.{AppendsFront, BreaksOff};

use crate::run::Outcome;
use mpi_model::{Failed, Write, write_all};
use run_inputs::RunFault;

/// Writes the whole piece. A failure doesn't say how much of it was written.
pub(crate) fn write_piece<W: Write>(piece: &[u8], out: &mut W) -> Result<(), Failed>
    ensures ok { OnOk result (Appends (W.written out.old) (W.written out.new) piece.now) }
    ensures err { OnErr result (AppendsFront (W.written out.old) (W.written out.new) piece.now) }
    ensures failures { CountsFailure (W.failures out.old) (W.failures out.new) result }
{
    match write_all(out, piece) {
        Ok(()) => Ok(()),
        Err(_) => Err(Failed),
    }
}

/// Writes a text that is the whole output of a run.
pub fn write_text<W: Write>(text: &[u8], out: &mut W) -> Result<Outcome, RunFault>
    ensures ok { IfOk result (λ outcome. (outcome ≡ Outcome.Good) × Appends (W.written out.old) (W.written out.new) text.now) }
    ensures err { IfErr result (λ fault. (fault ≡ RunFault.Write) × BreaksOff (λ t. t ≡ text.now) W.written W.failures out.old out.new) }
{
    match write_piece(text, out) {
        Ok(()) => Ok(Outcome::Good),
        Err(_) => Err(RunFault::Write),
    }
}
