//! What holds of packed files, as the contract of a call that does nothing, so that the check proves it.

ghost use Rattle.command_runs.specs.Packed.{OrderDoesNotShow, TwiceDoesNotShow};

use trace_know::join_laws;

/// The order of packed files makes no difference, nor does a file that comes twice.
pub fn packed_laws()
    ensures swapped { OrderDoesNotShow }
    ensures again { TwiceDoesNotShow }
{
    join_laws();
}
