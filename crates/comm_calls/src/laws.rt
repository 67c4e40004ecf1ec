//! What holds of the calls of a whole text.

ghost use Rattle.comm_calls.specs.Calls.{IsReadOf, ReadsOneMore, ReadsWhole, nothing_read};
ghost use Rattle.std.specs.Prelude.{[]};

/// If the calls of a text are read one after another from the first, what was read is what all of them say; so it is
/// for the sink of a walk over the whole text. It does nothing: it is for proofs.
pub fn calls_read_in_turn()
    ensures none { IsReadOf [] nothing_read }
    ensures one_more { ReadsOneMore }
    ensures whole { ReadsWhole }
{}
