//! What holds of what all ranks did, as the contract of a call that does nothing, so that the check proves it.

ghost use Rattle.trace_ops.specs.Ops.{AreOwn, Ops};
ghost use Rattle.std.specs.Prelude.{List};
ghost use Rattle.trace_wait.specs.Parts.{AreMessagesFound, AreReceivesFound};

/// Each message and each receive is found by its name among those of its rank.
pub fn operations_are_found()
    ensures messages { (ops : List Ops) → AreOwn 0 ops → AreMessagesFound ops }
    ensures receives { (ops : List Ops) → AreOwn 0 ops → AreReceivesFound ops }
{}
