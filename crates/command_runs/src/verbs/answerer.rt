//! A node, as the functions see it that write its answer.

ghost use Rattle.std.specs.Prelude.{◌≡◌, ◌↔◌, IsTrue, IfOk, IsErr};
ghost use Rattle.trace_node.specs.Answer.{IsAnswer};
ghost use Rattle.trace_node.specs.Node.{Held};

use trace_node::{Answer, Node, Stale};

/// Something that may have an answer. Functions that drop a node after they have written its answer know it by this
/// trait alone: a function that owns a node is proved over all that the node holds, at each of its ways out.
pub(crate) trait Answerer: Drop {
    /// What its node holds.
    ghost held: { Self → Held };

    /// The answer to all that its node knows.
    fn told(&self) -> Result<&Answer, Stale>
        ensures ok { IfOk result (λ a. IsAnswer (held self.now).layout (held self.now).know a.now) }
        ensures stale { IsErr result ↔ IsTrue (held self.now).is_stale };
}

impl<'a> Answerer for Node<'a> {
    ghost held = { λ n. n };

    fn told(&self) -> Result<&Answer, Stale> {
        self.answer()
    }
}
