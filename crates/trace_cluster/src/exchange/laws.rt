//! What both nodes know after an exchange, as the contract of a call that does nothing.

ghost use Rattle.std.specs.Prelude.{◌≡◌, Ok};
ghost use Rattle.trace_know.specs.View.{View, join};
ghost use Rattle.trace_node.specs.Node.{Held};
ghost use Rattle.trace_cluster.specs.Exchange.{ExchangesFrames, Follows, Leads};
ghost use Rattle.trace_cluster.specs.Stream.{Stream, IsFedBy};

use trace_know::join_laws;
use trace_wire::frame_laws;

/// Where one side led and another followed, each fed with what the other wrote, both know the join of
/// what they knew: a node that [`lead`](crate::lead) was called for, or one that lent what it knows to
/// [`exchange_frames`](crate::exchange_frames) and then joins what that heard, as in a cluster.
pub fn exchange_laws()
    ensures frames { (mine mine_after theirs theirs_after : Stream) (know heard : View) (follower followed : Held) (ok : Unit {0})
        → ExchangesFrames mine mine_after know (Ok heard) → Follows theirs theirs_after follower followed (Ok ok)
        → IsFedBy theirs.reads mine.writes mine_after.writes → IsFedBy mine.reads theirs.writes theirs_after.writes
        → (join know heard ≡ join know follower.know) × (followed.know ≡ join know follower.know) }
    ensures nodes { (mine mine_after theirs theirs_after : Stream) (leader led follower followed : Held) (ok : Unit {0})
        → Leads mine mine_after leader led (Ok ok) → Follows theirs theirs_after follower followed (Ok ok)
        → IsFedBy theirs.reads mine.writes mine_after.writes → IsFedBy mine.reads theirs.writes theirs_after.writes
        → (led.know ≡ join leader.know follower.know) × (followed.know ≡ join leader.know follower.know) }
{
    join_laws();
    frame_laws();
}
