//! A node: knowledge with its answer.

ghost use Rattle.std.specs.Prelude.{◌≡◌, ◌≢◌, ◌↔◌, ◌<◌, ◌≤◌, true, false, IsTrue, IfOk, IfSome, OnOk, OnErr, IfErr, IsErr, IsErrOf};
ghost use Rattle.std.specs.FinMap.{empty};
ghost use Rattle.trace_know.specs.Trace.{facts_of, view_of};
ghost use Rattle.trace_know.specs.View.{IsBelow, join};
ghost use Rattle.trace_ops.specs.RankOps.{all_ops};
ghost use Rattle.trace_node.specs.Answer.{IsAnswer};
ghost use Rattle.trace_node.specs.Following.{IsFollowing};
ghost use Rattle.trace_node.specs.Node.{HasStranger, IsWithin, held, held_with};

use crate::answer::{Answer, answer_of, reading_of, walls_of};
use crate::fault::{NodeFault, Stale};
use crate::follow::{Followed, caught_up};
use crate::shared::{SharedAnswer, SharedKnowledge};
use crate::strangers::has_stranger;
use mpi_model::Layout;
use std::alloc::{AllocError, Global};
use std::marker::Model;
use trace_know::{Knowledge, ReadySegment, Segment, join_laws, view_laws};
use trace_ops::ops_laws;
use trace_pair::PairIndex;

/// All that is known of the run of a layout, with the answer to it. A stale node has no answer: memory for it was
/// refused, or what came was only held. It has one again after [`catch_up`](Self::catch_up) or
/// [`refresh`](Self::refresh). Its knowledge is complete in any case.
///
/// In a contract a node is seen as its layout, its knowledge, and whether it is stale.
#[derive(Drop)]
pub struct Node<'a> {
    alloc: Global,
    layout: &'a Layout,
    know: SharedKnowledge,
    /// The index of the pairs, where it is kept: of each rank by what was known when it was followed.
    followed: Option<Followed>,
    /// The answer to all that is known, unless the node is stale.
    answer: Option<SharedAnswer>,
}

impl<'a> Model for Node<'a> {
    ghost use Rattle.std.specs.Prelude.{is_none};
    ghost use Rattle.trace_node.specs.Codes.{coded_held};
    ghost use Rattle.trace_node.specs.Following.{IsNode};
    ghost use Rattle.trace_node.specs.Node.{Held};

    ghost Value = { Held };

    ghost coded = { coded_held };

    ghost view = { λ n. record { layout = n.layout.now; know = n.know; is_stale = is_none n.answer } };

    ghost invariant = { λ n. IsNode n.layout.now n.know n.followed n.answer };
}

impl<'a> Node<'a> {
    /// A node that knows nothing. Fails with `AllocError` when memory is refused.
    pub fn new(alloc: Global, layout: &'a Layout) -> Result<Node<'a>, AllocError>
        ensures { IfOk result (λ n. n ≡ held layout.now empty false) }
    {
        let mut node = Node::knowing(alloc, layout, Knowledge::new(alloc))?;
        // the index of many calls is made sooner at once than from one of none
        put(&mut node.followed, None);
        Ok(node)
    }

    /// A node that takes over this knowledge: as a new one that merges it, but without a copy. On an error the
    /// knowledge is lost.
    pub fn of(alloc: Global, layout: &'a Layout, know: Knowledge) -> Result<Node<'a>, NodeFault>
        ensures ok { IfOk result (λ n. n ≡ held layout.now know false) }
        ensures rank { IsErrOf result NodeFault.Rank ↔ HasStranger layout.now know }
        ensures whole { IfErr result (λ fault. fault ≢ NodeFault.Stale) }
    {
        if has_stranger(layout, &know) {
            return Err(NodeFault::Rank);
        }
        match Node::knowing(alloc, layout, know) {
            Ok(node) => Ok(node),
            Err(_) => Err(NodeFault::Memory),
        }
    }

    /// A node that knows this, with the answer to it.
    fn knowing(alloc: Global, layout: &'a Layout, know: Knowledge) -> Result<Node<'a>, AllocError>
        requires { IsWithin layout.now know }
        ensures { IfOk result (λ n. n ≡ held layout.now know false) }
    {
        let told = told_after(alloc, layout, &know, None)?;
        let know = SharedKnowledge::new(alloc, know)?;
        Ok(Node {
            alloc,
            layout,
            know,
            followed: Some(told.followed),
            answer: Some(told.answer),
        })
    }

    /// Joins the facts of the segment and makes the new answer. A stale node joins them too, and stays stale. At `Rank`
    /// and `Memory` nothing changes; at `Stale` the facts are joined, and the node has no answer.
    pub fn take(&mut self, segment: &Segment) -> Result<(), NodeFault>
        ensures ok { OnOk result (self.new ≡ held_with self.old (view_of (facts_of segment.now)) false) }
        ensures fresh { OnOk result (self.old.is_stale ≡ false) }

        ensures rank { IsErrOf result NodeFault.Rank ↔ (self.old.layout.ranks ≤ segment.now.rank) }
        ensures unchanged { IsErrOf result NodeFault.Rank → self.new ≡ self.old }
        ensures memory { IsErrOf result NodeFault.Memory → self.new ≡ self.old }
        ensures stale { IsErrOf result NodeFault.Stale → self.new ≡ held_with self.old (view_of (facts_of segment.now)) true }
    {
        let was_stale = self.answer.is_none();
        self.hold(segment)?;
        self.answer_again(was_stale)
    }

    /// Joins the facts of the segment without making an answer: the node is stale then. Many segments can be held like
    /// this and then answered at once, by [`catch_up`](Self::catch_up). At a fault, `Rank` or `Memory`, nothing
    /// changes.
    pub fn hold(&mut self, segment: &Segment) -> Result<(), NodeFault>
        ensures ok { OnOk result (self.new ≡ held_with self.old (view_of (facts_of segment.now)) true) }
        ensures rank { IsErrOf result NodeFault.Rank ↔ (self.old.layout.ranks ≤ segment.now.rank) }
        ensures err { IfErr result (λ fault. (fault ≢ NodeFault.Stale) × (self.new ≡ self.old)) }
    {
        join_laws();
        view_laws();
        if segment.rank() >= self.layout.ranks() {
            return Err(NodeFault::Rank);
        }
        if self.know.take(segment).is_err() {
            return Err(NodeFault::Memory);
        }
        put(&mut self.answer, None);
        Ok(())
    }

    /// As [`hold`](Self::hold), which copies the segment's events, but for a ready segment: its events are copied only
    /// if others share what the node knows. On an error nothing changes, and the segment comes back with the cause.
    pub fn hold_ready(&mut self, segment: ReadySegment) -> Result<(), (ReadySegment, NodeFault)>
        ensures ok { OnOk result (self.new ≡ held_with self.old (view_of (facts_of segment)) true) }
        ensures inside { OnOk result (segment.rank < self.old.layout.ranks) }
        ensures err { OnErr result (self.new ≡ self.old) }
        ensures back { IfErr result (λ refused. refused.0 ≡ segment) }
        ensures rank { IfErr result (λ refused. (refused.1 ≡ NodeFault.Rank) ↔ (self.old.layout.ranks ≤ segment.rank)) }
        ensures whole { IfErr result (λ refused. refused.1 ≢ NodeFault.Stale) }
    {
        join_laws();
        view_laws();
        let rank = segment.rank();
        if rank >= self.layout.ranks() {
            return Err((segment, NodeFault::Rank));
        }
        match self.know.take_ready(segment) {
            Ok(()) => {
                put(&mut self.answer, None);
                Ok(())
            }
            Err(refused) => Err((refused.value, NodeFault::Memory)),
        }
    }

    /// Joins all that the other knows and makes the new answer; if nothing is new, the answer stays. A stale node joins
    /// it too, and stays stale. At `Rank` and `Memory` nothing changes; at `Stale` all is joined, and the node has no
    /// answer.
    pub fn merge(&mut self, other: &Knowledge) -> Result<(), NodeFault>
        ensures ok { OnOk result (self.new ≡ held_with self.old other.now false) }
        ensures fresh { OnOk result (self.old.is_stale ≡ false) }

        ensures rank { IsErrOf result NodeFault.Rank ↔ HasStranger self.old.layout other.now }
        ensures unchanged { IsErrOf result NodeFault.Rank → self.new ≡ self.old }
        ensures memory { IsErrOf result NodeFault.Memory → self.new ≡ self.old }
        ensures stale { IsErrOf result NodeFault.Stale → self.new ≡ held_with self.old other.now true }
    {
        let was_stale = self.answer.is_none();
        self.hold_all(other)?;
        self.answer_again(was_stale)
    }

    /// Whether there is an answer, and the other knows nothing that isn't known here.
    fn has_answered(&self, other: &Knowledge) -> bool
        ensures fresh { IsTrue result → self.now.is_stale ≡ false }
        ensures same { IsTrue result → join self.now.know other.now ≡ self.now.know }
        ensures own { IsTrue result → ¬ (HasStranger self.now.layout other.now) }
        ensures known { self.now.is_stale ≡ false → IsBelow other.now self.now.know → IsTrue result }
    {
        join_laws();
        self.answer.is_some() && self.know.get().contains(other)
    }

    /// Joins all that the other knows without making an answer: the node is stale then, unless nothing is new and it
    /// had an answer, which stays. At a fault, `Rank` or `Memory`, nothing changes.
    pub fn hold_all(&mut self, other: &Knowledge) -> Result<(), NodeFault>
        ensures ok { OnOk result (self.new ≡ held_with self.old other.now self.new.is_stale) }
        ensures fresh { OnOk result (self.new.is_stale ≡ false → self.old.is_stale ≡ false) }
        ensures kept { OnOk result (self.old.is_stale ≡ false → IsBelow other.now self.old.know → self.new.is_stale ≡ false) }
        ensures rank { IsErrOf result NodeFault.Rank ↔ HasStranger self.old.layout other.now }
        ensures err { IfErr result (λ fault. (fault ≢ NodeFault.Stale) × (self.new ≡ self.old)) }
    {
        if self.has_answered(other) {
            return Ok(());
        }
        self.join_all(other)
    }

    /// Joins all that the other knows, and makes no answer.
    fn join_all(&mut self, other: &Knowledge) -> Result<(), NodeFault>
        ensures ok { OnOk result (self.new ≡ held_with self.old other.now true) }
        ensures rank { IsErrOf result NodeFault.Rank ↔ HasStranger self.old.layout other.now }
        ensures err { IfErr result (λ fault. (fault ≢ NodeFault.Stale) × (self.new ≡ self.old)) }
    {
        join_laws();
        if has_stranger(self.layout, other) {
            return Err(NodeFault::Rank);
        }
        if self.know.join(other).is_err() {
            return Err(NodeFault::Memory);
        }
        put(&mut self.answer, None);
        Ok(())
    }

    /// Makes the answer, where there was one before more was known: else the node stays stale.
    fn answer_again(&mut self, was_stale: bool) -> Result<(), NodeFault>
        requires stale { was_stale ≡ true → self.old.is_stale ≡ true }
        ensures ok { OnOk result (self.new ≡ held self.old.layout self.old.know false) }
        ensures fresh { OnOk result (was_stale ≡ false) }
        ensures stale { IfErr result (λ fault. (fault ≡ NodeFault.Stale) × (self.new ≡ held self.old.layout self.old.know true)) }
    {
        if was_stale || self.catch_up().is_err() {
            return Err(NodeFault::Stale);
        }
        Ok(())
    }

    /// Makes the answer to all that is known, from the index of the pairs if it is kept: a rank whose readable events
    /// haven't changed since costs only its part of the answer. If memory runs out, the node is stale and the index
    /// isn't kept.
    pub fn catch_up(&mut self) -> Result<(), AllocError>
        ensures ok { OnOk result (self.new ≡ held self.old.layout self.old.know false) }
        ensures err { OnErr result (self.new ≡ held self.old.layout self.old.know true) }
    {
        if self.answer.is_some() {
            return Ok(());
        }
        let before = self.followed.take();
        let told = told_after(self.alloc, self.layout, self.know.get(), before)?;
        put(&mut self.followed, Some(told.followed));
        put(&mut self.answer, Some(told.answer));
        Ok(())
    }

    /// Makes the answer anew, from all that is known. If memory runs out, the node is stale.
    pub fn refresh(&mut self) -> Result<(), AllocError>
        ensures ok { OnOk result (self.new ≡ held self.old.layout self.old.know false) }
        ensures err { OnErr result (self.new ≡ held self.old.layout self.old.know true) }
    {
        put(&mut self.followed, None);
        put(&mut self.answer, None);
        self.catch_up()
    }

    /// The answer to all that is known. [`Stale`] comes exactly where the node is stale.
    pub fn answer(&self) -> Result<&Answer, Stale>
        ensures ok { IfOk result (λ a. IsAnswer self.now.layout self.now.know a.now) }
        ensures stale { IsErr result ↔ IsTrue self.now.is_stale }
    {
        match &self.answer {
            Some(answer) => Ok(answer.get()),
            None => Err(Stale),
        }
    }

    /// All that is known.
    pub fn know(&self) -> &Knowledge
        ensures { result.now ≡ self.now.know }
    {
        self.know.get()
    }

    /// The answer to all that is known, to be shared. [`Stale`] comes exactly where the node is stale.
    pub fn shared_answer(&self) -> Result<&SharedAnswer, Stale>
        ensures ok { IfOk result (λ a. IsAnswer self.now.layout self.now.know a.now) }
        ensures stale { IsErr result ↔ IsTrue self.now.is_stale }
    {
        match &self.answer {
            Some(answer) => Ok(answer),
            None => Err(Stale),
        }
    }

    /// All that is known, to be shared.
    pub fn shared_know(&self) -> &SharedKnowledge
        ensures { result.now ≡ self.now.know }
    {
        &self.know
    }

    /// The layout of the run, which stays the same for the whole life of the node.
    pub fn layout(&self) -> &'a Layout
        ensures { result.now ≡ self.now.layout }
    {
        self.layout
    }

    /// A node with the same knowledge and answer, which both share until one of them learns more. The copy of a stale
    /// node is stale. Fails with `AllocError` when memory is refused.
    pub fn try_clone(&self) -> Result<Node<'a>, AllocError>
        ensures { IfOk result (λ copy. copy ≡ self.now) }
    {
        let know = self.know.try_clone()?;
        let Ok(answer) = self.shared_answer() else {
            return Ok(Node {
                alloc: self.alloc,
                layout: self.layout,
                know,
                followed: None,
                answer: None,
            });
        };
        let copy = answer.try_clone()?;
        Ok(Node {
            alloc: self.alloc,
            layout: self.layout,
            know,
            followed: None,
            answer: Some(copy),
        })
    }

    /// Tells what holds of every node. It does nothing: it is for proofs.
    pub fn known(&self)
        ensures { IsWithin self.now.layout self.now.know }
    {
        let _ = &self.know;
    }
}

/// Replaces what was kept by this, and drops what was kept. It takes several steps, and in a node's own functions each
/// step would name all that a node holds.
fn put<T: Drop>(kept: &mut Option<T>, value: Option<T>)
    ensures { kept.new ≡ value }
{
    *kept = value;
}

/// The index of all that is known, and the answer by it. Both are made before a node is touched: a
/// function is proved over all that it holds at each of its ways out, and a node holds much.
#[derive(Drop)]
struct IndexedAnswer {
    followed: Followed,
    answer: SharedAnswer,
}

/// What is told of all that is known, from an older index, where it is kept.
fn told_after(
    alloc: Global,
    layout: &Layout,
    know: &Knowledge,
    before: Option<Followed>,
) -> Result<IndexedAnswer, AllocError>
    requires follows { IfSome before (IsFollowing layout.now know.now) }
    requires within { IsWithin layout.now know.now }
    ensures follows { IfOk result (λ told. IsFollowing layout.now know.now told.followed) }
    ensures answer { IfOk result (λ told. IsAnswer layout.now know.now told.answer) }
{
    let followed = caught_up(alloc, layout, know, before)?;
    let answer = answer_to(alloc, layout, know, &followed.index)?;
    let answer = SharedAnswer::new(alloc, answer)?;
    Ok(IndexedAnswer { followed, answer })
}

/// The answer to all that is known, of the index of its ops.
fn answer_to(
    alloc: Global,
    layout: &Layout,
    know: &Knowledge,
    index: &PairIndex,
) -> Result<Answer, AllocError>
    requires ops { index.now ≡ all_ops layout.now know.now }
    requires within { IsWithin layout.now know.now }
    ensures { IfOk result (λ a. IsAnswer layout.now know.now a) }
{
    layout.known();
    ops_laws();
    let own = index.ops();
    let reading = reading_of(alloc, layout, know)?;
    let walls = walls_of(alloc, layout, know, own)?;
    let answer = answer_of(alloc, layout, reading, &walls, own, index.pairs()?)?;
    Ok(answer)
}
