//! Nodes with their inboxes, and the mails that were shipped.

ghost use Rattle.std.specs.Prelude.{◌≡◌, ◌<◌, ◌≤◌, ◌∷◌, ◌↔◌, ◌++◌, [], None, ℕ, true, false, IfOk, OnOk, IfErr, IsErrOf, IsTrue, MatchResult, IfSome, IfNone, length, map, take, replicate, slice_index_or};
ghost use Rattle.std.specs.FinMap.{empty};
ghost use Rattle.std.specs.List.{slice_get};
ghost use Rattle.std.specs.Option.{option_map};
ghost use Rattle.trace_world.specs.Answers.{AllAnswered, AreAnswered, AnswersAfter, AnswersAgain, AnswersAnew, AnswersFresh, AnswersStill, HoldsAfter, HoldsMore, LosesOne};
ghost use Rattle.trace_world.specs.Ends.{Ends, EndsHeld, SameButAnswers};
ghost use Rattle.trace_world.specs.Heard.{AreUnheard};
ghost use Rattle.trace_world.specs.Possible.{Allows};
ghost use Rattle.trace_world.specs.Refusals.{refusal, refusal_there, IsOutcome, IsCountFault, is_done, done, stale, NoneStaler, SameNodes, StopsAt};
ghost use Rattle.trace_node.specs.Node.{held};
ghost use Rattle.trace_world.specs.Schedule.{opening};
ghost use Rattle.trace_world.specs.Shows.{Shows, Follows, WorldState};
ghost use Rattle.trace_world.specs.Worlds.{IsWorld};

use crate::copies::{inboxes_of, mails_of, nodes_of};
use crate::heard::Heard;
use crate::inbox::SegmentQueue;
use crate::mail::Mail;
use crate::moves;
use crate::shared::SharedSegment;
use crate::step::{Step, StepFault, WorldFault};
use mpi_model::Layout;
use std::alloc::{AllocError, Global};
use std::marker::Model;
use trace_know::{join_laws, view_laws};
use trace_node::Node;
use trace_wire::frame_laws;

/// The greatest number of nodes.
const MOST_NODES: usize = 64;

/// Nodes of one layout, each with its inbox, and the mails that were shipped.
///
/// In a contract a world is seen as what its nodes hold, the segments in their inboxes and the
/// bytes of its mails. It shows a state of the schedule where each node knows just what the segments
/// that reached it tell together.
#[derive(Drop)]
pub struct World<'a> {
    alloc: Global,
    layout: &'a Layout,
    nodes: Vec<Node<'a>>,
    inboxes: Vec<SegmentQueue>,
    mails: Vec<Mail>,
    /// For each node the mails that it has joined.
    heard: Vec<Heard>,
}

impl<'a> Model for World<'a> {
    ghost use Rattle.trace_world.specs.Codes.{coded_world};
    ghost use Rattle.trace_world.specs.Shows.{WorldState, world_state};

    ghost Value = { WorldState };

    ghost coded = { coded_world };

    ghost use Rattle.trace_world.specs.Worlds.{IsWorld};

    ghost view = { λ w. world_state w.layout.now w.nodes.items w.inboxes.items w.mails.items };

    ghost use Rattle.trace_world.specs.Heard.{AreHeard};

    ghost invariant = { λ w. IsWorld w.layout.now w.nodes.items w.inboxes.items w.mails.items × AreHeard w.nodes.items w.mails.items w.heard.items };
}

impl<'a> World<'a> {
    /// A world of this many nodes that know nothing, with empty inboxes and no mail. Fails with `NodeCount` unless
    /// there are 1 to 64, and with `Memory` when memory is refused.
    pub fn new(alloc: Global, layout: &'a Layout, nodes: usize) -> Result<World<'a>, WorldFault>
        ensures shows { IfOk result (λ w. Shows w (opening nodes)) }
        ensures layout { IfOk result (λ w. w.layout ≡ layout.now) }
        ensures fresh { IfOk result (λ w. stale w.nodes ≡ replicate nodes false) }
        ensures refused { IfErr result (λ fault. IsCountFault nodes fault) }
    {
        if nodes == 0 || nodes > MOST_NODES {
            return Err(WorldFault::NodeCount);
        }
        let Ok(inboxes) = empty_inboxes(alloc, nodes) else {
            return Err(WorldFault::Memory);
        };
        let Ok(heard) = unheard(alloc, nodes) else {
            return Err(WorldFault::Memory);
        };
        let Ok(nodes) = new_nodes(alloc, layout, nodes) else {
            return Err(WorldFault::Memory);
        };
        Ok(World {
            alloc,
            layout,
            nodes,
            inboxes,
            mails: Vec::new(alloc),
            heard,
        })
    }

    /// Does one step. On [`WorldFault::Stale`] the step was done, but its node has no answer; any other refusal changes
    /// nothing.
    pub fn step(&mut self, step: &Step) -> Result<(), WorldFault>
        ensures done { is_done result ≡ true → Follows self.old (step.now ∷ []) self.new }
        ensures undone { is_done result ≡ false → self.new ≡ self.old }
        ensures outcome { IsOutcome (refusal self.old step.now) result }
        ensures fresh { OnOk result (NoneStaler self.old.nodes self.new.nodes) }
        ensures answers { AnswersAfter step.now result (stale self.old.nodes) (stale self.new.nodes) }
        ensures same { SameNodes self.old self.new }
    {
        let had = self.has_answer(step.node());
        self.hold_step(step)?;
        if !step.joins_more() {
            return Ok(());
        }
        self.answer_again(step.node(), had)
    }

    /// Does the steps in order, up to the first that is refused, which the fault names. The answers are made once, at
    /// the end. If memory for that runs out, the steps are undone and done again, each with its answer, so that the
    /// fault names the step that lacks it.
    pub fn run(&mut self, steps: &[Step]) -> Result<(), StepFault>
        ensures ok { OnOk result (Follows self.old steps.now self.new) }
        ensures possible { OnOk result (Allows self.old steps.now) }
        ensures fresh { OnOk result (NoneStaler self.old.nodes self.new.nodes) }
        ensures answered { OnOk result (AreAnswered steps.now self.new.nodes) }
        ensures err { IfErr result (λ e. (e.step < length steps.now) × Follows self.old (take (done e) steps.now) self.new) }
        ensures possible_before { IfErr result (λ e. Allows self.old (take (done e) steps.now)) }
        ensures cause { IfErr result (λ e. StopsAt self.new steps.now e) }
        ensures lost { IfErr result (λ e. LosesOne steps.now e self.old.nodes self.new.nodes) }
        ensures same { SameNodes self.old self.new }
    {
        match self.run_at_once(steps) {
            Some(ended) => ended,
            None => self.run_each(steps),
        }
    }

    /// Makes a node's answer anew. If memory runs out, the node has no answer; what it knows stays in any case.
    pub fn refresh(&mut self, node: usize) -> Result<(), WorldFault>
        ensures shown { Follows self.old [] self.new }
        ensures ok { OnOk result (node < length self.old.nodes) }
        ensures answers { AnswersFresh node result (stale self.old.nodes) (stale self.new.nodes) }
        ensures none { IsErrOf result WorldFault.NoNode ↔ (length self.old.nodes ≤ node) }
        ensures same { SameNodes self.old self.new }
    {
        if node >= self.nodes.len() {
            return Err(WorldFault::NoNode);
        }
        moves::refresh(&mut self.nodes, node)
    }

    /// The node of this number, with what it knows and its answer.
    pub fn node(&self, node: usize) -> Option<&Node<'a>>
        ensures { option_map (λ n. n.now) result ≡ slice_get self.now.nodes node }
    {
        self.nodes.get(node)
    }

    /// How many segments are in a node's inbox.
    pub fn inbox_len(&self, node: usize) -> Option<usize>
        ensures { result ≡ option_map length (slice_get self.now.inboxes node) }
    {
        Some(self.inboxes.get(node)?.len())
    }

    /// How many mails were shipped.
    pub fn mails(&self) -> usize
        ensures { result ≡ length self.now.mails }
    {
        self.mails.len()
    }

    /// Tells what holds of every world: its nodes are all of its layout, and nothing in an inbox or a
    /// mail is of a rank that the layout lacks. It does nothing: it is for proofs.
    pub fn known(&self)
        ensures { IsWorld self.now.layout self.now.nodes self.now.inboxes self.now.mails }
    {
        let _ = &self.layout;
    }

    /// Runs the steps, and makes the answers once, at the end. Where there is no memory for them, or a
    /// node has none before, nothing has changed.
    fn run_at_once(&mut self, steps: &[Step]) -> Option<Result<(), StepFault>>
        ensures some { IfSome result (λ ended. Ends self.old steps.now ended self.new) }
        ensures none { IfNone result (self.new ≡ self.old) }
    {
        let before = self.answered_copy()?;
        let ended = self.hold_steps(steps);
        if self.catch_up().is_err() {
            *self = before;
            return None;
        }
        Some(ended)
    }

    /// Runs the steps, each with its answer.
    fn run_each(&mut self, steps: &[Step]) -> Result<(), StepFault>
        ensures { Ends self.old steps.now result self.new }
    {
        for k in 0..steps.len() {
            if let Err(fault) = self.step(&steps[k]) {
                return Err(StepFault { step: k, fault });
            }
        }
        Ok(())
    }

    /// Runs the steps, and makes no answer.
    fn hold_steps(&mut self, steps: &[Step]) -> Result<(), StepFault>
        ensures { EndsHeld self.old steps.now result self.new }
    {
        for i in 0..steps.len() {
            if let Err(fault) = self.hold_step(&steps[i]) {
                return Err(StepFault { step: i, fault });
            }
        }
        Ok(())
    }

    /// Does one step, and makes no answer to what its node joins.
    fn hold_step(&mut self, step: &Step) -> Result<(), WorldFault>
        ensures done { is_done result ≡ true → Follows self.old (step.now ∷ []) self.new }
        ensures undone { is_done result ≡ false → self.new ≡ self.old }
        ensures outcome { IsOutcome (refusal self.old step.now) result }
        ensures answers { HoldsAfter step.now result (stale self.old.nodes) (stale self.new.nodes) }
        ensures same { SameNodes self.old self.new }
    {
        let node = step.node();
        if node >= self.nodes.len() {
            return Err(WorldFault::NoNode);
        }
        match step {
            Step::Post { segment, .. } => self.post(node, segment),
            Step::Take { .. } => self.take(node),
            Step::Ship { .. } => self.ship(node),
            Step::Deliver { mail, .. } => self.deliver(*mail, node),
            Step::Restart { .. } => self.restart(node),
        }
    }

    /// Whether the node is there and has its answer.
    fn has_answer(&self, node: usize) -> bool
        ensures { IsTrue result ↔ (slice_index_or (stale self.now.nodes) node true ≡ false) }
    {
        match self.nodes.get(node) {
            Some(node) => node.answer().is_ok(),
            None => false,
        }
    }

    /// Makes the answer of a node that joined more, if it had one before.
    fn answer_again(&mut self, node: usize, had: bool) -> Result<(), WorldFault>
        requires there { node < length self.old.nodes }
        ensures same { SameButAnswers self.old self.new }
        ensures answers { AnswersAgain node had result (stale self.old.nodes) (stale self.new.nodes) }
    {
        if !had || moves::answer(&mut self.nodes, node).is_err() {
            return Err(WorldFault::Stale);
        }
        Ok(())
    }

    /// Makes each answer that is owed.
    fn catch_up(&mut self) -> Result<(), AllocError>
        ensures same { SameButAnswers self.old self.new }
        ensures ok { OnOk result (AllAnswered self.new.nodes) }
    {
        moves::answer_all(&mut self.nodes)
    }

    /// A copy that shares what the nodes know, where each of them has its answer.
    fn answered_copy(&self) -> Option<World<'a>>
        ensures { IfSome result (λ copy. copy ≡ self.now) }
    {
        if self.nodes.iter().any(|node| node.answer().is_err()) {
            return None;
        }
        self.try_clone().ok()
    }

    /// A copy that shares what the nodes know, the segments and the mails. Which mails its nodes have joined isn't
    /// noted.
    fn try_clone(&self) -> Result<World<'a>, AllocError>
        ensures { IfOk result (λ copy. copy ≡ self.now) }
    {
        Ok(World {
            alloc: self.alloc,
            layout: self.layout,
            nodes: nodes_of(self.alloc, &self.nodes)?,
            inboxes: inboxes_of(self.alloc, &self.inboxes)?,
            mails: mails_of(self.alloc, &self.mails)?,
            heard: unheard(self.alloc, self.nodes.len())?,
        })
    }

    /// Adds a segment to a node's inbox, whichever worker posts it.
    fn post(&mut self, node: usize, segment: &SharedSegment) -> Result<(), WorldFault>
        requires there { node < length self.old.nodes }
        ensures done { is_done result ≡ true → Follows self.old (Step.Post 0 node segment.now ∷ []) self.new }
        ensures undone { is_done result ≡ false → self.new ≡ self.old }
        ensures outcome { IsOutcome (refusal_there self.old (Step.Post 0 node segment.now)) result }
        ensures fresh { self.new.nodes ≡ self.old.nodes }
        ensures answers { AnswersStill result (stale self.old.nodes) (stale self.new.nodes) }
        ensures layout { self.new.layout ≡ self.old.layout }
    {
        if segment.get().rank() >= self.layout.ranks() {
            return Err(WorldFault::Rank);
        }
        moves::post(&mut self.inboxes, node, segment)
    }

    /// Joins the front of a node's inbox into what it knows, and makes no answer.
    fn take(&mut self, node: usize) -> Result<(), WorldFault>
        requires there { node < length self.old.nodes }
        ensures done { is_done result ≡ true → Follows self.old (Step.Take node ∷ []) self.new }
        ensures undone { is_done result ≡ false → self.new ≡ self.old }
        ensures outcome { IsOutcome (refusal_there self.old (Step.Take node)) result }
        ensures answers { HoldsMore node result (stale self.old.nodes) (stale self.new.nodes) }
        ensures same { SameNodes self.old self.new }
    {
        join_laws();
        view_laws();
        let Some(segment) = self.inboxes[node].front() else {
            return Err(WorldFault::EmptyInbox);
        };
        moves::hold(&mut self.nodes, node, segment.get())?;
        self.inboxes[node].pop();
        Ok(())
    }

    /// The frame of what a node knows becomes the next mail.
    fn ship(&mut self, node: usize) -> Result<(), WorldFault>
        requires there { node < length self.old.nodes }
        ensures done { is_done result ≡ true → Follows self.old (Step.Ship node ∷ []) self.new }
        ensures undone { is_done result ≡ false → self.new ≡ self.old }
        ensures outcome { IsOutcome (refusal_there self.old (Step.Ship node)) result }
        ensures fresh { self.new.nodes ≡ self.old.nodes }
        ensures answers { AnswersStill result (stale self.old.nodes) (stale self.new.nodes) }
        ensures layout { self.new.layout ≡ self.old.layout }
    {
        frame_laws();
        let place = &self.nodes[node];
        place.known();
        let mail = Mail::of(self.alloc, place.know())?;
        add(&mut self.mails, mail)
    }

    /// Joins a mail into what a node knows, and makes no answer. One that the node has joined tells it nothing more.
    fn deliver(&mut self, mail: usize, node: usize) -> Result<(), WorldFault>
        requires there { node < length self.old.nodes }
        ensures done { is_done result ≡ true → Follows self.old (Step.Deliver mail node ∷ []) self.new }
        ensures undone { is_done result ≡ false → self.new ≡ self.old }
        ensures outcome { IsOutcome (refusal_there self.old (Step.Deliver mail node)) result }
        ensures answers { HoldsMore node result (stale self.old.nodes) (stale self.new.nodes) }
        ensures same { SameNodes self.old self.new }
    {
        view_laws();
        frame_laws();
        if mail >= self.mails.len() {
            return Err(WorldFault::NoMail);
        }
        self.mails[mail].known();
        if self.heard[node].has(mail) {
            return Ok(());
        }
        self.deliver_first(mail, node)
    }

    /// The same of a mail of which it isn't noted that the node has joined it.
    fn deliver_first(&mut self, mail: usize, node: usize) -> Result<(), WorldFault>
        requires there { node < length self.old.nodes }
        requires mail { mail < length self.old.mails }
        ensures done { is_done result ≡ true → Follows self.old (Step.Deliver mail node ∷ []) self.new }
        ensures undone { is_done result ≡ false → self.new ≡ self.old }
        ensures outcome { IsOutcome None result }
        ensures answers { HoldsMore node result (stale self.old.nodes) (stale self.new.nodes) }
        ensures same { SameNodes self.old self.new }
    {
        view_laws();
        join_laws();
        frame_laws();
        let Ok(know) = self.mails[mail].open(self.alloc) else {
            return Err(WorldFault::Memory);
        };
        moves::hold_all(&mut self.nodes, node, &know)?;
        self.heard[node].add(mail);
        Ok(())
    }

    /// A node is as a new one, with an empty inbox.
    fn restart(&mut self, node: usize) -> Result<(), WorldFault>
        requires there { node < length self.old.nodes }
        ensures done { is_done result ≡ true → Follows self.old (Step.Restart node ∷ []) self.new }
        ensures undone { is_done result ≡ false → self.new ≡ self.old }
        ensures outcome { IsOutcome (refusal_there self.old (Step.Restart node)) result }
        ensures fresh { OnOk result (NoneStaler self.old.nodes self.new.nodes) }
        ensures answers { AnswersAnew node result (stale self.old.nodes) (stale self.new.nodes) }
        ensures same { SameNodes self.old self.new }
    {
        let Ok(fresh) = Node::new(self.alloc, self.layout) else {
            return Err(WorldFault::Memory);
        };
        self.nodes[node] = fresh;
        self.inboxes[node].clear();
        self.heard[node] = Heard::new(self.alloc);
        Ok(())
    }
}

/// Adds a mail.
fn add(mails: &mut Vec<Mail>, mail: Mail) -> Result<(), WorldFault>
    ensures ok { OnOk result (mails.new.items ≡ mails.old.items ++ mail ∷ []) }
    ensures err { IfErr result (λ fault. (fault ≡ WorldFault.Memory) × (mails.new.items ≡ mails.old.items)) }
{
    if mails.push(mail).is_err() {
        return Err(WorldFault::Memory);
    }
    Ok(())
}

/// So many nodes that know nothing.
fn new_nodes<'a>(
    alloc: Global,
    layout: &'a Layout,
    count: usize,
) -> Result<Vec<Node<'a>>, AllocError>
    ensures { IfOk result (λ nodes. nodes.items ≡ replicate count (held layout.now empty false)) }
{
    let mut nodes = Vec::new(alloc);
    for _ in 0..count {
        nodes.push(Node::new(alloc, layout)?)?;
    }
    Ok(nodes)
}

/// So many inboxes with nothing in them.
fn empty_inboxes(alloc: Global, count: usize) -> Result<Vec<SegmentQueue>, AllocError>
    ensures { IfOk result (λ inboxes. inboxes.items ≡ replicate count []) }
{
    let mut inboxes = Vec::new(alloc);
    for _ in 0..count {
        inboxes.push(SegmentQueue::new(alloc))?;
    }
    Ok(inboxes)
}

/// Of so many nodes no mail is noted.
#[tactic(auto, using(crate::proofs::Hearing::none_heard, crate::proofs::Hearing::one_unheard))]
fn unheard(alloc: Global, count: usize) -> Result<Vec<Heard>, AllocError>
    ensures { IfOk result (λ heard. AreUnheard count heard.items) }
{
    let mut heard = Vec::new(alloc);
    for _ in 0..count {
        heard.push(Heard::new(alloc))?;
    }
    Ok(heard)
}
