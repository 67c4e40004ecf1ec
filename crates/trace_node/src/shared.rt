//! What a node knows, and its answer, each shared with the readers to whom it is shown.
//!
//! Sharing costs no copy. An owner that changes what is known, and isn't the only one, gets a copy of its own first, so
//! no other owner sees the change.

ghost use Rattle.std.specs.Prelude.{◌≡◌, IfOk, IfErr, OnOk, OnErr};
ghost use Rattle.trace_know.specs.Trace.{facts_of, view_of};
ghost use Rattle.trace_know.specs.View.{join};

use crate::answer::Answer;
use std::alloc::{AllocError, AllocFailed, Global};
use std::marker::Model;
use std::sync::Arc;
use trace_know::{Knowledge, ReadySegment, Segment};

/// All that is known, by one or more owners. In a contract it is what is known.
#[derive(Drop)]
pub struct SharedKnowledge {
    alloc: Global,
    know: Arc<Knowledge>,
}

impl Model for SharedKnowledge {
    ghost use Rattle.trace_know.specs.View.{View};
    ghost use Rattle.trace_know.specs.contracts.knowledge.Knowledge as flat;

    ghost Value = { View };

    ghost coded = { flat.the_row.coded };

    ghost view = { λ s. s.know.value };
}

impl SharedKnowledge {
    /// Knowledge with one owner.
    pub(crate) fn new(alloc: Global, know: Knowledge) -> Result<SharedKnowledge, AllocError>
        ensures { IfOk result (λ s. s ≡ know) }
    {
        let know = Arc::new(alloc, know)?;
        Ok(SharedKnowledge { alloc, know })
    }

    /// What is known.
    pub fn get(&self) -> &Knowledge
        ensures { result.now ≡ self.now }
    {
        &self.know
    }

    /// Another owner of the same value. Nothing is copied. Fails with `AllocError` when it already has as many owners
    /// as can be counted.
    pub fn try_clone(&self) -> Result<SharedKnowledge, AllocError>
        ensures { IfOk result (λ s. s ≡ self.now) }
    {
        Ok(SharedKnowledge {
            alloc: self.alloc,
            know: Arc::try_clone(&self.know)?,
        })
    }

    /// Joins the facts of the segment. If memory runs out, nothing changes.
    pub(crate) fn take(&mut self, segment: &Segment) -> Result<(), AllocError>
        ensures ok { OnOk result (self.new ≡ join self.old (view_of (facts_of segment.now))) }
        ensures err { OnErr result (self.new ≡ self.old) }
    {
        if let Some(know) = Arc::get_mut(&mut self.know) {
            return know.take(segment);
        }
        let mut copy = self.know.try_clone()?;
        copy.take(segment)?;
        self.know = Arc::new(self.alloc, copy)?;
        Ok(())
    }

    /// Joins the facts of a segment that stands ready. If memory runs out, nothing changes and the segment comes back.
    pub(crate) fn take_ready(
        &mut self,
        segment: ReadySegment,
    ) -> Result<(), AllocFailed<ReadySegment>>
        ensures ok { OnOk result (self.new ≡ join self.old (view_of (facts_of segment))) }
        ensures err { OnErr result (self.new ≡ self.old) }
        ensures back { IfErr result (λ refused. refused.value ≡ segment) }
    {
        if let Some(know) = Arc::get_mut(&mut self.know) {
            return know.take_ready(segment);
        }
        match self.take_copy(&segment) {
            Ok(()) => Ok(()),
            Err(_) => Err(AllocFailed { value: segment }),
        }
    }

    /// Joins a copy of a segment that stands ready to a copy of what is known, of which this is the only owner from
    /// then on. If memory runs out, nothing changes.
    fn take_copy(&mut self, segment: &ReadySegment) -> Result<(), AllocError>
        ensures ok { OnOk result (self.new ≡ join self.old (view_of (facts_of segment.now))) }
        ensures err { OnErr result (self.new ≡ self.old) }
    {
        let mut copy = self.know.try_clone()?;
        copy.take_ready(segment.try_clone()?)?;
        self.know = Arc::new(self.alloc, copy)?;
        Ok(())
    }

    /// Joins all that the other knows. If memory runs out, nothing changes.
    pub(crate) fn join(&mut self, other: &Knowledge) -> Result<(), AllocError>
        ensures ok { OnOk result (self.new ≡ join self.old other.now) }
        ensures err { OnErr result (self.new ≡ self.old) }
    {
        if let Some(know) = Arc::get_mut(&mut self.know) {
            return know.join(other);
        }
        let mut copy = self.know.try_clone()?;
        copy.join(other)?;
        self.know = Arc::new(self.alloc, copy)?;
        Ok(())
    }
}

/// An answer, by one or more owners. In a contract it is the answer.
#[derive(Drop)]
pub struct SharedAnswer {
    answer: Arc<Answer>,
}

impl Model for SharedAnswer {
    ghost use Rattle.trace_node.specs.Answer.{Answered};
    ghost use Rattle.trace_node.specs.contracts.answer.Answer as flat;

    ghost Value = { Answered };

    ghost coded = { flat.the_row.coded };

    ghost view = { λ s. s.answer.value };
}

impl SharedAnswer {
    /// An answer with one owner.
    pub(crate) fn new(alloc: Global, answer: Answer) -> Result<SharedAnswer, AllocError>
        ensures { IfOk result (λ s. s ≡ answer) }
    {
        let answer = Arc::new(alloc, answer)?;
        Ok(SharedAnswer { answer })
    }

    /// The answer.
    pub fn get(&self) -> &Answer
        ensures { result.now ≡ self.now }
    {
        &self.answer
    }

    /// Another owner of the same value. Nothing is copied. Fails with `AllocError` when it already has as many owners
    /// as can be counted.
    pub fn try_clone(&self) -> Result<SharedAnswer, AllocError>
        ensures { IfOk result (λ s. s ≡ self.now) }
    {
        Ok(SharedAnswer {
            answer: Arc::try_clone(&self.answer)?,
        })
    }
}
