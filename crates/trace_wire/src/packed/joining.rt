//! Knowledge that comes in parts, joined.

ghost use Rattle.std.specs.Prelude.{◌≡◌, ◌++◌, ◌∷◌, [], None, IfOk, IfSome};
ghost use Rattle.std.specs.FinMap.{empty};
ghost use Rattle.trace_know.specs.View.{join};

use std::alloc::{AllocError, Global};
use std::marker::Model;
use trace_know::{Knowledge, join_laws};

/// The join of so many parts.
#[derive(Drop)]
struct Level {
    know: Knowledge,
    parts: u64,
}

impl Level {
    /// What both tell together.
    fn with(self, other: Level) -> Result<Level, AllocError>
        ensures { IfOk result (λ level. level.know ≡ join self.know other.know) }
    {
        let mut know = self.know;
        know.join(&other.know)?;
        Ok(Level {
            know,
            parts: self.parts.saturating_add(other.parts),
        })
    }
}

/// Knowledge that comes in parts, in any order. As many parts are joined to as many, so that each cell is copied as
/// often as the logarithm of their number at most, however the parts lie.
///
/// In a contract it is the view of all that came.
#[derive(Drop)]
pub struct Joining {
    alloc: Global,
    levels: Vec<Level>,
}

impl Model for Joining {
    ghost use Rattle.std.specs.Coded.{coded_ℕ, coded×};
    ghost use Rattle.std.specs.FinMap as map;
    ghost use Rattle.trace_know.specs.View.{View};
    ghost use Rattle.trace_know.specs.contracts.cell.Known as known;
    ghost use Rattle.trace_wire.specs.Joining.{joined};

    ghost Value = { View };

    ghost coded = { map.code (coded× coded_ℕ coded_ℕ) known.the_row.coded };

    ghost view = { λ j. joined j.levels.items };
}

impl Joining {
    /// A joining that got no part yet. Takes no memory.
    pub fn new(alloc: Global) -> Joining
        ensures { result ≡ empty }
    {
        Joining {
            alloc,
            levels: Vec::new(alloc),
        }
    }

    /// Joins one more part. Fails with `AllocError` when memory is refused, and then all parts are lost.
    pub fn taking(self, know: Knowledge) -> Result<Joining, AllocError>
        ensures { IfOk result (λ all. all ≡ join self know) }
    {
        join_laws();
        let mut levels = self.levels;
        let mut top = Level { know, parts: 1 };
        while let Some(below) = pop_small(&mut levels, top.parts) {
            top = below.with(top)?;
        }
        levels.push(top)?;
        Ok(Joining {
            alloc: self.alloc,
            levels,
        })
    }

    /// The join of all parts. Fails with `AllocError` when memory is refused.
    pub fn into_knowledge(self) -> Result<Knowledge, AllocError>
        ensures { IfOk result (λ know. know ≡ self) }
    {
        join_laws();
        let mut levels = self.levels;
        let Some(last) = levels.pop() else {
            return Ok(Knowledge::new(self.alloc));
        };
        let mut top = last;
        while let Some(below) = levels.pop() {
            top = below.with(top)?;
        }
        Ok(top.know)
    }
}

/// Takes the last level out, where it has no more parts than these.
fn pop_small(levels: &mut Vec<Level>, parts: u64) -> Option<Level>
    ensures some { IfSome result (λ level. levels.old.items ≡ levels.new.items ++ level ∷ []) }
    ensures none { result ≡ None → levels.new.items ≡ levels.old.items }
{
    if levels.is_empty() || levels[levels.len() - 1].parts > parts {
        return None;
    }
    levels.pop()
}
