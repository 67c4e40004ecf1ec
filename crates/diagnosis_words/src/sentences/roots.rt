//! What is said of what holds up a run.

use crate::groups::{Group, groups_of, singles_of};
use crate::needed::{takes_all, takes_one};
use crate::source::Source;
use crate::writer::Writer;
use diagnosis_value::{
    CallGroup, Held, LastCall, MismatchedRound, Need, Root, RootKind, RoundName, Stand, Standing,
};
use std::alloc::AllocError;
use trace_stuck::Condition;

/// The most groups of a round that are told.
const MOST_GROUPS: usize = 4;

/// The most rounds of a rank's needs that are told.
const MOST_ROUNDS: usize = 2;

/// How many of the ranks are enough that a condition needs, where it says that of all of them.
fn how_many(condition: &Condition) -> &'static [u8] {
    if takes_one(condition) {
        b"one of "
    } else if takes_all(condition) {
        b"all of "
    } else {
        b""
    }
}

/// Whether ranks that have ended are more than those that wait for them.
fn is_late(root: &Root) -> bool {
    root.kind == RootKind::Ended && root.ranks.len() > root.holds_up.len()
}

/// The ranks of a root that are told below it: of a cycle one by one where there are few, and else those that stand
/// alike together, where not all do.
fn members_of(source: Source<'_>, root: &Root, one_by_one: bool) -> Result<Vec<Group>, AllocError> {
    let ranks = root.ranks.as_slice();
    if root.kind == RootKind::Cycle {
        return if one_by_one {
            singles_of(source, ranks)
        } else {
            groups_of(source, ranks)
        };
    }
    if matches!(root.kind, RootKind::Mismatch(_)) || is_late(root) {
        return Ok(Vec::new(source.alloc));
    }
    let groups = groups_of(source, ranks)?;
    if groups.len() > 1 {
        Ok(groups)
    } else {
        Ok(Vec::new(source.alloc))
    }
}

impl<'a> Writer<'a> {
    /// A group of a round whose calls don't match: `rank 3 calls MPI_Barrier (call 3, main.c:7 in main)`.
    pub fn put_call_group(&mut self, group: &CallGroup) {
        let count = group.ranks.len();
        self.put_ranks(group.ranks.as_slice());
        self.put_either(count, b" calls ", b" call ");
        match self.source.operation(group.call) {
            Some(operation) => self.put_function(group.call.rank, group.call.call, &operation.call),
            None => self.put(group.function.name()),
        }
        if let Some(root) = group.root {
            self.put(b" with root ");
            self.put_number(root as u64);
        }
        self.put(b" (");
        if count > 1 {
            self.put(b"rank ");
            self.put_number(group.call.rank as u64);
            self.put(b": ");
        }
        self.put_call(group.call.rank, group.call.call);
        self.put(b")");
    }

    /// A round whose calls don't match.
    pub fn put_mismatched(&mut self, round: &MismatchedRound) {
        self.put_round(round.round);
        self.put(b": ");
        for (i, group) in round.groups.iter().enumerate() {
            if i == MOST_GROUPS && !self.all {
                self.put(b", and ");
                let more = round.groups.len().saturating_sub(MOST_GROUPS);
                self.put_counted(more, b" group more", b" groups more");
                return;
            }
            self.put(if i == 0 {
                b"".as_slice()
            } else {
                b", ".as_slice()
            });
            self.put_call_group(group);
        }
    }

    /// The round of a root whose calls don't match.
    fn put_mismatch(&mut self, name: RoundName) {
        let rounds = self.source.diagnosis.rounds.mismatched.as_slice();
        match rounds.iter().find(|round| round.round == name) {
            Some(round) => self.put_mismatched(round),
            None => self.put_round(name),
        }
    }

    /// Who waits for a root:
    /// `; 3 ranks wait for it: ranks 0 to 1, 3, in MPI_Allreduce on MPI_COMM_WORLD (round 5, ..)`.
    fn put_waiters(&mut self, root: &Root, own: usize) {
        let waiters = root.holds_up.as_slice();
        if waiters.is_empty() {
            return;
        }
        self.put(b"; ");
        self.put_counted(waiters.len(), b" rank waits for ", b" ranks wait for ");
        self.put_either(own, b"it: ", b"them: ");
        self.put_ranks(waiters);
        match groups_of(self.source, waiters) {
            Ok(groups) => self.put_waiting_groups(root, groups.as_slice()),
            Err(_) => self.out.give_up(),
        }
    }

    /// What the ranks stand in that wait for a root: all of them, where they stand alike and wait for no request; else
    /// the first that waits for the root itself.
    fn put_waiting_groups(&mut self, root: &Root, groups: &[Group]) {
        if let [group] = groups {
            if let Some(last) = self.source.last_call(group.first()) {
                if last.open.is_empty() || group.ranks.len() == 1 {
                    self.put_waiting_group(root, group, last);
                    return;
                }
            }
        }
        for rank in root.needed_by.iter() {
            if root.ranks.as_slice().binary_search(rank).is_err() {
                self.put_first(*rank, root.ranks.as_slice());
                return;
            }
        }
    }

    /// What the ranks stand in that wait for a root and stand alike.
    fn put_waiting_group(&mut self, root: &Root, group: &Group, last: &LastCall) {
        let rank = group.first();
        let is_polling = self.source.polling(rank).is_some();
        self.put(if is_polling {
            b", behind ".as_slice()
        } else {
            b", in ".as_slice()
        });
        self.put_group_call(rank, last, group);
        self.put_open_of(last, root.ranks.as_slice());
        if is_polling {
            self.put_either(group.ranks.len(), b"; it polls", b"; they poll");
        }
    }

    /// The first rank that waits for a root itself, with its open requests: those first that name the ranks of the
    /// root.
    fn put_first(&mut self, rank: u32, asked: &[u32]) {
        self.put(b"; first rank ");
        self.put_number(rank as u64);
        if let Some(polling) = self.source.polling(rank) {
            self.put(b" ");
            self.put_polling(polling);
        } else if let Some(last) = self.source.last_call(rank) {
            self.put(b", in ");
            self.put_last(rank, last);
            self.put_open_of(last, asked);
        }
    }

    /// The ranks of a root, with where they stand where they stand alike.
    fn put_own(&mut self, root: &Root) {
        match groups_of(self.source, root.ranks.as_slice()) {
            Ok(groups) => self.put_own_groups(root, groups.as_slice()),
            Err(_) => self.out.give_up(),
        }
    }

    /// The same, by these groups.
    fn put_own_groups(&mut self, root: &Root, groups: &[Group]) {
        if let [group] = groups {
            self.put_own_group(group);
            self.put_state(root.kind, group);
            return;
        }
        let count = root.ranks.len();
        self.put_ranks(root.ranks.as_slice());
        match root.kind {
            RootKind::Ended => self.put_either(count, b" has ended", b" have ended"),
            RootKind::Silent => self.put_either(count, b" gives no sign", b" give no sign"),
            RootKind::Mismatch(_) | RootKind::Cycle | RootKind::Open => self.put_either(
                count,
                b" may still go on by itself",
                b" may still go on by themselves",
            ),
        }
    }

    /// What is said of ranks that stand alike behind where they stand, by what root they are of.
    fn put_state(&mut self, kind: RootKind, group: &Group) {
        match kind {
            RootKind::Mismatch(_) | RootKind::Cycle | RootKind::Ended => {}
            RootKind::Silent => {
                if let Some(standing) = self.source.standing(group.first()) {
                    self.put_silence(standing, group.ranks.len());
                }
            }
            RootKind::Open => self.put_either(
                group.ranks.len(),
                b", and may still go on by itself",
                b", and may still go on by themselves",
            ),
        }
    }

    /// Ranks that stand alike, as the subject of a sentence: `rank 2 is behind MPI_Allreduce (call 7, ..)`.
    fn put_own_group(&mut self, group: &Group) {
        let rank = group.first();
        let Some(standing) = self.source.standing(rank) else {
            return;
        };
        self.put_ranks(group.ranks.as_slice());
        if group.ranks.len() == 1 {
            self.put(b" ");
            self.put_doing(standing);
            return;
        }
        match &standing.call {
            Some(last) => self.put_own_call(standing, last, group),
            None => self.put(b" have no call that can be read"),
        }
        if self.source.polling(rank).is_some() {
            self.put(b"; they poll");
        }
        self.put_beyond(standing.beyond);
    }

    /// The last call of ranks that stand alike, behind these ranks.
    fn put_own_call(&mut self, standing: &Standing, last: &LastCall, group: &Group) {
        match standing.stand {
            Stand::Ended => {
                self.put_end_calls(standing.rank, last, group);
                return;
            }
            Stand::In | Stand::Nowhere => self.put(b" stand in "),
            Stand::Behind => self.put(b" are behind "),
        }
        self.put_together(standing.rank, last, group);
    }

    /// The few that wait for many that have ended: they may make a call too many.
    fn put_late(&mut self, root: &Root) {
        let waiters = root.holds_up.as_slice();
        self.put_ranks(waiters);
        self.put_either(waiters.len(), b" waits for ", b" wait for ");
        self.put_ranks(root.ranks.as_slice());
        self.put_either(
            root.ranks.len(),
            b", which has ended",
            b", which have ended",
        );
        self.put(b": ");
        self.put_either(waiters.len(), b"it makes", b"they make");
        self.put(b" a call too many, or the others one too few; ");
        let first = root.needed_by.as_slice().first().or(waiters.first());
        if let Some(rank) = first.copied() {
            self.put(b"rank ");
            self.put_number(rank as u64);
            self.put(b" ");
            self.put_stands(rank, root.ranks.as_slice());
        }
    }

    /// What one rank does, and which of its requests are open: those first that name the ranks asked for.
    pub fn put_stands(&mut self, rank: u32, asked: &[u32]) {
        if let Some(standing) = self.source.standing(rank) {
            self.put_doing(standing);
        }
        if self.source.polling(rank).is_none() {
            if let Some(last) = self.source.last_call(rank) {
                self.put_open_of(last, asked);
            }
        }
    }

    /// What may be the matter with ranks that give no sign and stand alike.
    fn put_silence(&mut self, standing: &Standing, count: usize) {
        if standing.beyond.is_some() {
            return;
        }
        match standing.stand {
            Stand::Nowhere => self.put_absence(standing.rank, count),
            Stand::In => self.put_either(
                count,
                b" and hasn't returned: mpimatch doesn't know what that call waits for",
                b" and haven't returned: mpimatch doesn't know what these calls wait for",
            ),
            Stand::Behind | Stand::Ended => self.put_either(
                count,
                b" and makes no further call: it computes, has died, or its trace ends too early",
                b" and make no further call: they compute, have died, or their traces end too early",
            ),
        }
    }

    /// Why ranks have no call: their texts are missing, or have none.
    fn put_absence(&mut self, rank: u32, count: usize) {
        let texts = self.source.texts;
        if texts.notes.is_empty() {
            self.put(b": nothing is known");
        } else if texts.has_text(rank) {
            self.put_either(count, b": its text has none", b": their texts have none");
        } else {
            self.put_either(
                count,
                b": it has no trace, its text is missing",
                b": they have no trace, their texts are missing",
            );
        }
    }

    /// Ranks that wait for one another.
    fn put_cycle(&mut self, root: &Root) {
        let count = root.ranks.len();
        self.put_ranks(root.ranks.as_slice());
        self.put_either(count, b" waits for itself", b" wait for one another");
        if !root.proved {
            self.put_either(count, b", by polling", b", some of them by polling");
        }
        self.put_waiters(root, count);
    }

    /// A root.
    pub fn put_root(&mut self, root: &Root) {
        self.put(b"  ");
        match root.kind {
            RootKind::Mismatch(round) => {
                self.put_mismatch(round);
                self.put_waiters(root, 2);
            }
            RootKind::Cycle => self.put_cycle(root),
            RootKind::Ended | RootKind::Silent | RootKind::Open => {
                if is_late(root) {
                    self.put_late(root);
                } else {
                    self.put_own(root);
                    self.put_waiters(root, root.ranks.len());
                }
            }
        }
        self.put(b"\n");
    }

    /// What a held rank needs: `needs one of ranks 1 to 3`.
    pub fn put_needs(&mut self, held: &Held) {
        let mut ranks = Vec::new(self.source.alloc);
        for need in held.needs.iter() {
            if let Need::Rank(rank) = need {
                if ranks.push(*rank).is_err() {
                    self.out.give_up();
                    return;
                }
            }
        }
        self.put(b"needs ");
        if !ranks.is_empty() {
            if ranks.len() > 1 {
                self.put(how_many(&held.waits));
            }
            self.put_ranks(ranks.as_slice());
        }
        self.put_needed_rounds(held, ranks.is_empty());
    }

    /// The rounds that a rank needs, whose calls don't match.
    fn put_needed_rounds(&mut self, held: &Held, is_first: bool) {
        let mut count: usize = 0;
        for need in held.needs.iter() {
            if let Need::Round(round) = need {
                if count == MOST_ROUNDS && !self.all {
                    self.put(b", ..");
                    return;
                }
                self.put(if is_first && count == 0 {
                    b"".as_slice()
                } else {
                    b", ".as_slice()
                });
                self.put_round(*round);
                self.put(b", whose calls don't match");
                count = count.saturating_add(1);
            }
        }
    }

    /// Ranks of a root that stand alike, on a line of their own: of a cycle with what they need.
    fn put_member(&mut self, kind: RootKind, group: &Group) {
        let rank = group.first();
        self.put(b"    ");
        if kind != RootKind::Cycle {
            self.put_own_group(group);
            self.put_state(kind, group);
        } else if group.ranks.len() == 1 {
            self.put(b"rank ");
            self.put_number(rank as u64);
            self.put(b" ");
            self.put_stands(rank, &[]);
            self.put(b"; it ");
        } else {
            self.put_own_group(group);
            self.put(b"; the first ");
        }
        if kind == RootKind::Cycle {
            if let Some(held) = self.source.held(rank) {
                self.put_needs(held);
            }
        }
        self.put(b"\n");
    }

    /// The ranks of a root on lines of their own, where so many lines of this sort were told before: how many are told
    /// then. At most so many are told. On `AllocError`, when memory is refused, its contents are unspecified.
    pub fn put_root_members(
        &mut self,
        root: &Root,
        told: usize,
        most: usize,
    ) -> Result<usize, AllocError> {
        let one_by_one = self.all || root.ranks.len().saturating_add(told) <= most;
        let groups = members_of(self.source, root, one_by_one)?;
        let mut count = told;
        for (i, group) in groups.iter().enumerate() {
            if count >= most && !self.all {
                return Ok(count);
            }
            count = count.saturating_add(1);
            let is_last = count >= most && i.saturating_add(1) < groups.len();
            if is_last && !self.all {
                self.put(b"    and ");
                self.put_number(groups.len().saturating_sub(i) as u64);
                self.put(b" more\n");
            } else {
                self.put_member(root.kind, group);
            }
        }
        Ok(count)
    }

    /// The last call of a rank that ends, where it is known.
    pub fn put_finalize(&mut self, rank: u32, last: &LastCall) {
        self.put_function(rank, last.number, &last.call);
        self.put(b" is ");
        self.put_call(rank, last.number);
    }
}
