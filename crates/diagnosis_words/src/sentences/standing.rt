//! What is said of how ranks stand.

use crate::groups::Group;
use crate::writer::Writer;
use diagnosis_value::{Beyond, LastCall, Polling, RootKind, Stand, Standing};

/// The most calls of a polling rank that are told.
const MOST_POLLED: usize = 2;

impl<'a> Writer<'a> {
    /// Writes what ends the readable calls of a rank.
    pub fn put_beyond(&mut self, beyond: Option<Beyond>) {
        match beyond {
            None => {}
            Some(Beyond::Gap) => self.put(b"; more is known behind a gap"),
            Some(Beyond::Contradiction) => self.put(b"; two pieces contradict each other there"),
            Some(Beyond::Unread) => self.put(b"; the next call is one that mpimatch does not read"),
            Some(Beyond::Cut) => self.put(b"; the text was cut there"),
        }
    }

    /// The round that a call entered, in front of its number: `round 5, `.
    fn put_round_of(&mut self, last: &LastCall) {
        if let Some(round) = last.round {
            self.put(b"round ");
            self.put_number(round.k);
            self.put(b", ");
        }
    }

    /// The last call of a rank, whole, with where and since when the rank stands there.
    pub fn put_last(&mut self, rank: u32, last: &LastCall) {
        self.put_whole(rank, last.number, &last.call);
        self.put_size(&last.call);
        self.put(b" (");
        self.put_round_of(last);
        self.put_call(rank, last.number);
        self.put(b", ");
        self.put_moment(last.wall);
        self.put(b")");
    }

    /// The last call of ranks that stand alike, without what differs.
    fn put_common(&mut self, rank: u32, last: &LastCall) {
        self.put_function(rank, last.number, &last.call);
        if let Some(round) = last.round {
            self.put(b" on ");
            self.put_object(round.object);
        }
    }

    /// The numbers of the calls of ranks that stand alike, and their call site.
    fn put_calls(&mut self, rank: u32, last: &LastCall, group: &Group) {
        let (first, most) = group.calls;
        if first == most {
            self.put_call(rank, last.number);
            return;
        }
        self.put(b"calls ");
        self.put_number(first);
        self.put(b" to ");
        self.put_number(most);
        self.put_site(rank, last.number);
    }

    /// What ranks that stand alike stand in:
    /// `MPI_Barrier on MPI_COMM_WORLD (round 0, call 5, main.c:10 in main, from 0.052 s on)`.
    pub fn put_together(&mut self, rank: u32, last: &LastCall, group: &Group) {
        self.put_common(rank, last);
        self.put(b" (");
        self.put_round_of(last);
        self.put_calls(rank, last, group);
        self.put(b", from ");
        self.put_time(group.wall);
        self.put(b" on)");
    }

    /// What ranks of a group stand in: of one rank the whole call.
    pub fn put_group_call(&mut self, rank: u32, last: &LastCall, group: &Group) {
        if group.ranks.len() == 1 {
            self.put_last(rank, last);
        } else {
            self.put_together(rank, last, group);
        }
    }

    /// `ranks 1 to 3: in MPI_Barrier on MPI_COMM_WORLD (round 0, call 5, main.c:10 in main, from 0.052 s on)`.
    pub fn put_group_line(&mut self, group: &Group) {
        let Some(rank) = group.ranks.as_slice().first().copied() else {
            return;
        };
        let Some(standing) = self.source.standing(rank) else {
            return;
        };
        self.put(b"  ");
        self.put_ranks(group.ranks.as_slice());
        self.put(match standing.stand {
            Stand::Ended => b": ended, ".as_slice(),
            Stand::In => b": in ".as_slice(),
            Stand::Behind => b": behind ".as_slice(),
            Stand::Nowhere => b": no call can be read".as_slice(),
        });
        if let Some(last) = &standing.call {
            self.put_group_call(rank, last, group);
        }
        if self.source.polling(rank).is_some() {
            self.put_either(group.ranks.len(), b"; it polls", b"; they poll");
        }
        self.put_beyond(standing.beyond);
        self.put(b"\n");
    }

    /// `polls: 107 of its last calls are tests or probes without success: MPI_Test (last call 110, ..) on call 2: ..`.
    pub fn put_polling(&mut self, polling: &Polling) {
        self.put(b"polls: ");
        self.put_number(polling.count);
        self.put(b" of its last calls are tests or probes without success: ");
        for (i, polled) in polling.calls.iter().enumerate() {
            if i == MOST_POLLED && !self.all {
                self.put(b"; ..");
                return;
            }
            self.put(if i == 0 {
                b"".as_slice()
            } else {
                b"; ".as_slice()
            });
            self.put_polled(polling.rank, polled);
        }
    }

    /// What one rank does: `stands in MPI_Recv from rank 1, tag 3 (call 4, ..)`, `is behind ..`, `has ended ..`,
    /// `polls ..`.
    pub fn put_doing(&mut self, standing: &Standing) {
        let rank = standing.rank;
        if let Some(polling) = self.source.polling(rank) {
            self.put_polling(polling);
            return;
        }
        let Some(last) = &standing.call else {
            self.put(b"has no call that can be read");
            self.put_beyond(standing.beyond);
            return;
        };
        match standing.stand {
            Stand::Ended => {
                self.put_end_call(rank, last);
                return;
            }
            Stand::In => self.put(b"stands in "),
            Stand::Behind => self.put(b"is behind "),
            Stand::Nowhere => self.put(b"has "),
        }
        self.put_last(rank, last);
        self.put_beyond(standing.beyond);
    }

    /// `has ended (MPI_Finalize, call 34, main.c:12 in main, at 1.500 s, for 0.250 s)`.
    fn put_end_call(&mut self, rank: u32, last: &LastCall) {
        self.put(b"has ended (");
        self.put_function(rank, last.number, &last.call);
        self.put(b", ");
        self.put_call(rank, last.number);
        self.put(b", ");
        self.put_moment(last.wall);
        self.put(b")");
    }

    /// `have ended (MPI_Finalize, calls 30 to 34, main.c:12 in main, from 1.500 s on)`.
    pub fn put_end_calls(&mut self, rank: u32, last: &LastCall, group: &Group) {
        self.put(b" have ended (");
        self.put_function(rank, last.number, &last.call);
        self.put(b", ");
        self.put_calls(rank, last, group);
        self.put(b", from ");
        self.put_time(group.wall);
        self.put(b" on)");
    }

    /// The last call of ranks that stand alike, in a node of a picture: of one rank the whole call.
    fn put_node_call(&mut self, standing: &Standing, last: &LastCall, group: &Group) {
        self.put(match standing.stand {
            Stand::Ended => b"\nended, ".as_slice(),
            Stand::In | Stand::Nowhere => b"\nin ".as_slice(),
            Stand::Behind => b"\nbehind ".as_slice(),
        });
        if group.ranks.len() == 1 {
            self.put_whole(standing.rank, last.number, &last.call);
        } else {
            self.put_common(standing.rank, last);
        }
        self.put(b"\n");
        self.put_round_of(last);
        self.put_calls(standing.rank, last, group);
    }

    /// What is said in a node of a picture: the ranks, where they stand, and what they are where they hold up the run.
    pub fn put_node(&mut self, group: &Group) {
        self.put_ranks(group.ranks.as_slice());
        let rank = group.first();
        let Some(standing) = self.source.standing(rank) else {
            return;
        };
        match &standing.call {
            Some(last) => self.put_node_call(standing, last, group),
            None => self.put(b"\nno call can be read"),
        }
        let count = group.ranks.len();
        if self.source.polling(rank).is_some() {
            self.put_either(count, b"\nit polls", b"\nthey poll");
        }
        if let Some(root) = self.source.root_of(rank) {
            self.put_node_root(root.kind, standing.stand, count);
        }
    }

    /// What ranks are that hold up the run, in a node of a picture.
    fn put_node_root(&mut self, kind: RootKind, stand: Stand, count: usize) {
        match kind {
            RootKind::Mismatch(_) | RootKind::Cycle | RootKind::Ended => {}
            RootKind::Open => {
                self.put_either(count, b"\nit may still go on", b"\nthey may still go on");
            }
            RootKind::Silent => match stand {
                Stand::Ended | Stand::Nowhere => {}
                Stand::In => self.put_either(count, b"\nit gives no sign", b"\nthey give no sign"),
                Stand::Behind => self.put_either(
                    count,
                    b"\nit makes no further call",
                    b"\nthey make no further call",
                ),
            },
        }
    }
}
