//! The two lines of a check, for tables that differ and for verdicts that are wrong.

use crate::fixture::{Read, known, layout};
use std::alloc::Global;
use std::process::Abort;
use trace_check::check_lines;
use trace_ops::{State, all_ops, ops_laws};
use trace_pair::{PairTable, pair_all};
use trace_stuck::{Condition, Verdict};

/// The table of the pairs of the ranks.
fn table_of<R: Abort>(rt: &R, alloc: Global, read: Read) -> PairTable {
    ops_laws();
    let layout = layout(rt, alloc);
    let know = known(rt, alloc, read);
    let ops = all_ops(alloc, &layout, &know).expect(rt, "memory");
    pair_all(alloc, &ops).expect(rt, "memory")
}

/// A verdict of these ranks.
fn verdict<R: Abort>(rt: &R, alloc: Global, stuck: &[u32], release: &[u32]) -> Verdict {
    Verdict {
        stuck: stuck.to_vec(alloc).expect(rt, "memory"),
        release: release.to_vec(alloc).expect(rt, "memory"),
    }
}

/// Adds a rank that is in a call, and waits for nothing.
fn add_waiting<R: Abort>(rt: &R, states: &mut Vec<State>, conditions: &mut Vec<Option<Condition>>) {
    states.push(State::Waiting).expect(rt, "memory");
    conditions.push(Some(Condition::yes())).expect(rt, "memory");
}

/// Two tables, a verdict on two ranks that wait for nothing, and what is said of them.
struct Row {
    name: &'static str,
    first: Read,
    second: Read,
    stuck: &'static [u32],
    release: &'static [u32],
    lines: &'static [u8],
    held: bool,
}

static ROWS: [Row; 5] = [
    Row {
        name: "all is well",
        first: Read::Told,
        second: Read::Told,
        stuck: &[],
        release: &[0, 1],
        lines: b"check pairs 1 postponed 0 equal\ncheck stuck 0 released 2 valid\n",
        held: true,
    },
    Row {
        name: "before the Wait and after it",
        first: Read::Posted,
        second: Read::Told,
        stuck: &[],
        release: &[0, 1],
        lines: b"check pairs 0 postponed 1 unequal\ncheck stuck 0 released 2 valid\n",
        held: false,
    },
    Row {
        name: "after the Wait and before it",
        first: Read::Told,
        second: Read::Posted,
        stuck: &[],
        release: &[1, 0],
        lines: b"check pairs 1 postponed 0 unequal\ncheck stuck 0 released 2 valid\n",
        held: false,
    },
    Row {
        name: "rank 0 is released twice",
        first: Read::Posted,
        second: Read::Posted,
        stuck: &[],
        release: &[0, 0],
        lines: b"check pairs 0 postponed 1 equal\ncheck stuck 0 released 2 invalid\n",
        held: false,
    },
    Row {
        name: "ranks that wait for nothing are stuck",
        first: Read::Posted,
        second: Read::Posted,
        stuck: &[0, 1],
        release: &[],
        lines: b"check pairs 0 postponed 1 equal\ncheck stuck 2 released 0 invalid\n",
        held: false,
    },
];

/// The two lines of a row, and whether both say so.
fn checked<R: Abort>(rt: &R, alloc: Global, row: &Row) -> (String, bool) {
    let first = table_of(rt, alloc, row.first);
    let second = table_of(rt, alloc, row.second);
    let mut states = Vec::new(alloc);
    let mut conditions = Vec::new(alloc);
    add_waiting(rt, &mut states, &mut conditions);
    add_waiting(rt, &mut states, &mut conditions);
    let verdict = verdict(rt, alloc, row.stuck, row.release);
    check_lines(alloc, &first, &second, &states, &conditions, &verdict).expect(rt, "memory")
}

#[test]
fn lines_of_a_check(rt: HostRuntime) {
    for row in &ROWS {
        let (lines, held) = checked(&rt, rt.alloc(), row);
        assert!(rt;
            lines.as_bytes() == row.lines && held == row.held,
            "{}",
            row.name
        );
    }
}
