//! The value of a diagnosis: what holds up a run, as lists of small facts.
//!
//! `trace_diagnosis` finds it, by contract, and `diagnosis_words` prints it. Neither needs the other, so their proofs run
//! side by side.
//!
//! To change something, open: a field or a fact: [`diagnosis`]; when it holds: the `specs/` of `trace_diagnosis`.
#![tactic(auto)]

mod diagnosis;

pub use diagnosis::{
    Beyond, CallGroup, Diagnosis, Doubts, Foreign, Held, Init, LastCall, LeftOver, MismatchedRound,
    NearMessage, NearReceive, Need, OpenRound, Operation, Polled, Polling, Root, RootKind, Rounds,
    Stand, Standing, Starving, Times, Unmatched, Waiting, Why,
};
pub use trace_stuck::RoundName;
