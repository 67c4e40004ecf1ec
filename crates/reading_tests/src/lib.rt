//! Tests of `mpi_model`, `dumpi_text`, `dumpi_calls` and `trace_know`: of what no contract of theirs says and
//! no run of the program shows.
//!
//! What a text says to a user stands in `tests/rows/texts.txt`, as rows that `tests/run/run_texts` gives to
//! the built program. docs/gate.md says what makes a test cheap to prove. A failure names its row.
//!
//! | File | Tests |
//! |---|---|
//! | `devices` | devices over readers and writers of std |
//! | `memory`, `whole` | readers and writers in memory, whole pieces |
//! | `times`, `values` | why a text is no time, and how values are kept |
//! | `failing` | a reader that fails in the midst of a text |
//! | `sinks`, `walks` | a sink of one's own, one that refuses, one that counts |
//! | `events` | a call after one that has not returned |
//! | `pieces`, `ways` | pieces that are taken, joined and copied in every way |
//! | `refused` | a text where memory is refused |
//! | `printed` | what faults and envelopes print |
#![tactic(auto)]

#[cfg(test)]
mod devices;
#[cfg(test)]
mod events;
#[cfg(test)]
mod failing;
#[cfg(test)]
mod memory;
#[cfg(test)]
mod pieces;
#[cfg(test)]
mod printed;
#[cfg(test)]
mod refused;
#[cfg(test)]
mod sinks;
#[cfg(test)]
mod times;
#[cfg(test)]
mod values;
#[cfg(test)]
mod walks;
#[cfg(test)]
mod ways;
#[cfg(test)]
mod whole;
