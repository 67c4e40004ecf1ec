//! What each verb does over a layout, a manifest and the files of its pieces, up to the diagnosis.
//!
//! A verb is a function of a [`Run`], which has the layout and the manifest (`run_inputs`) and the files of the
//! manifest's pieces, and of the output. [`report`] reads the pieces, joins them into one knowledge, and writes its
//! answer; [`check`] makes it once more straight from the rules (`trace_check`), [`calls`] and [`timeline`] print every
//! call with its partner (`call_table`); [`pack`] writes what the pieces tell as bytes. [`replay`] runs the manifest's
//! schedule over nodes that exchange what they know (`trace_world`), and [`cluster`] lets two nodes read their pieces
//! and exchange what they know over a socket (`trace_cluster`). Nothing is written before the whole run is good;
//! `calls` and `timeline`, whose output may be longer than what is known, write it while they read the pieces again.
//!
//! `explain`, `graph` and `page`, which tell what holds up a run, stand above this crate, in `program_runs`, beside
//! what the words of the command line ask for and how the program ends. Here is what they begin with ([`noted_run`]),
//! and in `specs/Verbs.antt` what they print.
//!
//! The work is linear in the texts, but for the joins of their pieces (`trace_know`) and the answer
//! (`trace_node`). Memory holds what is known and the events of one piece; that of a replay also all
//! pieces' segments, a copy of them for each post, and the mails, and that of a cluster the bytes of all
//! texts, what packed files tell, and a copy of each node.
//!
//! ```text
//! a layout and a manifest ─▶ a verb ─▶ pieces ─▶ texts, packed files
//!                              │
//!                              ▼ output, or a fault
//! ```
//!
//! To change something, open:
//!
//! - what a verb prints, and why it is refused: `specs/Verbs.antt`; the verb's file in [`verbs`]
//! - how a piece is read ([`pieces::piece`], with notes in [`pieces::noted`]), and in which order pieces are refused:
//!   `specs/Pieces.antt`, `Traces.antt`, `Refusals.antt`, `Notes.antt`
//! - what all pieces tell ([`pieces::known`], [`pieces::knowing`]), and the answer to it rank by rank
//!   ([`pieces::answering`], [`pieces::by_rank`], [`pieces::any_order`]): `specs/Known.antt`, `Nodes.antt`,
//!   `Ranks.antt`
//! - packed files ([`pieces::packed`]), and which node of a cluster has what ([`pieces::shares`],
//!   [`pieces::node_texts`]): `specs/Packed.antt`, `Shares.antt`, `NodeTexts.antt`
//!
//! # Choices
//!
//! - A report of texts reads rank by rank: an answer needs what ranks did, so events go before the next rank is read.
//!   In another order a refused run may read twice, and with a pipe all is joined first.
//! - N1 keeps the first piece of a strange rank aside, since a node sees no pieces; the piece of a crew's fault is
//!   counted once more.
//! - A cluster runs by a function of its own: it may wait for threads and a socket, and its promises hold if it
//!   returns. `report` and `replay` promise that they return.
//! - A check rebuilds its index if there are packed files, since the index follows pieces of one rank.
//!
//! Its tests are in `tests/cases/` and `tests/rows/inputs.txt`, which the built program runs;
//! `crates/command_runs_tests` has what only files in memory show.
#![tactic(auto)]

mod pieces;
mod run;
mod verbs;

pub use pieces::laws::packed_laws;
pub use run::{Outcome, Run};
pub use verbs::calls::calls;
pub use verbs::check::check;
pub use verbs::check_json::check_as_json;
pub use verbs::cluster::cluster;
pub use verbs::noted_run::{NotedRun, noted_run};
pub use verbs::pack::pack;
pub use verbs::replay::replay;
pub use verbs::report::{report, report_as_json};
pub use verbs::timeline::timeline;
pub use verbs::writing::write_text;
