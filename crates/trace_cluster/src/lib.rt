//! Two nodes of one run: a crew for each, and then one exchange over a socket of this machine.
//!
//! [`cluster`] runs the crews one after the other, each on a board of its own. Where all pieces gave
//! their segments, and all of these were joined, each node learns what it is told besides its pieces. Then
//! it listens on 127.0.0.1 at a port that the system gives, connects and accepts; a thread exchanges frames
//! for the first node, which leads, while the second follows. Each node keeps what it was told, and joins
//! what the other sends.
//!
//! Cost: both crews, a frame each way over the socket, and a merge with its answer in each node. The
//! thread reads what the first node knows and makes no answer; what it hears is held beside both nodes
//! until the first has joined it.
//!
//! - [`side`]: the two nodes; [`workload`]: the pieces of a node's workers, and what it is told besides
//! - [`fault`]: why a cluster leaves nothing
//! - [`crews`]: what both crews leave, and the first fault or refused segment
//! - [`exchange`]: two nodes that send each other what they know over a stream
//! - [`peer`]: a node as those know it who let two of them meet
//! - [`meeting`]: the socket, and the exchange over it
//! - [`nodes`]: one after the other
//!
//! A socket tells no bytes, so no contract says that both nodes know the same at the end; nor that a
//! call which waits returns.
//!
//! To change something, open:
//!
//! - what two nodes send each other, and what a refused exchange leaves: `src/exchange/leader.rt`,
//!   `src/exchange/follower.rt`, `specs/Exchange.antt`
//! - which refusal is named, and in what order: `src/crews.rt`, `src/meeting.rt`, `specs/Stopped.antt`
//!
//! # Choices
//!
//! - A fault says which step was refused, so what was done before is known. The meeting of both sides is a law, since
//!   no call sees both.
//! - The leading thread borrows what the first node knows, and gives back what it heard: the check finds no lemma that
//!   an answer may cross to a thread (`crates/node_tests/proofs/Crossing.antt` shows one by hand).
//! - Of two refused sides the one is named that stopped the other: a side that closes the connection makes the other's
//!   frame end short, or its device fail.
//! - A stranger at the socket is sent away. Who is accepted has the address of the own end, which is connected before,
//!   so the wait for it ends; after 1,024 strangers it is `Y3 Net`.
//!
//! Its tests are in `crates/node_tests/src/exchange.rt` and `crates/node_tests/src/unplugged.rt`, in `tests/cases/` and
//! in `tests/run/run_clusters`.
#![tactic(auto)]

mod crews;
mod exchange;
mod fault;
mod meeting;
mod nodes;
mod peer;
mod side;
mod workload;

pub use exchange::{ExchangeFault, exchange_frames, exchange_laws, follow, lead};
pub use fault::ClusterFault;
pub use nodes::cluster;
pub use side::Side;
pub use workload::Workload;
