//! The two nodes of a cluster.

/// A node of a cluster, by its side of the exchange.
#[derive(Clone, Copy, Debug)]
pub enum Side {
    /// The node that leads.
    First,
    /// The node that follows.
    Second,
}
