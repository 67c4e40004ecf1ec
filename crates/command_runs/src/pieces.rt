//! What the pieces of a manifest tell, one by one and together.

pub(crate) mod answering;
pub(crate) mod any_order;
pub(crate) mod by_rank;
pub(crate) mod gatherer;
pub(crate) mod knowing;
pub(crate) mod known;
pub(crate) mod laws;
pub(crate) mod node_texts;
pub(crate) mod noted;
pub(crate) mod noted_reads;
pub(crate) mod packed;
pub(crate) mod piece;
pub(crate) mod rank_reads;
pub(crate) mod reads;
pub(crate) mod segments;
pub(crate) mod shares;
