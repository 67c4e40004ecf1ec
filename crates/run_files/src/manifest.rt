//! The manifest of a run: the pieces of its trace, each a text file of one rank or a file of packed
//! knowledge, and what its nodes are to do with them.

ghost use Rattle.std.specs.Prelude.{◌≡◌, IfOk, string_bytes};

use std::alloc::{AllocError, Global};
use std::marker::Model;

/// A file with some calls of one rank, one after another.
#[derive(Clone, Drop)]
pub struct Piece {
    rank: u32,
    first: u64,
    file: String,
    node: u8,
    worker: u8,
    cut: bool,
}

impl Model for Piece {
    ghost use Rattle.std.specs.Prelude.{string_bytes};
    ghost use Rattle.run_files.specs.Manifests.{PieceParts};

    ghost Value = { PieceParts };

    ghost view = { λ p. record { rank = p.rank; first = p.first; file = string_bytes p.file; node = p.node; worker = p.worker; cut = p.cut } };
}

impl Piece {
    ghost use Rattle.run_files.specs.Manifests.{marked, whole_text};

    /// The whole text of a rank, which names no node and no worker, and wasn't cut off.
    pub fn whole(rank: u32, file: String) -> Piece
        ensures { result ≡ whole_text rank (string_bytes file) }
    {
        Piece::new(rank, 0, file, (0, 0), false)
    }

    /// A text of the calls of `rank` from call `first` on, which this worker of this node posts, all counted from 0;
    /// and whether it may have been cut off.
    pub(crate) fn new(rank: u32, first: u64, file: String, at: (u8, u8), cut: bool) -> Piece
        ensures { result ≡ record { rank = rank; first = first; file = string_bytes file; node = at.0; worker = at.1; cut = cut } }
    {
        let (node, worker) = at;
        Piece {
            rank,
            first,
            file,
            node,
            worker,
            cut,
        }
    }

    /// The same text with another mark: whether it was cut off.
    pub fn marked(&self, cut: bool) -> Result<Piece, AllocError>
        ensures { IfOk result (λ piece. piece ≡ marked cut self.now) }
    {
        let file = self.file.clone()?;
        Ok(Piece::new(self.rank, self.first, file, (self.node, self.worker), cut))
    }

    /// The rank whose calls they are.
    pub fn rank(&self) -> u32
        ensures { result ≡ self.now.rank }
    {
        self.rank
    }

    /// The number of the first call among all calls of its rank, from 0.
    pub fn first(&self) -> u64
        ensures { result ≡ self.now.first }
    {
        self.first
    }

    /// The name of the file, as the manifest spells it.
    pub fn file(&self) -> &str
        ensures { result.now ≡ self.now.file }
    {
        self.file.as_str()
    }

    /// The node whose piece it is where each of two nodes has its own: 0 or 1.
    pub fn node(&self) -> u8
        ensures { result ≡ self.now.node }
    {
        self.node
    }

    /// The worker of that node that reads it: 0 or 1.
    pub fn worker(&self) -> u8
        ensures { result ≡ self.now.worker }
    {
        self.worker
    }

    /// Whether the text may have been cut off anywhere, as that of a killed run.
    pub fn is_cut(&self) -> bool
        ensures { result ≡ self.now.cut }
    {
        self.cut
    }
}

/// A file of packed knowledge.
#[derive(Drop)]
pub struct PackedPiece {
    file: String,
    node: u8,
}

impl Model for PackedPiece {
    ghost use Rattle.std.specs.Prelude.{string_bytes};
    ghost use Rattle.run_files.specs.Manifests.{PackedParts};

    ghost Value = { PackedParts };

    ghost view = { λ p. record { file = string_bytes p.file; node = p.node } };
}

impl PackedPiece {
    /// A packed piece in the file of this name, which this node takes.
    pub(crate) fn new(file: String, node: u8) -> PackedPiece
        ensures { result ≡ record { file = string_bytes file; node = node } }
    {
        PackedPiece { file, node }
    }

    /// The name of the file, as the manifest spells it.
    pub fn file(&self) -> &str
        ensures { result.now ≡ self.now.file }
    {
        let file = &self.file;
        file.as_str()
    }

    /// The node whose piece it is where each of two nodes has its own: 0 or 1.
    pub fn node(&self) -> u8
        ensures { result ≡ self.now.node }
    {
        self.node
    }
}

/// A step as the manifest writes it. All numbers count from 0.
#[derive(Clone, Copy)]
pub enum PlannedStep {
    /// A worker posts a piece to a node: each of its segments, in their order.
    Post {
        worker: u8,
        node: usize,
        /// The number of the piece in the list of pieces.
        piece: usize,
    },
    /// A node takes the first segment of its inbox.
    Take {
        node: usize,
    },
    /// What a node knows becomes the next mail.
    Ship {
        node: usize,
    },
    /// A node joins a mail into what it knows.
    Deliver {
        mail: usize,
        node: usize,
    },
    /// A node forgets all that it knows, and all segments of its inbox.
    Restart {
        node: usize,
    },
}

/// What a manifest names. Each piece that its schedule posts is one of its texts.
#[derive(Drop)]
pub struct Manifest {
    pieces: Vec<Piece>,
    packed: Vec<PackedPiece>,
    nodes: usize,
    schedule: Vec<PlannedStep>,
}

impl Model for Manifest {
    ghost use Rattle.run_files.specs.Manifests.{ManifestParts};

    ghost Value = { ManifestParts };

    ghost view = { λ m. record { pieces = m.pieces.items; packed = m.packed.items; nodes = m.nodes; schedule = m.schedule.items } };
}

impl Manifest {
    ghost use Rattle.std.specs.Prelude.{[]};
    ghost use Rattle.run_files.specs.Manifests.{manifest_of_texts};

    /// A manifest of these texts, packed pieces and steps for so many nodes.
    pub(crate) fn new(
        pieces: Vec<Piece>,
        packed: Vec<PackedPiece>,
        nodes: usize,
        schedule: Vec<PlannedStep>,
    ) -> Manifest
        ensures { result ≡ record { pieces = pieces.items; packed = packed.items; nodes = nodes; schedule = schedule.items } }
    {
        Manifest {
            pieces,
            packed,
            nodes,
            schedule,
        }
    }

    /// A manifest of texts alone, for one node, without a schedule.
    pub fn of_texts(alloc: Global, texts: Vec<Piece>) -> Manifest
        ensures { result ≡ manifest_of_texts texts.items }
    {
        Manifest::new(texts, Vec::new(alloc), 1, Vec::new(alloc))
    }

    /// The texts among the pieces, in the order in which the manifest lists them.
    pub fn pieces(&self) -> &[Piece]
        ensures { result.now ≡ self.now.pieces }
    {
        &self.pieces
    }

    /// The packed files among the pieces, in the order in which the manifest lists them.
    pub fn packed(&self) -> &[PackedPiece]
        ensures { result.now ≡ self.now.packed }
    {
        &self.packed
    }

    /// The number of nodes of the schedule. It can be any number here, while a world has 1 to 64.
    pub fn nodes(&self) -> usize
        ensures { result ≡ self.now.nodes }
    {
        self.nodes
    }

    /// The steps of the schedule, in their order. A piece that is posted has its number among the texts.
    pub fn schedule(&self) -> &[PlannedStep]
        ensures { result.now ≡ self.now.schedule }
    {
        &self.schedule
    }
}
