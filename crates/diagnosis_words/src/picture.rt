//! A diagnosis as a picture, in the language of Graphviz.

use crate::groups::{Group, group_of, key_of};
use crate::needed::{Others, holds, one_holds};
use crate::source::Source;
use crate::texts::TextFacts;
use crate::writer::Writer;
use call_words::Text;
use diagnosis_value::{
    Diagnosis, Held, MismatchedRound, Need, RootKind, RoundName, Stand, Standing,
};
use mpi_model::Layout;
use std::alloc::{AllocError, Global};
use std::collections::{BTreeMap, BTreeSet};
use trace_stuck::Condition;

/// The most nodes, unless all are asked for.
const MOST_NODES: usize = 200;

/// Draws a diagnosis as Graphviz DOT: a node for ranks that stand alike and need the same, with an edge to what they
/// need, through a point with dashed edges where one of several is enough. What holds up the run is filled, with a bold
/// outline where it has ended or gives no sign; a round whose calls don't match is a node with its calls. Fails with
/// `AllocError` when memory is refused.
pub fn diagnosis_picture(
    alloc: Global,
    layout: &Layout,
    diagnosis: &Diagnosis,
    texts: &TextFacts,
    all: bool,
) -> Result<Vec<u8>, AllocError> {
    let source = Source {
        alloc,
        layout,
        diagnosis,
        texts,
    };
    let ranks = drawn_ranks(source)?;
    let whole = nodes_of(source, ranks.as_slice(), true)?;
    if all || whole.nodes.len() <= MOST_NODES {
        let picture = picture_of(source, whole, all)?;
        if all || picture.count <= MOST_NODES {
            let Picture { out, .. } = picture;
            return out.into_bytes();
        }
    }
    let shapes = nodes_of(source, ranks.as_slice(), false)?;
    let Picture { out, .. } = picture_of(source, shapes, all)?;
    out.into_bytes()
}

/// A picture with these nodes of ranks.
fn picture_of(source: Source<'_>, nodes: Nodes, all: bool) -> Result<Picture<'_>, AllocError> {
    let mut picture = Picture {
        out: Text::new(source.alloc),
        source,
        nodes,
        all,
        points: 0,
        count: 0,
        edges: BTreeSet::new(source.alloc),
    };
    picture.put_all()?;
    Ok(picture)
}

/// Ranks that are drawn as one.
#[derive(Drop)]
struct Node {
    group: Group,
    /// How many nodes of one shape it stands for.
    shapes: usize,
}

/// All nodes of ranks, and of each rank the place of its node.
#[derive(Drop)]
struct Nodes {
    nodes: Vec<Node>,
    of_ranks: BTreeMap<u32, usize>,
}

/// The ranks that are held, and those of the roots, in rising order.
fn drawn_ranks(source: Source<'_>) -> Result<Vec<u32>, AllocError> {
    let waiting = &source.diagnosis.waiting;
    let mut ranks = Vec::new(source.alloc);
    for held in waiting.held.iter() {
        ranks.push(held.rank)?;
    }
    for root in waiting.roots.iter() {
        if !matches!(root.kind, RootKind::Mismatch(_)) {
            ranks.extend_from_slice(root.ranks.as_slice())?;
        }
    }
    ranks.sort()?;
    let mut once = Vec::new(source.alloc);
    let mut before = None;
    for rank in ranks.iter() {
        if before != Some(*rank) {
            once.push(*rank)?;
        }
        before = Some(*rank);
    }
    Ok(once)
}

/// What a rank needs, in a key.
fn put_needs(key: &mut Text, held: &Held) {
    key.put(if is_one_of(&held.waits) { b"1" } else { b"*" });
    for need in held.needs.iter() {
        match need {
            Need::Rank(rank) => {
                key.put(b"r");
                key.put_number(*rank as u64);
            }
            Need::Round(round) => {
                key.put(b"c");
                key.put_number(round.object as u64);
                key.put(b"k");
                key.put_number(round.k);
            }
        }
    }
}

/// Whether one of the parts of a condition is enough.
fn is_one_of(condition: &Condition) -> bool {
    matches!(condition, Condition::One(_) | Condition::OneRank(_))
}

/// How the node of a rank is drawn: what holds up the run is filled, and bold where it has ended or gives no sign.
fn style_of(source: Source<'_>, rank: u32) -> &'static [u8] {
    match source.root_of(rank) {
        Some(root) => style_of_kind(root.kind),
        None => b"",
    }
}

/// How ranks of a root are drawn.
fn style_of_kind(kind: RootKind) -> &'static [u8] {
    match kind {
        RootKind::Mismatch(_) => b"",
        RootKind::Cycle | RootKind::Open => b", style=filled",
        RootKind::Ended | RootKind::Silent => b", style=\"filled,bold\"",
    }
}

/// What ranks have in common that are drawn as one: how they are drawn, how they stand, and what they need; or their
/// shape alone.
fn node_key(
    source: Source<'_>,
    standing: &Standing,
    is_whole: bool,
) -> Result<Vec<u8>, AllocError> {
    let mut key = Text::new(source.alloc);
    key.put(style_of(source, standing.rank));
    if is_whole {
        key.put(key_of(source, standing)?.as_slice());
        if let Some(held) = source.held(standing.rank) {
            put_needs(&mut key, held);
        }
    } else if let Some(last) = &standing.call {
        key.put(source.function(standing.rank, last.number, &last.call));
        key.put(if standing.stand == Stand::In {
            b" in"
        } else {
            b" on"
        });
        key.put(if source.held(standing.rank).is_some() {
            b"+"
        } else {
            b"-"
        });
    }
    key.into_bytes()
}

/// Whether no rank before has all of this in common with a rank.
fn is_first(
    source: Source<'_>,
    standing: &Standing,
    wholes: &mut BTreeSet<Vec<u8>>,
) -> Result<bool, AllocError> {
    let whole = node_key(source, standing, true)?;
    if wholes.contains(&whole) {
        return Ok(false);
    }
    wholes.insert(whole)?;
    Ok(true)
}

/// The nodes of these ranks.
fn nodes_of(source: Source<'_>, ranks: &[u32], is_whole: bool) -> Result<Nodes, AllocError> {
    let alloc = source.alloc;
    let mut nodes: Vec<Node> = Vec::new(alloc);
    let mut places: BTreeMap<Vec<u8>, usize> = BTreeMap::new(alloc);
    let mut wholes = BTreeSet::new(alloc);
    let mut of_ranks = BTreeMap::new(alloc);
    for rank in ranks {
        let Some(standing) = source.standing(*rank) else {
            continue;
        };
        let key = node_key(source, standing, is_whole)?;
        let is_new = !is_whole && is_first(source, standing, &mut wholes)?;
        let known = places.get(&key).copied();
        match known {
            Some(at) => {
                if let Some(node) = nodes.as_mut_slice().get_mut(at) {
                    node.group.add(standing)?;
                    if is_new {
                        node.shapes = node.shapes.saturating_add(1);
                    }
                }
                of_ranks.insert(*rank, at)?;
            }
            None => {
                of_ranks.insert(*rank, nodes.len())?;
                places.insert(key, nodes.len())?;
                nodes.push(Node {
                    group: group_of(alloc, standing)?,
                    shapes: 1,
                })?;
            }
        }
    }
    Ok(Nodes { nodes, of_ranks })
}

/// A picture that grows.
#[derive(Drop)]
struct Picture<'a> {
    out: Text,
    source: Source<'a>,
    nodes: Nodes,
    all: bool,
    /// How many points were drawn.
    points: u64,
    /// How many nodes were drawn.
    count: usize,
    /// The edges that were drawn, each as its line.
    edges: BTreeSet<Vec<u8>>,
}

/// A node, by what it is drawn of.
#[derive(Clone, Copy)]
enum Name {
    Ranks(usize),
    Round(RoundName),
    Point(u64),
}

/// The name of a node.
fn put_name(out: &mut Text, name: Name) {
    match name {
        Name::Ranks(at) => {
            out.put(b"r");
            out.put_number(at as u64);
        }
        Name::Round(round) => {
            out.put(b"c");
            out.put_number(round.object as u64);
            out.put(b"_");
            out.put_number(round.k);
        }
        Name::Point(n) => {
            out.put(b"p");
            out.put_number(n);
        }
    }
}

impl<'a> Picture<'a> {
    /// The beginning of a node's line.
    fn put_node(&mut self, name: Name) {
        self.count = self.count.saturating_add(1);
        self.out.put(b"  ");
        put_name(&mut self.out, name);
    }

    /// Words as a label: a line feed, a quote and a backslash stand escaped.
    fn put_label(&mut self, words: &[u8]) {
        self.out.put(b" [label=\"");
        for byte in words {
            match *byte {
                b'\n' => self.out.put(b"\\n"),
                b'"' => self.out.put(b"\\\""),
                b'\\' => self.out.put(b"\\\\"),
                other => self.out.put(&[other]),
            }
        }
        self.out.put(b"\"");
    }

    /// What is said of the node of ranks at a place.
    fn words_at(&self, at: usize) -> Result<Vec<u8>, AllocError> {
        let mut words = Writer::new(self.source, self.all);
        if let Some(node) = self.nodes.nodes.as_slice().get(at) {
            words.put_node(&node.group);
            if node.shapes > 1 {
                words.put(b"\nand ");
                words.put_number(node.shapes.saturating_sub(1) as u64);
                words.put(b" more like it");
            }
        }
        let Writer { out, .. } = words;
        out.into_bytes()
    }

    /// The first rank of the node at a place.
    fn first_at(&self, at: usize) -> u32 {
        match self.nodes.nodes.as_slice().get(at) {
            Some(node) => node.group.first(),
            None => 0,
        }
    }

    /// The node of ranks at a place.
    fn put_ranks_node(&mut self, at: usize) -> Result<(), AllocError> {
        let words = self.words_at(at)?;
        let style = style_of(self.source, self.first_at(at));
        self.put_node(Name::Ranks(at));
        self.put_label(words.as_slice());
        self.out.put(style);
        self.out.put(b"];\n");
        Ok(())
    }

    /// What is said of a round whose calls don't match.
    fn words_of_round(&self, round: &MismatchedRound) -> Result<Vec<u8>, AllocError> {
        let mut words = Writer::new(self.source, self.all);
        words.put_round_node(round);
        let Writer { out, .. } = words;
        out.into_bytes()
    }

    /// The rounds that hold up the run.
    fn put_rounds(&mut self) -> Result<(), AllocError> {
        let rounds = &self.source.diagnosis.rounds.mismatched;
        for root in self.source.diagnosis.waiting.roots.iter() {
            if let RootKind::Mismatch(name) = root.kind {
                if let Some(round) = rounds.iter().find(|round| round.round == name) {
                    let words = self.words_of_round(round)?;
                    self.put_node(Name::Round(name));
                    self.put_label(words.as_slice());
                    self.out.put(b", style=filled];\n");
                }
            }
        }
        Ok(())
    }

    /// The line of an edge, dashed where one of several is enough.
    fn edge(&self, from: Name, to: Name, is_dashed: bool) -> Result<Vec<u8>, AllocError> {
        let mut line = Text::new(self.source.alloc);
        line.put(b"  ");
        put_name(&mut line, from);
        line.put(b" -> ");
        put_name(&mut line, to);
        line.put(if is_dashed {
            b" [style=dashed];\n".as_slice()
        } else {
            b";\n".as_slice()
        });
        line.into_bytes()
    }

    /// An edge, once.
    fn put_edge(&mut self, from: Name, to: Name, is_dashed: bool) -> Result<(), AllocError> {
        let line = self.edge(from, to, is_dashed)?;
        if !self.edges.contains(&line) {
            self.out.put(line.as_slice());
            self.edges.insert(line)?;
        }
        Ok(())
    }

    /// An edge to a rank.
    fn put_edge_to(&mut self, from: Name, rank: u32, is_dashed: bool) -> Result<(), AllocError> {
        match self.nodes.of_ranks.get(&rank).copied() {
            Some(at) => self.put_edge(from, Name::Ranks(at), is_dashed),
            None => Ok(()),
        }
    }

    /// Edges to nodes of ranks, each once.
    fn put_edges_to_nodes(
        &mut self,
        from: Name,
        places: Vec<usize>,
        is_dashed: bool,
    ) -> Result<(), AllocError> {
        let mut places = places;
        places.sort()?;
        places.dedup();
        for at in places.iter() {
            self.put_edge(from, Name::Ranks(*at), is_dashed)?;
        }
        Ok(())
    }

    /// Edges to all of the ranks.
    fn put_edges_to(&mut self, from: Name, ranks: &[u32]) -> Result<(), AllocError> {
        let mut places = Vec::new(self.source.alloc);
        for rank in ranks {
            if let Some(at) = self.nodes.of_ranks.get(rank) {
                places.push(*at)?;
            }
        }
        self.put_edges_to_nodes(from, places, false)
    }

    /// Edges to those of the ranks of which one is enough that may still go on, or to all where none may.
    fn put_edges_to_one(
        &mut self,
        from: Name,
        ranks: &[u32],
        others: Others<'a>,
    ) -> Result<(), AllocError> {
        let may_one = others.has_one(ranks);
        let mut places = Vec::new(self.source.alloc);
        for rank in ranks {
            if !may_one || others.has(*rank) {
                if let Some(at) = self.nodes.of_ranks.get(rank) {
                    places.push(*at)?;
                }
            }
        }
        self.put_edges_to_nodes(from, places, true)
    }

    /// A point below a node.
    fn put_point(&mut self, from: Name, is_dashed: bool) -> Result<Name, AllocError> {
        let point = Name::Point(self.points);
        self.points = self.points.saturating_add(1);
        self.put_node(point);
        self.out.put(b" [shape=point];\n");
        self.put_edge(from, point, is_dashed)?;
        Ok(point)
    }

    /// Where the edges to all parts of a condition begin: at the node, and at a point where it is one of several.
    fn all_from(&mut self, from: Name, is_dashed: bool) -> Result<Name, AllocError> {
        if is_dashed {
            self.put_point(from, true)
        } else {
            Ok(from)
        }
    }

    /// What a held rank needs of a condition that doesn't hold, drawn from a node.
    #[cycle(parts)]
    fn put_condition(
        &mut self,
        condition: &Condition,
        others: Others<'a>,
        from: Name,
        is_dashed: bool,
    ) -> Result<(), AllocError> {
        match condition {
            Condition::Yes => Ok(()),
            Condition::Rank(rank) => self.put_edge_to(from, *rank, is_dashed),
            Condition::Mismatched(round) => self.put_edge(from, Name::Round(*round), is_dashed),
            Condition::All(parts) => {
                let from = self.all_from(from, is_dashed)?;
                self.put_all_parts(parts.as_slice(), others, from)
            }
            Condition::AllRanks(ranks) => {
                let from = self.all_from(from, is_dashed)?;
                self.put_edges_to(from, ranks.as_slice())
            }
            Condition::One(parts) => {
                let point = self.put_point(from, is_dashed)?;
                self.put_one_parts(parts.as_slice(), others, point)
            }
            Condition::OneRank(ranks) => {
                let point = self.put_point(from, is_dashed)?;
                self.put_edges_to_one(point, ranks.as_slice(), others)
            }
        }
    }

    /// What is needed of the parts of which all have to hold: those that don't hold where no rank can go on.
    #[cycle(parts)]
    fn put_all_parts(
        &mut self,
        parts: &[Condition],
        others: Others<'a>,
        from: Name,
    ) -> Result<(), AllocError> {
        let nobody = Others {
            source: others.source,
            but: None,
        };
        for part in parts {
            if !holds(part, nobody) {
                self.put_condition(part, others, from, false)?;
            }
        }
        Ok(())
    }

    /// What is needed of the parts of which one is enough: those that would hold if all others went on that haven't
    /// ended, and all where none would.
    #[cycle(parts)]
    fn put_one_parts(
        &mut self,
        parts: &[Condition],
        others: Others<'a>,
        from: Name,
    ) -> Result<(), AllocError> {
        let may_one = one_holds(parts, others);
        for part in parts {
            if !may_one || holds(part, others) {
                self.put_condition(part, others, from, true)?;
            }
        }
        Ok(())
    }

    /// The edges of a node of ranks, by the first of them.
    fn put_edges(&mut self, at: usize) -> Result<(), AllocError> {
        let rank = self.first_at(at);
        let others = Others {
            source: self.source,
            but: Some(rank),
        };
        match self.source.held(rank) {
            Some(held) => self.put_condition(&held.waits, others, Name::Ranks(at), false),
            None => Ok(()),
        }
    }

    /// The whole picture.
    fn put_all(&mut self) -> Result<(), AllocError> {
        self.out
            .put(b"strict digraph diagnosis {\n  node [shape=box];\n");
        self.put_rounds()?;
        for at in 0..self.nodes.nodes.len() {
            self.put_ranks_node(at)?;
        }
        for at in 0..self.nodes.nodes.len() {
            self.put_edges(at)?;
        }
        self.out.put(b"}\n");
        Ok(())
    }
}
