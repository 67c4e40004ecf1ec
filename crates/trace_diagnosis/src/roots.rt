//! The roots: what holds up ranks and is itself held up by nobody else.
//!
//! In the graph of the held ranks and of what they need these are the strongly connected components that nothing leads
//! out of, and the rounds that don't match. Where one root of a kind holds up the same ranks as another, the two are
//! one thing to say.

ghost use Rattle.std.specs.Prelude.{◌≡◌, ◌≤◌, ◌<◌, ◌+◌, ◌-◌, ◌^◌, ◌++◌, ◌∷◌, [], if◌then◌else◌, ℕ, All, IfOk, OnOk, true, false, filter, is_some, length, map, min, slice_index_or, vec_len};
ghost use Rattle.std.specs.List.Sorted.{IsPermutation, IsSortedByKey};
ghost use Rattle.std.specs.List.{Contains, filter_map, range_with_len};
ghost use Rattle.trace_stuck.specs.Graph.{edge, is_up, label_at};
ghost use Rattle.trace_stuck.specs.Hearts.{AreHearts};
ghost use Rattle.trace_stuck.specs.Named.{at_rank};
ghost use Rattle.trace_stuck.specs.declared.condition.RoundName.{RoundName as Name};
ghost use Rattle.trace_diagnosis.specs.Graph.{LeadOutOfHeld, has_not_ended};
ghost use Rattle.trace_diagnosis.specs.Roots.{AddsRoot, Covers, HaveComponent, HaveComponents, HaveRounds, IsInGraph, IsJoined, IsRoot, IsSound, KeepRoots, LeadFrom, is_labelled, is_round, kind_at, kind_number, members, root_place, root_place_cmp, round_of, round_place, rounds_in};
ghost use Rattle.diagnosis_value.specs.declared.diagnosis.Root.{Root as Told};
ghost use Rattle.diagnosis_value.specs.declared.diagnosis.RootKind.TheVariants.{Mismatch};

use crate::graph::{Graph, has_not_ended};
use crate::holding::is_up;
use crate::rounds::ranks_entered;
use diagnosis_value::{MismatchedRound, Need, Root, RootKind};
use std::alloc::{AllocError, Global};
use std::collections::BTreeMap;
use trace_ops::State;
use trace_stuck::{RoundName, firsts, hearts};

/// What is asked of the ranks.
#[derive(Clone, Copy)]
pub(crate) struct Ranks<'a> {
    pub count: u32,
    pub states: &'a [State],
    /// For each rank, whether it waits or polls.
    pub waits: &'a [bool],
    pub held: &'a [bool],
    /// The stuck ranks, in rising order.
    pub stuck: &'a [u32],
}

impl<'a> Ranks<'a> {
    /// Whether the rank hasn't ended.
    fn is_able(&self, rank: u32) -> bool
        ensures { result ≡ is_up (map has_not_ended self.now.states.now) rank }
    {
        match self.states.get(rank as usize) {
            Some(state) => has_not_ended(state),
            None => false,
        }
    }

    /// What a rank is that others need, and the others of its component.
    fn kind_of(&self, rank: u32) -> RootKind
        ensures { result ≡ kind_at (map has_not_ended self.now.states.now) self.now.held.now self.now.waits.now rank }
    {
        if is_up(self.held, rank) {
            RootKind::Cycle
        } else if !self.is_able(rank) {
            RootKind::Ended
        } else if is_up(self.waits, rank) {
            RootKind::Open
        } else {
            RootKind::Silent
        }
    }

    /// Whether all of these ranks are stuck.
    fn are_stuck(&self, ranks: &[u32]) -> bool {
        for rank in ranks {
            if self.stuck.binary_search(rank).is_err() {
                return false;
            }
        }
        true
    }
}

/// The label of a node.
fn label_at(labels: &[Option<u32>], node: u32) -> Option<u32>
    ensures { result ≡ label_at labels.now node }
{
    labels.get(node as usize).copied().unwrap_or(None)
}

/// Whether the node has this label.
fn is_labelled(labels: &[Option<u32>], least: u32, node: u32) -> bool
    ensures { result ≡ is_labelled labels.now least node }
{
    match label_at(labels, node) {
        Some(label) => label == least,
        None => false,
    }
}

/// Adds the rank, where it is to be kept.
fn push_if(found: &mut Vec<u32>, keep: bool, rank: u32) -> Result<(), AllocError>
    ensures { OnOk result (found.new.items ≡ found.old.items ++ (if keep then rank ∷ [] else [])) }
{
    if keep {
        found.push(rank)?;
    }
    Ok(())
}

/// The ranks with this label.
fn members(
    alloc: Global,
    labels: &[Option<u32>],
    ranks: u32,
    least: u32,
) -> Result<Vec<u32>, AllocError>
    ensures { IfOk result (λ found. found.items ≡ filter (is_labelled labels.now least) (range_with_len 0 ranks)) }
{
    let mut found = Vec::new(alloc);
    for rank in 0..ranks {
        push_if(&mut found, is_labelled(labels, least, rank), rank)?;
    }
    Ok(found)
}

/// Which nodes have this label.
fn flags_with(
    alloc: Global,
    labels: &[Option<u32>],
    count: u32,
    least: u32,
) -> Result<Vec<bool>, AllocError>
    ensures len { IfOk result (λ flags. vec_len flags ≡ count) }
    ensures flags { IfOk result (λ flags. (r : ℕ) → is_up flags.items r ≡ true → is_labelled labels.now least r ≡ true) }
{
    let mut flags = Vec::new(alloc);
    for node in 0..count {
        flags.push(is_labelled(labels, least, node))?;
    }
    Ok(flags)
}

/// Whether the rank has this need.
fn has_need(graph: &Graph, round: RoundName, rank: u32) -> bool {
    match graph.needs.get(rank as usize) {
        Some(needs) => needs.iter().any(|need| *need == Need::Round(round)),
        None => false,
    }
}

/// Which nodes need the round themselves.
fn flags_for(
    alloc: Global,
    graph: &Graph,
    count: u32,
    round: RoundName,
) -> Result<Vec<bool>, AllocError>
    ensures { IfOk result (λ flags. vec_len flags ≡ count) }
{
    let mut flags = Vec::new(alloc);
    for node in 0..count {
        flags.push(has_need(graph, round, node))?;
    }
    Ok(flags)
}

/// The held ranks that lead to a start, and aren't among these.
fn held_outside(
    alloc: Global,
    ranks: &Ranks<'_>,
    labels: &[Option<u32>],
    own: &[u32],
) -> Result<Vec<u32>, AllocError>
    ensures { IfOk result (λ found. All (λ r. (is_up ranks.now.held.now r ≡ true) × (is_some (label_at labels.now r) ≡ true)) found.items) }
{
    let mut found = Vec::new(alloc);
    for rank in 0..ranks.count {
        if is_up(ranks.held, rank)
            && label_at(labels, rank).is_some()
            && own.binary_search(&rank).is_err()
        {
            found.push(rank)?;
        }
    }
    Ok(found)
}

/// The nodes from which edges lead to these.
fn askers_of(alloc: Global, graph: &Graph, nodes: &[u32]) -> Result<Vec<u32>, AllocError> {
    let mut found = Vec::new(alloc);
    for node in nodes {
        if let Some(askers) = graph.askers.get(*node as usize) {
            found.extend_from_slice(askers)?;
        }
    }
    found.sort()?;
    found.dedup();
    Ok(found)
}

/// The ranks whose flags are up.
fn ranks_up(alloc: Global, flags: &[bool], count: u32) -> Result<Vec<u32>, AllocError>
    ensures { IfOk result (λ found. found.items ≡ filter (is_up flags.now) (range_with_len 0 count)) }
{
    let mut found = Vec::new(alloc);
    for rank in 0..count {
        push_if(&mut found, is_up(flags, rank), rank)?;
    }
    Ok(found)
}

/// Whether MPI leaves no way out of a root.
fn is_proved(ranks: &Ranks<'_>, kind: RootKind, own: &[u32], needed_by: &[u32]) -> bool {
    match kind {
        RootKind::Cycle => ranks.are_stuck(own),
        RootKind::Ended => ranks.are_stuck(needed_by),
        RootKind::Mismatch(_) | RootKind::Silent | RootKind::Open => false,
    }
}

/// The root of a component, by its least rank.
fn root_of_rank(
    alloc: Global,
    graph: &Graph,
    ranks: &Ranks<'_>,
    labels: &[Option<u32>],
    least: u32,
) -> Result<Root, AllocError>
    requires few { vec_len graph.now.edges ≤ 2 ^ 32 }
    requires count { vec_len graph.now.edges ≡ ranks.now.count + 1 }
    requires small { ranks.now.count < 2 ^ 31 }
    requires same { vec_len graph.now.askers ≡ vec_len graph.now.edges }
    requires askers { (r s : ℕ) → edge graph.now.askers.items s r ≡ edge graph.now.edges.items r s }
    ensures kind { IfOk result (λ root. root.kind ≡ kind_at (map has_not_ended ranks.now.states.now) ranks.now.held.now ranks.now.waits.now least) }
    ensures own { IfOk result (λ root. root.ranks.items ≡ members labels.now ranks.now.count least) }
    ensures holds_up { IfOk result (λ root. All (λ r. (is_up ranks.now.held.now r ≡ true) × LeadFrom graph.now.edges.items labels.now least r) root.holds_up.items) }
{
    let own = members(alloc, labels, ranks.count, least)?;
    let starts = flags_with(alloc, labels, ranks.count + 1, least)?;
    let leading = firsts(alloc, &graph.askers, &starts)?;
    let holds_up = held_outside(alloc, ranks, &leading, &own)?;
    let needed_by = askers_of(alloc, graph, &own)?;
    let kind = ranks.kind_of(least);
    let proved = is_proved(ranks, kind, &own, &needed_by);
    Ok(Root {
        kind,
        ranks: own,
        holds_up,
        needed_by,
        proved,
    })
}

/// The root of a round that doesn't match.
fn root_of_round(
    alloc: Global,
    graph: &Graph,
    ranks: &Ranks<'_>,
    round: RoundName,
    entered: Vec<u32>,
) -> Result<Root, AllocError>
    requires few { vec_len graph.now.edges ≤ 2 ^ 32 }
    requires count { vec_len graph.now.edges ≡ ranks.now.count + 1 }
    requires small { ranks.now.count < 2 ^ 31 }
    requires same { vec_len graph.now.askers ≡ vec_len graph.now.edges }
    ensures { IfOk result (λ root. root.kind ≡ Mismatch round) }
{
    let starts = flags_for(alloc, graph, ranks.count + 1, round)?;
    let leading = firsts(alloc, &graph.askers, &starts)?;
    let holds_up = held_outside(alloc, ranks, &leading, &entered)?;
    let needed_by = ranks_up(alloc, &starts, ranks.count)?;
    Ok(Root {
        kind: RootKind::Mismatch(round),
        ranks: entered,
        holds_up,
        needed_by,
        proved: false,
    })
}

/// Whether edges lead to the node.
fn is_needed(graph: &Graph, node: u32) -> bool
    ensures { result ≡ false → at_rank graph.now.askers.items node ≡ [] }
{
    match graph.askers.get(node as usize) {
        Some(askers) => !askers.is_empty(),
        None => false,
    }
}

/// Whether a rank is the least of a component of the graph.
fn is_root(graph: &Graph, ranks: &Ranks<'_>, labels: &[Option<u32>], rank: u32) -> bool
    ensures labelled { result ≡ true → is_labelled labels.now rank rank ≡ true }
    ensures other { result ≡ false → is_labelled labels.now rank rank ≡ true → (is_up ranks.now.held.now rank ≡ false) × (at_rank graph.now.askers.items rank ≡ []) }
{
    is_labelled(labels, rank, rank) && (is_up(ranks.held, rank) || is_needed(graph, rank))
}

/// Adds the root of which a rank is the least, where it is that of a component of the graph.
fn push_root(
    alloc: Global,
    graph: &Graph,
    ranks: &Ranks<'_>,
    labels: &[Option<u32>],
    rank: u32,
    roots: &mut Vec<Root>,
) -> Result<(), AllocError>
    requires few { vec_len graph.now.edges ≤ 2 ^ 32 }
    requires count { vec_len graph.now.edges ≡ ranks.now.count + 1 }
    requires small { ranks.now.count < 2 ^ 31 }
    requires same { vec_len graph.now.askers ≡ vec_len graph.now.edges }
    requires askers { (r s : ℕ) → edge graph.now.askers.items s r ≡ edge graph.now.edges.items r s }
    requires hearts { AreHearts graph.now.edges.items labels.now }
    ensures sound { OnOk result (All (IsRoot graph.now.edges.items ranks.now.held.now ranks.now.count) roots.old.items
        → All (IsRoot graph.now.edges.items ranks.now.held.now ranks.now.count) roots.new.items) }
    ensures kept { OnOk result ((root : Told) → Contains roots.old.items root → Contains roots.new.items root) }
    ensures more { OnOk result (is_labelled labels.now rank rank ≡ true → IsInGraph graph.now.edges.items ranks.now.held.now rank
        → HaveComponent (kind_at (map has_not_ended ranks.now.states.now) ranks.now.held.now ranks.now.waits.now rank) (members labels.now ranks.now.count rank) roots.new.items) }
{
    if !is_root(graph, ranks, labels, rank) {
        return Ok(());
    }
    let root = root_of_rank(alloc, graph, ranks, labels, rank)?;
    roots.push(root)?;
    Ok(())
}

/// The roots that are ranks, each component for itself.
fn roots_of_ranks(alloc: Global, graph: &Graph, ranks: &Ranks<'_>) -> Result<Vec<Root>, AllocError>
    requires few { vec_len graph.now.edges ≤ 2 ^ 32 }
    requires count { vec_len graph.now.edges ≡ ranks.now.count + 1 }
    requires small { ranks.now.count < 2 ^ 31 }
    requires same { vec_len graph.now.askers ≡ vec_len graph.now.edges }
    requires askers { (r s : ℕ) → edge graph.now.askers.items s r ≡ edge graph.now.edges.items r s }
    requires held { LeadOutOfHeld graph.now.edges.items ranks.now.held.now }
    ensures sound { IfOk result (λ roots. All (IsRoot graph.now.edges.items ranks.now.held.now ranks.now.count) roots.items) }
    ensures components { IfOk result (λ roots. HaveComponents graph.now.edges.items (map has_not_ended ranks.now.states.now) ranks.now.held.now ranks.now.waits.now ranks.now.count roots.items) }
{
    let labels = hearts(alloc, &graph.edges)?;
    let mut roots = Vec::new(alloc);
    for rank in 0..ranks.count {
        push_root(alloc, graph, ranks, &labels, rank, &mut roots)?;
    }
    Ok(roots)
}

/// The rounds that are needed, by object and number, each once.
fn rounds_needed(alloc: Global, all: &[Vec<Need>]) -> Result<Vec<RoundName>, AllocError>
    ensures { IfOk result (λ rounds. (round : Name) → Contains (rounds_in (map (λ v. v.items) all.now)) round → Contains rounds.items round) }
{
    let mut rounds = Vec::new(alloc);
    for needs in all {
        push_rounds(needs, &mut rounds)?;
    }
    rounds.sort_by_key(|round| (round.object, round.k))?;
    each_once(alloc, &rounds)
}

/// The rounds, without those that follow themselves.
fn each_once(alloc: Global, rounds: &[RoundName]) -> Result<Vec<RoundName>, AllocError>
    ensures { IfOk result (λ found. (round : Name) → Contains rounds.now round → Contains found.items round) }
{
    let mut found = Vec::new(alloc);
    for round in rounds {
        push_other(*round, &mut found)?;
    }
    Ok(found)
}

/// Adds the round, where it isn't the last.
fn push_other(round: RoundName, found: &mut Vec<RoundName>) -> Result<(), AllocError>
    ensures kept { OnOk result ((other : Name) → Contains found.old.items other → Contains found.new.items other) }
    ensures there { OnOk result (Contains found.new.items round) }
{
    if is_last(round, found) {
        return Ok(());
    }
    found.push(round)?;
    Ok(())
}

/// Whether the last of these is the round.
fn is_last(round: RoundName, found: &[RoundName]) -> bool
    ensures { result ≡ true → Contains found.now round }
{
    match found.last() {
        Some(last) => last.object == round.object && last.k == round.k,
        None => false,
    }
}

/// Adds the round that is needed, where it is one.
fn push_round(need: &Need, rounds: &mut Vec<RoundName>) -> Result<(), AllocError>
    ensures { OnOk result (rounds.new.items ≡ rounds.old.items ++ filter_map round_of (need.now ∷ [])) }
{
    match need {
        Need::Round(round) => {
            rounds.push(*round)?;
            Ok(())
        }
        Need::Rank(_) => Ok(()),
    }
}

/// Adds the rounds among the needs.
fn push_rounds(needs: &[Need], rounds: &mut Vec<RoundName>) -> Result<(), AllocError>
    ensures { OnOk result (rounds.new.items ≡ rounds.old.items ++ filter_map round_of needs.now) }
{
    for need in needs {
        push_round(need, rounds)?;
    }
    Ok(())
}

/// The ranks that have entered a round that doesn't match.
fn entered_in(
    alloc: Global,
    mismatched: &[MismatchedRound],
    round: RoundName,
) -> Result<Vec<u32>, AllocError> {
    let place = mismatched.partition_point(|one| (one.round.object, one.round.k)
        < (round.object, round.k));
    match mismatched.get(place) {
        Some(found) => ranks_entered(alloc, found),
        None => Ok(Vec::new(alloc)),
    }
}

/// Adds the roots that are rounds.
fn push_roots_of_rounds(
    alloc: Global,
    graph: &Graph,
    ranks: &Ranks<'_>,
    mismatched: &[MismatchedRound],
    roots: &mut Vec<Root>,
) -> Result<(), AllocError>
    requires few { vec_len graph.now.edges ≤ 2 ^ 32 }
    requires count { vec_len graph.now.edges ≡ ranks.now.count + 1 }
    requires small { ranks.now.count < 2 ^ 31 }
    requires same { vec_len graph.now.askers ≡ vec_len graph.now.edges }
    ensures sound { OnOk result (KeepRoots roots.old.items roots.new.items) }
    ensures kept { OnOk result ((root : Told) → Contains roots.old.items root → Contains roots.new.items root) }
    ensures rounds { OnOk result (HaveRounds (map (λ v. v.items) graph.now.needs.items) roots.new.items) }
{
    let rounds = rounds_needed(alloc, &graph.needs)?;
    for round in &rounds {
        let entered = entered_in(alloc, mismatched, *round)?;
        let root = root_of_round(alloc, graph, ranks, *round, entered)?;
        roots.push(root)?;
    }
    Ok(())
}

/// The place of a kind in the order of kinds.
fn kind_code(kind: RootKind) -> u8
    ensures { result ≡ kind_number kind }
{
    match kind {
        RootKind::Mismatch(_) => 0,
        RootKind::Cycle => 1,
        RootKind::Ended => 2,
        RootKind::Silent => 3,
        RootKind::Open => 4,
    }
}

/// Whether roots of this kind that hold up the same ranks are one root.
fn is_joined(kind: RootKind) -> bool
    ensures { result ≡ true → is_round kind ≡ false }
{
    match kind {
        RootKind::Mismatch(_) | RootKind::Cycle => false,
        RootKind::Ended | RootKind::Silent | RootKind::Open => true,
    }
}

/// Adds ranks, and puts all in rising order.
fn merge(own: &mut Vec<u32>, more: &[u32]) -> Result<(), AllocError>
    ensures { OnOk result (IsPermutation (own.old.items ++ more.now) own.new.items) }
{
    own.extend_from_slice(more)?;
    own.sort()?;
    Ok(())
}

/// Adds a root's own ranks to another root, which holds up the same.
fn join(into: &mut Root, root: &Root) -> Result<(), AllocError>
    ensures { OnOk result (IsJoined into.old root.now into.new) }
{
    merge(&mut into.ranks, &root.ranks)?;
    merge(&mut into.needed_by, &root.needed_by)?;
    into.needed_by.dedup();
    into.proved = into.proved && root.proved;
    Ok(())
}

/// Where roots stand that others may be joined with, by their kinds and by the ranks that they hold up.
type Places = BTreeMap<(u8, Vec<u32>), usize>;

/// Joins the root at a place with one that holds up the same.
fn join_at(roots: &mut Vec<Root>, place: usize, root: &Root) -> Result<(), AllocError>
    requires place { place < vec_len roots.old }
    requires ranks { is_round root.now.kind ≡ false }
    requires kind { (old : Told) → old ≡ slice_index_or roots.old.items place old → old.kind ≡ root.now.kind }
    ensures sound { OnOk result (AddsRoot roots.old.items root.now roots.new.items) }
    ensures kept { OnOk result ((other : Told) → Covers roots.old.items other → Covers roots.new.items other) }
    ensures there { OnOk result (Covers roots.new.items root.now) }
{
    join(&mut roots[place], root)
}

/// Whether the root at a place is of this kind.
fn is_of_kind(roots: &[Root], place: usize, kind: RootKind) -> bool
    ensures there { result ≡ true → place < length roots.now }
    ensures kind { result ≡ true → (root : Told) → root ≡ slice_index_or roots.now place root → kind_number root.kind ≡ kind_number kind }
{
    if place >= roots.len() {
        return false;
    }
    kind_code(roots[place].kind) == kind_code(kind)
}

/// Adds a root, or joins it with one that is there.
fn add(roots: &mut Vec<Root>, places: &mut Places, root: Root) -> Result<(), AllocError>
    ensures sound { OnOk result (AddsRoot roots.old.items root roots.new.items) }
    ensures kept { OnOk result ((other : Told) → Covers roots.old.items other → Covers roots.new.items other) }
    ensures there { OnOk result (Covers roots.new.items root) }
{
    if !is_joined(root.kind) {
        roots.push(root)?;
        return Ok(());
    }
    let key = (kind_code(root.kind), root.holds_up.clone()?);
    let place = places.get(&key).copied().unwrap_or(usize::MAX);
    if is_of_kind(roots.as_slice(), place, root.kind) {
        return join_at(roots, place, &root);
    }
    places.insert(key, roots.len())?;
    roots.push(root)?;
    Ok(())
}

/// The roots, where those of one kind that hold up the same ranks are one.
fn joined(alloc: Global, single: Vec<Root>) -> Result<Vec<Root>, AllocError>
    ensures sound { IfOk result (λ roots. KeepRoots single.items roots.items) }
    ensures covers { IfOk result (λ roots. (root : Told) → Contains single.items root → Covers roots.items root) }
{
    let mut roots = Vec::new(alloc);
    let mut places = Places::new(alloc);
    let mut rest = single;
    while let Some(root) = rest.pop() {
        add(&mut roots, &mut places, root)?;
    }
    Ok(roots)
}

/// The object and the number of a root's round.
fn place_of(kind: RootKind) -> (u32, u64)
    ensures { result ≡ round_place kind }
{
    match kind {
        RootKind::Mismatch(round) => (round.object, round.k),
        _ => (0, 0),
    }
}

/// How many ranks these are, as far as four bytes hold it.
fn count_of(own: &[u32], others: &[u32]) -> u32
    ensures { result ≡ min (length own.now + length others.now) (2 ^ 32 - 1) }
{
    own.len().saturating_add(others.len()).min(0xffff_ffff) as u32
}

/// By which roots are told: how many ranks they hold up or are, the most first; then their kinds, least ranks and
/// rounds.
fn order_of(root: &Root) -> (u32, u8, u32, u32, u64)
    ensures { result ≡ root_place root.now }
{
    let least = root.ranks.first().copied().unwrap_or(0);
    let place = place_of(root.kind);
    (
        u32::MAX - count_of(&root.ranks, &root.holds_up),
        kind_code(root.kind),
        least,
        place.0,
        place.1,
    )
}

/// The roots, in the order in which they are told.
pub(crate) fn roots_of(
    alloc: Global,
    graph: &Graph,
    ranks: &Ranks<'_>,
    mismatched: &[MismatchedRound],
) -> Result<Vec<Root>, AllocError>
    requires few { vec_len graph.now.edges ≤ 2 ^ 32 }
    requires count { vec_len graph.now.edges ≡ ranks.now.count + 1 }
    requires small { ranks.now.count < 2 ^ 31 }
    requires same { vec_len graph.now.askers ≡ vec_len graph.now.edges }
    requires askers { (r s : ℕ) → edge graph.now.askers.items s r ≡ edge graph.now.edges.items r s }
    requires held { LeadOutOfHeld graph.now.edges.items ranks.now.held.now }
    ensures sound { IfOk result (λ roots. All (IsSound graph.now.edges.items ranks.now.held.now ranks.now.count) roots.items) }
    ensures components { IfOk result (λ roots. HaveComponents graph.now.edges.items (map has_not_ended ranks.now.states.now) ranks.now.held.now ranks.now.waits.now ranks.now.count roots.items) }
    ensures rounds { IfOk result (λ roots. HaveRounds (map (λ v. v.items) graph.now.needs.items) roots.items) }
    ensures order { IfOk result (λ roots. IsSortedByKey root_place root_place_cmp roots.items) }
{
    let mut single = roots_of_ranks(alloc, graph, ranks)?;
    push_roots_of_rounds(alloc, graph, ranks, mismatched, &mut single)?;
    let mut roots = joined(alloc, single)?;
    roots.sort_by_key(|root| order_of(root))?;
    Ok(roots)
}
