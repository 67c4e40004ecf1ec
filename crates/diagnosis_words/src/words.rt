//! A diagnosis in words.

use crate::disagreements::{Alike, alike_in};
use crate::groups::{Group, groups_of};
use crate::sentences::headline_of;
use crate::source::Source;
use crate::texts::TextFacts;
use crate::writer::Writer;
use diagnosis_value::{Diagnosis, LeftOver, Starving};
use mpi_model::Layout;
use std::alloc::{AllocError, Global};

/// The most lines of a list, and the fewest to which it is cut where there is much to say.
const MOST_SHOWN: usize = 10;

const FEWEST_SHOWN: usize = 3;

/// The most groups of ranks that are told.
const MOST_GROUPS: usize = 20;

/// The most lines of ranks below what holds up the run.
const MOST_MEMBERS: usize = 8;

/// The most lines of all, and the most bytes of a line.
const MOST_LINES: usize = 60;

const LONGEST_LINE: usize = 400;

/// Lines that are said beside the lists: the first two, the other sends and the doubts with their heads.
const OTHER_LINES: usize = 14;

/// Says a diagnosis in words: what holds up the run, where all ranks stand, and what else is known. A list is cut at
/// ten lines, unless `all` is asked for. Fails with `AllocError` when memory is refused.
pub fn diagnosis_words(
    alloc: Global,
    layout: &Layout,
    diagnosis: &Diagnosis,
    texts: &TextFacts,
    all: bool,
) -> Result<Vec<u8>, AllocError> {
    let source = Source {
        alloc,
        layout,
        diagnosis,
        texts,
    };
    let lists = lists_of(source)?;
    let cap = cap_of(&lists, all);
    let mut writer = Writer::new(source, all);
    let headline = headline_of(&writer)?;
    writer.put_headline(headline);
    writer.put_summary();
    writer.put_roots(cap)?;
    writer.put_arguments(&lists, cap);
    writer.put_groups(&lists, cap);
    writer.put_other_rounds(&lists, cap);
    writer.put_open_rounds(cap);
    writer.put_message_lists(&lists, cap);
    writer.put_end();
    let Writer { out, .. } = writer;
    clipped(alloc, &out.into_bytes()?, all)
}

/// What is told in lists, in the order in which it is told.
#[derive(Drop)]
struct Lists {
    groups: Vec<Group>,
    /// The rounds in which arguments don't agree, those that are told together as one.
    arguments: Vec<Alike>,
    /// The places of the rounds whose calls don't match and that hold up nothing by themselves.
    mismatched: Vec<usize>,
    /// The places of left-over messages and of starving receives.
    left_over: Vec<usize>,
    starving: Vec<usize>,
    /// How many lines each list would have.
    lengths: Vec<usize>,
}

/// The places of a list by the order in which its elements are told: 0, 1 or 2.
fn places_by(alloc: Global, orders: &[u8]) -> Result<Vec<usize>, AllocError> {
    let mut places = Vec::new(alloc);
    for wanted in 0..3 {
        for (i, order) in orders.iter().enumerate() {
            if *order == wanted {
                places.push(i)?;
            }
        }
    }
    Ok(places)
}

/// The order of each of these messages.
fn orders_of_left(alloc: Global, left: &[LeftOver]) -> Result<Vec<u8>, AllocError> {
    let mut orders = Vec::new(alloc);
    for one in left {
        orders.push(order_of_left(one))?;
    }
    Ok(orders)
}

/// The order of each of these receives.
fn orders_of_starving(alloc: Global, starving: &[Starving]) -> Result<Vec<u8>, AllocError> {
    let mut orders = Vec::new(alloc);
    for one in starving {
        orders.push(order_of_starving(one))?;
    }
    Ok(orders)
}

/// In which order a message is told.
fn order_of_left(left: &LeftOver) -> u8 {
    order_of(left.near.is_empty(), left.before)
}

/// In which order a receive is told.
fn order_of_starving(starving: &Starving) -> u8 {
    order_of(starving.near.is_empty(), starving.before)
}

/// Those with a nearest miss come first, then those of which none came through before.
fn order_of(is_far: bool, before: u64) -> u8 {
    if !is_far {
        0
    } else if before == 0 {
        1
    } else {
        2
    }
}

/// The places of the mismatched rounds that are no roots: those are told where the roots are.
fn other_rounds(source: Source<'_>) -> Result<Vec<usize>, AllocError> {
    let mut places = Vec::new(source.alloc);
    for (i, round) in source.diagnosis.rounds.mismatched.iter().enumerate() {
        if !source.is_root_round(round.round) {
            places.push(i)?;
        }
    }
    Ok(places)
}

/// How the ranks stand, in groups of those that stand alike.
fn standing_groups(source: Source<'_>) -> Result<Vec<Group>, AllocError> {
    let mut ranks = Vec::new(source.alloc);
    for standing in source.diagnosis.waiting.standing.iter() {
        ranks.push(standing.rank)?;
    }
    groups_of(source, ranks.as_slice())
}

/// The messages that are left over, in the order in which they are told.
fn places_of_left(source: Source<'_>) -> Result<Vec<usize>, AllocError> {
    let left = source.diagnosis.unmatched.left_over.as_slice();
    places_by(source.alloc, orders_of_left(source.alloc, left)?.as_slice())
}

/// The receives that starve, in the order in which they are told.
fn places_of_starving(source: Source<'_>) -> Result<Vec<usize>, AllocError> {
    let starving = source.diagnosis.unmatched.starving.as_slice();
    places_by(
        source.alloc,
        orders_of_starving(source.alloc, starving)?.as_slice(),
    )
}

/// The lists of a diagnosis.
fn lists_of(source: Source<'_>) -> Result<Lists, AllocError> {
    let diagnosis = source.diagnosis;
    let left_over = places_of_left(source)?;
    let starving = places_of_starving(source)?;
    let groups = standing_groups(source)?;
    let mismatched = other_rounds(source)?;
    let arguments = alike_in(source)?;
    let lengths = Vec::from_slice(
        source.alloc,
        &[
            diagnosis.waiting.roots.len(),
            groups.len(),
            mismatched.len(),
            diagnosis.rounds.open.len(),
            left_over.len(),
            starving.len(),
            diagnosis.unmatched.unfinished.len(),
            source.texts.truncated.len(),
            arguments.len(),
        ],
    )?;
    Ok(Lists {
        groups,
        arguments,
        mismatched,
        left_over,
        starving,
        lengths,
    })
}

/// How many lines a list has that is cut: its own, its head with a blank line before it, and how many more there are.
fn lines_of(length: usize, cap: usize) -> usize {
    if length == 0 {
        0
    } else if length <= cap {
        length.saturating_add(2)
    } else {
        cap.saturating_add(3)
    }
}

/// How many lines all lists have that are cut at so many.
fn all_lines(lists: &Lists, cap: usize) -> usize {
    let mut lines: usize = 0;
    for (i, length) in lists.lengths.iter().enumerate() {
        let most = if i == 1 { cap } else { cap.min(MOST_SHOWN) };
        lines = lines.saturating_add(lines_of(*length, most));
    }
    lines
}

/// At how many lines the lists are cut, so that all of them have room.
fn cap_of(lists: &Lists, all: bool) -> usize {
    if all {
        return usize::MAX;
    }
    let room = MOST_LINES
        .saturating_sub(OTHER_LINES)
        .saturating_sub(MOST_MEMBERS);
    for less in 0..MOST_GROUPS {
        let cap = MOST_GROUPS.saturating_sub(less);
        if cap <= FEWEST_SHOWN || all_lines(lists, cap) <= room {
            return cap;
        }
    }
    FEWEST_SHOWN
}

/// The front of a list.
pub(crate) fn front<T>(list: &[T], cap: usize) -> &[T] {
    list.get(..cap).unwrap_or(list)
}

impl<'a> Writer<'a> {
    /// How many more there are than are told.
    pub(crate) fn put_more(&mut self, length: usize, cap: usize) {
        if length > cap {
            self.put(b"  and ");
            self.put_number(length.saturating_sub(cap) as u64);
            self.put(b" more\n");
        }
    }

    /// What holds up the run.
    fn put_roots(&mut self, cap: usize) -> Result<(), AllocError> {
        let roots = self.source.diagnosis.waiting.roots.as_slice();
        if roots.is_empty() {
            return Ok(());
        }
        self.put(b"\nWhat holds up the run:\n");
        let cap = self.list_cap(cap);
        let mut members: usize = 0;
        for root in front(roots, cap) {
            self.put_root(root);
            members = self.put_root_members(root, members, MOST_MEMBERS)?;
        }
        self.put_more(roots.len(), cap);
        Ok(())
    }

    /// At how many lines a list is cut that isn't one of groups of ranks.
    fn list_cap(&self, cap: usize) -> usize {
        if self.all { cap } else { cap.min(MOST_SHOWN) }
    }

    /// Arguments that don't agree.
    fn put_arguments(&mut self, lists: &Lists, cap: usize) {
        let cap = self.list_cap(cap);
        let truncated = self.source.texts.truncated.as_slice();
        if !truncated.is_empty() {
            self.put(b"\nMessages that are longer than their receives:\n");
            for one in front(truncated, cap) {
                self.put_truncated_line(one);
            }
            self.put_more(truncated.len(), cap);
        }
        let arguments = lists.arguments.as_slice();
        if !arguments.is_empty() {
            self.put(b"\nCollective calls whose arguments don't agree:\n");
            for alike in front(arguments, cap) {
                self.put_disagreement_line(*alike);
            }
            self.put_more(arguments.len(), cap);
        }
    }

    /// Where the ranks stand.
    fn put_groups(&mut self, lists: &Lists, cap: usize) {
        self.put(b"\nWhere the ranks stand:\n");
        for group in front(lists.groups.as_slice(), cap) {
            self.put_group_line(group);
        }
        self.put_more(lists.groups.len(), cap);
    }

    /// Rounds that don't match, but for those that are told among what holds up the run.
    fn put_other_rounds(&mut self, lists: &Lists, cap: usize) {
        let places = lists.mismatched.as_slice();
        if places.is_empty() {
            return;
        }
        let cap = self.list_cap(cap);
        let rounds = self.source.diagnosis.rounds.mismatched.as_slice();
        self.put(if places.len() < rounds.len() {
            b"\nOther rounds of collective calls that don't match:\n".as_slice()
        } else {
            b"\nRounds of collective calls that don't match:\n".as_slice()
        });
        for at in front(places, cap) {
            if let Some(round) = rounds.get(*at) {
                self.put_mismatched_line(round);
            }
        }
        self.put_more(places.len(), cap);
    }

    /// Open rounds.
    fn put_open_rounds(&mut self, cap: usize) {
        let cap = self.list_cap(cap);
        let open = self.source.diagnosis.rounds.open.as_slice();
        if !open.is_empty() {
            self.put(b"\nRounds of collective calls that not all have entered:\n");
            for round in front(open, cap) {
                self.put_open_line(round);
            }
            self.put_more(open.len(), cap);
        }
    }

    /// Messages, receives and requests that found no end.
    fn put_message_lists(&mut self, lists: &Lists, cap: usize) {
        let cap = self.list_cap(cap);
        let unmatched = &self.source.diagnosis.unmatched;
        if !lists.left_over.is_empty() {
            self.put(b"\nMessages that nobody has received:\n");
            for at in front(lists.left_over.as_slice(), cap) {
                if let Some(left) = unmatched.left_over.as_slice().get(*at) {
                    self.put_left_over(left);
                }
            }
            self.put_more(lists.left_over.len(), cap);
        }
        if !lists.starving.is_empty() {
            self.put(b"\nReceives that wait for a message that nobody has sent:\n");
            for at in front(lists.starving.as_slice(), cap) {
                if let Some(starving) = unmatched.starving.as_slice().get(*at) {
                    self.put_starving(starving);
                }
            }
            self.put_more(lists.starving.len(), cap);
        }
        let unfinished = unmatched.unfinished.as_slice();
        if !unfinished.is_empty() {
            self.put(b"\nRequests that were never completed, of ranks that have ended:\n");
            for name in front(unfinished, cap) {
                self.put_unfinished(*name);
            }
            self.put_more(unfinished.len(), cap);
        }
    }

    /// The other kind of sends, and the doubts.
    fn put_end(&mut self) {
        let diagnosis = self.source.diagnosis;
        if let Some(ranks) = &diagnosis.other_sends {
            self.put_other_sends(ranks.as_slice());
        }
        self.put(b"\nWhat may make this wrong:\n");
        self.put_doubts(&diagnosis.doubts);
        self.put(b"  calls of functions that mpimatch doesn't know count as local\n");
    }
}

/// Whether a byte goes on with a character of UTF-8.
fn goes_on(byte: u8) -> bool {
    byte & 0xC0 == 0x80
}

/// Where a line is cut: before a character of UTF-8, which has four bytes at most.
fn cut_of(line: &[u8]) -> usize {
    for back in 3..7 {
        let at = LONGEST_LINE.saturating_sub(back);
        if let Some(byte) = line.get(at) {
            if !goes_on(*byte) {
                return at;
            }
        }
    }
    0
}

/// The words, each line cut that is too long.
pub(crate) fn clipped(alloc: Global, words: &[u8], all: bool) -> Result<Vec<u8>, AllocError> {
    let mut text = Vec::new(alloc);
    for (i, line) in words.split(|byte| *byte == b'\n').enumerate() {
        if i > 0 {
            text.push(b'\n')?;
        }
        if all || line.len() <= LONGEST_LINE {
            text.extend_from_slice(line)?;
        } else {
            text.extend_from_slice(line.get(..cut_of(line)).unwrap_or(line))?;
            text.extend_from_slice(b" ..")?;
        }
    }
    Ok(text)
}
