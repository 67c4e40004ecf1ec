//! A diagnosis as JSON: one object on one line.

use crate::disagreements::{LONGEST_VALUE, value_text, what_differs};
use crate::functions::sort_word;
use crate::source::Source;
use crate::texts::TextFacts;
use call_words::{Text, put_seconds};
use diagnosis_value::{
    Beyond, CallGroup, Diagnosis, Doubts, Foreign, LeftOver, MismatchedRound, NearMessage,
    NearReceive, OpenRound, Polling, Root, RootKind, RoundName, Stand, Standing, Starving, Why,
};
use mpi_model::{CollectiveFunction, Layout, OpName, Sends};
use std::alloc::{AllocError, Global};
use trace_arguments::{Disagreement, Line, Truncated, ValueGroup};

/// Writes a diagnosis as JSON, with what the texts tell of the calls that it names. It ends with a line feed. Fails
/// with `AllocError` when memory is refused.
pub fn diagnosis_json(
    alloc: Global,
    layout: &Layout,
    diagnosis: &Diagnosis,
    texts: &TextFacts,
) -> Result<Vec<u8>, AllocError> {
    let source = Source {
        alloc,
        layout,
        diagnosis,
        texts,
    };
    let mut json = Json {
        out: Text::new(alloc),
        source,
    };
    json.put_head();
    json.put_waiting();
    json.put_rounds();
    json.put_unmatched();
    json.put_arguments();
    json.put_rest();
    let Json { out, .. } = json;
    out.into_bytes()
}

/// What stands before a value, by its place in its list.
fn comma(i: usize) -> &'static [u8] {
    if i == 0 { b"" } else { b"," }
}

/// The word for how a rank stands.
fn stand_word(stand: Stand) -> &'static [u8] {
    match stand {
        Stand::Ended => b"ended",
        Stand::In => b"in",
        Stand::Behind => b"behind",
        Stand::Nowhere => b"none",
    }
}

/// The value for what ends the readable prefix of a rank.
fn beyond_value(beyond: Option<Beyond>) -> &'static [u8] {
    match beyond {
        None => b"null",
        Some(Beyond::Gap) => b"\"gap\"",
        Some(Beyond::Contradiction) => b"\"contradiction\"",
        Some(Beyond::Unread) => b"\"unread\"",
        Some(Beyond::Cut) => b"\"cut\"",
    }
}

/// The word for the kind of a root.
fn root_word(kind: RootKind) -> &'static [u8] {
    match kind {
        RootKind::Mismatch(_) => b"mismatch",
        RootKind::Cycle => b"cycle",
        RootKind::Ended => b"ended",
        RootKind::Silent => b"silent",
        RootKind::Open => b"open",
    }
}

/// The word for a nearest miss.
fn why_word(why: Why) -> &'static [u8] {
    match why {
        Why::Tag => b"tag",
        Why::Comm => b"comm",
        Why::Source => b"source",
        Why::Dest => b"dest",
        Why::Taken => b"taken",
        Why::Postponed => b"postponed",
        Why::Idle => b"idle",
    }
}

/// The hexadecimal digit of a number below 16, as a character.
fn hex_digit(n: u8) -> u8 {
    if n < 10 {
        b'0'.saturating_add(n)
    } else {
        b'a'.saturating_add(n.saturating_sub(10))
    }
}

/// JSON that grows.
#[derive(Drop)]
struct Json<'a> {
    out: Text,
    source: Source<'a>,
}

impl<'a> Json<'a> {
    /// A part as it stands.
    fn put(&mut self, part: &[u8]) {
        self.out.put(part);
    }

    fn put_number(&mut self, n: u64) {
        self.out.put_number(n);
    }

    fn put_bool(&mut self, value: bool) {
        self.put(if value {
            b"true".as_slice()
        } else {
            b"false".as_slice()
        });
    }

    /// A character that JSON doesn't take as it is.
    fn put_escaped(&mut self, byte: u8) {
        match byte {
            b'"' => self.put(b"\\\""),
            b'\\' => self.put(b"\\\\"),
            b'\n' => self.put(b"\\n"),
            b'\r' => self.put(b"\\r"),
            b'\t' => self.put(b"\\t"),
            _ => {
                self.put(b"\\u00");
                self.put(&[hex_digit(byte / 16), hex_digit(byte % 16)]);
            }
        }
    }

    /// Text that is no JSON by itself. What isn't UTF-8 stands as replacement characters.
    fn put_characters(&mut self, text: &[u8]) {
        for byte in text {
            if *byte < 32 || *byte == b'"' || *byte == b'\\' {
                self.put_escaped(*byte);
            } else {
                self.put(&[*byte]);
            }
        }
    }

    /// A string.
    fn put_string(&mut self, text: &[u8]) {
        self.put(b"\"");
        match String::from_utf8_lossy(self.source.alloc, text) {
            Ok(text) => self.put_characters(text.as_bytes()),
            Err(_) => self.out.give_up(),
        }
        self.put(b"\"");
    }

    /// A time in nanoseconds as seconds, in a string.
    fn put_time(&mut self, time: u64) {
        self.put(b"\"");
        put_seconds(&mut self.out, time);
        self.put(b"\"");
    }

    fn put_optional_time(&mut self, time: Option<u64>) {
        match time {
            Some(time) => self.put_time(time),
            None => self.put(b"null"),
        }
    }

    fn put_optional(&mut self, n: Option<u64>) {
        match n {
            Some(n) => self.put_number(n),
            None => self.put(b"null"),
        }
    }

    fn put_ranks(&mut self, ranks: &[u32]) {
        self.put(b"[");
        for (i, rank) in ranks.iter().enumerate() {
            self.put(comma(i));
            self.put_number(*rank as u64);
        }
        self.put(b"]");
    }

    /// A key behind other members, and a list of ranks.
    fn put_ranks_of(&mut self, key: &[u8], ranks: &[u32]) {
        self.put(key);
        self.put_ranks(ranks);
    }

    /// `"comm":2,"k":5`
    fn put_round(&mut self, round: RoundName) {
        self.put(b"\"comm\":");
        self.put_number(round.object as u64);
        self.put(b",\"k\":");
        self.put_number(round.k);
    }

    /// The word of a collective function: its name in small letters, without `MPI_`.
    fn put_kind(&mut self, function: CollectiveFunction) {
        self.put(b"\"");
        for byte in function.name().iter().skip(4) {
            self.put(&[byte.to_ascii_lowercase()]);
        }
        self.put(b"\"");
    }

    /// `"kind":"bcast","root":0`
    fn put_function(&mut self, function: CollectiveFunction, root: Option<u32>) {
        self.put(b"\"kind\":");
        self.put_kind(function);
        self.put(b",\"root\":");
        self.put_optional(root.map(|root| root as u64));
    }

    /// Where a call stands, behind other members.
    fn put_place(&mut self, rank: u32, call: u64) {
        let Some(place) = self.source.place(rank, call) else {
            return;
        };
        self.put(b",\"file\":");
        self.put_string(place.path);
        if let Some(line) = place.line {
            self.put(b",\"line\":");
            self.put_number(line);
        }
        if let Some(caller) = place.caller {
            self.put(b",\"caller\":");
            self.put_string(caller);
        }
    }

    /// A call by its name, with where it stands.
    fn put_call(&mut self, name: OpName) {
        self.put(b"{\"rank\":");
        self.put_number(name.rank as u64);
        self.put(b",\"call\":");
        self.put_number(name.call);
        if name.part != 0 {
            self.put(b",\"part\":");
            self.put_number(name.part as u64);
        }
        self.put_place(name.rank, name.call);
        self.put(b"}");
    }

    /// The members up to the stuck ranks.
    fn put_head(&mut self) {
        let diagnosis = self.source.diagnosis;
        self.put(b"{\"explain\":1,\"ranks\":");
        self.put_number(diagnosis.ranks as u64);
        self.put(match diagnosis.sends {
            Sends::Wait => b",\"sends\":\"wait\",\"begin\":".as_slice(),
            Sends::Buffer => b",\"sends\":\"buffer\",\"begin\":".as_slice(),
        });
        self.put_optional_time(diagnosis.times.begin);
        self.put(b",\"end\":");
        self.put_optional_time(diagnosis.times.end);
        self.put_ranks_of(b",\"stuck\":", diagnosis.stuck.as_slice());
    }

    fn put_root(&mut self, root: &Root) {
        self.put(b"{\"kind\":\"");
        self.put(root_word(root.kind));
        self.put(b"\",");
        if let RootKind::Mismatch(round) = root.kind {
            self.put_round(round);
            self.put(b",");
        }
        self.put_ranks_of(b"\"ranks\":", root.ranks.as_slice());
        self.put_ranks_of(b",\"holds_up\":", root.holds_up.as_slice());
        self.put(b",\"proved\":");
        self.put_bool(root.proved);
        self.put(b"}");
    }

    /// The last call of a rank, behind how it stands.
    fn put_last(&mut self, standing: &Standing) {
        let Some(last) = &standing.call else {
            return;
        };
        self.put(b",\"call\":");
        self.put_number(last.number);
        self.put_place(standing.rank, last.number);
        self.put(b",\"function\":");
        let function = self.source.function(standing.rank, last.number, &last.call);
        self.put_string(function);
        if let Some(round) = last.round {
            self.put(b",");
            self.put_round(round);
        }
        self.put(b",\"wall\":");
        self.put_time(last.wall);
    }

    fn put_standing(&mut self, standing: &Standing) {
        self.put(b"{\"rank\":");
        self.put_number(standing.rank as u64);
        self.put(b",\"state\":\"");
        self.put(stand_word(standing.stand));
        self.put(b"\"");
        self.put_last(standing);
        self.put(b",\"beyond\":");
        self.put(beyond_value(standing.beyond));
        self.put(b"}");
    }

    fn put_polling(&mut self, polling: &Polling) {
        self.put(b"{\"rank\":");
        self.put_number(polling.rank as u64);
        self.put(b",\"calls\":[");
        for (i, polled) in polling.calls.iter().enumerate() {
            self.put(comma(i));
            self.put_call(OpName {
                rank: polling.rank,
                part: 0,
                call: polled.number,
            });
        }
        self.put(b"],\"count\":");
        self.put_number(polling.count);
        self.put(b"}");
    }

    /// Roots, standing and polls.
    fn put_waiting(&mut self) {
        let waiting = &self.source.diagnosis.waiting;
        self.put(b",\"roots\":[");
        for (i, root) in waiting.roots.iter().enumerate() {
            self.put(comma(i));
            self.put_root(root);
        }
        self.put(b"],\"standing\":[");
        for (i, standing) in waiting.standing.iter().enumerate() {
            self.put(comma(i));
            self.put_standing(standing);
        }
        self.put(b"],\"polls\":[");
        for (i, polling) in waiting.polls.iter().enumerate() {
            self.put(comma(i));
            self.put_polling(polling);
        }
        self.put(b"]");
    }

    fn put_group(&mut self, group: &CallGroup) {
        self.put(b"{");
        self.put_function(group.function, group.root);
        self.put_ranks_of(b",\"ranks\":", group.ranks.as_slice());
        self.put(b",\"call\":");
        self.put_call(group.call);
        self.put(b"}");
    }

    fn put_mismatched(&mut self, round: &MismatchedRound) {
        self.put(b"{");
        self.put_round(round.round);
        self.put(b",\"groups\":[");
        for (i, group) in round.groups.iter().enumerate() {
            self.put(comma(i));
            self.put_group(group);
        }
        self.put(b"]}");
    }

    fn put_open(&mut self, round: &OpenRound) {
        self.put(b"{");
        self.put_round(round.round);
        self.put(b",");
        self.put_function(round.function, round.root);
        self.put_ranks_of(b",\"entered\":", round.entered.as_slice());
        self.put_ranks_of(b",\"missing\":", round.missing.as_slice());
        self.put(b"}");
    }

    /// The rounds that don't match, and those that are open.
    fn put_rounds(&mut self) {
        let rounds = &self.source.diagnosis.rounds;
        self.put(b",\"mismatched\":[");
        for (i, round) in rounds.mismatched.iter().enumerate() {
            self.put(comma(i));
            self.put_mismatched(round);
        }
        self.put(b"],\"open\":[");
        for (i, round) in rounds.open.iter().enumerate() {
            self.put(comma(i));
            self.put_open(round);
        }
        self.put(b"]");
    }

    fn put_near_receive(&mut self, near: &NearReceive) {
        self.put(b"{\"why\":\"");
        self.put(why_word(near.why));
        self.put(b"\",\"receive\":");
        self.put_call(near.receive.name);
        self.put(b"}");
    }

    fn put_left_over(&mut self, left: &LeftOver) {
        self.put(b"{\"message\":");
        self.put_call(left.message.name);
        self.put(b",\"before\":");
        self.put_number(left.before);
        self.put(b",\"near\":[");
        for (i, near) in left.near.iter().enumerate() {
            self.put(comma(i));
            self.put_near_receive(near);
        }
        self.put(b"]}");
    }

    fn put_near_message(&mut self, near: &NearMessage) {
        self.put(b"{\"why\":\"");
        self.put(why_word(near.why));
        self.put(b"\",\"message\":");
        self.put_call(near.message.name);
        if let Some(by) = near.by {
            self.put(b",\"by\":");
            self.put_call(by);
        }
        self.put(b"}");
    }

    fn put_starving(&mut self, starving: &Starving) {
        self.put(b"{\"receive\":");
        self.put_call(starving.receive.name);
        self.put(b",\"before\":");
        self.put_number(starving.before);
        self.put(b",\"near\":[");
        for (i, near) in starving.near.iter().enumerate() {
            self.put(comma(i));
            self.put_near_message(near);
        }
        self.put(b"]}");
    }

    /// Messages, receives and requests that found no end.
    fn put_unmatched(&mut self) {
        let unmatched = &self.source.diagnosis.unmatched;
        self.put(b",\"left_over\":[");
        for (i, left) in unmatched.left_over.iter().enumerate() {
            self.put(comma(i));
            self.put_left_over(left);
        }
        self.put(b"],\"starving\":[");
        for (i, starving) in unmatched.starving.iter().enumerate() {
            self.put(comma(i));
            self.put_starving(starving);
        }
        self.put(b"],\"unfinished\":[");
        for (i, name) in unmatched.unfinished.iter().enumerate() {
            self.put(comma(i));
            self.put_call(*name);
        }
        self.put(b"]");
    }

    /// A message that is longer than its receive.
    fn put_truncated(&mut self, truncated: &Truncated) {
        self.put(b"{\"message\":");
        self.put_call(truncated.message.name);
        self.put(b",\"receive\":");
        self.put_call(truncated.receive.name);
        self.put(b",\"sent\":");
        self.put_number(truncated.message.count as u64);
        self.put(b",\"room\":");
        self.put_number(truncated.receive.count as u64);
        self.put(b"}");
    }

    fn put_value_group(&mut self, line: Line, group: &ValueGroup) {
        self.put(b"{\"value\":");
        match value_text(self.source.alloc, line, group.value(), LONGEST_VALUE) {
            Ok(value) => self.put_string(&value),
            Err(_) => self.out.give_up(),
        }
        self.put_ranks_of(b",\"ranks\":", group.ranks());
        self.put(b",\"call\":");
        self.put_call(group.call());
        self.put(b"}");
    }

    /// A round in which arguments don't agree.
    fn put_disagreement(&mut self, one: &Disagreement) {
        self.put(b"{");
        self.put_round(one.comparison.round);
        self.put(b",\"kind\":");
        self.put_kind(one.function);
        self.put(b",\"what\":");
        self.put_string(what_differs(one.function, one.comparison.line));
        self.put(b",\"groups\":[");
        for (i, group) in one.groups.iter().enumerate() {
            self.put(comma(i));
            self.put_value_group(one.comparison.line, group);
        }
        self.put(b"]}");
    }

    /// Arguments that don't agree.
    fn put_arguments(&mut self) {
        let texts = self.source.texts;
        self.put(b",\"truncated\":[");
        for (i, truncated) in texts.truncated.iter().enumerate() {
            self.put(comma(i));
            self.put_truncated(truncated);
        }
        self.put(b"],\"arguments\":[");
        for (i, one) in texts.arguments.iter().enumerate() {
            self.put(comma(i));
            self.put_disagreement(one);
        }
        self.put(b"]");
    }

    /// The functions that may wait or move data and that aren't read.
    fn put_local(&mut self) {
        for (i, local) in self.source.texts.local.iter().enumerate() {
            self.put(comma(i));
            self.put(b"{\"function\":");
            self.put_string(local.function.as_slice());
            self.put(b",\"calls\":");
            self.put_number(local.calls);
            self.put(b"}");
        }
    }

    fn put_foreign(&mut self, foreign: &Foreign) {
        self.put(b"{\"object\":\"");
        self.put(sort_word(foreign.object));
        self.put(b"\",\"number\":");
        self.put_number(foreign.number as u64);
        self.put(b",\"calls\":");
        self.put_number(foreign.calls);
        self.put(b"}");
    }

    /// The texts that were cut.
    fn put_cut(&mut self) {
        let texts = self.source.texts;
        for (i, cut) in texts.cut.iter().enumerate() {
            self.put(comma(i));
            self.put(b"{\"rank\":");
            self.put_number(cut.rank as u64);
            self.put(b",\"file\":");
            match texts.notes.as_slice().get(cut.note) {
                Some(note) => self.put_string(note.path().as_bytes()),
                None => self.put(b"null"),
            }
            self.put(b",\"line\":");
            self.put_number(cut.line);
            self.put(b"}");
        }
    }

    fn put_doubts(&mut self, doubts: &Doubts) {
        self.put(b",\"doubts\":{\"local\":[");
        self.put_local();
        self.put(b"],\"foreign\":[");
        for (i, foreign) in doubts.foreign.iter().enumerate() {
            self.put(comma(i));
            self.put_foreign(foreign);
        }
        self.put(b"]");
        self.put_ranks_of(b",\"unread\":", doubts.unread.as_slice());
        self.put_ranks_of(b",\"gaps\":", doubts.gaps.as_slice());
        self.put_ranks_of(b",\"conflicts\":", doubts.conflicts.as_slice());
        self.put_ranks_of(b",\"no_calls\":", doubts.no_calls.as_slice());
        self.put(b",\"cut\":[");
        self.put_cut();
        self.put(b"],\"size\":");
        let ranks = self.source.diagnosis.ranks as u64;
        let size = self.source.texts.size;
        self.put_optional(size.filter(|size| *size > ranks));
        self.put(b"}}\n");
    }

    /// Who would be stuck under the other kind of sends, and the doubts.
    fn put_rest(&mut self) {
        let diagnosis = self.source.diagnosis;
        self.put(b",\"other_sends\":");
        match &diagnosis.other_sends {
            Some(ranks) => self.put_ranks(ranks.as_slice()),
            None => self.put(b"null"),
        }
        self.put_doubts(&diagnosis.doubts);
    }
}
