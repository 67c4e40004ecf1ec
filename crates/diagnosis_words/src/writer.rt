//! Words that grow, and names of things in them: ranks, objects, calls, times.

use crate::functions::sort_word;
use crate::source::Source;
use call_words::{Text, put_ranges};
use diagnosis_value::RoundName;
use mpi_model::{CommRef, Envelope, Object, Peer, ProbeEnvelope};
use std::collections::BTreeSet;

/// The most stretches of a list of ranks that are told.
const MOST_STRETCHES: usize = 8;

/// How many stretches are told of a longer list.
const FIRST_STRETCHES: usize = 3;

/// The most bytes of a path or a function's name.
const LONGEST_NAME: usize = 80;

/// Nanoseconds in a millisecond.
const MILLISECOND: u64 = 1_000_000;

/// Words that grow.
#[derive(Drop)]
pub(crate) struct Writer<'a> {
    pub out: Text,
    pub source: Source<'a>,
    /// Whether no list is cut.
    pub all: bool,
    /// The objects whose members were told.
    described: BTreeSet<u32>,
}

/// How many stretches of neighbours ranks in rising order have.
fn stretches(ranks: &[u32]) -> usize {
    let mut count: usize = 0;
    let mut next = None;
    for rank in ranks {
        if next != Some(*rank) {
            count = count.saturating_add(1);
        }
        next = Some(rank.saturating_add(1));
    }
    count
}

/// The ranks of the first stretches.
fn first_stretches(ranks: &[u32], most: usize) -> &[u32] {
    let mut count: usize = 0;
    let mut next = None;
    for (i, rank) in ranks.iter().enumerate() {
        if next != Some(*rank) {
            count = count.saturating_add(1);
        }
        if count > most {
            return ranks.get(..i).unwrap_or(ranks);
        }
        next = Some(rank.saturating_add(1));
    }
    ranks
}

/// A call site `main.c:42 (exchange)` as `main.c:42` and `exchange`.
fn parted(caller: &[u8]) -> (&[u8], Option<&[u8]>) {
    let Some(inner) = caller.strip_suffix(b")") else {
        return (caller, None);
    };
    for (i, byte) in inner.iter().enumerate() {
        if *byte == b'(' && i > 1 {
            let place = caller.get(..i.saturating_sub(1)).unwrap_or(caller);
            return (place, inner.get(i.saturating_add(1)..));
        }
    }
    (caller, None)
}

impl<'a> Writer<'a> {
    /// A writer without words yet.
    pub fn new(source: Source<'a>, all: bool) -> Writer<'a> {
        Writer {
            out: Text::new(source.alloc),
            source,
            all,
            described: BTreeSet::new(source.alloc),
        }
    }

    /// Appends words unchanged.
    pub fn put(&mut self, words: &[u8]) {
        self.out.put(words);
    }

    /// Appends a number.
    pub fn put_number(&mut self, n: u64) {
        self.out.put_number(n);
    }

    /// A number, and the word behind it: the first for one, the second for any other number.
    pub fn put_counted(&mut self, n: usize, one: &[u8], more: &[u8]) {
        self.put_number(n as u64);
        self.put(if n == 1 { one } else { more });
    }

    /// The first of two words where there is one, and else the second.
    pub fn put_either(&mut self, n: usize, one: &[u8], more: &[u8]) {
        self.put(if n == 1 { one } else { more });
    }

    /// `rank 3`, or `ranks 0 to 2, 7`. A long list is cut.
    pub fn put_ranks(&mut self, ranks: &[u32]) {
        self.put_either(ranks.len(), b"rank ", b"ranks ");
        if self.all || stretches(ranks) <= MOST_STRETCHES {
            put_ranges(&mut self.out, ranks);
            return;
        }
        put_ranges(&mut self.out, first_stretches(ranks, FIRST_STRETCHES));
        self.put(b", .. (");
        self.put_number(ranks.len() as u64);
        self.put(b" ranks)");
    }

    /// Bytes of a text: what isn't printed of ASCII stands as `?`.
    pub fn put_clean(&mut self, bytes: &[u8]) {
        for byte in bytes {
            if 32 <= *byte && *byte < 127 {
                self.put(&[*byte]);
            } else {
                self.put(b"?");
            }
        }
    }

    /// A path: of a long one its end.
    fn put_path(&mut self, path: &[u8]) {
        let over = path.len().saturating_sub(LONGEST_NAME);
        if self.all || over == 0 {
            self.put_clean(path);
        } else {
            self.put(b"..");
            self.put_clean(path.get(over..).unwrap_or(path));
        }
    }

    /// The name of a function: of a long one its front.
    pub fn put_name(&mut self, name: &[u8]) {
        if self.all || name.len() <= LONGEST_NAME {
            self.put_clean(name);
        } else {
            self.put_clean(name.get(..LONGEST_NAME).unwrap_or(name));
            self.put(b"..");
        }
    }

    /// Writes the place in the program from which a call was made: `main.c:42 in exchange`.
    pub fn put_caller(&mut self, caller: &[u8]) {
        let (place, function) = parted(caller);
        self.put_path(place);
        if let Some(function) = function {
            self.put(b" in ");
            self.put_name(function);
        }
    }

    /// Where a call stands, behind its number: its call site, or the line of the text.
    pub fn put_site(&mut self, rank: u32, call: u64) {
        let Some(place) = self.source.place(rank, call) else {
            return;
        };
        if let Some(caller) = place.caller {
            self.put(b", ");
            self.put_caller(caller);
            return;
        }
        self.put(b", ");
        self.put(place.file);
        if let Some(line) = place.line {
            self.put(b":");
            self.put_number(line);
        }
    }

    /// `call 3, main.c:42 in exchange`.
    pub fn put_call(&mut self, rank: u32, call: u64) {
        self.put(b"call ");
        self.put_number(call);
        self.put_site(rank, call);
    }

    /// Milliseconds as seconds, with three decimals, or with one from ten seconds on where it is a duration.
    fn put_seconds(&mut self, milliseconds: u64, is_short: bool) {
        self.put_number(milliseconds / 1000);
        self.put(b".");
        let rest = milliseconds % 1000;
        self.put_number(rest / 100);
        if !is_short {
            self.put_number(rest / 10 % 10);
            self.put_number(rest % 10);
        }
        self.put(b" s");
    }

    /// A time from the beginning of the run: `4.217 s`.
    pub fn put_time(&mut self, wall: u64) {
        let begin = self.source.diagnosis.times.begin.unwrap_or(wall);
        self.put_seconds(wall.saturating_sub(begin) / MILLISECOND, false);
    }

    /// How long it was from a time to the last that is known: `12.6 s`.
    pub fn put_since(&mut self, wall: u64) {
        let end = self.source.diagnosis.times.end.unwrap_or(wall);
        let milliseconds = end.saturating_sub(wall) / MILLISECOND;
        self.put_seconds(milliseconds, milliseconds >= 10_000);
    }

    /// `at 4.217 s, for 12.6 s`.
    pub fn put_moment(&mut self, wall: u64) {
        self.put(b"at ");
        self.put_time(wall);
        self.put(b", for ");
        self.put_since(wall);
    }

    /// The name of an object, where it is mentioned first with its members: `communicator 8 (ranks 4 to 5)`.
    pub fn put_object(&mut self, object: u32) {
        if object == self.source.layout.world() {
            self.put(b"MPI_COMM_WORLD");
            return;
        }
        let sort = self
            .source
            .layout
            .object(object)
            .unwrap_or(Object::Communicator);
        self.put(sort_word(sort));
        self.put(b" ");
        self.put_number(object as u64);
        if self.described.contains(&object) {
            return;
        }
        match self.described.insert(object) {
            Ok(_) => self.put_members(object),
            Err(_) => self.out.give_up(),
        }
    }

    /// The members of an object, of an intercommunicator those of each group, and the function that made it, where the
    /// texts tell it: ` (ranks 0 to 1 and ranks 2 to 3, by MPI_Intercomm_create)`.
    fn put_members(&mut self, object: u32) {
        let layout = self.source.layout;
        let Some(comm) = layout.comm(object) else {
            return;
        };
        self.put(b" (");
        self.put_rising(comm.first_group());
        if comm.is_inter() {
            self.put(b" and ");
            self.put_rising(comm.second_group());
        }
        if let Some(function) = self.source.texts.makers.get(&object) {
            self.put(b", by ");
            self.put(function.as_bytes());
        }
        self.put(b")");
    }

    /// Ranks in rising order.
    fn put_rising(&mut self, ranks: &[u32]) {
        let Ok(mut ranks) = Vec::from_slice(self.source.alloc, ranks) else {
            self.out.give_up();
            return;
        };
        ranks.as_mut_slice().sort_unstable();
        self.put_ranks(ranks.as_slice());
    }

    /// `round 5 of MPI_COMM_WORLD`.
    pub fn put_round(&mut self, round: RoundName) {
        self.put(b"round ");
        self.put_number(round.k);
        self.put(b" of ");
        self.put_object(round.object);
    }

    /// The communicator that a call of a rank names.
    pub fn put_comm(&mut self, rank: u32, call: u64, comm: CommRef) {
        self.put_named(rank, call, Object::Communicator, comm);
    }

    /// The object of a sort that a call of a rank names.
    pub fn put_named(&mut self, rank: u32, call: u64, object: Object, comm: CommRef) {
        match (self.source.layout.named(rank, call, object, comm), comm) {
            (Some(id), _) => self.put_object(id),
            (None, CommRef::World) => self.put(b"MPI_COMM_WORLD"),
            (None, CommRef::Id(number)) => {
                self.put(b"a ");
                self.put(sort_word(object));
                self.put(b" that the layout doesn't have (number ");
                self.put_number(number as u64);
                self.put(b")");
            }
        }
    }

    /// The communicator of the layout that a call of a rank names.
    fn named(&self, rank: u32, call: u64, comm: CommRef) -> Option<u32> {
        self.source
            .layout
            .named(rank, call, Object::Communicator, comm)
    }

    /// The rank of the run that is a peer of a call.
    fn ranked(&self, rank: u32, call: u64, comm: CommRef, peer: u32) -> Option<u32> {
        let object = self.named(rank, call, comm)?;
        self.source
            .layout
            .peers(object, rank)?
            .get(peer as usize)
            .copied()
    }

    /// The peer of a call.
    fn put_peer(&mut self, rank: u32, call: u64, comm: CommRef, peer: Peer) {
        match peer {
            Peer::Any => self.put(b"any rank"),
            Peer::Null => self.put(b"MPI_PROC_NULL"),
            Peer::Rank(peer) => match self.ranked(rank, call, comm, peer) {
                Some(other) => {
                    self.put(b"rank ");
                    self.put_number(other as u64);
                }
                None => {
                    self.put(b"its rank ");
                    self.put_number(peer as u64);
                }
            },
        }
    }

    /// `, tag 7`, or `, any tag`.
    pub fn put_tag(&mut self, tag: Option<u32>) {
        match tag {
            None => self.put(b", any tag"),
            Some(tag) => {
                self.put(b", tag ");
                self.put_number(tag as u64);
            }
        }
    }

    /// The object of a message, where it isn't the world.
    pub fn put_behind_tag(&mut self, rank: u32, call: u64, comm: CommRef) {
        if self.named(rank, call, comm) != Some(self.source.layout.world()) {
            self.put(b", on ");
            self.put_comm(rank, call, comm);
        }
    }

    /// What a send or a receive names: ` from rank 32, tag 3`.
    pub fn put_envelope(&mut self, word: &[u8], rank: u32, call: u64, envelope: Envelope) {
        self.put(word);
        self.put_peer(rank, call, envelope.comm, envelope.peer);
        self.put_tag(envelope.tag);
        self.put_behind_tag(rank, call, envelope.comm);
    }

    /// What a probe names.
    pub fn put_probed(&mut self, rank: u32, call: u64, envelope: ProbeEnvelope) {
        self.put(b" from ");
        self.put_peer(rank, call, envelope.comm(), envelope.source());
        self.put_tag(envelope.tag());
        self.put_behind_tag(rank, call, envelope.comm());
    }
}
