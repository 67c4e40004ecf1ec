//! From the words that name texts to the input of a run, and what is said of it.

ghost use Rattle.std.specs.Prelude.{◌≡◌, ◌<◌, ◌≤◌, IfErr, IfOk, None, OnOk, length, map, string_bytes};
ghost use Rattle.std.specs.List.{All};
ghost use Rattle.mpi_model.specs.declared.layout.TheConstants.{MOST_RANKS};
ghost use Rattle.call_words.specs.Texts.{Adds};
ghost use Rattle.command_line.specs.Program.{texts_of};
ghost use Rattle.text_layouts.specs.Seats.{beyond_by, kept, told_size};
ghost use Rattle.run_inputs.specs.Prepared.{AreAt, IsByRank, IsPrepared, IsPreparedBy, RefusesBeyond, RefusesNames, RefusesSaid, RefusesWords, digits_text, form_of, said_text, words_text};

use crate::faults::init_fault::InitFault;
use crate::load::opener::SharedOpener;
use crate::load::texts::{AllCalls, calls_of_all};
use call_words::Text;
use comm_makings::RankCalls;
use mpi_model::{MOST_RANKS, Sends};
use std::alloc::{AllocError, Global};
use std::collections::BTreeMap;
use text_layouts::{
    Made, Maker, Order, found_json, in_order, made_of, makers_of, missing_of, order_of,
    put_missing, put_notes, seats_of, text_beyond, texts_of,
};

/// How it is said what was found in texts.
#[derive(Clone, Copy)]
pub enum Saying<'a> {
    /// In words for a person.
    Words,
    /// As JSON, with the names of the files for the layout and the manifest.
    Json { layout: &'a str, manifest: &'a str },
}

/// The input of a run that was made of texts.
#[derive(Drop)]
pub struct Prepared {
    pub made: Made,
    /// The functions that made the objects of its layout, by the objects' ids.
    pub makers: BTreeMap<u32, Maker>,
    /// The ranks that have no text.
    pub missing: Vec<u32>,
    /// What was found in the texts and what is left out, as it is to be said.
    pub notes: Vec<u8>,
    /// How many calls the texts have, up to 2^64 - 1.
    pub calls: u64,
}

/// Copies of the words, as names that faults may keep.
fn owned(alloc: Global, words: &[&str]) -> Result<Vec<String>, AllocError>
    ensures { IfOk result (λ names. map string_bytes names.items ≡ texts_of words.now) }
{
    let mut names = Vec::new(alloc);
    for word in words {
        names.push(word.to_string(alloc)?)?;
    }
    Ok(names)
}

/// The names at these places.
fn placed(alloc: Global, names: &[String], places: &[usize]) -> Result<Vec<String>, AllocError>
    requires { All (λ place. place < length names.now) places.now }
    ensures { IfOk result (λ ordered. AreAt (map string_bytes names.now) places.now (map string_bytes ordered.items)) }
{
    let mut ordered = Vec::new(alloc);
    for place in places {
        ordered.push(names[*place].as_str().to_string(alloc)?)?;
    }
    Ok(ordered)
}

/// The texts by rank, and whether the digits of their names say so.
fn by_rank(alloc: Global, words: &[&str]) -> Result<(Vec<String>, bool), InitFault>
    ensures ok { IfOk result (λ read. IsByRank (texts_of words.now) read.1 (map string_bytes read.0.items)) }
    ensures few { IfOk result (λ read. length read.0.items ≤ MOST_RANKS) }
    ensures words { OnOk result (length (texts_of words.now) ≤ MOST_RANKS) }
    ensures err { IfErr result (RefusesNames (texts_of words.now)) }
{
    if words.len() > MOST_RANKS as usize {
        return Err(InitFault::TooMany);
    }
    let names = owned(alloc, words)?;
    match order_of(alloc, &names)? {
        Order::Words => Ok((names, false)),
        Order::Digits(places) => Ok((placed(alloc, &names, &places)?, true)),
        Order::Twice { second, .. } => Err(InitFault::Twice {
            path: names[second].as_str().to_string(alloc)?,
        }),
    }
}

/// That the digits of the names told the ranks, where they did.
fn put_digits(out: &mut Text, by_digits: bool)
    ensures { Adds out.old out.new (digits_text by_digits) }
{
    if by_digits {
        out.put(b"ranks by the digits at the ends of the names\n");
    }
}

/// What is said in words of the texts and of what they made, where these ranks have no text.
fn words_of(
    alloc: Global,
    by_digits: bool,
    missing: &[u32],
    calls: u64,
    made: &Made,
) -> Result<Vec<u8>, AllocError>
    ensures { IfOk result (λ notes. notes.items ≡ words_text by_digits missing.now made.now.input.layout.ranks calls made.now) }
{
    let mut out = Text::new(alloc);
    put_digits(&mut out, by_digits);
    put_missing(&mut out, b"", missing, b"\n");
    put_notes(&mut out, made.input.layout.ranks(), calls, &made.derived);
    out.into_bytes()
}

/// What is said of the texts and of what they made, where these ranks have no text.
fn notes_of(
    alloc: Global,
    saying: Saying<'_>,
    by_digits: bool,
    missing: &[u32],
    calls: u64,
    made: &Made,
) -> Result<Vec<u8>, AllocError>
    ensures { IfOk result (λ notes. notes.items ≡ said_text (form_of saying.entry) by_digits missing.now made.now.input.layout.ranks calls made.now) }
{
    match saying {
        Saying::Words => words_of(alloc, by_digits, missing, calls, made),
        Saying::Json { layout, manifest } => {
            found_json(alloc, layout, manifest, by_digits, missing, calls, made)
        }
    }
}

/// What a run reads, by what the texts of the ranks say, of those that have one.
fn prepared_by(
    alloc: Global,
    saying: Saying<'_>,
    sends: Sends,
    seats: &[Option<String>],
    by_digits: bool,
    all: &AllCalls,
) -> Result<Prepared, InitFault>
    requires { length seats.now ≤ MOST_RANKS }
    ensures made { IfOk result (λ p. IsPreparedBy (form_of saying.entry) sends (kept seats.now) by_digits all.now.ranks.items all.now.calls p.made p.notes.items) }
    ensures err { IfErr result (RefusesSaid all.now.ranks.items) }
{
    let texts = texts_of(alloc, seats)?;
    let missing = missing_of(alloc, seats)?;
    let made = match made_of(alloc, sends, texts, &all.ranks) {
        Ok(made) => made,
        Err(fault) => return Err(InitFault::Made(fault)),
    };
    let notes = notes_of(alloc, saying, by_digits, &missing, all.calls, &made)?;
    let makers = makers_of(alloc, &made.derived.comms, &all.ranks)?;
    Ok(Prepared {
        made,
        makers,
        missing,
        notes,
        calls: all.calls,
    })
}

/// Refuses a text of a rank that no layout has, by the number of its name, where what the texts in the order of these
/// names tell of the size of MPI_COMM_WORLD doesn't say that it is none.
fn refuse_beyond(alloc: Global, names: &[String], ranks: &[RankCalls]) -> Result<(), InitFault>
    ensures within { OnOk result (beyond_by (told_size ranks.now) (map string_bytes names.now) ≡ None) }
    ensures err { IfErr result (RefusesBeyond ranks.now (map string_bytes names.now)) }
{
    match text_beyond(alloc, names, ranks)? {
        Some(path) => Err(InitFault::Beyond { path }),
        None => Ok(()),
    }
}

/// The input of the run of these texts, rank 0 first, or by the digits at the ends of their names where those are 0 to
/// n - 1. Each text is read once, and once more where some rank has none: then the digits tell the ranks. Where they
/// tell one that no layout has, nothing is made.
pub(crate) fn prepare<O: SharedOpener>(
    alloc: Global,
    saying: Saying<'_>,
    sends: Sends,
    words: &[&str],
    files: &O,
) -> Result<Prepared, InitFault>
where
    O::R: Send,
    ensures made { IfOk result (λ p. IsPrepared (O.file files.now) (form_of saying.entry) sends (texts_of words.now) p.made p.notes.items) }
    ensures err { IfErr result (RefusesWords (O.file files.now) (texts_of words.now)) }
{
    let (texts, by_digits) = by_rank(alloc, words)?;
    let ordered = in_order(alloc, &texts)?;
    let all = calls_of_all(alloc, &ordered, files)?;
    refuse_beyond(alloc, &texts, &all.ranks)?;
    match seats_of(alloc, &texts, &all.ranks)? {
        None => prepared_by(alloc, saying, sends, &ordered, by_digits, &all),
        Some(seats) => {
            let spread = calls_of_all(alloc, &seats, files)?;
            prepared_by(alloc, saying, sends, &seats, true, &spread)
        }
    }
}
