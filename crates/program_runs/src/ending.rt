//! How the program ends: from words to a status and what standard error shows.

ghost use Rattle.std.specs.Prelude.{◌≡◌, ◌≢◌, ◌∷◌, [], IfOk, IfSome, IsTrue, None, Option, length, string_bytes};
ghost use Rattle.mpi_model.specs.Failures.{HasFailed};
ghost use Rattle.dumpi_text.specs.Failing.{Fails};
ghost use Rattle.command_line.specs.Program.{asked_rank, texts_of, wish_of};
ghost use Rattle.run_files.specs.Stores.{Files};
ghost use Rattle.run_inputs.specs.Advice.{IsShownIn};
ghost use Rattle.run_inputs.specs.FaultLines.{fault_line_of};
ghost use Rattle.run_inputs.specs.Files.{IsLength};
ghost use Rattle.run_inputs.specs.InitAdvice.{IsInitShown};
ghost use Rattle.run_inputs.specs.InitFaults.{init_fault_line_of};
ghost use Rattle.run_inputs.specs.Inputs.{HasRank};
ghost use Rattle.run_inputs.specs.SaidLines.{init_line_with, write_line};
ghost use Rattle.program_runs.specs.Endings.{BeginsWithText, EndsCluster, EndsClusterKept, EndsClusterRun, EndsFiles, EndsFor, EndsInit, EndsInitNamed, EndsKept, EndsNamed, EndsPair, EndsRun, EndsStrange, EndsTexts, IsEndedBy, IsEnding, first_name, strange_line};

use crate::run::run_with;
use command_line::{Asked, CommandFault, CommandLine, Verb, Verbosity, Wanted, command_of};
use command_runs::{Outcome, Run, cluster};
use mpi_model::{Sends, Write, WriteReason, write_all};
use run_files::{RunInput, Store};
use run_inputs::{
    Beside, Crewed, FileName, InitFault, Opener, RunFault, Saying, SharedOpener, Watcher,
    begins_as_text, borrowed, fault_line, has_rank, init, init_fault_line, init_line_with,
    input_at, is_in_words, kept_files, line_with, no_text_of, piped_of, prepared_of, shown_fault,
    shown_init_fault, tell, with_folders,
};
use std::alloc::{AllocError, Global};
use std::collections::BTreeMap;
use std::io::Eprint;
use std::net::{Net, TcpListener, TcpStream};
use std::sync::Wait;
use std::thread::Threads;
use text_layouts::Maker;

/// The status of the program, and what standard error shows.
#[derive(Drop)]
pub struct Ending {
    /// 0 if the run was good, 1 for a refused run, 2 for a mistake in the words.
    pub status: u8,
    /// The text for standard error.
    pub errors: String,
}

/// Does what the words ask for, the first being the program's name: 0 where the run was good or
/// help or the version was asked for, 1 for a refused input, with its fault line, and 2 for a
/// mistake in the words.
///
/// Where a verb takes a layout and a manifest or texts, a folder stands for the texts in it. Then the words are texts
/// if the first file that isn't empty begins as one, and else a layout and a manifest if they are two, and else
/// mistaken.
pub fn ending_of<
    R: Net<Listener = TcpListener, Stream = TcpStream> + Threads + Wait + Sync + Eprint,
    O: SharedOpener,
    S: Store,
    V: Watcher + Sync,
    W: Write,
>(
    rt: &R,
    alloc: Global,
    words: &[&str],
    files: &O,
    store: &mut S,
    watcher: &mut V,
    out: &mut W,
) -> Result<Ending, AllocError>
where
    O::R: Send,
    ensures { IfOk result (IsEnding (Fails O.R.failures) (HasFailed (S.failures store.old) (S.failures store.new))
        (record { words = texts_of words.now; file = O.file files.now; store_before = S.files store.old; store_after = S.files store.new })
        W.written W.failures out.old out.new) }
{
    let line = match command_of(alloc, words) {
        Ok(line) => line,
        Err(fault) => return shown(alloc, &fault, out),
    };
    let CommandLine { asked, threads } = line;
    let crewed = Crewed { files, threads };
    let files = &crewed;
    heed(asked.verbosity(), watcher);
    match asked {
        Asked::Pair {
            verb,
            layout,
            manifest,
            ..
        } => over_pair(alloc, verb, (layout, manifest), files, watcher, out),
        Asked::Files {
            verb,
            verbosity,
            files: names,
        } => {
            let how = (verb, verbosity);
            over_named(rt, alloc, how, names.as_slice(), files, watcher, out)
        }
        Asked::Cluster { layout, manifest } => {
            over_cluster(rt, alloc, (layout, manifest), files, out)
        }
        Asked::Init { texts, wanted } => {
            init_named(alloc, texts.as_slice(), wanted, files, store, out)
        }
    }
}

/// Shows nothing of how a run comes along, where nothing is to be said but faults.
fn heed<V: Watcher>(verbosity: Verbosity, watcher: &mut V) {
    if verbosity == Verbosity::Quiet {
        watcher.hush();
    }
}

/// Runs a verb over a layout and a manifest, by the names of their files.
#[tactic(auto, using(crate::proofs::Endings::rank_asked))]
fn over_pair<O: SharedOpener, V: Watcher + Sync, W: Write>(
    alloc: Global,
    verb: Verb,
    names: (&str, &str),
    files: &O,
    watcher: &mut V,
    out: &mut W,
) -> Result<Ending, AllocError>
where
    O::R: Send,
    ensures { IfOk result (EndsPair (Fails O.R.failures) (O.file files.now) verb names.entry.0.now names.entry.1.now W.written W.failures out.old out.new) }
{
    let (layout, manifest) = names;
    match input_at(alloc, verb.asked_rank(), layout, manifest, files) {
        Ok(input) => {
            let beside = Beside::new(alloc, files, manifest);
            over_kept(alloc, verb, &input, &beside, watcher, out)
        }
        Err(fault) => showing(alloc, is_in_words(verb), &fault, None, files),
    }
}

/// Runs a verb over this input, whose files these are: of texts that may have been cut off over what is kept.
fn over_kept<O: SharedOpener, V: Watcher + Sync, W: Write>(
    alloc: Global,
    verb: Verb,
    input: &RunInput,
    files: &O,
    watcher: &mut V,
    out: &mut W,
) -> Result<Ending, AllocError>
where
    O::R: Send,
    requires rank { HasRank (asked_rank verb) input.now.layout }
    ensures { IfOk result (EndsKept (Fails O.R.failures) (O.file files.now) verb input.now.layout input.now.manifest W.written W.failures out.old out.new) }
{
    match kept_files(alloc, input.manifest.pieces(), files) {
        Ok(seen) => {
            let makers = BTreeMap::new(alloc);
            over_input(alloc, verb, input, &makers, &seen, watcher, out)
        }
        Err(fault) => showing(alloc, is_in_words(verb), &fault, None, files),
    }
}

/// Runs a verb over this input, whose objects were made by these functions, as far as that is known, and whose files these
/// are.
#[tactic(auto, using(crate::proofs::Endings::rank_kept))]
fn over_input<O: SharedOpener, V: Watcher + Sync, W: Write>(
    alloc: Global,
    verb: Verb,
    input: &RunInput,
    makers: &BTreeMap<u32, Maker>,
    files: &O,
    watcher: &mut V,
    out: &mut W,
) -> Result<Ending, AllocError>
where
    O::R: Send,
    requires rank { HasRank (asked_rank verb) input.now.layout }
    ensures { IfOk result (EndsRun (Fails O.R.failures) (O.file files.now) verb input.now.layout input.now.manifest W.written W.failures out.old out.new) }
{
    let ran = run_with(verb, &Run::new(alloc, input, files), makers, watcher, out);
    ending_after(alloc, is_in_words(verb), ran, out.reason(), files)
}

/// Runs a verb over the files that its words name, where a folder stands for the texts in it.
fn over_named<R: Eprint, O: SharedOpener, V: Watcher + Sync, W: Write>(
    rt: &R,
    alloc: Global,
    how: (Verb, Verbosity),
    words: &[&str],
    files: &O,
    watcher: &mut V,
    out: &mut W,
) -> Result<Ending, AllocError>
where
    O::R: Send,
    ensures { IfOk result (EndsNamed (Fails O.R.failures) (O.file files.now) how.0 (texts_of words.now) W.written W.failures out.old out.new) }
{
    match with_folders(alloc, words, files) {
        Ok(standing) => {
            let names = borrowed(alloc, &standing)?;
            over_files(rt, alloc, how, names.as_slice(), files, watcher, out)
        }
        Err(fault) => showing_init(alloc, how.0, &fault, files),
    }
}

/// Runs a verb over its files: texts, or a layout and a manifest.
fn over_files<R: Eprint, O: SharedOpener, V: Watcher + Sync, W: Write>(
    rt: &R,
    alloc: Global,
    how: (Verb, Verbosity),
    names: &[&str],
    files: &O,
    watcher: &mut V,
    out: &mut W,
) -> Result<Ending, AllocError>
where
    O::R: Send,
    ensures { IfOk result (EndsFiles (Fails O.R.failures) (O.file files.now) how.0 (texts_of names.now) W.written W.failures out.old out.new) }
{
    if are_texts(names, files) {
        return over_texts(rt, alloc, how, names, files, watcher, out);
    }
    match two_of(names) {
        Some(two) => over_pair(alloc, how.0, two, files, watcher, out),
        None => over_no_texts(alloc, how.0, names, files),
    }
}

/// Runs a verb over texts: makes the input of them, shows what was found, as much as is wanted, and runs.
#[tactic(auto, using(crate::proofs::Endings::rank_asked))]
fn over_texts<R: Eprint, O: SharedOpener, V: Watcher + Sync, W: Write>(
    rt: &R,
    alloc: Global,
    how: (Verb, Verbosity),
    texts: &[&str],
    files: &O,
    watcher: &mut V,
    out: &mut W,
) -> Result<Ending, AllocError>
where
    O::R: Send,
    ensures { IfOk result (EndsTexts (Fails O.R.failures) (O.file files.now) how.0 (texts_of texts.now) W.written W.failures out.old out.new) }
{
    let (verb, verbosity) = how;
    if let Some(path) = piped_of(texts, files) {
        let path = path.to_string(alloc)?;
        return showing_init(alloc, verb, &InitFault::Piped { path }, files);
    }
    let (prepared, seen) = match prepared_of(alloc, Saying::Words, Sends::Wait, texts, files) {
        Ok(read) => read,
        Err(fault) => return showing_init(alloc, verb, &fault, files),
    };
    tell(rt, alloc, verbosity, &prepared)?;
    let input = &prepared.made.input;
    if let Err(_outside) = has_rank(verb.asked_rank(), &input.layout) {
        let ranks = input.layout.ranks();
        return showing_init(alloc, verb, &InitFault::Outside { ranks }, files);
    }
    over_input(alloc, verb, input, &prepared.makers, &seen, watcher, out)
}

/// Runs a cluster of a layout and a manifest, by the names of their files.
fn over_cluster<
    R: Net<Listener = TcpListener, Stream = TcpStream> + Threads + Wait + Sync,
    O: Opener,
    W: Write,
>(rt: &R, alloc: Global, names: (&str, &str), files: &O, out: &mut W) -> Result<Ending, AllocError>
    ensures { IfOk result (EndsCluster (Fails O.R.failures) (O.file files.now) names.entry.0.now names.entry.1.now W.written W.failures out.old out.new) }
{
    let (layout, manifest) = names;
    match input_at(alloc, None, layout, manifest, files) {
        Ok(input) => {
            let beside = Beside::new(alloc, files, manifest);
            cluster_kept(rt, alloc, &input, &beside, out)
        }
        Err(fault) => showing(alloc, false, &fault, None, files),
    }
}

/// Runs a cluster over this input, whose files these are: of texts that may have been cut off over what is kept.
fn cluster_kept<
    R: Net<Listener = TcpListener, Stream = TcpStream> + Threads + Wait + Sync,
    O: Opener,
    W: Write,
>(rt: &R, alloc: Global, input: &RunInput, files: &O, out: &mut W) -> Result<Ending, AllocError>
    ensures { IfOk result (EndsClusterKept (Fails O.R.failures) (O.file files.now) input.now.layout input.now.manifest W.written W.failures out.old out.new) }
{
    match kept_files(alloc, input.manifest.pieces(), files) {
        Ok(seen) => cluster_over(rt, alloc, input, &seen, out),
        Err(fault) => showing(alloc, false, &fault, None, files),
    }
}

/// Runs a cluster over this input, whose files these are.
fn cluster_over<
    R: Net<Listener = TcpListener, Stream = TcpStream> + Threads + Wait + Sync,
    O: Opener,
    W: Write,
>(rt: &R, alloc: Global, input: &RunInput, files: &O, out: &mut W) -> Result<Ending, AllocError>
    ensures { IfOk result (EndsClusterRun (Fails O.R.failures) (O.file files.now) input.now.layout input.now.manifest W.written W.failures out.old out.new) }
{
    let ran = cluster(rt, &Run::new(alloc, input, files), out);
    ending_after(alloc, false, ran, out.reason(), files)
}

/// Runs `init` over the texts that its words name, where a folder stands for the texts in it.
fn init_named<O: SharedOpener, S: Store, W: Write>(
    alloc: Global,
    words: &[&str],
    wanted: Wanted<'_>,
    files: &O,
    store: &mut S,
    out: &mut W,
) -> Result<Ending, AllocError>
where
    O::R: Send,
    ensures { IfOk result (EndsInitNamed (O.file files.now) (texts_of words.now) (wish_of wanted.entry) (S.files store.old) (S.files store.new)
        (HasFailed (S.failures store.old) (S.failures store.new)) W.written W.failures out.old out.new) }
{
    match with_folders(alloc, words, files) {
        Ok(standing) => {
            let names = borrowed(alloc, &standing)?;
            over_init(alloc, names.as_slice(), wanted, files, store, out)
        }
        Err(fault) => refused_word(alloc, &fault),
    }
}

/// The ending of `init` where a word stands for no texts.
fn refused_word(alloc: Global, fault: &InitFault) -> Result<Ending, AllocError>
    ensures status { IfOk result (λ e. e.status ≡ 1) }
    ensures errors { IfOk result (λ e. string_bytes e.errors ≡ init_fault_line_of fault.now) }
{
    Ok(Ending {
        status: 1,
        errors: init_fault_line(alloc, fault)?,
    })
}

/// The ending of `init` with a fault, of a refused write with this reason.
fn refused_init(
    alloc: Global,
    fault: &InitFault,
    reason: Option<WriteReason>,
) -> Result<Ending, AllocError>
    ensures status { IfOk result (λ e. e.status ≡ 1) }
    ensures errors { IfOk result (λ e. string_bytes e.errors ≡ init_line_with fault.now reason) }
{
    let errors = init_line_with(alloc, fault, reason)?;
    let status = 1;
    Ok(Ending { status, errors })
}

/// Writes the layout and the manifest that are made of texts, both or none, and then what was found.
fn over_init<O: SharedOpener, S: Store, W: Write>(
    alloc: Global,
    texts: &[&str],
    wanted: Wanted<'_>,
    files: &O,
    store: &mut S,
    out: &mut W,
) -> Result<Ending, AllocError>
where
    O::R: Send,
    ensures { IfOk result (EndsInit (O.file files.now) (texts_of texts.now) (wish_of wanted.entry) (S.files store.old) (S.files store.new)
        (HasFailed (S.failures store.old) (S.failures store.new)) W.written W.failures out.old out.new) }
{
    match init(alloc, texts, wanted, files, store, out) {
        Ok(()) => Ok(silent(alloc, 0)),
        Err(fault) => refused_init(alloc, &fault, out.reason()),
    }
}

/// The names, where they are two.
#[tactic(auto, using(crate::proofs::Endings::two_names, crate::proofs::Endings::not_two))]
fn two_of<'a>(names: &[&'a str]) -> Option<(&'a str, &'a str)>
    ensures two { IfSome result (λ both. texts_of names.now ≡ both.0.now ∷ both.1.now ∷ []) }
    ensures other { result ≡ None → length (texts_of names.now) ≢ 2 }
{
    if names.len() == 2 {
        Some((names[0], names[1]))
    } else {
        None
    }
}

/// Whether the file is there, and has no byte: a rank that was killed may leave such a text.
fn is_empty<O: Opener>(path: &str, files: &O) -> bool
    ensures { IsTrue result → IsLength (O.file files.now path.now) 0 }
{
    files.length(path) == Some(0)
}

/// Whether the names are those of texts: the first one of a file that isn't empty tells it.
fn are_texts<O: Opener>(names: &[&str], files: &O) -> bool
    ensures { IsTrue result → BeginsWithText (O.file files.now) (texts_of names.now) }
{
    for name in names {
        if begins_as_text(name, files) {
            return true;
        }
        if !is_empty(name, files) {
            return false;
        }
    }
    false
}

/// The name of the first of some files.
fn first_name<'a>(names: &[&'a str]) -> &'a str
    ensures { result.now ≡ first_name (texts_of names.now) }
{
    match names {
        [first, ..] => *first,
        [] => "",
    }
}

/// The ending over files that are no texts, and not two: one can't be read, or has to be unpacked; or the words are
/// mistaken.
fn over_no_texts<O: Opener>(
    alloc: Global,
    verb: Verb,
    names: &[&str],
    files: &O,
) -> Result<Ending, AllocError>
    ensures { IfOk result (EndsStrange (O.file files.now) verb (texts_of names.now)) }
{
    match no_text_of(alloc, names, files)? {
        Some(fault) => showing_init(alloc, verb, &fault, files),
        None => strange_files(alloc, names),
    }
}

/// The words are mistaken: these files are no layout and manifest, and no texts.
fn strange_files(alloc: Global, names: &[&str]) -> Result<Ending, AllocError>
    ensures status { IfOk result (λ e. e.status ≡ 2) }
    ensures errors { IfOk result (λ e. string_bytes e.errors ≡ strange_line (texts_of names.now)) }
{
    let first = FileName::new(first_name(names));
    Ok(Ending {
        status: 2,
        errors: format!(in alloc;
            "mpimatch: {first} can't be read as a trace text: name the texts of all ranks, or a layout and a manifest\n"
        )?,
    })
}

/// The ending after such a run over these files, whose fault is shown in words or by its line alone.
fn ending_after<O: Opener>(
    alloc: Global,
    in_words: bool,
    ran: Result<Outcome, RunFault>,
    reason: Option<WriteReason>,
    files: &O,
) -> Result<Ending, AllocError>
    ensures { IfOk result (IsEndedBy in_words (O.file files.now) ran) }
{
    match ran {
        Ok(Outcome::Good) => Ok(silent(alloc, 0)),
        Ok(Outcome::CheckFailed) => Ok(silent(alloc, 1)),
        Err(fault) => showing(alloc, in_words, &fault, reason, files),
    }
}

/// The ending that shows a fault, of a refused write with this reason, in words or by its line alone.
fn showing<O: Opener>(
    alloc: Global,
    in_words: bool,
    fault: &RunFault,
    reason: Option<WriteReason>,
    files: &O,
) -> Result<Ending, AllocError>
    ensures status { IfOk result (λ e. e.status ≡ 1) }
    ensures errors { IfOk result (λ e. IsShownIn in_words (O.file files.now) fault.now (string_bytes e.errors)) }
{
    let errors = shown_fault(alloc, in_words, fault, reason, files)?;
    Ok(Ending { status: 1, errors })
}

/// The ending of a verb over texts that shows a fault of them.
fn showing_init<O: Opener>(
    alloc: Global,
    verb: Verb,
    fault: &InitFault,
    files: &O,
) -> Result<Ending, AllocError>
    ensures status { IfOk result (λ e. e.status ≡ 1) }
    ensures errors { IfOk result (λ e. IsInitShown (O.file files.now) verb fault.now (string_bytes e.errors)) }
{
    let errors = shown_init_fault(alloc, verb, fault, files)?;
    Ok(Ending { status: 1, errors })
}

/// The ending when a word of the command line is no UTF-8, which counts as a mistake in the words.
pub fn ending_without_words(alloc: Global) -> Result<Ending, AllocError>
    ensures { IfOk result (λ e. e.status ≡ 2) }
{
    Ok(Ending {
        status: 2,
        errors: "mpimatch: a word is not UTF-8\n".to_string(alloc)?,
    })
}

/// An ending with this status, and nothing on standard error.
fn silent(alloc: Global, status: u8) -> Ending
    ensures status { result.status ≡ status }
    ensures errors { string_bytes result.errors ≡ [] }
{
    Ending {
        status,
        errors: String::new(alloc),
    }
}

/// An ending with status 1, and the line of a fault on standard error.
fn refused(alloc: Global, fault: &RunFault) -> Result<Ending, AllocError>
    ensures status { IfOk result (λ e. e.status ≡ 1) }
    ensures errors { IfOk result (λ e. string_bytes e.errors ≡ fault_line_of fault.now) }
{
    Ok(Ending {
        status: 1,
        errors: fault_line(alloc, fault)?,
    })
}

/// The ending where a write was refused for this reason.
fn refused_write(alloc: Global, reason: Option<WriteReason>) -> Result<Ending, AllocError>
    ensures status { IfOk result (λ e. e.status ≡ 1) }
    ensures errors { IfOk result (λ e. string_bytes e.errors ≡ write_line reason) }
{
    Ok(Ending {
        status: 1,
        errors: line_with(alloc, &RunFault::Write, reason)?,
    })
}

/// Shows why the words ask for nothing; the help and the version go to standard output.
fn shown<W: Write>(alloc: Global, fault: &CommandFault, out: &mut W) -> Result<Ending, AllocError>
    ensures { IfOk result (EndsFor fault.now W.written W.failures out.old out.new) }
{
    let text = format!(in alloc; "{fault}")?;
    let status = fault.status();
    match status {
        0 => match write_all(out, text.as_str().as_bytes()) {
            Ok(()) => Ok(silent(alloc, 0)),
            Err(_) => refused_write(alloc, out.reason()),
        },
        2 => Ok(Ending {
            status,
            errors: text,
        }),
        // (memory was wanting)
        _ => refused(alloc, &RunFault::Memory),
    }
}
