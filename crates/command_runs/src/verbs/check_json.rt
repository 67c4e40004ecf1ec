//! A check as JSON: the four numbers of its lines, and whether both hold.

ghost use Rattle.std.specs.Prelude.{◌≡◌, IfErr, IfOk};
ghost use Rattle.dumpi_text.specs.Failing.{Fails};
ghost use Rattle.command_runs.specs.CheckJson.{check_json, end_text, key, next, of_scan, with_digit};
ghost use Rattle.run_inputs.specs.Files.{NamesFailed};
ghost use Rattle.command_runs.specs.Verbs.{Ran};

use crate::run::{Outcome, Run};
use crate::verbs::check::{checker_of, outcome_of};
use crate::verbs::writing::write_text;
use command_line::Verb;
use mpi_model::Write;
use run_inputs::{RunFault, SharedOpener, Watcher};
use std::alloc::{AllocError, Global};

/// What was made of the bytes so far: the JSON, how many numbers it has, and whether the last byte was a digit.
#[derive(Debug, Drop)]
struct Scan {
    text: Vec<u8>,
    numbers: usize,
    inside: bool,
}

/// What stands in front of a number.
fn key(number: usize) -> &'static [u8]
    ensures { result.now ≡ key number }
{
    if number == 0 {
        b"{\"check\":1,\"pairs\":"
    } else if number == 1 {
        b",\"postponed\":"
    } else if number == 2 {
        b",\"stuck\":"
    } else {
        b",\"released\":"
    }
}

/// What stands behind the last one.
fn end_text(held: bool) -> &'static [u8]
    ensures { result.now ≡ end_text held }
{
    if held {
        b",\"holds\":true}\n"
    } else {
        b",\"holds\":false}\n"
    }
}

/// With one byte more of a number.
fn with_digit(scan: Scan, byte: u8) -> Result<Scan, AllocError>
    ensures { IfOk result (λ s. of_scan s ≡ with_digit (of_scan scan) byte) }
{
    let Scan {
        text,
        numbers,
        inside,
    } = scan;
    let mut text = text;
    if inside {
        text.push(byte)?;
        return Ok(Scan {
            text,
            numbers,
            inside,
        });
    }
    text.extend_from_slice(key(numbers))?;
    text.push(byte)?;
    Ok(Scan {
        text,
        numbers: numbers.saturating_add(1),
        inside: true,
    })
}

/// With one byte more: a digit stays, all else ends a number.
fn next(scan: Scan, byte: u8) -> Result<Scan, AllocError>
    ensures { IfOk result (λ s. of_scan s ≡ next (of_scan scan) byte) }
{
    if b'0' <= byte && byte <= b'9' {
        return with_digit(scan, byte);
    }
    Ok(Scan {
        text: scan.text,
        numbers: scan.numbers,
        inside: false,
    })
}

/// The lines of a check as JSON.
fn check_json(alloc: Global, lines: &[u8], held: bool) -> Result<Vec<u8>, AllocError>
    ensures { IfOk result (λ text. text.items ≡ check_json held lines.now) }
{
    let mut scan = Scan {
        text: Vec::new(alloc),
        numbers: 0,
        inside: false,
    };
    for byte in lines {
        scan = next(scan, *byte)?;
    }
    let mut text = scan.text;
    text.extend_from_slice(end_text(held))?;
    Ok(text)
}

/// Writes a check as one JSON object.
pub fn check_as_json<O: SharedOpener, V: Watcher + Sync, W: Write>(
    run: &Run<'_, O>,
    watcher: &mut V,
    out: &mut W,
) -> Result<Outcome, RunFault>
where
    O::R: Send,
    ensures ran { Ran (O.file run.now.files.now) Verb.CheckJson run.now.layout.now run.now.manifest.now result W.written W.failures out.old out.new }
    ensures failed { IfErr result (NamesFailed (Fails O.R.failures)) }
{
    let checker = checker_of(run, watcher)?;
    watcher.begin_check(checker.size());
    let (lines, held) = checker.lines()?;
    let json = check_json(run.alloc, lines.as_str().as_bytes(), held)?;
    write_text(&json, out)?;
    Ok(outcome_of(held))
}
