//! What holds up a run: in words, as JSON, or as a picture.

ghost use Rattle.std.specs.Prelude.{IfErr, IfOk, OnOk};
ghost use Rattle.dumpi_text.specs.Failing.{Fails};
ghost use Rattle.trace_know.specs.View.{View};
ghost use Rattle.trace_node.specs.ByRank.{AnswersWithOps};
ghost use Rattle.command_runs.specs.Explains.{IsExplainOf};
ghost use Rattle.run_inputs.specs.Files.{NamesFailed};
ghost use Rattle.command_runs.specs.Refusals.{RefusesNamed};
ghost use Rattle.command_runs.specs.Said.{IsDiagnosed};
ghost use Rattle.command_runs.specs.Verbs.{RanSo};

use crate::arguments::compare_arguments;
use crate::cut_ranks::cut_ranks;
use crate::facts::{Facts, add_places, facts_of};
use crate::moments::{Moments, with_last_calls};
use call_words::Text;
use command_line::Extent;
use command_runs::{NotedRun, Outcome, Run, noted_run, write_text};
use diagnosis_value::Diagnosis;
use diagnosis_words::{
    TextFacts, answer_doubts, diagnosis_json, diagnosis_picture, diagnosis_words, last_calls,
    rank_words,
};
use mpi_model::{Layout, Write};
use run_inputs::{Opener, RunFault, SharedOpener, Watcher};
use std::alloc::{AllocError, Global};
use std::collections::BTreeMap;
use text_layouts::{Maker, maker_text};
use text_notes::{TextNote, put_notes, put_pieceless};
use trace_diagnosis::diagnose;
use trace_know::Knowledge;
use trace_node::{Answer, AnswerWithOps};
use trace_ops::ops_laws;

/// How a diagnosis is printed.
#[derive(Clone, Copy)]
pub(crate) enum Printing {
    Words(Extent),
    Json,
    /// As the value of a page: as JSON, with the last calls of some ranks.
    Page,
    /// What it says of one rank, in words.
    Rank(u32),
    /// In the language of Graphviz.
    Picture(Extent),
}

/// The rank that is asked for.
fn asked_of(printing: Printing) -> Option<u32> {
    match printing {
        Printing::Rank(rank) => Some(rank),
        Printing::Words(_) | Printing::Json | Printing::Page | Printing::Picture(_) => None,
    }
}

/// Writes what holds up the run, by all that the pieces tell.
pub(crate) fn explain<O: SharedOpener, V: Watcher + Sync, W: Write>(
    printing: Printing,
    run: &Run<'_, O>,
    makers: &BTreeMap<u32, Maker>,
    watcher: &mut V,
    out: &mut W,
) -> Result<Outcome, RunFault>
where
    O::R: Send,
    ensures ran { RanSo (IsExplainOf (O.file run.now.files.now) run.now.layout.now run.now.manifest.now) (IsExplainOf (O.file run.now.files.now) run.now.layout.now run.now.manifest.now)
        (RefusesNamed (O.file run.now.files.now) run.now.layout.now.ranks run.now.manifest.now) result W.written W.failures out.old out.new }
    ensures failed { IfErr result (NamesFailed (Fails O.R.failures)) }
{
    let text = text_with(printing, run, makers, watcher)?;
    write_text(&text, out)
}

/// What holds up the run, printed so, with the functions that made its objects.
pub(crate) fn text_with<O: SharedOpener, V: Watcher + Sync>(
    printing: Printing,
    run: &Run<'_, O>,
    makers: &BTreeMap<u32, Maker>,
    watcher: &mut V,
) -> Result<Vec<u8>, RunFault>
where
    O::R: Send,
    ensures ok { IfOk result (λ text. IsExplainOf (O.file run.now.files.now) run.now.layout.now run.now.manifest.now text.items) }
    ensures err { IfErr result (RefusesNamed (O.file run.now.files.now) run.now.layout.now.ranks run.now.manifest.now) }
    ensures failed { IfErr result (NamesFailed (Fails O.R.failures)) }
{
    let noted = noted_run(run, watcher)?;
    let NotedRun { know, told, notes } = noted;
    let text = diagnosed(printing, run, makers, &know, &told, notes)?;
    Ok(text)
}

/// The names of the functions that made objects.
fn names_of(
    alloc: Global,
    makers: &BTreeMap<u32, Maker>,
) -> Result<BTreeMap<u32, &'static str>, AllocError> {
    let mut names = BTreeMap::new(alloc);
    for (object, maker) in makers {
        names.insert(*object, maker_text(*maker))?;
    }
    Ok(names)
}

/// What holds up the run by what is known of it, where these are the notes of the texts.
fn diagnosis_of<O: Opener>(
    run: &Run<'_, O>,
    know: &Knowledge,
    told: &AnswerWithOps,
    notes: &[TextNote],
) -> Result<Diagnosis, AllocError>
    requires { AnswersWithOps run.now.layout.now know.now told.now }
{
    let ops = told.ops();
    let answer = &told.answer;
    let cut = cut_ranks(run.alloc, know, answer.ranks(), notes, run.files)?;
    let diagnosis = diagnose(run.alloc, run.layout, ops, answer, know, &cut)?;
    Ok(diagnosis)
}

/// What the texts tell beside the diagnosis, with the functions that made objects.
fn texts_of<O: Opener>(
    printing: Printing,
    run: &Run<'_, O>,
    makers: &BTreeMap<u32, Maker>,
    told: &AnswerWithOps,
    diagnosis: &Diagnosis,
    notes: Vec<TextNote>,
) -> Result<TextFacts, AllocError>
    requires { (view : View) × AnswersWithOps run.now.layout.now view told.now }
{
    ops_laws();
    let ops = told.ops();
    let answer = &told.answer;
    let mut found = facts_of(run.alloc, diagnosis, asked_of(printing), notes, run.files)?;
    compare_arguments(run.alloc, run.layout, answer, ops, &mut found)?;
    let Facts { texts, .. } = found;
    let mut texts = texts;
    add_places(run.alloc, &mut texts, run.files)?;
    texts.makers = names_of(run.alloc, makers)?;
    Ok(texts)
}

/// The diagnosis, printed so, with what the texts tell beside it.
fn printed<O: Opener>(
    printing: Printing,
    run: &Run<'_, O>,
    know: &Knowledge,
    told: &AnswerWithOps,
    diagnosis: &Diagnosis,
    texts: &TextFacts,
) -> Result<Vec<u8>, AllocError>
    requires { AnswersWithOps run.now.layout.now know.now told.now }
{
    ops_laws();
    let (alloc, layout, files) = (run.alloc, run.layout, run.files);
    let ops = told.ops();
    let answer = &told.answer;
    match printing {
        Printing::Words(extent) => in_words(alloc, layout, diagnosis, texts, answer, know, extent),
        Printing::Json => diagnosis_json(alloc, layout, diagnosis, texts),
        Printing::Page => {
            let json = diagnosis_json(alloc, layout, diagnosis, texts)?;
            let moments = Moments {
                alloc,
                layout,
                answer,
                ops,
                know,
                diagnosis,
                texts,
                files,
            };
            with_last_calls(&moments, json)
        }
        Printing::Rank(rank) => of_rank(alloc, layout, diagnosis, texts, answer, know, rank),
        Printing::Picture(extent) => {
            diagnosis_picture(alloc, layout, diagnosis, texts, extent == Extent::Whole)
        }
    }
}

/// What holds up the run by what is known of it, printed so, with what is noted of the texts.
fn diagnosed<O: Opener>(
    printing: Printing,
    run: &Run<'_, O>,
    makers: &BTreeMap<u32, Maker>,
    know: &Knowledge,
    told: &AnswerWithOps,
    notes: Vec<TextNote>,
) -> Result<Vec<u8>, AllocError>
    requires { AnswersWithOps run.now.layout.now know.now told.now }
    ensures { OnOk result (IsDiagnosed run.now.layout.now know.now) }
{
    let diagnosis = diagnosis_of(run, know, told, &notes)?;
    let texts = texts_of(printing, run, makers, told, &diagnosis, notes)?;
    printed(printing, run, know, told, &diagnosis, &texts)
}

/// In words, and below them what is noted of the texts.
fn in_words(
    alloc: Global,
    layout: &Layout,
    diagnosis: &Diagnosis,
    texts: &TextFacts,
    answer: &Answer,
    know: &Knowledge,
    extent: Extent,
) -> Result<Vec<u8>, AllocError> {
    let all = extent == Extent::Whole;
    let said = diagnosis_words(alloc, layout, diagnosis, texts, all)?;
    let doubts = answer_doubts(alloc, layout, diagnosis, texts, answer, know, all)?;
    let mut text = Text::new(alloc);
    text.put(&said);
    text.put(&doubts);
    put_pieceless(alloc, &mut text, &texts.notes, &diagnosis.doubts.no_calls);
    put_notes(alloc, &mut text, &texts.notes);
    text.into_bytes()
}

/// Of one rank, and below that its last calls.
fn of_rank(
    alloc: Global,
    layout: &Layout,
    diagnosis: &Diagnosis,
    texts: &TextFacts,
    answer: &Answer,
    know: &Knowledge,
    rank: u32,
) -> Result<Vec<u8>, AllocError> {
    let mut text = rank_words(alloc, layout, diagnosis, texts, rank, false)?;
    let calls = last_calls(alloc, layout, diagnosis, texts, answer, know, rank)?;
    text.extend_from_slice(&calls)?;
    Ok(text)
}
