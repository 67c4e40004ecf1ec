//! `init`: the layout and the manifest of texts, as two files.

ghost use Rattle.std.specs.Prelude.{◌≡◌, ◌≢◌, IfErr, IfOk, OnOk, map, string_bytes};
ghost use Rattle.mpi_model.specs.Failures.{HasFailed};
ghost use Rattle.run_files.specs.Stores.{Goes, LeavesNothing, Same};
ghost use Rattle.command_line.specs.Program.{texts_of, wish_of};
ghost use Rattle.run_inputs.specs.Inits.{AreFilesOf, LeftOfPutting, PutsBoth, RanInit, RefusesFiles, RefusesPutting, all_marked, file_with, wished_form};
ghost use Rattle.run_inputs.specs.Prepared.{form_of};
ghost use Rattle.run_inputs.specs.Seen.{is_cut, kept_of};
ghost use Rattle.run_inputs.specs.declared.faults.init_fault.InitFault.TheVariants.{Memory};

use crate::faults::init_fault::{InitFault, put_fault};
use crate::load::cut_files::CutFiles;
use crate::load::opener::{Opener, SharedOpener};
use crate::load::prepared::{Prepared, Saying};
use crate::load::seen::prepared_of;
use command_line::Wanted;
use mpi_model::{Write, write_all};
use run_files::{NewFile, Piece, PutFault, Store, add_both, replace_both};
use std::alloc::{AllocError, Global};
use text_layouts::{layout_file_of, manifest_file_of};

/// The bytes of both files of what was made.
#[derive(Drop)]
struct BothFiles {
    layout: Vec<u8>,
    manifest: Vec<u8>,
}

/// The texts of a manifest, each marked as one that was cut off if it was.
fn marked_of<O: Opener>(
    alloc: Global,
    texts: &[Piece],
    seen: &CutFiles<'_, O>,
) -> Result<Vec<Piece>, AllocError>
    ensures { IfOk result (λ marked. marked.items ≡ all_marked (is_cut (map kept_of seen.now.cuts.items)) texts.now) }
{
    let mut marked = Vec::new(alloc);
    for text in texts {
        let cut = seen.is_cut(text.file());
        marked.push(text.marked(cut)?)?;
    }
    Ok(marked)
}

/// The bytes of both files of what was made of texts, where neither is too long.
#[tactic(auto, using(crate::proofs::Ended::layout_too_long, crate::proofs::Ended::manifest_too_long, crate::proofs::Ended::manifest_marked))]
fn files_of<O: Opener>(
    alloc: Global,
    prepared: &Prepared,
    seen: &CutFiles<'_, O>,
) -> Result<BothFiles, InitFault>
    ensures ok { IfOk result (λ both. AreFilesOf prepared.now.made (is_cut (map kept_of seen.now.cuts.items)) both.layout.items both.manifest.items) }
    ensures err { IfErr result (RefusesFiles prepared.now.made (is_cut (map kept_of seen.now.cuts.items))) }
{
    let texts = marked_of(alloc, prepared.made.input.manifest.pieces(), seen)?;
    let layout = match layout_file_of(alloc, &prepared.made) {
        Ok(layout) => layout,
        Err(fault) => return Err(InitFault::Made(fault)),
    };
    let manifest = match manifest_file_of(alloc, &texts) {
        Ok(manifest) => manifest,
        Err(fault) => return Err(InitFault::Made(fault)),
    };
    Ok(BothFiles { layout, manifest })
}

/// Keeps both files under their wanted names: over files that are there only where that is wanted.
fn keep<S: Store>(
    alloc: Global,
    both: &BothFiles,
    wanted: Wanted<'_>,
    store: &mut S,
) -> Result<(), PutFault>
    ensures ok { OnOk result (Goes (PutsBoth wanted.entry.force (file_with wanted.entry.layout.now both.now.layout.items) (file_with wanted.entry.manifest.now both.now.manifest.items))
        (S.files store.old) (S.files store.new)) }
    ensures err { IfErr result (λ fault. LeavesNothing fault → Goes Same (S.files store.old) (S.files store.new)) }
    ensures left { IfErr result (λ fault. Goes (LeftOfPutting wanted.entry.force (file_with wanted.entry.layout.now both.now.layout.items)
        (file_with wanted.entry.manifest.now both.now.manifest.items) fault) (S.files store.old) (S.files store.new)) }
    ensures cause { IfErr result (RefusesPutting (wish_of wanted.entry) (S.files store.old)
        (HasFailed (S.failures store.old) (S.failures store.new))) }
{
    let layout = NewFile {
        name: wanted.layout,
        bytes: &both.layout,
    };
    let manifest = NewFile {
        name: wanted.manifest,
        bytes: &both.manifest,
    };
    if wanted.force {
        replace_both(alloc, store, layout, manifest)
    } else {
        add_both(store, layout, manifest)
    }
}

/// Copies of the names of both files, for a fault to keep.
fn names_of(alloc: Global, wanted: Wanted<'_>) -> Result<(String, String), InitFault>
    ensures layout { IfOk result (λ names. string_bytes names.0 ≡ wanted.entry.layout.now) }
    ensures manifest { IfOk result (λ names. string_bytes names.1 ≡ wanted.entry.manifest.now) }
    ensures err { IfErr result (λ fault. fault ≡ Memory) }
{
    let layout = wanted.layout.to_string(alloc)?;
    let manifest = wanted.manifest.to_string(alloc)?;
    Ok((layout, manifest))
}

/// How what was found is to be said.
fn saying_of<'a>(wanted: Wanted<'a>) -> Saying<'a>
    ensures { form_of result ≡ wished_form (wish_of wanted.entry) }
{
    if wanted.json {
        Saying::Json {
            layout: wanted.layout,
            manifest: wanted.manifest,
        }
    } else {
        Saying::Words
    }
}

/// Makes both files of the texts, keeps them, and prints what was found.
pub fn init<O: SharedOpener, S: Store, W: Write>(
    alloc: Global,
    texts: &[&str],
    wanted: Wanted<'_>,
    files: &O,
    store: &mut S,
    out: &mut W,
) -> Result<(), InitFault>
where
    O::R: Send,
    ensures { RanInit (O.file files.now) (texts_of texts.now) (wish_of wanted.entry) (S.files store.old) (S.files store.new)
        (HasFailed (S.failures store.old) (S.failures store.new)) result W.written W.failures out.old out.new }
{
    let saying = saying_of(wanted);
    let (prepared, seen) = prepared_of(alloc, saying, wanted.sends, texts, files)?;
    let both = files_of(alloc, &prepared, &seen)?;
    // (what a fault names, before anything is kept)
    let (layout, manifest) = names_of(alloc, wanted)?;
    if let Err(fault) = keep(alloc, &both, wanted, store) {
        return Err(put_fault(fault, layout, manifest));
    }
    match write_all(out, &prepared.notes) {
        Ok(()) => Ok(()),
        Err(_) => Err(InitFault::Write),
    }
}
