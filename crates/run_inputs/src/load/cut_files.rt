//! The files of a run of which some texts were cut off: those are read as far as they are kept.

ghost use Rattle.std.specs.Prelude.{◌≡◌, [], map, option_map, string_bytes};
ghost use Rattle.std.specs.Str.{bytes_eq};
ghost use Rattle.run_inputs.specs.Seen.{is_cut, kept_of, limit_in, seen_by};

use crate::load::front::Front;
use crate::load::opener::{OpenFault, Opener, SharedOpener};
use crate::load::reason::Reason;
use side_by_side::ThreadCount;
use std::alloc::Global;

/// A text that was cut off.
#[derive(Drop)]
pub struct CutText {
    /// The name of its file.
    pub file: String,
    /// How many of its bytes are kept: some of its lines.
    pub bytes: u64,
    /// Its last line.
    pub line: u64,
}

/// Opens the files of a run. Of the texts that were cut off it gives what is kept.
#[derive(Drop)]
pub struct CutFiles<'a, O: Opener> {
    /// All of them, as they stand.
    pub files: &'a O,
    /// The texts among them that were cut off.
    pub cuts: Vec<CutText>,
}

impl CutText {
    /// Whether it is the text of this name.
    fn is_named(&self, path: &str) -> bool
        ensures { result ≡ bytes_eq (string_bytes self.now.file) path.now }
    {
        self.file.as_str().as_bytes() == path.as_bytes()
    }
}

/// The text of this name among those that were cut off.
fn cut_at<'c>(cuts: &'c [CutText], path: &str) -> Option<&'c CutText>
    ensures { option_map (λ cut. cut.now.bytes) result ≡ limit_in (map kept_of cuts.now) path.now }
{
    for cut in cuts {
        if cut.is_named(path) {
            return Some(cut);
        }
    }
    None
}

impl<'a, O: Opener> CutFiles<'a, O> {
    /// These files, of which these texts were cut off.
    pub(crate) fn new(files: &'a O, cuts: Vec<CutText>) -> Self
        ensures files { result.files.now ≡ files.now }
        ensures cuts { result.cuts ≡ cuts }
    {
        CutFiles { files, cuts }
    }

    /// These files, of which none was cut off.
    pub(crate) fn whole(alloc: Global, files: &'a O) -> Self
        ensures files { result.files.now ≡ files.now }
        ensures cuts { result.cuts.items ≡ [] }
    {
        CutFiles::new(files, Vec::new(alloc))
    }

    /// Whether a file is a text that was cut off.
    pub(crate) fn is_cut(&self, path: &str) -> bool
        ensures { result ≡ is_cut (map kept_of self.now.cuts.items) path.now }
    {
        self.limit(path).is_some()
    }

    /// How many bytes of a file are kept, if it was cut off.
    fn limit(&self, path: &str) -> Option<u64>
        ensures { result ≡ limit_in (map kept_of self.now.cuts.items) path.now }
    {
        match cut_at(&self.cuts, path) {
            Some(cut) => Some(cut.bytes),
            None => None,
        }
    }
}

impl<'a, O: Opener> Opener for CutFiles<'a, O> {
    type R = Front<O::R>;

    ghost file = { λ f. seen_by (map kept_of f.cuts.items) (O.file f.files.now) };

    #[tactic(auto, using(crate::proofs::Fronts::stands_there, crate::proofs::Fronts::front_none))]
    fn open(&self, path: &str) -> Result<Front<O::R>, OpenFault> {
        match self.files.open(path) {
            Ok(reader) => Ok(Front::new(reader, self.limit(path))),
            Err(fault) => Err(fault),
        }
    }

    #[tactic(auto, using(crate::proofs::Fronts::length_of_front, crate::proofs::Fronts::length_of_all, crate::proofs::Fronts::front_none))]
    fn length(&self, path: &str) -> Option<u64> {
        match self.files.length(path) {
            Some(length) => match self.limit(path) {
                Some(limit) => Some(length.min(limit)),
                None => Some(length),
            },
            None => None,
        }
    }

    fn reason(&self, path: &str) -> Option<Reason> {
        self.files.reason(path)
    }

    fn cut_line(&self, path: &str) -> Option<u64> {
        match cut_at(&self.cuts, path) {
            Some(cut) => Some(cut.line),
            None => None,
        }
    }
}

impl<'a, O: SharedOpener> SharedOpener for CutFiles<'a, O> {
    type Handle = O::Handle;

    fn handle(&self) -> &O::Handle {
        self.files.handle()
    }

    fn threads(&self) -> ThreadCount {
        self.files.threads()
    }
}
