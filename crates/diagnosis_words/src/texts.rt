//! What the texts of a run tell of its calls and of themselves.

use crate::doubtful::is_doubtful;
use std::alloc::{AllocError, Global};
use std::collections::BTreeMap;
use text_notes::{CallSite, TextNote, UnreadFunction, note_of};
use trace_arguments::{Disagreement, Truncated};

/// What the texts of a run tell of its calls and of themselves. It is empty if there is no text.
#[derive(Drop)]
pub struct TextFacts {
    /// What was noted of each text, in the order of the pieces.
    pub notes: Vec<TextNote>,
    /// Where calls stand in the texts, by rank and number.
    pub sites: Vec<PlacedSite>,
    /// How often functions were called that may wait or move data and that aren't read, by name.
    pub local: Vec<LocalCalls>,
    /// The texts that end inside a line or a call, in the order of the pieces.
    pub cut: Vec<CutText>,
    /// The greatest size that MPI_Comm_size tells of MPI_COMM_WORLD.
    pub size: Option<u64>,
    /// The messages that are longer than their receives, by message.
    pub truncated: Vec<Truncated>,
    /// The rounds in which arguments of calls don't agree, by object and number, and by line of the table.
    pub arguments: Vec<Disagreement>,
    /// The functions that made objects of the layout, by the objects' ids.
    pub makers: BTreeMap<u32, &'static str>,
}

/// Where a call of a rank stands in its text.
#[derive(Drop)]
pub struct PlacedSite {
    pub rank: u32,
    /// The number of the call among all calls of its rank, from 0.
    pub call: u64,
    /// The place of its text among the notes.
    pub note: usize,
    pub site: CallSite,
}

/// How often a function was called.
#[derive(Drop)]
pub struct LocalCalls {
    pub function: Vec<u8>,
    pub calls: u64,
}

/// A text that ends inside a line or a call.
#[derive(Drop)]
pub struct CutText {
    pub rank: u32,
    /// The place of the text among the notes.
    pub note: usize,
    /// Its last line.
    pub line: u64,
}

/// Where a call stands, as far as the texts tell it.
#[derive(Clone, Copy)]
pub(crate) struct Place<'a> {
    /// The name of the text's file, as the manifest spells it.
    pub path: &'a [u8],
    /// The name of the text's file as a line for a person shows it.
    pub file: &'a [u8],
    /// The line where the call begins.
    pub line: Option<u64>,
    /// The place in the program from which it was made.
    pub caller: Option<&'a [u8]>,
    /// The name of its function.
    pub function: Option<&'a [u8]>,
}

/// Adds calls of a function.
fn count(
    alloc: Global,
    known: &mut Vec<LocalCalls>,
    function: &[u8],
    calls: u64,
) -> Result<(), AllocError> {
    for one in known.iter_mut() {
        if one.function.as_slice() == function {
            one.calls = one.calls.saturating_add(calls);
            return Ok(());
        }
    }
    let function = Vec::from_slice(alloc, function)?;
    known.push(LocalCalls { function, calls })?;
    Ok(())
}

/// Adds the calls of those of the functions that may wait or move data.
fn count_doubtful(
    alloc: Global,
    known: &mut Vec<LocalCalls>,
    local: &[UnreadFunction],
) -> Result<(), AllocError> {
    for function in local {
        if is_doubtful(function.name()) {
            count(alloc, known, function.name(), function.count())?;
        }
    }
    Ok(())
}

/// Whether one of the functions may wait or move data.
pub fn has_doubtful(local: &[UnreadFunction]) -> bool {
    local.iter().any(|function| is_doubtful(function.name()))
}

impl TextFacts {
    /// The facts when no text was read: none.
    pub fn none(alloc: Global) -> TextFacts {
        TextFacts {
            notes: Vec::new(alloc),
            sites: Vec::new(alloc),
            local: Vec::new(alloc),
            cut: Vec::new(alloc),
            size: None,
            truncated: Vec::new(alloc),
            arguments: Vec::new(alloc),
            makers: BTreeMap::new(alloc),
        }
    }

    /// Adds where calls stand in a text: the text's place among the notes is given, and each call has the number among
    /// the calls of its rank that the note's piece gives it. On `AllocError`, when memory is refused, its contents are
    /// unspecified.
    pub fn add_sites(&mut self, note: usize, sites: Vec<CallSite>) -> Result<(), AllocError> {
        let (rank, first) = match self.notes.as_slice().get(note) {
            Some(noted) => (noted.rank(), noted.first()),
            None => return Ok(()),
        };
        for site in sites {
            let call = first.saturating_add(site.number());
            self.sites.push(PlacedSite {
                rank,
                call,
                note,
                site,
            })?;
        }
        Ok(())
    }

    /// Adds a size that MPI_Comm_size tells of MPI_COMM_WORLD.
    pub fn add_size(&mut self, size: Option<u64>) {
        self.size = self.size.max(size);
    }

    /// Adds local calls of functions. On `AllocError`, when memory is refused, its contents are unspecified.
    pub fn add_local(&mut self, alloc: Global, local: &[UnreadFunction]) -> Result<(), AllocError> {
        count_doubtful(alloc, &mut self.local, local)
    }

    /// Adds all local calls of the text that has this place among the notes. On `AllocError`, when memory is refused,
    /// its contents are unspecified.
    pub fn add_local_of(&mut self, alloc: Global, note: usize) -> Result<(), AllocError> {
        match self.notes.as_slice().get(note) {
            Some(noted) => count_doubtful(alloc, &mut self.local, noted.needs().local()),
            None => Ok(()),
        }
    }

    /// Puts what was added in order. On `AllocError`, when memory is refused, its contents are unspecified.
    pub fn finish(&mut self) -> Result<(), AllocError> {
        self.sites
            .sort_by_key(|site| (site.rank, site.call, site.note))?;
        self.local
            .sort_by(|one, other| one.function.cmp(&other.function))?;
        Ok(())
    }

    /// Whether a text is of a rank.
    pub(crate) fn has_text(&self, rank: u32) -> bool {
        self.notes.iter().any(|note| note.rank() == rank)
    }

    /// The call of this number in the first text that has it, where a second look found it.
    fn site(&self, rank: u32, call: u64) -> Option<&PlacedSite> {
        let sites = self.sites.as_slice();
        let at = sites.partition_point(|site| (site.rank, site.call) < (rank, call));
        let found = sites.get(at)?;
        if found.rank == rank && found.call == call {
            Some(found)
        } else {
            None
        }
    }

    /// Where a call stands: in the first text that has it.
    pub(crate) fn place(&self, rank: u32, call: u64) -> Option<Place<'_>> {
        if let Some(placed) = self.site(rank, call) {
            let note = self.notes.as_slice().get(placed.note)?;
            return Some(Place {
                path: note.path().as_bytes(),
                file: note.file(),
                line: Some(placed.site.line()),
                caller: placed.site.caller(),
                function: Some(placed.site.name()),
            });
        }
        let at = note_of(self.notes.as_slice(), rank, call)?;
        let note = self.notes.as_slice().get(at)?;
        Some(Place {
            path: note.path().as_bytes(),
            file: note.file(),
            line: note.line_of(call.saturating_sub(note.first())),
            caller: None,
            function: None,
        })
    }
}
