//! What observes how far a run has come.

use crate::load::opener::Opener;
use dumpi_calls::Walked;
use run_files::Piece;

/// Observes how far the reading of a run's pieces has come. No output of a run depends on it. Several threads may tell
/// what they read.
pub trait Watcher: Drop {
    /// Shows nothing from here on.
    fn hush(&mut self);

    /// Whether anything is shown to anyone. If not, the files' lengths are not added up before they are read.
    fn is_watching(&self) -> bool;

    /// From here on this many pieces are read, with this many bytes in all; `None` if a file doesn't have a length.
    fn begin(&mut self, pieces: usize, bytes: Option<u64>);

    /// This many more bytes were read, by any thread.
    fn has_taken(&self, bytes: usize);

    /// The text of one more piece was read to its end, by any thread.
    fn has_ended(&self);

    /// How the text of a piece was walked to its end. It is told in the order of the pieces.
    fn has_read(&self, path: &str, walked: &Walked);

    /// From here on this many messages and receives are paired by the rules.
    fn begin_check(&mut self, calls: usize);
}

/// A watcher that does nothing.
#[derive(Drop)]
pub struct Unwatched;

impl Watcher for Unwatched {
    fn hush(&mut self) {}

    fn is_watching(&self) -> bool {
        false
    }

    fn begin(&mut self, _pieces: usize, _bytes: Option<u64>) {}

    fn has_taken(&self, _bytes: usize) {}

    fn has_ended(&self) {}

    fn has_read(&self, _path: &str, _walked: &Walked) {}

    fn begin_check(&mut self, _calls: usize) {}
}

/// Tells the watcher that these pieces are read from here on.
pub fn announce<O: Opener, V: Watcher>(pieces: &[Piece], files: &O, watcher: &mut V) {
    let bytes = if watcher.is_watching() {
        bytes_of_all(pieces, files)
    } else {
        None
    };
    watcher.begin(pieces.len(), bytes);
}

/// Tells the watcher how the texts of the first of these pieces were walked.
pub fn tell_walked<V: Watcher>(pieces: &[Piece], walked: &[Walked], watcher: &V) {
    for (piece, one) in pieces.iter().zip(walked) {
        watcher.has_read(piece.file(), one);
    }
}

/// How many bytes the files of these pieces have together, where each tells its length.
fn bytes_of_all<O: Opener>(pieces: &[Piece], files: &O) -> Option<u64> {
    let mut bytes: u64 = 0;
    for piece in pieces {
        bytes = bytes.saturating_add(files.length(piece.file())?);
    }
    Some(bytes)
}
