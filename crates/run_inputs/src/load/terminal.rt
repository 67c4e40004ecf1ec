//! What a person at a terminal sees while a run reads.

use crate::faults::file_name::FileName;
use crate::load::watch::Watcher;
use dumpi_calls::Walked;
use std::io::Eprint;
use std::sync::atomic::{AtomicU64, Ordering};
use std::time::{Clock, Instant};

/// How many seconds a run reads before it shows how far it is, and from then on between two such
/// lines.
const PATIENCE: u64 = 2;

/// Shows on standard error how many pieces and bytes were read, if reading takes long; each text that has lines but no
/// call, as a file in another encoding would; and that a check pairs by the rules. If standard error is no terminal, it
/// shows nothing. If a line can't be shown, nothing else changes.
///
/// Any thread may show how far the run is: of two to which a line is due at once, one shows it.
#[derive(Drop)]
pub struct Terminal<'a, R: Eprint + Clock> {
    rt: &'a R,
    is_terminal: bool,
    /// When the reading began.
    began: Option<Instant>,
    /// How many seconds later the last line was shown.
    shown: AtomicU64,
    pieces: usize,
    pieces_read: AtomicU64,
    /// The bytes of all pieces, where each file tells its length.
    bytes: Option<u64>,
    bytes_read: AtomicU64,
}

impl<'a, R: Eprint + Clock> Terminal<'a, R> {
    /// A watcher of a run that hasn't begun. `is_terminal` says whether standard error is a terminal.
    pub fn new(rt: &'a R, is_terminal: bool) -> Self {
        Terminal {
            rt,
            is_terminal,
            began: None,
            shown: AtomicU64::new(0),
            pieces: 0,
            pieces_read: AtomicU64::new(0),
            bytes: None,
            bytes_read: AtomicU64::new(0),
        }
    }

    /// Whether so much time has gone that a line is due, and no other thread shows it.
    fn is_due(&self) -> bool {
        let Some(began) = self.began else {
            return false;
        };
        let gone = match began.elapsed(self.rt) {
            Ok(gone) => gone.as_secs(),
            Err(_) => return false,
        };
        let shown = self.shown.load(Ordering::SeqCst);
        gone.saturating_sub(shown) >= PATIENCE
            && self
                .shown
                .compare_exchange(shown, gone, Ordering::SeqCst, Ordering::SeqCst)
                .is_ok()
    }

    /// Shows how far the run is, where that is due.
    fn show(&self) {
        if !self.is_due() {
            return;
        }
        let pieces = self.pieces;
        let pieces_read = self.pieces_read.load(Ordering::SeqCst);
        let bytes_read = self.bytes_read.load(Ordering::SeqCst);
        let _ = match self.bytes {
            Some(bytes) => {
                eprint!(self.rt;
                    "mpimatch: {pieces_read} of {pieces} pieces and {bytes_read} of {bytes} bytes read\n"
                )
            }
            None => {
                eprint!(self.rt;
                    "mpimatch: {pieces_read} of {pieces} pieces and {bytes_read} bytes read\n"
                )
            }
        };
    }
}

impl<'a, R: Eprint + Clock> Watcher for Terminal<'a, R> {
    fn hush(&mut self) {
        self.is_terminal = false;
    }

    fn is_watching(&self) -> bool {
        self.is_terminal
    }

    fn begin(&mut self, pieces: usize, bytes: Option<u64>) {
        self.pieces = pieces;
        self.pieces_read.store(0, Ordering::SeqCst);
        self.bytes = bytes;
        self.bytes_read.store(0, Ordering::SeqCst);
        self.shown.store(0, Ordering::SeqCst);
        if self.is_terminal {
            self.began = Instant::now(self.rt).ok();
        }
    }

    fn has_taken(&self, bytes: usize) {
        let _ = self.bytes_read.fetch_add(bytes as u64, Ordering::SeqCst);
        self.show();
    }

    fn has_ended(&self) {
        let _ = self.pieces_read.fetch_add(1, Ordering::SeqCst);
        self.show();
    }

    fn has_read(&self, path: &str, walked: &Walked) {
        if self.is_terminal && walked.calls == 0 && walked.skipped > 0 {
            let lines = walked.skipped;
            let _ = eprint!(self.rt;
                "note: {} has no call in its {lines} lines\n",
                FileName::new(path)
            );
        }
    }

    fn begin_check(&mut self, calls: usize) {
        if self.is_terminal {
            let _ = eprint!(self.rt;
                "mpimatch: {calls} messages and receives are paired by the rules\n"
            );
        }
    }
}
