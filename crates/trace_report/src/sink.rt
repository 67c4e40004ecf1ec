//! Where a report is printed, one text after another.

ghost use Rattle.std.specs.Prelude.{◌≡◌, []};
ghost use Rattle.trace_report.specs.Page.{Page, Prints};

/// Takes texts, one after another, and nothing after a write that failed.
pub(crate) trait Sink {
    /// What was printed, and how much of it has reached the device.
    ghost page: { Self → Page };

    /// Takes the whole text. It may hold the text back until later.
    fn put(&mut self, text: &[u8])
        ensures { Prints (page self.old) (page self.new) text.now };

    /// Passes on what it holds back.
    fn flush(&mut self)
        ensures prints { Prints (page self.old) (page self.new) [] }
        ensures empty { (page self.new).pending ≡ [] };
}
