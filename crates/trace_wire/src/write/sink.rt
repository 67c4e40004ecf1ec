//! Where a frame goes, field by field.

ghost use Rattle.std.specs.Prelude.{◌≡◌, []};
ghost use Rattle.trace_wire.specs.Sending.{Page, Sends};

/// Takes bytes, one field after another, and hands on nothing after a write that failed.
pub(crate) trait Sink {
    ghost page: { Self → Page };

    /// Puts the bytes.
    fn put(&mut self, bytes: &[u8])
        ensures { Sends (page self.old) (page self.new) bytes.now };

    /// Hands on what it holds, and then puts the bytes.
    fn put_after_flush(&mut self, bytes: &[u8])
        ensures { Sends (page self.old) (page self.new) bytes.now };

    /// Hands on what it holds.
    fn flush(&mut self)
        ensures sends { Sends (page self.old) (page self.new) [] }
        ensures empty { (page self.new).pending ≡ [] };
}
