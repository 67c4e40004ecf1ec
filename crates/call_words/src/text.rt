//! A text that grows.

ghost use Rattle.std.specs.Prelude.{◌≡◌, [], IfOk, false, true, decimal};
ghost use Rattle.call_words.specs.Texts.{Adds};

use itoa::Buffer;
use std::alloc::{AllocError, Global};

/// A text in memory, to which pieces are added. If memory is refused for a piece, the text stays incomplete and takes
/// no more, so its builder checks only once, at the end.
#[derive(Drop)]
pub struct Text {
    bytes: Vec<u8>,
    is_whole: bool,
}

impl Text {
    /// The empty text. Takes no memory.
    pub fn new(alloc: Global) -> Text
        ensures bytes { result.bytes.items ≡ [] }
        ensures whole { result.is_whole ≡ true }
    {
        Text {
            bytes: Vec::new(alloc),
            is_whole: true,
        }
    }

    /// Appends a piece, unless memory was refused before.
    pub fn put(&mut self, piece: &[u8])
        ensures { Adds self.old self.new piece.now }
    {
        if self.is_whole {
            self.is_whole = self.bytes.extend_from_slice(piece).is_ok();
        }
    }

    /// Appends a number in decimal digits, unless memory was refused before.
    pub fn put_number(&mut self, n: u64)
        ensures { Adds self.old self.new (decimal n) }
    {
        let mut buffer = Buffer::new();
        self.put(buffer.format(n).as_bytes());
    }

    /// Marks the text as incomplete, because memory was refused for a piece. It takes no more.
    pub fn give_up(&mut self)
        ensures { self.new.is_whole ≡ false }
    {
        self.is_whole = false;
    }

    /// The bytes of the text. Fails with `AllocError` if memory was refused for one of its pieces.
    pub fn into_bytes(self) -> Result<Vec<u8>, AllocError>
        ensures bytes { IfOk result (λ bytes. bytes.items ≡ self.bytes.items) }
        ensures whole { IfOk result (λ _. self.is_whole ≡ true) }
    {
        let Text { bytes, is_whole } = self;
        if is_whole { Ok(bytes) } else { Err(AllocError) }
    }
}
