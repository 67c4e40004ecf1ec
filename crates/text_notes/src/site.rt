//! From where in a program a call was made.

ghost use Rattle.std.specs.Prelude.{◌≡◌, IfOk};
ghost use Rattle.std.specs.Option.{option_copied, option_map};
ghost use Rattle.text_notes.specs.Sites.{caller_of, first_of, site_of};

use crate::value::copied;
use dumpi_text::RawCall;
use std::alloc::{AllocError, Global};
use std::marker::Model;

/// A call of a text as it stands there: its number among the calls of the text, from 0, the line where it begins, the
/// name of its function, and the place in the program from which it was made, if the text has that.
#[derive(Drop)]
pub struct CallSite {
    number: u64,
    line: u64,
    name: Vec<u8>,
    caller: Option<Vec<u8>>,
}

impl Model for CallSite {
    ghost use Rattle.std.specs.Option.{option_map};
    ghost use Rattle.text_notes.specs.Sites.{SiteParts};

    ghost Value = { SiteParts };

    ghost view = { λ s. record { number = s.number; line = s.line; name = s.name.items; caller = option_map (λ v. v.items) s.caller } };
}

impl CallSite {
    /// The number of the call among the calls of the text, from 0.
    pub fn number(&self) -> u64
        ensures { result ≡ self.now.number }
    {
        self.number
    }

    /// The line where it begins.
    pub fn line(&self) -> u64
        ensures { result ≡ self.now.line }
    {
        self.line
    }

    /// The name of its function.
    pub fn name(&self) -> &[u8]
        ensures { result.now ≡ self.now.name }
    {
        self.name.as_slice()
    }

    /// The place in the program from which it was made, as `main.c:42 (exchange)`; `None` if the text doesn't say it.
    pub fn caller(&self) -> Option<&[u8]>
        ensures { option_copied result ≡ self.now.caller }
    {
        match &self.caller {
            Some(caller) => Some(caller.as_slice()),
            None => None,
        }
    }
}

impl CallSite {
    ghost use Rattle.text_notes.specs.FrontLooks.{behind};

    /// The same call, where its text stands behind so many calls and lines of another. Counts stay at the greatest value
    /// of their type.
    pub fn behind(self, calls: u64, lines: u64) -> CallSite
        ensures { result ≡ behind calls lines self }
    {
        let CallSite {
            number,
            line,
            name,
            caller,
        } = self;
        CallSite {
            number: number.saturating_add(calls),
            line: line.saturating_add(lines),
            name,
            caller,
        }
    }
}

/// The first of two values that is there.
fn first_of<'a>(one: Option<&'a [u8]>, other: Option<&'a [u8]>) -> Option<&'a [u8]>
    ensures { option_copied result ≡ first_of (option_copied one.entry) (option_copied other.entry) }
{
    match one {
        Some(value) => Some(value),
        None => other,
    }
}

/// From where in the program a call was made, where its text tells it.
fn caller_of(raw: &RawCall) -> Option<&[u8]>
    ensures { option_copied result ≡ caller_of raw.now }
{
    first_of(raw.param(b"caller"), raw.param(b"*caller"))
}

/// A call of a text, by its number, as it stands there.
pub(crate) fn site_of(alloc: Global, number: u64, raw: &RawCall) -> Result<CallSite, AllocError>
    ensures { IfOk result (λ site. site ≡ site_of number raw.now) }
{
    let name = Vec::from_slice(alloc, raw.name())?;
    let caller = copied(alloc, caller_of(raw))?;
    Ok(CallSite {
        number,
        line: raw.line(),
        name,
        caller,
    })
}
