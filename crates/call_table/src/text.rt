//! What the texts of a rank say of its calls, beside what is known of them: names, callers, datatypes, and the bytes
//! that statuses tell.

use crate::names::Names;
use crate::slot::Side;
use dumpi_calls::next_call;
use dumpi_text::{
    Field, Group, RawCall, TextFault, Texts, Value, ValueFault, parse_value, read_word, strip,
};
use mpi_model::Read;
use std::alloc::{AllocError, Global};

/// The bytes of a status that doesn't tell them.
const NOT_TOLD: u64 = u64::MAX;

/// What a text says of one call. Names go by their numbers.
#[derive(Clone, Copy)]
struct CallText {
    function: u32,
    caller: u32,
    /// The datatype of what the call sends, or its only one.
    datatype: u32,
    /// The datatype of what it receives.
    received: u32,
    /// The number of elements of a collective call, as it stands in the text.
    count: u32,
    /// Where the bytes of its statuses begin, and how many statuses it has.
    statuses: usize,
    told: u32,
}

/// A call of which no text says anything.
const NO_TEXT: CallText = CallText {
    function: 0,
    caller: 0,
    datatype: 0,
    received: 0,
    count: 0,
    statuses: 0,
    told: 0,
};

/// The number that stands for the function of a call where names aren't kept.
const SOME_FUNCTION: u32 = 1;

/// What the texts of a rank say of its calls. It takes some forty bytes a call.
#[derive(Drop)]
pub struct RankTexts {
    /// Whether more is kept than the bytes that statuses tell.
    is_whole: bool,
    names: Names,
    calls: Vec<CallText>,
    /// The numbers of datatypes, with the numbers of their names.
    types: Vec<(u32, u32)>,
    bytes: Vec<u64>,
}

/// The parameters of a call that are told, the first of each name.
#[derive(Clone, Copy)]
struct ToldParameters<'a> {
    count: Option<&'a [u8]>,
    sendcount: Option<&'a [u8]>,
    datatype: Option<&'a [u8]>,
    sendtype: Option<&'a [u8]>,
    recvtype: Option<&'a [u8]>,
    status: Option<&'a [u8]>,
    statuses: Option<&'a [u8]>,
    caller: Option<&'a [u8]>,
    starred_caller: Option<&'a [u8]>,
}

impl<'a> ToldParameters<'a> {
    /// With one parameter more of a call, where it is told and the first of its name. Names are told apart by their
    /// length first.
    #[inline(always)]
    fn with(self, name: &[u8], value: &'a [u8]) -> ToldParameters<'a> {
        let mut told = self;
        match name.len() {
            5 if name == b"count".as_slice() => told.count = told.count.or(Some(value)),
            6 if name == b"status".as_slice() => told.status = told.status.or(Some(value)),
            6 if name == b"caller".as_slice() => told.caller = told.caller.or(Some(value)),
            7 if name == b"*caller".as_slice() => {
                told.starred_caller = told.starred_caller.or(Some(value));
            }
            8 if name == b"datatype".as_slice() => told.datatype = told.datatype.or(Some(value)),
            8 if name == b"statuses".as_slice() => told.statuses = told.statuses.or(Some(value)),
            8 if name == b"sendtype".as_slice() => told.sendtype = told.sendtype.or(Some(value)),
            8 if name == b"recvtype".as_slice() => told.recvtype = told.recvtype.or(Some(value)),
            9 if name == b"sendcount".as_slice() => told.sendcount = told.sendcount.or(Some(value)),
            _ => {}
        }
        told
    }

    /// Those of a call.
    fn of(raw: &'a RawCall) -> ToldParameters<'a> {
        let mut told = ToldParameters {
            count: None,
            sendcount: None,
            datatype: None,
            sendtype: None,
            recvtype: None,
            status: None,
            statuses: None,
            caller: None,
            starred_caller: None,
        };
        for place in 0..raw.params_len() {
            if let Some((name, value)) = raw.param_at(place) {
                told = told.with(name, value);
            }
        }
        told
    }
}

/// What stands behind the first such byte.
fn behind(stop: u8, text: &[u8]) -> Option<&[u8]> {
    for (at, byte) in text.iter().enumerate() {
        if *byte == stop {
            return Some(&text[at + 1..]);
        }
    }
    None
}

/// What stands before the first such byte.
fn before(stop: u8, text: &[u8]) -> Option<&[u8]> {
    for (at, byte) in text.iter().enumerate() {
        if *byte == stop {
            return Some(&text[..at]);
        }
    }
    None
}

/// The name that a value's note has, as `MPI_INT` in `11 (MPI_INT)`.
fn note_in(value: &[u8]) -> Option<&[u8]> {
    before(b')', behind(b'(', value)?)
}

/// The same; where it has none, the value itself.
fn noted_name(value: &[u8]) -> &[u8] {
    match note_in(value) {
        Some(name) => name,
        None => value,
    }
}

/// The number that digits in front of a value say, and one more: 0 where there are none. The greatest one stands for
/// all that are greater.
fn number_in(value: Option<&[u8]>) -> u32 {
    let Some(value) = value else {
        return 0;
    };
    let mut number: u32 = 0;
    let mut seen = false;
    for byte in value {
        if *byte < b'0' || b'9' < *byte {
            break;
        }
        seen = true;
        number = number
            .saturating_mul(10)
            .saturating_add((*byte - b'0') as u32);
    }
    if seen { number.saturating_add(1) } else { 0 }
}

/// Whether a field tells the bytes of a message.
fn tells_bytes(field: &Field) -> bool {
    field.word.as_slice() == b"bytes".as_slice()
}

/// The bytes that a status tells.
fn bytes_in(group: &Group) -> u64 {
    for field in group.as_slice() {
        let value = field.number.value;
        if tells_bytes(field) && value >= 0 {
            return value as u64;
        }
    }
    NOT_TOLD
}

/// The number of at most 18 digits in front of a text, and what follows them.
fn digits_front(text: &[u8]) -> Option<(u64, &[u8])> {
    let mut number: u64 = 0;
    for (at, byte) in text.iter().enumerate() {
        if *byte < b'0' || b'9' < *byte {
            return if at == 0 {
                None
            } else {
                Some((number, &text[at..]))
            };
        }
        if at >= 18 {
            return None;
        }
        number = number.wrapping_mul(10).wrapping_add((*byte - b'0') as u64);
    }
    None
}

/// What follows one more field of a status, as `, source=3`.
fn behind_field(text: &[u8]) -> Option<&[u8]> {
    let field = strip(b", ", text)?;
    let (_, rest) = read_word(field)?;
    let rest = strip(b"=", rest)?;
    let rest = strip(b"-", rest).unwrap_or(rest);
    let (_, rest) = digits_front(rest)?;
    Some(rest)
}

/// The most fields of a status that is read in one pass.
const MOST_FIELDS: u32 = 8;

/// The bytes that the only status of a call tells, where it stands as tracers write it: `[1] {{bytes=8, source=0,
/// tag=1}}`. A status in another form is left to the functions that read any value.
fn usual_bytes(text: &[u8]) -> Option<u64> {
    let rest = strip(b"[1] {{bytes=", text)?;
    let (bytes, rest) = digits_front(rest)?;
    let mut rest = rest;
    for _ in 0..MOST_FIELDS {
        if rest == b"}}".as_slice() {
            return Some(bytes);
        }
        rest = behind_field(rest)?;
    }
    None
}

/// The statuses of a call, where it has some.
fn statuses_in(alloc: Global, text: &[u8]) -> Result<Option<Value>, AllocError> {
    match parse_value(alloc, text) {
        Ok(value) => Ok(Some(value)),
        Err(ValueFault::BadValue) => Ok(None),
        Err(ValueFault::Memory) => Err(AllocError),
    }
}

impl RankTexts {
    /// What is said of so many calls before a text is read: nothing. Fails with `AllocError` when memory is refused.
    pub fn new(alloc: Global, calls: u64) -> Result<RankTexts, AllocError> {
        Ok(RankTexts {
            is_whole: true,
            names: Names::new(alloc),
            calls: Vec::from_elem(alloc, NO_TEXT, calls as usize)?,
            types: Vec::new(alloc),
            bytes: Vec::new(alloc),
        })
    }

    /// The same, where of the texts nothing is kept but the bytes that statuses tell.
    pub fn of_statuses(alloc: Global, calls: u64) -> Result<RankTexts, AllocError> {
        let mut texts = RankTexts::new(alloc, calls)?;
        texts.is_whole = false;
        Ok(texts)
    }

    /// Adds what one more text of the rank says, whose first call has this number. A call of which an earlier text has
    /// said something keeps that. Of a text that can't be read a second time, what was read of it counts. Fails with
    /// `AllocError` when memory is refused.
    pub fn reading<R: Read>(
        self,
        alloc: Global,
        reader: R,
        first: u64,
    ) -> Result<RankTexts, AllocError> {
        let mut told = self;
        let mut texts = Texts::new(alloc, reader)?;
        let mut raw = RawCall::new(alloc);
        let mut call = first;
        'each: loop {
            match next_call(&mut texts, &mut raw) {
                Ok(true) => told.note(alloc, call, &raw)?,
                Ok(false) => return Ok(told),
                Err(TextFault::Memory) => return Err(AllocError),
                Err(_) => return Ok(told),
            }
            call = call.saturating_add(1);
        }
    }

    /// The name of the call's function, as its text has it; `None` if no text has the call.
    pub fn function(&self, call: u64) -> Option<&[u8]> {
        self.names.name(self.of_call(call).function)
    }

    /// The place in the program from which the call was made, if its text says it.
    pub fn caller(&self, call: u64) -> Option<&[u8]> {
        self.names.name(self.of_call(call).caller)
    }

    /// The name of the datatype of what the call sends or receives, or its number where the text has no name.
    pub fn datatype(&self, call: u64, side: Option<Side>) -> Option<&[u8]> {
        let text = self.of_call(call);
        let number = match side {
            Some(Side::Receive) if text.received != 0 => text.received,
            _ => text.datatype,
        };
        self.names.name(number)
    }

    /// The name of the datatype of this number, as the texts of the rank have it.
    pub fn type_name(&self, number: i64) -> Option<&[u8]> {
        for one in self.types.iter() {
            if one.0 > 0 && i64::from(one.0 - 1) == number {
                return self.names.name(one.1);
            }
        }
        None
    }

    /// The number of elements of a collective call, as its text has it.
    pub fn count(&self, call: u64) -> Option<u32> {
        self.of_call(call).count.checked_sub(1)
    }

    /// The bytes that the status at a place of the call tells, from 0.
    pub fn bytes(&self, call: u64, place: u32) -> Option<u64> {
        let text = self.of_call(call);
        if place >= text.told {
            return None;
        }
        let bytes = *self
            .bytes
            .get(text.statuses.saturating_add(place as usize))?;
        if bytes == NOT_TOLD { None } else { Some(bytes) }
    }

    /// What a text says of a call.
    fn of_call(&self, call: u64) -> CallText {
        match self.calls.get(call as usize) {
            Some(text) => *text,
            None => NO_TEXT,
        }
    }

    /// Notes a call, unless it is past the last one or an earlier text has it.
    fn note(&mut self, alloc: Global, call: u64, raw: &RawCall) -> Result<(), AllocError> {
        if call >= self.calls.len() as u64 || self.of_call(call).function != 0 {
            return Ok(());
        }
        let text = self.text_of(alloc, raw)?;
        let at = call as usize;
        if at < self.calls.len() {
            self.calls[at] = text;
        }
        Ok(())
    }

    /// What a text says of a call that stands there so.
    fn text_of(&mut self, alloc: Global, raw: &RawCall) -> Result<CallText, AllocError> {
        let told = ToldParameters::of(raw);
        let statuses = self.bytes.len();
        self.push_statuses(alloc, told.status.or(told.statuses))?;
        let count = self.bytes.len().saturating_sub(statuses);
        let text = CallText {
            function: SOME_FUNCTION,
            caller: 0,
            datatype: 0,
            received: 0,
            count: 0,
            statuses,
            told: u32::try_from(count).unwrap_or(0),
        };
        if self.is_whole {
            self.with_names(raw.name(), &told, text)
        } else {
            Ok(text)
        }
    }

    /// With the names and the count that a call has.
    fn with_names(
        &mut self,
        function: &[u8],
        told: &ToldParameters<'_>,
        text: CallText,
    ) -> Result<CallText, AllocError> {
        let function = self.names.number(function)?;
        let caller = self.names.number_of(told.caller.or(told.starred_caller))?;
        let datatype = self.type_of(told.datatype.or(told.sendtype))?;
        let received = match (told.recvtype, told.datatype) {
            (None, Some(_)) => datatype,
            (recvtype, _) => self.type_of(recvtype)?,
        };
        Ok(CallText {
            function,
            caller,
            datatype,
            received,
            count: number_in(told.count.or(told.sendcount)),
            statuses: text.statuses,
            told: text.told,
        })
    }

    /// The number of a datatype's name, which is kept with the datatype's own number.
    fn type_of(&mut self, value: Option<&[u8]>) -> Result<u32, AllocError> {
        let Some(value) = value else {
            return Ok(0);
        };
        let name = self.names.number(noted_name(value))?;
        let number = number_in(Some(value));
        if !self.types.iter().any(|one| one.0 == number) {
            self.types.push((number, name))?;
        }
        Ok(name)
    }

    /// Keeps the bytes that the statuses of a call tell.
    fn push_statuses(&mut self, alloc: Global, text: Option<&[u8]>) -> Result<(), AllocError> {
        let Some(text) = text else {
            return Ok(());
        };
        if let Some(bytes) = usual_bytes(text) {
            self.bytes.push(bytes)?;
            return Ok(());
        }
        let Some(Value::Groups(groups)) = statuses_in(alloc, text)? else {
            return Ok(());
        };
        for group in groups.as_slice() {
            self.bytes.push(bytes_in(group))?;
        }
        Ok(())
    }
}
