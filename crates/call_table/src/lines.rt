//! The table as text: a line for each row, as CSV or as JSON.

use crate::fields::Fields;
use crate::put::{is_plain, put, put_number, put_seconds, put_signed, put_string, shown};
use crate::slot::Side;
use mpi_model::OpName;
use std::alloc::AllocError;

/// The line of CSV in front of all rows: the names of the fields.
pub const CSV_HEADER: &[u8] =
    b"rank,call,part,side,function,enter,return,object,peer,tag,count,datatype,bytes,request,partner_rank,partner_call,partner_part,round,completed_by,site\r\n";

/// How a row is written.
#[derive(Clone, Copy, PartialEq, Eq)]
pub enum RowForm {
    /// A record of RFC 4180.
    Csv,
    /// A JSON object, with the names of the fields as keys.
    Json,
}

/// What a field holds.
#[derive(Clone, Copy)]
enum FieldValue<'a> {
    Absent,
    Number(u64),
    Signed(i64),
    /// A time, as seconds with nine decimals.
    Time(u64),
    Text(&'a [u8]),
}

/// A number, where there is one.
fn number(value: Option<u32>) -> FieldValue<'static> {
    match value {
        Some(value) => FieldValue::Number(u64::from(value)),
        None => FieldValue::Absent,
    }
}

/// A number of 64 bits, where there is one.
fn long(value: Option<u64>) -> FieldValue<'static> {
    match value {
        Some(value) => FieldValue::Number(value),
        None => FieldValue::Absent,
    }
}

/// A number that may be below 0, where there is one.
fn signed(value: Option<i64>) -> FieldValue<'static> {
    match value {
        Some(value) => FieldValue::Signed(value),
        None => FieldValue::Absent,
    }
}

/// A time, where there is one.
fn time(value: Option<u64>) -> FieldValue<'static> {
    match value {
        Some(value) => FieldValue::Time(value),
        None => FieldValue::Absent,
    }
}

/// A text, where there is one.
fn text(value: Option<&[u8]>) -> FieldValue<'_> {
    match value {
        Some(value) => FieldValue::Text(value),
        None => FieldValue::Absent,
    }
}

/// The word for a side.
fn side_value(side: Option<Side>) -> FieldValue<'static> {
    match side {
        Some(Side::Send) => FieldValue::Text(b"send"),
        Some(Side::Receive) => FieldValue::Text(b"receive"),
        None => FieldValue::Absent,
    }
}

/// The datatype: its name, else its number.
fn datatype<'a>(fields: &Fields<'a>) -> FieldValue<'a> {
    match fields.datatype {
        Some(name) => FieldValue::Text(name),
        None => signed(fields.type_number),
    }
}

/// Whether a text of CSV stands in quotes.
fn needs_quotes(value: &[u8]) -> bool {
    value.iter().any(|byte| *byte == b',' || *byte == b'"')
}

/// Adds a text as a field of CSV: what isn't a printed character of ASCII stands as `?`.
fn put_csv_text(out: &mut Vec<u8>, value: &[u8]) -> Result<(), AllocError> {
    if is_plain(value) {
        return put(out, value);
    }
    let quoted = needs_quotes(value);
    if quoted {
        put(out, b"\"")?;
    }
    for byte in value {
        if *byte == b'"' {
            put(out, b"\"")?;
        }
        out.push(shown(*byte))?;
    }
    if quoted {
        put(out, b"\"")?;
    }
    Ok(())
}

/// Adds a field of CSV: nothing where it is absent.
fn put_csv(out: &mut Vec<u8>, value: FieldValue<'_>) -> Result<(), AllocError> {
    match value {
        FieldValue::Absent => Ok(()),
        FieldValue::Number(value) => put_number(out, value),
        FieldValue::Signed(value) => put_signed(out, value),
        FieldValue::Time(value) => put_seconds(out, value),
        FieldValue::Text(value) => put_csv_text(out, value),
    }
}

/// Adds a value of JSON: `null` where it is absent. Times are strings.
fn put_json(out: &mut Vec<u8>, value: FieldValue<'_>) -> Result<(), AllocError> {
    match value {
        FieldValue::Absent => put(out, b"null"),
        FieldValue::Number(value) => put_number(out, value),
        FieldValue::Signed(value) => put_signed(out, value),
        FieldValue::Time(value) => {
            put(out, b"\"")?;
            put_seconds(out, value)?;
            put(out, b"\"")
        }
        FieldValue::Text(value) => put_string(out, value),
    }
}

/// Adds a field behind the others of its row: its name stands only in JSON.
fn put_field(
    out: &mut Vec<u8>,
    form: RowForm,
    name: &[u8],
    value: FieldValue<'_>,
) -> Result<(), AllocError> {
    match form {
        RowForm::Csv => {
            put(out, b",")?;
            put_csv(out, value)
        }
        RowForm::Json => {
            put(out, b",\"")?;
            put(out, name)?;
            put(out, b"\":")?;
            put_json(out, value)
        }
    }
}

/// Adds the first field of a row.
fn put_first(out: &mut Vec<u8>, form: RowForm, rank: u32) -> Result<(), AllocError> {
    if form == RowForm::Json {
        put(out, b"{\"rank\":")?;
    }
    put_number(out, u64::from(rank))
}

/// Adds the fields that name the call and say when it was.
fn put_call(out: &mut Vec<u8>, form: RowForm, fields: &Fields<'_>) -> Result<(), AllocError> {
    let name = fields.name;
    put_field(out, form, b"call", FieldValue::Number(name.call))?;
    put_field(out, form, b"part", number(Some(name.part)))?;
    put_field(out, form, b"side", side_value(fields.side))?;
    put_field(out, form, b"function", FieldValue::Text(fields.function))?;
    put_field(out, form, b"enter", FieldValue::Time(fields.enter))?;
    put_field(out, form, b"return", time(fields.exit))
}

/// Adds the fields that say what the call names.
fn put_named(out: &mut Vec<u8>, form: RowForm, fields: &Fields<'_>) -> Result<(), AllocError> {
    put_field(out, form, b"object", number(fields.object))?;
    put_field(out, form, b"peer", number(fields.peer))?;
    put_field(out, form, b"tag", number(fields.tag))?;
    put_field(out, form, b"count", number(fields.count))?;
    put_field(out, form, b"datatype", datatype(fields))?;
    put_field(out, form, b"bytes", long(fields.bytes))?;
    put_field(out, form, b"request", signed(fields.request))
}

/// Adds the fields of the operation at the other end.
fn put_partner(
    out: &mut Vec<u8>,
    form: RowForm,
    partner: Option<OpName>,
) -> Result<(), AllocError> {
    put_field(
        out,
        form,
        b"partner_rank",
        number(partner.map(|one| one.rank)),
    )?;
    put_field(
        out,
        form,
        b"partner_call",
        long(partner.map(|one| one.call)),
    )?;
    put_field(
        out,
        form,
        b"partner_part",
        number(partner.map(|one| one.part)),
    )
}

/// Adds a row, with the end of its line. Fails with `AllocError` when memory is refused.
pub fn put_row(out: &mut Vec<u8>, form: RowForm, fields: &Fields<'_>) -> Result<(), AllocError> {
    put_first(out, form, fields.name.rank)?;
    put_call(out, form, fields)?;
    put_named(out, form, fields)?;
    put_partner(out, form, fields.partner)?;
    put_field(out, form, b"round", long(fields.round))?;
    put_field(out, form, b"completed_by", long(fields.completed_by))?;
    put_field(out, form, b"site", text(fields.site))?;
    match form {
        RowForm::Csv => put(out, b"\r\n"),
        RowForm::Json => put(out, b"}\n"),
    }
}
