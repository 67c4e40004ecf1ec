//! A page around its value.

ghost use Rattle.std.specs.Prelude.{◌≡◌, ◌++◌, IfOk, OnOk};
ghost use Rattle.page_words.specs.Page.{escaped, page_around, page_between};

use crate::template::{HEAD, TAIL};
use std::alloc::{AllocError, Global};

/// Adds a JSON text, each `<` of it as JSON's escape.
fn put_value(page: &mut Vec<u8>, json: &[u8]) -> Result<(), AllocError>
    ensures { OnOk result (page.new.items ≡ page.old.items ++ escaped json.now) }
{
    for byte in json {
        if *byte == b'<' {
            page.extend_from_slice(b"\\u003c")?;
        } else {
            page.push(*byte)?;
        }
    }
    Ok(())
}

/// A JSON text between the two parts of a template.
fn page_with(alloc: Global, head: &[u8], json: &[u8], tail: &[u8]) -> Result<Vec<u8>, AllocError>
    ensures { IfOk result (λ page. page.items ≡ page_between head.now json.now tail.now) }
{
    let mut page = Vec::new(alloc);
    page.extend_from_slice(head)?;
    put_value(&mut page, json)?;
    page.extend_from_slice(tail)?;
    Ok(page)
}

/// The page of a JSON text: the template around it.
pub fn page_of(alloc: Global, json: &[u8]) -> Result<Vec<u8>, AllocError>
    ensures { IfOk result (λ page. page.items ≡ page_around json.now) }
{
    page_with(alloc, HEAD, json, TAIL)
}
