//! The manifest of a run, as its file.

ghost use Rattle.std.specs.Prelude.{◌≡◌, ◌∷◌, IfOk};
ghost use Rattle.json.specs.Token.{begin_array};
ghost use Rattle.json.specs.Tree.{items_tokens, json_tokens};
ghost use Rattle.run_files.specs.Values.{Puts, cut_tokens, items_of, line_of, manifest_value, piece_value};

use crate::manifest::Piece;
use crate::write::values::{line_of, put_number_field, put_string_field, put_true_field};
use json::Writer;
use std::alloc::{AllocError, Global};

/// The bytes of the file of a manifest of these texts, none of which names a node or a worker. Fails with `AllocError`
/// when memory is refused.
pub fn manifest_bytes(alloc: Global, texts: &[Piece]) -> Result<Vec<u8>, AllocError>
    ensures { IfOk result (λ file. file.items ≡ line_of (manifest_value texts.now)) }
{
    let mut out = Writer::new(Vec::new(alloc));
    put_manifest(&mut out, texts)?;
    line_of(out)
}

/// Puts the value of a manifest.
fn put_manifest(out: &mut Writer, texts: &[Piece]) -> Result<(), AllocError>
    ensures { Puts result out.old out.new (json_tokens (manifest_value texts.now)) }
{
    out.begin_object()?;
    out.key("pieces")?;
    put_pieces(out, texts)?;
    out.end_object()
}

/// Puts the texts, in their order.
#[tactic(auto, using(crate::proofs::Putting::next_tokens, crate::proofs::Putting::array_tokens))]
fn put_pieces(out: &mut Writer, texts: &[Piece]) -> Result<(), AllocError>
    ensures { Puts result out.old out.new (begin_array ∷ items_tokens (items_of piece_value texts.now)) }
{
    out.begin_array()?;
    for text in texts {
        put_piece(out, text)?;
    }
    out.end_array()
}

/// Puts a text: its rank, the number of its first call, the name of its file, and whether it was cut off.
fn put_piece(out: &mut Writer, text: &Piece) -> Result<(), AllocError>
    ensures { Puts result out.old out.new (json_tokens (piece_value text.now)) }
{
    out.begin_object()?;
    put_number_field(out, "rank", text.rank() as u64)?;
    put_number_field(out, "first", text.first())?;
    put_string_field(out, "file", text.file())?;
    put_cut(out, text.is_cut())?;
    out.end_object()
}

/// Puts the field of a text that was cut off.
fn put_cut(out: &mut Writer, cut: bool) -> Result<(), AllocError>
    ensures { Puts result out.old out.new (cut_tokens cut) }
{
    if cut {
        put_true_field(out, "cut")
    } else {
        Ok(())
    }
}
