//! Numbers, lists of numbers, and the line that a value makes.

ghost use Rattle.std.specs.Prelude.{◌≡◌, ◌++◌, ◌∷◌, [], OnOk, IfOk, true};
ghost use Rattle.json.specs.Print.{print};
ghost use Rattle.json.specs.Token.{begin_array, boolean, key, string};
ghost use Rattle.json.specs.Tree.{items_tokens, json_tokens};
ghost use Rattle.run_files.specs.Values.{Puts, items_of, number_of};

use json::Writer;
use std::alloc::AllocError;

/// Puts a number.
pub(crate) fn put_number(out: &mut Writer, n: u64) -> Result<(), AllocError>
    ensures { Puts result out.old out.new (json_tokens (number_of n)) }
{
    out.u64(n)
}

/// Puts an array of numbers. Fails with `AllocError` when memory is refused.
#[tactic(auto, using(crate::proofs::Putting::next_tokens, crate::proofs::Putting::array_tokens))]
pub fn put_numbers(out: &mut Writer, numbers: &[u32]) -> Result<(), AllocError>
    ensures { Puts result out.old out.new (begin_array ∷ items_tokens (items_of number_of numbers.now)) }
{
    out.begin_array()?;
    for number in numbers {
        put_number(out, *number as u64)?;
    }
    out.end_array()
}

/// Puts a field that is a number. Fails with `AllocError` when memory is refused.
pub fn put_number_field(out: &mut Writer, name: &str, n: u64) -> Result<(), AllocError>
    ensures { Puts result out.old out.new (key name.now ∷ json_tokens (number_of n)) }
{
    out.key(name)?;
    put_number(out, n)
}

/// Puts a field that is a string. Fails with `AllocError` when memory is refused.
pub fn put_string_field(out: &mut Writer, name: &str, text: &str) -> Result<(), AllocError>
    ensures { Puts result out.old out.new (key name.now ∷ string text.now ∷ []) }
{
    out.key(name)?;
    out.string(text)
}

/// Puts a field that is true.
pub(crate) fn put_true_field(out: &mut Writer, name: &str) -> Result<(), AllocError>
    ensures { Puts result out.old out.new (key name.now ∷ boolean true ∷ []) }
{
    out.key(name)?;
    out.boolean(true)
}

/// The text of what was put, and a line feed. Fails with `AllocError` when memory is refused.
pub fn line_of(out: Writer) -> Result<Vec<u8>, AllocError>
    ensures { IfOk result (λ text. text.items ≡ (out.before ++ print out.tokens) ++ 10 ∷ []) }
{
    let mut text = out.into_inner();
    text.push(b'\n')?;
    Ok(text)
}
