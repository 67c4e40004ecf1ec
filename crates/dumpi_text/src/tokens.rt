//! Tokens of values. Each is read from the front of a text, and what follows it is handed on.

ghost use Rattle.std.specs.Prelude.{◌≡◌, ◌∷◌, IfSome, drop, true};
ghost use Rattle.std.specs.List.{list_all};
ghost use Rattle.std.specs.Option.{option_copied, option_map};
ghost use Rattle.dumpi_text.specs.Time.{is_digit};
ghost use Rattle.dumpi_text.specs.Tokens.{after_spaces, after_byte, byte_front, digit_parts, digits_front, word_front};

use crate::words::split_word;

/// The text without the spaces in front.
pub fn skip_spaces(text: &[u8]) -> &[u8]
    ensures { result.now ≡ after_spaces text.now }
{
    for (at, byte) in text.iter().enumerate() {
        if *byte != b' ' {
            return &text[at..];
        }
    }
    &[]
}

/// What follows a byte that stands in front. Inlined, so that a byte that is known is compared at once.
#[inline(always)]
pub fn strip_byte(wanted: u8, text: &[u8]) -> Option<&[u8]>
    ensures found { option_copied result ≡ byte_front wanted text.now }
    ensures front { IfSome result (λ rest. text.now ≡ wanted ∷ rest.now) }
    ensures rest { IfSome result (λ rest. rest.now ≡ drop 1 text.now) }
{
    match text {
        [byte, rest @ ..] if *byte == wanted => Some(rest),
        _ => None,
    }
}

/// What follows a byte that stands in front, after spaces.
pub fn skip_byte(wanted: u8, text: &[u8]) -> Option<&[u8]>
    ensures { option_copied result ≡ after_byte wanted text.now }
{
    strip_byte(wanted, skip_spaces(text))
}

/// The longest front of digits, and what follows it.
pub fn split_digits(text: &[u8]) -> (&[u8], &[u8])
    ensures digits { result.0.now ≡ (digit_parts text.now).0 }
    ensures rest { result.1.now ≡ (digit_parts text.now).1 }
    ensures all { list_all is_digit result.0.now ≡ true }
{
    for (at, byte) in text.iter().enumerate() {
        if *byte < b'0' || b'9' < *byte {
            return (&text[..at], &text[at..]);
        }
    }
    (text, &[])
}

/// One or more digits, and what follows them.
pub fn read_digits(text: &[u8]) -> Option<(&[u8], &[u8])>
    ensures { option_map (λ x. (x.0.now, x.1.now)) result ≡ digits_front text.now }
{
    let (digits, rest) = split_digits(text);
    if digits.is_empty() {
        None
    } else {
        Some((digits, rest))
    }
}

/// One or more letters, digits and `_`, and what follows them.
pub fn read_word(text: &[u8]) -> Option<(&[u8], &[u8])>
    ensures { option_map (λ x. (x.0.now, x.1.now)) result ≡ word_front text.now }
{
    let (word, rest) = split_word(text);
    if word.is_empty() {
        None
    } else {
        Some((word, rest))
    }
}
