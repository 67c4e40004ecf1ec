//! Nanoseconds as seconds.

ghost use Rattle.std.specs.Prelude.{◌≡◌};
ghost use Rattle.call_words.specs.Seconds.{last_digit, nine_digits, seconds_text};
ghost use Rattle.call_words.specs.Texts.{Adds};

use crate::text::Text;

/// Whole seconds without padding, a point, nine decimals.
pub fn put_seconds(out: &mut Text, nanoseconds: u64)
    ensures { Adds out.old out.new (seconds_text nanoseconds) }
{
    out.put_number(nanoseconds / 1_000_000_000);
    out.put(b".");
    out.put(&nine_digits(nanoseconds));
}

/// The last nine decimal digits of a number.
pub fn nine_digits(n: u64) -> [u8; 9]
    ensures { result ≡ nine_digits n }
{
    [
        last_digit(n / 100_000_000),
        last_digit(n / 10_000_000),
        last_digit(n / 1_000_000),
        last_digit(n / 100_000),
        last_digit(n / 10_000),
        last_digit(n / 1_000),
        last_digit(n / 100),
        last_digit(n / 10),
        last_digit(n),
    ]
}

/// The last decimal digit of a number, as a character: 48 is `0`.
fn last_digit(n: u64) -> u8
    ensures { result ≡ last_digit n }
{
    b'0' + (n % 10) as u8
}
