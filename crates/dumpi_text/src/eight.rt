//! Numbers of eight digits, made at once: by three multiplications, where one after the other takes eight.

ghost use Rattle.std.specs.Prelude.{◌≡◌, ◌≤◌, ◌<◌, length, true};
ghost use Rattle.std.specs.List.{list_all};
ghost use Rattle.dumpi_text.specs.EightAtOnce.{eight_of, fours_of, pairs_of};
ghost use Rattle.dumpi_text.specs.Time.{is_digit, number_of};

use crate::words::eight_at;

/// Eight zeros as one number.
const ZEROS: u64 = 0x3030_3030_3030_3030;

/// The four pairs of eight digits, by their values.
#[inline(always)]
fn pairs(values: u64) -> u64
    requires { values ≤ 651061555542690057 }
    ensures { result ≡ pairs_of values }
{
    (10 * values + (values >> 8)) & 0x00FF_00FF_00FF_00FF
}

/// The two fours, by their pairs.
#[inline(always)]
fn fours(pairs: u64) -> u64
    requires { pairs ≤ 27866447902605411 }
    ensures { result ≡ fours_of pairs }
{
    (100 * pairs + (pairs >> 16)) & 0x0000_FFFF_0000_FFFF
}

/// All eight, by their fours.
#[inline(always)]
fn eight(fours: u64) -> u64
    requires { fours ≤ 42945378002703 }
    ensures { result ≡ eight_of fours }
{
    (10_000 * fours + (fours >> 32)) & 0xFFFF_FFFF
}

/// The number of eight digits.
#[inline(always)]
fn number_of_eight(digits: &[u8]) -> u64
    requires eight { length digits.now ≡ 8 }
    requires digits { list_all is_digit digits.now ≡ true }
    ensures value { result ≡ number_of digits.now }
    ensures below { result < 100000000 }
{
    let values = eight_at(digits, 0) - ZEROS;
    eight(fours(pairs(values)))
}

/// The number of nine digits.
#[inline(always)]
#[tactic(auto, using(crate::proofs::Numbers::digit_is))]
pub fn number_of_nine(digits: &[u8]) -> u64
    requires nine { length digits.now ≡ 9 }
    requires digits { list_all is_digit digits.now ≡ true }
    ensures value { result ≡ number_of digits.now }
    ensures below { result < 1000000000 }
{
    let front = number_of_eight(&digits[..8]);
    10 * front + (u64::from(digits[8]) - 48)
}

/// The number of ten digits.
#[inline(always)]
#[tactic(auto, using(crate::proofs::Numbers::digit_is))]
pub fn number_of_ten(digits: &[u8]) -> u64
    requires ten { length digits.now ≡ 10 }
    requires digits { list_all is_digit digits.now ≡ true }
    ensures value { result ≡ number_of digits.now }
    ensures below { result < 10000000000 }
{
    let front = number_of_nine(&digits[..9]);
    10 * front + (u64::from(digits[9]) - 48)
}
