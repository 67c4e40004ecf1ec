//! Why a text is no time: a trace text tells F3 of each alike.

use dumpi_text::{TimeFault, parse_time};

/// Texts, and the nanoseconds that they say or why they say none.
static TIMES: [(&str, Result<u64, TimeFault>); 10] = [
    ("9999999999.9999999999", Ok(9_999_999_999_999_999_999)),
    ("", Err(TimeFault::NoDigits)),
    (".", Err(TimeFault::NoDigits)),
    (".x", Err(TimeFault::NoDigits)),
    ("a.", Err(TimeFault::NoDigits)),
    ("-1", Err(TimeFault::BadCharacter)),
    ("1..2", Err(TimeFault::BadCharacter)),
    ("10000000000.x", Err(TimeFault::BadCharacter)),
    ("10000000000", Err(TimeFault::TooLarge)),
    ("10000000000.0", Err(TimeFault::TooLarge)),
];

#[test]
fn times_are_refused_in_the_order_of_their_faults(rt: HostRuntime) {
    for row in &TIMES {
        let (text, want) = *row;
        assert!(rt; parse_time(text.as_bytes()) == want, "{text}");
    }
}
