//! The versions of frames.

ghost use Rattle.std.specs.Prelude.{◌≡◌, ◌≤◌};
ghost use Rattle.trace_wire.specs.FirstFault.{version_of};
ghost use Rattle.trace_wire.specs.Frames.{longest_of, version_number};

/// The version of a frame. Each knowledge has one frame of each version, within that version's limit.
#[derive(Clone, Copy, PartialEq, Eq)]
pub enum Version {
    /// Cell by cell, each with its rank and place; a payload of at most 16,777,216 bytes.
    One,
    /// Run by run, each with its rank and first place; a payload of at most 67,108,864 bytes.
    Two,
}

impl Version {
    /// The most bytes that a payload has.
    pub(crate) fn longest(self) -> u64
        ensures { result ≡ longest_of self }
    {
        match self {
            Version::One => 16_777_216,
            Version::Two => 67_108_864,
        }
    }

    /// The second of the two version bytes of a head. The first is 0.
    pub(crate) fn number(self) -> u8
        ensures { result ≡ version_number self }
    {
        match self {
            Version::One => 1,
            Version::Two => 2,
        }
    }

    /// The version that two bytes of a head tell.
    pub(crate) fn of_bytes(high: u8, low: u8) -> Option<Version>
        ensures { result ≡ version_of high low }
    {
        if high != 0 {
            return None;
        }
        match low {
            1 => Some(Version::One),
            2 => Some(Version::Two),
            _ => None,
        }
    }
}
