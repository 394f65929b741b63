ghost use Rattle.std.specs.Prelude.{◌≡◌, ◌+◌, ◌<◌, ◌≤◌, ◌^◌};
ghost use Rattle.rly_segment_checkpoint.specs.Widths.{count_width, entry_width, expired_width, hop_width, limit_width};
ghost use Rattle.rly_segment_checkpoint.specs.Widths.{mark_of, moment_width, place_width};

/// The form of a head (`docs/FORMATS.md`, "Heads"). New heads have the second form; heads of the first, from program
/// versions before age limits, are still read.
#[derive(Clone, Copy, PartialEq, Eq)]
pub enum HeadForm {
    /// The form before age limits.
    First,
    /// The form with a field for limits and one for the number of expired datagrams.
    Second,
}

/// The flag that the length field of a body has in a head of the second form.
const MARK: u32 = 1 << 31;

impl HeadForm {
    /// Returns the bytes of a hop in a head, without its entries.
    pub fn hop_len(self) -> u64
        ensures { result ≡ hop_width self }
    {
        match self {
            HeadForm::First => 71,
            HeadForm::Second => 64,
        }
    }

    /// Returns the bytes of an entry before an inline payload.
    pub fn entry_len(self) -> u64
        ensures { result ≡ entry_width self }
    {
        match self {
            HeadForm::First => 19,
            HeadForm::Second => 21,
        }
    }

    /// Returns the bytes of an entry by device address.
    pub fn placed_len(self) -> u64
        ensures { result ≡ entry_width self + place_width self }
    {
        match self {
            HeadForm::First => 27,
            HeadForm::Second => 26,
        }
    }

    /// Returns the length field of a body in a head.
    pub fn length_field(self, length: u32) -> u32
        requires { length < 2 ^ 31 }
        ensures { result ≡ mark_of self + length }
    {
        match self {
            HeadForm::First => length,
            HeadForm::Second => MARK + length,
        }
    }

    /// Decodes a length field: the form of the head, and the length of its body.
    pub fn of_length(field: u32) -> (HeadForm, u32)
        ensures field { field ≡ mark_of result.0 + result.1 }
        ensures short { result.1 < 2 ^ 31 }
    {
        if field >= MARK {
            (HeadForm::Second, field - MARK)
        } else {
            (HeadForm::First, field)
        }
    }

    /// Returns the width in bytes of a time of a hop, and of an item's stamp.
    pub(crate) fn moment_len(self) -> usize
        ensures width { result ≡ moment_width self }
        ensures most { result ≤ 8 }
    {
        match self {
            HeadForm::First => 8,
            HeadForm::Second => 7,
        }
    }

    /// Returns the width in bytes of a count of a hop, and of an item's id.
    pub(crate) fn count_len(self) -> usize
        ensures width { result ≡ count_width self }
        ensures most { result ≤ 8 }
    {
        match self {
            HeadForm::First => 8,
            HeadForm::Second => 6,
        }
    }

    /// Returns the width in bytes of a hop's number of expired datagrams.
    pub(crate) fn expired_len(self) -> usize
        ensures width { result ≡ expired_width self }
        ensures most { result ≤ 8 }
    {
        match self {
            HeadForm::First => 0,
            HeadForm::Second => 6,
        }
    }

    /// Returns the width in bytes of an item's limit.
    pub(crate) fn limit_len(self) -> usize
        ensures width { result ≡ limit_width self }
        ensures most { result ≤ 8 }
    {
        match self {
            HeadForm::First => 0,
            HeadForm::Second => 5,
        }
    }

    /// Returns the width in bytes of a payload's device address.
    pub(crate) fn place_len(self) -> usize
        ensures width { result ≡ place_width self }
        ensures most { result ≤ 8 }
    {
        match self {
            HeadForm::First => 8,
            HeadForm::Second => 5,
        }
    }
}
