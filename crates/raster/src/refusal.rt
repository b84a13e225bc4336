//! Why a call is refused.
ghost use Rattle.std.specs.Prelude.{◌≡◌};
ghost use Rattle.raster.specs.Refusals.{number};

use std::fmt;

/// Each condition under which a call is refused, in the order in which they are asked.
#[derive(Clone, Copy, PartialEq, Eq, Debug)]
pub enum Refusal {
    /// A record's length is below 2, or bytes of it are missing.
    BytesMissing = 1,
    /// A record's kind is not listed.
    UnknownKind = 2,
    /// A record's length, or the size of a stamp, does not fit its kind.
    WrongLength = 3,
    /// The client is above 7.
    ClientAboveSeven = 4,
    /// The client is the host of an inner desk, which alone draws on its layer.
    Host = 5,
    /// The client has no open layer.
    NotOpen = 6,
    /// The client has an open layer already.
    AlreadyOpen = 7,
    /// A layer would be wider or higher than is allowed, or empty.
    OpenBeyondSize = 8,
    /// The rule is above 15.
    RuleAboveFifteen = 9,
    /// The value is 2^depth or more, or a source is deeper than the desk.
    ValueTooLarge = 10,
    /// The pixel or place is not in the bitmap.
    OutsideBitmap = 11,
    /// The store has too few slots.
    TooFewSlots = 12,
    /// The buffer is too short for a row.
    BufferTooShort = 13,
    /// All rows are printed.
    AllRowsPrinted = 14,
}

impl Refusal {
    /// Its number, 1 to 14.
    pub fn number(self) -> u8
        ensures { result ≡ number self }
    {
        self as u8
    }
}

impl fmt::Display for Refusal {
    fn fmt<W: fmt::Write>(&self, f: &mut fmt::Formatter<W>) -> fmt::Result {
        f.write_str(match self {
            Refusal::BytesMissing => "bytes are missing",
            Refusal::UnknownKind => "the kind is not listed",
            Refusal::WrongLength => "the length does not fit the kind",
            Refusal::ClientAboveSeven => "the client is above 7",
            Refusal::Host => "the layer belongs to an inner desk",
            Refusal::NotOpen => "the layer is not open",
            Refusal::AlreadyOpen => "the layer is open already",
            Refusal::OpenBeyondSize => "the layer's size is not allowed",
            Refusal::RuleAboveFifteen => "the rule is above 15",
            Refusal::ValueTooLarge => "the value is too large for the depth",
            Refusal::OutsideBitmap => "the place is not in the bitmap",
            Refusal::TooFewSlots => "the store has too few slots",
            Refusal::BufferTooShort => "the buffer is too short",
            Refusal::AllRowsPrinted => "all rows are printed",
        })
    }
}
