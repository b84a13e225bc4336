//! The fault of a bitmap's call.
ghost use Rattle.std.specs.Prelude.{◌≡◌, pos};
ghost use Rattle.raster.specs.Calls.{fault};

use crate::refusal::Refusal;

/// A refusal and the pixel that the call named; (0, 0) for fill and scroll.
#[derive(Clone, Copy, PartialEq, Eq, Debug)]
pub struct Fault {
    pub refusal: Refusal,
    pub x: i16,
    pub y: i16,
}

/// The fault of a fill or a scroll, which names no pixel.
impl From<Refusal> for Fault {
    ghost from_gives = { λ why f. f ≡ fault why (pos 0) (pos 0) };

    fn from(refusal: Refusal) -> Fault {
        Fault {
            refusal,
            x: 0,
            y: 0,
        }
    }
}
