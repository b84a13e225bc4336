//! A bitmap's size, and which pixels and values it has.
ghost use Rattle.std.specs.Prelude.{◌≡◌, ◌^◌, if◌then◌else◌, Some, None, pos, nat_le, unsigned_abs};
ghost use Rattle.raster.specs.Blt.{holds};
ghost use Rattle.raster.specs.Calls.{unless, bitmap_fault, read_at, write_at};
ghost use Rattle.raster.specs.Rows.{capped};

use crate::fault::Fault;
use crate::refusal::Refusal;

/// Width, height and depth.
#[derive(Clone, Copy, PartialEq, Eq, Debug)]
pub struct Size {
    pub width: u16,
    pub height: u16,
    pub depth: u8,
}

/// A coordinate as an index, if it is one of the first `n`.
pub fn below(z: i32, n: u16) -> Option<u16>
    ensures { result ≡ (if holds (pos 0) n z then Some (unsigned_abs z) else None) }
{
    if 0 <= z && z < i32::from(n) {
        Some(z as u16)
    } else {
        None
    }
}

impl Size {
    /// The size of a bitmap that is asked for: cut to 1,024 by 1,024, and the depth brought into 1 to 4.
    pub fn capped(width: u16, height: u16, depth: u8) -> Size
        ensures { result ≡ capped width height depth }
    {
        Size {
            width: width.min(1024),
            height: height.min(1024),
            depth: depth.clamp(1, 4),
        }
    }

    /// Whether a pixel cannot have the value: it is 2^depth or more.
    pub(crate) fn excludes(self, v: u8) -> bool
        ensures { result ≡ nat_le (2 ^ self.depth) v }
    {
        u16::from(v) >> self.depth.min(8) != 0
    }

    /// The column and row of the pixel (x, y), for a read.
    pub fn read_place(self, x: i16, y: i16) -> Result<(u16, u16), Fault>
        ensures { result ≡ unless (bitmap_fault self (read_at x y)) (unsigned_abs x, unsigned_abs y) }
    {
        match (
            below(i32::from(x), self.width),
            below(i32::from(y), self.height),
        ) {
            (Some(column), Some(row)) => Ok((column, row)),
            _ => Err(Fault {
                refusal: Refusal::OutsideBitmap,
                x,
                y,
            }),
        }
    }

    /// The column and row of the pixel (x, y), for a write of the value `v`.
    pub fn write_place(self, x: i16, y: i16, v: u8) -> Result<(u16, u16), Fault>
        ensures { result ≡ unless (bitmap_fault self (write_at x y v)) (unsigned_abs x, unsigned_abs y) }
    {
        if self.excludes(v) {
            return Err(Fault {
                refusal: Refusal::ValueTooLarge,
                x,
                y,
            });
        }
        self.read_place(x, y)
    }
}
