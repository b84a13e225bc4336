//! BitBlts and rectangles, cut to bitmaps.
ghost use Rattle.std.specs.Prelude.{◌≡◌, ◌*◌};
ghost use Rattle.raster.specs.Clip.{Clipped};

use crate::rectangle::Rectangle;
use crate::size::Size;
use crate::span::Span;
use crate::transfer::Transfer;

/// The columns and the rows that are concerned.
#[derive(Clone, Copy)]
pub struct Clip {
    pub columns: Span,
    pub rows: Span,
}

impl Clip {
    /// How many pixels are concerned.
    pub fn count(self) -> u32
        ensures { result ≡ self.rows.len * self.columns.len }
    {
        u32::from(self.rows.len) * u32::from(self.columns.len)
    }
}

impl Transfer {
    /// The transfer cut to its source and its destination.
    pub fn clip(self, source: Size, dest: Size) -> Clip
        ensures columns { Clipped self.sx self.dx self.w source.width dest.width result.columns }
        ensures rows { Clipped self.sy self.dy self.h source.height dest.height result.rows }
    {
        Clip {
            columns: Span::clip(self.sx, self.dx, self.w, source.width, dest.width),
            rows: Span::clip(self.sy, self.dy, self.h, source.height, dest.height),
        }
    }
}

impl Rectangle {
    /// The rectangle cut to a bitmap, as its own source.
    pub fn clip(self, size: Size) -> Clip
        ensures columns { Clipped self.x self.x self.w size.width size.width result.columns }
        ensures rows { Clipped self.y self.y self.h size.height size.height result.rows }
    {
        Clip {
            columns: Span::clip(self.x, self.x, self.w, size.width, size.width),
            rows: Span::clip(self.y, self.y, self.h, size.height, size.height),
        }
    }
}
