//! Rows of bitmaps, printed.
ghost use Rattle.std.specs.Prelude.{◌≡◌, ◌+◌, ◌%◌, if◌then◌else◌, Some, nat_lt};
ghost use Rattle.raster.specs.Printed.{printed_row};

use crate::bitmap::Bitmap;
use std::fmt;

/// A pixel, below 16, as a hexadecimal digit.
fn digit(v: u8) -> char
    ensures { result ≡ (if nat_lt (v % 16) 10 then v % 16 + 48 else v % 16 + 87) }
{
    let low = v % 16;
    if low < 10 {
        (low + b'0') as char
    } else {
        (low - 10 + b'a') as char
    }
}

/// A row of a bitmap as it is printed: a hexadecimal digit for each pixel.
#[derive(Drop)]
pub struct Row<'a, B>(pub &'a B, pub i16);

impl<B: Bitmap> fmt::Display for Row<'_, B> {
    ghost output = { λ row. Some (printed_row (B.Bitmap.picture row.0.now) row.1) };

    fn fmt<W: fmt::Write>(&self, f: &mut fmt::Formatter<W>) -> fmt::Result {
        let y = self.1;
        for x in 0..self.0.size().width.min(1024) {
            if let Ok(v) = self.0.read(x as i16, y) {
                f.write_char(digit(v))?;
            }
        }
        Ok(())
    }
}
