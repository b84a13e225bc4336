//! Single pixels of any bitmap, by unsigned coordinates.
ghost use Rattle.std.specs.Prelude.{◌≡◌, min, pos};
ghost use Rattle.raster.specs.Picture.{sizes, with_pixel};
ghost use Rattle.hold.specs.Spots.{Settable};

use raster::Bitmap;

/// A coordinate for a call of a bitmap; those past 32,767 lie outside of any bitmap, as that does.
pub fn coordinate(n: u16) -> i16
    ensures { result ≡ pos (min n 32767) }
{
    i16::try_from(n).unwrap_or(i16::MAX)
}

/// The pixel at (x, y); 0 outside the bitmap.
pub fn pixel<B: Bitmap>(bitmap: &B, x: u16, y: u16) -> u8
    ensures { result ≡ (B.Bitmap.picture bitmap.now).at x y }
{
    bitmap.read(coordinate(x), coordinate(y)).unwrap_or(0)
}

/// Sets the pixel at (x, y), if the bitmap has it and it can have the value.
pub fn set_pixel<B: Bitmap>(bitmap: &mut B, x: u16, y: u16, value: u8)
    ensures after { Settable (B.Bitmap.picture bitmap.old) x y value → B.Bitmap.picture bitmap.new ≡ with_pixel (B.Bitmap.picture bitmap.old) x y value }
    ensures size { sizes (B.Bitmap.picture bitmap.new) ≡ sizes (B.Bitmap.picture bitmap.old) }
    ensures rest { B.Bitmap.keeps bitmap.old bitmap.new }
{
    let _ = bitmap.write(coordinate(x), coordinate(y), value);
}
