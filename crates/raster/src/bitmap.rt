//! What every kind of bitmap offers.
ghost use Rattle.std.specs.Prelude.{◌≡◌};
ghost use Rattle.raster.specs.Picture.{Picture, Sound, sizes};
ghost use Rattle.raster.specs.Calls.{read_at, write_at, fill_with, scroll_by, bitmap_answer, Called};

use crate::fault::Fault;
use crate::rectangle::Rectangle;
use crate::size::Size;
use crate::transfer::Transfer;

/// The five calls of a bitmap.
pub trait Bitmap {
    /// The picture that the bitmap means.
    ghost picture: { Self → Picture };

    /// The second comes from the first by calls: whatever is no pixel of the bitmap has stayed.
    ghost keeps: { Self → Self → Type 0 };

    /// Width, height and depth.
    fn size(&self) -> Size
        ensures { result ≡ sizes (picture self.now) };

    /// The pixel at (x, y).
    fn read(&self, x: i16, y: i16) -> Result<u8, Fault>
        ensures { result ≡ bitmap_answer (picture self.now) (read_at x y) };

    /// Sets the pixel at (x, y), and answers 0.
    fn write(&mut self, x: i16, y: i16, v: u8) -> Result<u32, Fault>
        ensures { Called picture keeps self.old (write_at x y v) result self.new };

    /// BitBlt onto a rectangle from a source that has the value `v` everywhere; the count of pixels concerned.
    fn fill(&mut self, rule: u8, v: u8, area: Rectangle) -> Result<u32, Fault>
        ensures { Called picture keeps self.old (fill_with rule v area.x area.y area.w area.h) result self.new };

    /// BitBlt within the bitmap; the count of pixels concerned.
    fn scroll(&mut self, transfer: Transfer) -> Result<u32, Fault>
        ensures { Called picture keeps self.old (scroll_by transfer) result self.new };

    ghost sound: { (b : Self) → Sound (picture b) };

    ghost same: { (b : Self) → keeps b b };

    ghost joins: { (a b c : Self) → keeps a b → keeps b c → keeps a c };
}
