//! Layers, and single pixels of them, read and set where they lie.
ghost use Rattle.std.specs.Prelude.{◌≡◌, ◌%◌, ◌^◌, ◌<◌};
ghost use Rattle.hold.specs.Bitmaps.{HasPixel, Suits, pixel_on, Puts};

use crate::single::{pixel, set_pixel};
use crate::spot::Spot;
use plan::Plan;
use raster::Bitmap;
use slots::Slots;

/// Which layers there are, and which slots their hidden patches have.
#[derive(Clone, Copy)]
pub struct Layout<'a> {
    pub plan: &'a Plan,
    pub slots: &'a Slots,
}

/// A client's layer in a layout.
#[derive(Clone, Copy)]
pub struct Layer<'a> {
    pub layout: Layout<'a>,
    pub client: u8,
}

/// A value of the store, modulo 2^depth.
pub fn masked(value: u8, depth: u8) -> u8
    ensures { result ≡ value % 2 ^ depth }
{
    if depth < 8 {
        value % (1 << depth)
    } else {
        value
    }
}

// Screen and store stay two parameters. A struct of two `&mut` must promise, at each call, that both still point to the same bitmaps; one that owned
// both would have to promise of stowing, which reads the screen, and of repainting, which reads the store, that the half that is read stays.
impl Layer<'_> {
    /// The pixel (u, v).
    pub fn read_pixel<S: Bitmap, T: Bitmap>(self, screen: &S, store: &T, u: u16, v: u16) -> u8
        ensures { Suits S.Bitmap T.Bitmap self.entry.layout screen.now store.now → HasPixel self.entry u v → result ≡ pixel_on S.Bitmap T.Bitmap self.entry screen.now store.now u v }
    {
        match self.find(store.size().width, u, v) {
            Some(Spot::Screen(x, y)) => pixel(screen, x, y),
            Some(Spot::Store(x, y)) => masked(pixel(store, x, y), screen.size().depth),
            None => 0,
        }
    }

    /// Sets the pixel (u, v).
    pub fn put_pixel<S: Bitmap, T: Bitmap>(
        self,
        screen: &mut S,
        store: &mut T,
        u: u16,
        v: u16,
        value: u8,
    )
        ensures put { Suits S.Bitmap T.Bitmap self.entry.layout screen.old store.old → HasPixel self.entry u v → value < 2 ^ (S.Bitmap.picture screen.old).depth → Puts S.Bitmap T.Bitmap self.entry screen.old store.old screen.new store.new u v value }
        ensures screen { S.Bitmap.keeps screen.old screen.new }
        ensures store { T.Bitmap.keeps store.old store.new }
    {
        match self.find(store.size().width, u, v) {
            Some(Spot::Screen(x, y)) => set_pixel(screen, x, y, value),
            Some(Spot::Store(x, y)) => set_pixel(store, x, y, value),
            None => {}
        }
    }
}
