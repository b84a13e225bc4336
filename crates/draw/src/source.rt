//! Where the pixels come from that those of a layer are combined with.
ghost use Rattle.std.specs.Prelude.{◌≡◌, ℕ, min, refl};
ghost use Rattle.raster.specs.Blits.{inked, opposite};
ghost use Rattle.hold.specs.declared.layer.Layer.{Layer};
ghost use Rattle.hold.specs.Bitmaps.{HasPixel, Suits, layer_on};
ghost use Rattle.draw.specs.Sources.{Pixel, Kept, ink_kept};

use hold::{Layer, pixel};
use raster::{Bitmap, Ink, Span};

/// A source of pixels: the ink of a blit, or another bitmap.
pub(crate) trait Source {
    /// The source pixel of each place, by the picture of the layer that is painted.
    ghost pixel: { Self → Pixel };

    /// The places at which it may be sampled for a layer.
    ghost places: { Self → Layer → (x y : ℕ) → Type 0 };

    /// The source pixel at (x, y) for a layer.
    fn sample<S: Bitmap, T: Bitmap>(
        &self,
        screen: &S,
        store: &T,
        layer: Layer<'_>,
        x: u16,
        y: u16,
    ) -> u8
        ensures { Suits S.Bitmap T.Bitmap layer.entry.layout screen.now store.now → places self.now layer.entry x y → result ≡ pixel self.now (layer_on S.Bitmap T.Bitmap layer.entry screen.now store.now) x y };

    /// What is painted elsewhere does not change it.
    ghost kept: { (s : Self) → Kept (pixel s) };
}

impl Source for Ink {
    ghost pixel = { inked };

    ghost places = { λ _ layer x y. HasPixel layer x y };

    ghost kept = { ink_kept };

    fn sample<S: Bitmap, T: Bitmap>(
        &self,
        screen: &S,
        store: &T,
        layer: Layer<'_>,
        x: u16,
        y: u16,
    ) -> u8 {
        match *self {
            Ink::Value(v) => v,
            Ink::Itself => layer.read_pixel(screen, store, x, y),
        }
    }
}

/// The place opposite in a span; 65,535 if it is past that, where no bitmap has a pixel either.
fn opposite(span: Span, x: u16) -> u16
    ensures { result ≡ min (opposite span x) 65535 }
{
    x.saturating_sub(span.first).saturating_add(span.source)
}

/// Another bitmap as a source, laid where it is stamped: each place has the pixel opposite in these columns and rows.
// So places and sources are one, and a stamp goes from left to right and from top to bottom, wherever it comes from.
#[derive(Drop)]
pub(crate) struct Laid<'a, B> {
    pub bitmap: &'a B,
    pub columns: Span,
    pub rows: Span,
}

impl<B: Bitmap> Source for Laid<'_, B> {
    ghost pixel = { λ laid _ x y. (B.Bitmap.picture laid.bitmap.now).at (opposite laid.columns x) (opposite laid.rows y) };

    ghost places = { λ _ _ _ _. Unit {0} };

    ghost kept = { λ _ _ _ _ _ _ _. refl };

    fn sample<S: Bitmap, T: Bitmap>(
        &self,
        _screen: &S,
        _store: &T,
        _layer: Layer<'_>,
        x: u16,
        y: u16,
    ) -> u8 {
        pixel(
            self.bitmap,
            opposite(self.columns, x),
            opposite(self.rows, y),
        )
    }
}
