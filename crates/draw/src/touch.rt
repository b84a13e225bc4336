//! Single pixels of layers, combined with a source pixel.
ghost use Rattle.hold.specs.Bitmaps.{HasPixel, Drawing};
ghost use Rattle.draw.specs.Touches.{touched};

use hold::Layer;
use raster::{Bitmap, Rule};

/// Combines the pixel (x, y) of a layer with a source pixel.
pub(crate) fn touch<S: Bitmap, T: Bitmap>(
    screen: &mut S,
    store: &mut T,
    layer: Layer<'_>,
    rule: Rule,
    s: u8,
    x: u16,
    y: u16,
)
    ensures { Drawing S.Bitmap T.Bitmap (HasPixel layer.entry x y) layer.entry screen.old store.old screen.new store.new (touched rule.number s x y) }
{
    let d = layer.read_pixel(screen, store, x, y);
    let value = rule.combine(screen.size().depth, s, d);
    layer.put_pixel(screen, store, x, y, value);
}
