//! Repainting: screen places get what the store has for them.
ghost use Rattle.std.specs.Prelude.{◌≡◌, ◌+◌, ◌<◌, ◌≤◌, if◌then◌else◌, Some, None};
ghost use Rattle.moving.specs.Phases.{on_screen, just, changes, taken};
ghost use Rattle.moving.specs.Bitmaps.{Repaints};

use crate::backing::{Backing, behind};
use crate::walk::Places;
use hold::{Layout, masked, pixel, set_pixel};
use raster::{Bitmap, Rectangle};

/// What a place gets of a store, if it is to change.
fn found<T: Bitmap>(store: &T, depth: u8, backing: Backing) -> Option<u8>
    ensures { result ≡ (if changes backing then Some (taken depth (T.Bitmap.picture store.now) backing) else None) }
{
    match backing {
        Backing::Bare => Some(0),
        Backing::Alone => None,
        Backing::Kept(a, b) => Some(masked(pixel(store, a, b), depth)),
    }
}

/// Gives the place (x, y) what the store has for it, or 0 where no layer is.
fn repaint_pixel<S: Bitmap, T: Bitmap>(
    screen: &mut S,
    store: &T,
    layout: Layout<'_>,
    x: u16,
    y: u16,
)
    requires across { x < (S.Bitmap.picture screen.old).width }
    requires down { y < (S.Bitmap.picture screen.old).height }
    ensures { Repaints S.Bitmap T.Bitmap layout.entry (just x y) store.now screen.old screen.new }
{
    let depth = screen.size().depth;
    let backing = behind(store.size().width, layout, x, y);
    if let Some(v) = found(store, depth, backing) {
        set_pixel(screen, x, y, v);
    }
}

/// Repaints the places of an area: each where no layer is gets 0, and each where the topmost layer's patch has a slot gets the pixel
/// that the store has for it.
pub fn repaint<S: Bitmap, T: Bitmap>(screen: &mut S, store: &T, layout: Layout<'_>, area: Rectangle)
    ensures { Repaints S.Bitmap T.Bitmap layout.entry (on_screen layout.entry.plan.now.screen area) store.now screen.old screen.new }
{
    for (x, y) in Places::new(screen.size(), area) {
        repaint_pixel(screen, store, layout, x, y);
    }
}
