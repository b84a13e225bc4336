//! Stowing: what shows on the screen is copied to its place in the store.
ghost use Rattle.std.specs.Prelude.{◌≡◌, ◌+◌, ◌<◌, ◌≤◌};
ghost use Rattle.moving.specs.Phases.{on_screen, just};
ghost use Rattle.moving.specs.Bitmaps.{Stows};

use crate::backing::{Backing, behind};
use crate::walk::Places;
use hold::{Layout, pixel, set_pixel};
use raster::{Bitmap, Rectangle};

// Screen and store stay two parameters, as in hold: here the one is read and the other written.
/// Copies the pixel that shows at (x, y) to its place in the store, if it has one.
fn stow_pixel<S: Bitmap, T: Bitmap>(screen: &S, store: &mut T, layout: Layout<'_>, x: u16, y: u16)
    requires across { x < (S.Bitmap.picture screen.now).width }
    requires down { y < (S.Bitmap.picture screen.now).height }
    ensures { Stows S.Bitmap T.Bitmap layout.entry (just x y) screen.now store.old store.new }
{
    let width = store.size().width;
    if let Backing::Kept(a, b) = behind(width, layout, x, y) {
        set_pixel(store, a, b, pixel(screen, x, y));
    }
}

/// Copies what shows at the places of an area to the store: each pixel that is topmost there and whose patch has a slot, to its place in that.
pub fn stow<S: Bitmap, T: Bitmap>(screen: &S, store: &mut T, layout: Layout<'_>, area: Rectangle)
    ensures { Stows S.Bitmap T.Bitmap layout.entry (on_screen layout.entry.plan.now.screen area) screen.now store.old store.new }
{
    for (x, y) in Places::new(screen.size(), area) {
        stow_pixel(screen, store, layout, x, y);
    }
}
