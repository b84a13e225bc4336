//! Blanking: the slots of a client's patches are set to 0.
ghost use Rattle.std.specs.Prelude.{◌≡◌, ◌+◌, ◌*◌, ◌/◌, ◌<◌, ◌≤◌, pos};
ghost use Rattle.raster.specs.Picture.{painted};
ghost use Rattle.moving.specs.Phases.{in_slot, Blanked};
ghost use Rattle.moving.specs.Bitmaps.{Blanks};

use hold::{coordinate, slot_corner};
use raster::{Bitmap, Rectangle, SOURCE};
use slots::Slots;

/// Sets a slot of the store to 0.
fn blank_slot<T: Bitmap>(store: &mut T, k: u16)
    ensures { Blanks T.Bitmap (λ m m'. k < (m.width / 16) * (m.height / 16) → m' ≡ painted m (in_slot m.width k) (λ _ _. 0)) store.old store.new }
{
    if let Some((x, y)) = slot_corner(k, store.size().width) {
        let square = Rectangle::new(coordinate(x), coordinate(y), 16, 16);
        let _ = store.fill(SOURCE, 0, square);
    }
}

/// Sets the slots of a client's patches to 0.
pub fn blank<T: Bitmap>(store: &mut T, slots: &Slots, c: u8)
    ensures { Blanks T.Bitmap (λ m m'. c < 8 → slots.now.places ≤ (m.width / 16) * (m.height / 16) → Blanked slots.now c m m') store.old store.new }
{
    let first = 300 * u16::from(c.min(8));
    // Tried: a `for` over `filter_map(|patch| slots.slot(patch))`; the check breaks off at such a loop in a generic function.
    for patch in first..first + 300 {
        if let Some(k) = slots.slot(patch) {
            blank_slot(store, k);
        }
    }
}
