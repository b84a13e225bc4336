//! What stands behind a screen place.
ghost use Rattle.std.specs.Prelude.{◌≡◌, ◌<◌, ◌≤◌};
ghost use Rattle.moving.specs.Phases.{kept_pixel, behind};

use hold::{Layout, coordinate, patch, slot_corner};
use slots::Slots;

/// What stands behind a screen place.
#[derive(Clone, Copy)]
pub enum Backing {
    /// No layer.
    Bare,
    /// A layer's pixel whose patch has no slot, so that it is on the screen alone.
    Alone,
    /// A layer's pixel whose patch has a slot, and its place in the store.
    Kept(u16, u16),
}

/// What stands behind the pixel (u, v) of a client's layer, in a store of a width.
fn kept_pixel(width: u16, slots: &Slots, c: u8, u: u16, v: u16) -> Backing
    requires client { c < 8 }
    requires column { u < 320 }
    requires row { v < 240 }
    ensures { (0 < slots.now.places → 16 ≤ width) → result ≡ kept_pixel width slots.now c u v }
{
    let corner = patch(c, u, v)
        .and_then(|patch| slots.slot(patch))
        .and_then(|k| slot_corner(k, width));
    match corner {
        Some((x, y)) => Backing::Kept(x + u % 16, y + v % 16),
        None => Backing::Alone,
    }
}

/// What stands behind the screen place (x, y), in a store of a width.
pub(crate) fn behind(width: u16, layout: Layout<'_>, x: u16, y: u16) -> Backing
    requires across { x < 32768 }
    requires down { y < 32768 }
    ensures { (0 < layout.entry.slots.now.places → 16 ≤ width) → result ≡ behind width layout.entry.plan.now layout.entry.slots.now x y }
{
    let Layout { plan, slots } = layout;
    let (x, y) = (coordinate(x), coordinate(y));
    match plan.top(x, y) {
        Some(d) => {
            let frame = plan.frame(d);
            kept_pixel(width, slots, d, x.abs_diff(frame.x), y.abs_diff(frame.y))
        }
        None => Backing::Bare,
    }
}
