//! Where a pixel of a layer lies.
ghost use Rattle.std.specs.Prelude.{◌≡◌, ◌/◌, ◌<◌, ◌≤◌, Some, SomeIff};
ghost use Rattle.raster.specs.Picture.{Picture};
ghost use Rattle.plan.specs.Plans.{patch_at};
ghost use Rattle.hold.specs.Spots.{slot_x, slot_y, spot_of};
ghost use Rattle.hold.specs.Held.{Fitting};
ghost use Rattle.hold.specs.Bitmaps.{HasPixel};

use crate::layer::{Layer, Layout};
use crate::spot::Spot;

/// The number of the patch that the pixel (u, v) of a client's layer is in, if there is one.
pub fn patch(c: u8, u: u16, v: u16) -> Option<u16>
    ensures { SomeIff result ((c < 8) × (u < 320) × (v < 240)) (patch_at c (u / 16) (v / 16)) }
{
    (c < 8 && u < 320 && v < 240).then(|| 300 * u16::from(c) + 20 * (v / 16) + u / 16)
}

/// The corner of a slot in a store of a width; none, if the store is narrower than a slot or the slot is past the last of any store.
pub fn slot_corner(slot: u16, width: u16) -> Option<(u16, u16)>
    ensures { SomeIff result ((16 ≤ width) × (slot < 4096)) (slot_x width slot, slot_y width slot) }
{
    let across = width / 16;
    if across == 0 || slot >= 4096 {
        return None;
    }
    Some((16 * (slot % across), 16 * (slot / across)))
}

impl Layer<'_> {
    /// Where the pixel (u, v) lies, with a store of a width; none, if it lies nowhere.
    pub(crate) fn find(self, width: u16, u: u16, v: u16) -> Option<Spot>
        ensures { (screen store : Picture) → Fitting screen store self.entry.layout.plan.now self.entry.layout.slots.now → store.width ≡ width → HasPixel self.entry u v → result ≡ Some (spot_of width self.entry.layout.plan.now self.entry.layout.slots.now self.entry.client u v) }
    {
        let Layout { plan, slots } = self.layout;
        if let Some((x, y)) = plan.sees(self.client, u, v) {
            return Some(Spot::Screen(x, y));
        }
        let slot = slots.slot(patch(self.client, u, v)?)?;
        let (x, y) = slot_corner(slot, width)?;
        Some(Spot::Store(x + u % 16, y + v % 16))
    }
}
