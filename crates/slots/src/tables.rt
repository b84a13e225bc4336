//! Tables for the time of a change, and after it.
ghost use Rattle.std.specs.Prelude.{◌≡◌, ℕ, ◌<◌, true, None, IfSome};
ghost use Rattle.plan.specs.Frames.{has};
ghost use Rattle.plan.specs.Plans.{listed, frame_in, hidden_patch};
ghost use Rattle.slots.specs.Tables.{has_slot, Fits};
ghost use Rattle.slots.specs.Allots.{Retained, Allotted};
ghost use Rattle.slots.specs.Changes.{needed, Concerns};

use crate::single::NoSlot;
use crate::slots::Slots;
use crate::wanted::{Marks, Wanted};
use plan::{Change, Plan};
use raster::Rectangle;

/// The frame of a client's layer before a change, if it was open, else after it.
fn left_area(change: Change, c: u8) -> Rectangle
    ensures { has c (listed change.entry.before.now) ≡ true → result ≡ frame_in change.entry.before.now c }
{
    if change.before.is_open(c) {
        change.before.frame(c)
    } else {
        change.after.frame(c)
    }
}

/// The change for whose time only the hidden patches of an arrangement need slots: it stays as it is.
fn still(plan: &Plan) -> Change
    ensures before { result.before.now ≡ plan.now }
    ensures after { result.after.now ≡ plan.now }
    ensures moved { result.moved ≡ None }
{
    Change {
        before: plan,
        after: plan,
        moved: None,
    }
}

impl Slots {
    /// The table without the slots of patches that are to have none.
    fn retained<W: Wanted>(&self, wanted: &W) -> Slots
        ensures { Retained self.now (W.Wanted.wanted wanted.now) result }
    {
        let mut slots = *self;
        for patch in 0..2400 {
            slots.retain_patch(wanted, patch);
        }
        slots
    }

    /// The table for the time of a change: each patch in need has a slot, the one that it had if it had one. None, if there are too few slots.
    pub fn allot(&self, change: Change) -> Option<Slots>
        ensures { Allotted self.now (needed change.entry) result }
    {
        let marks = Marks::of(change); // slots are taken back and then granted, and a patch is asked once for both
        let mut slots = self.retained(&marks);
        match slots.adjust_range(&marks, 0, 2400) {
            Ok(()) => Some(slots),
            Err(NoSlot) => None,
        }
    }

    /// The table without the slots of patches that are not hidden.
    pub fn released(&self, plan: &Plan) -> Slots
        ensures { Retained self.now (hidden_patch plan.now) result }
    {
        self.retained(plan)
    }

    /// The table that `allot` makes, for a change of one client's layer alone: it looks only at the patches that can tell such a change.
    pub fn allot_near(&self, change: Change, c: u8) -> Option<Slots>
        ensures { Fits change.entry.before.now self.now → Concerns change.entry.before.now change.entry.after.now c → IfSome change.entry.moved (λ m. m ≡ c) → Allotted self.now (needed change.entry) result }
    {
        let mut slots = *self;
        match slots.adjust(change, c, left_area(change, c)) {
            Ok(()) => Some(slots),
            Err(NoSlot) => None,
        }
    }

    /// The table after such a change, without the slots of patches that are not hidden; it looks at as few.
    pub fn released_near(&self, change: Change, c: u8) -> Slots
        ensures { Concerns change.entry.before.now change.entry.after.now c → IfSome change.entry.moved (λ m. m ≡ c) → ((k : ℕ) → k < 2400 → has_slot self.now k ≡ needed change.entry k) → Retained self.now (hidden_patch change.entry.after.now) result }
    {
        let mut slots = *self;
        let _ = slots.adjust(still(change.after), c, left_area(change, c)); // no patch needs a new slot
        slots
    }
}
