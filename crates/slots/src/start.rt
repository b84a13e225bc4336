//! The table without slots, and what a table tells.
ghost use Rattle.std.specs.Prelude.{◌≡◌, ℕ, ◌<◌, min, false, ◌&&◌, if◌then◌else◌, Some, None, nat_lt, slice_index};
ghost use Rattle.plan.specs.Counts.{passing};
ghost use Rattle.slots.specs.Tables.{slot_of, has_slot};

use crate::slots::Slots;
use std::array;

/// The numbers of all slots that a store can have, in order.
fn in_order() -> [u16; 4096]
    ensures { (k : ℕ) → k < 4096 → slice_index result k ≡ k }
{
    array::from_fn(|k| k as u16)
}

impl Slots {
    /// No patch has a slot, of `places` or of 4,096 if that is less.
    pub fn none(places: u16) -> Slots
        ensures places { result.places ≡ min places 4096 }
        ensures empty { (k : ℕ) → k < 2400 → has_slot result k ≡ false }
    {
        Slots {
            places: places.min(4096),
            used: 0,
            table: [None; 2400],
            spare: in_order(),
        }
    }

    /// How many slots there are.
    pub fn places(&self) -> u16
        ensures { result ≡ self.now.places }
    {
        self.places
    }

    /// How many patches have a slot.
    pub fn used(&self) -> u16
        ensures { result ≡ passing (has_slot self.now) }
    {
        self.used
    }

    /// The slot of a patch, if it has one.
    pub fn slot(&self, patch: u16) -> Option<u16>
        ensures { result ≡ (if nat_lt patch 2400 && has_slot self.now patch then Some (slot_of self.now patch) else None) }
    {
        *self.table.get(patch as usize)?
    }
}
