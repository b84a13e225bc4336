//! Single slots, granted to patches and given back.
ghost use Rattle.std.specs.Prelude.{◌≡◌, ◌<◌, ◌≤◌, true, false, IfErr, OnOk};
ghost use Rattle.slots.specs.Tables.{has_slot};
ghost use Rattle.slots.specs.Allots.{OtherSlots};

use crate::slots::Slots;

/// A slot is needed and none is left.
#[derive(Clone, Copy, PartialEq, Eq, Debug)]
pub(crate) struct NoSlot;

// That a patch is below 2,400 stays a precondition: callers count through the table, and a type for it would be made and opened at each turn.
// That it has no slot yet stays one too: it speaks of the patch and of the table together, so no type of either can carry it.
impl Slots {
    /// Gives a free slot to a patch that has none.
    pub(crate) fn grant(&mut self, patch: u16) -> Result<(), NoSlot>
        requires there { patch < 2400 }
        requires none { has_slot self.old patch ≡ false }
        ensures full { IfErr result (λ _. self.old.places ≤ self.old.used) }
        ensures has { OnOk result (has_slot self.new patch ≡ true) }
        ensures others { OnOk result (OtherSlots patch self.old self.new) }
    {
        if self.used >= self.places {
            return Err(NoSlot);
        }
        self.table[patch as usize] = Some(self.spare[self.used as usize]);
        self.used += 1;
        Ok(())
    }

    /// Takes the slot of a patch back, if it has one.
    pub(crate) fn give_back(&mut self, patch: u16)
        requires { patch < 2400 }
        ensures none { has_slot self.new patch ≡ false }
        ensures others { OtherSlots patch self.old self.new }
    {
        if let Some(slot) = self.table[patch as usize].take() {
            self.used -= 1;
            self.spare[self.used as usize] = slot;
        }
    }
}
