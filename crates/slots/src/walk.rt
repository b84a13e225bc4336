//! Tables adjusted to a change, patch by patch.
ghost use Rattle.std.specs.Prelude.{◌≡◌, ℕ, ◌+◌, ◌*◌, ◌/◌, ◌<◌, ◌≤◌, not, ◌||◌, nat_eq};
ghost use Rattle.slots.specs.Allots.{Retained};
ghost use Rattle.slots.specs.Blocks.{in_row, in_block};
ghost use Rattle.slots.specs.Walks.{Adjusts, InLayer, Clear, AdjustsBut};
ghost use Rattle.slots.specs.Changes.{needed};

use crate::block::{Block, patches_met};
use crate::single::NoSlot;
use crate::slots::Slots;
use crate::wanted::Wanted;
use plan::Change;
use raster::Rectangle;

// That patches are below 2,400 stays a precondition, as it does of a single slot: callers count through the table.
impl Slots {
    /// Takes the slot of a patch back, if it has one and is to have none.
    pub(crate) fn retain_patch<W: Wanted>(&mut self, wanted: &W, patch: u16)
        requires { patch < 2400 }
        ensures { Retained self.old (λ k. W.Wanted.wanted wanted.now k || not (nat_eq k patch)) self.new }
    {
        if self.slot(patch).is_some() && !wanted.wants(patch) {
            self.give_back(patch);
        }
    }

    /// Gives a patch a slot if it is to have one, and takes its slot back if it is to have none.
    fn adjust_patch<W: Wanted>(&mut self, wanted: &W, patch: u16) -> Result<(), NoSlot>
        requires { patch < 2400 }
        ensures { Adjusts (W.Wanted.wanted wanted.now) (λ k. nat_eq k patch) self.old self.new result }
    {
        match (self.slot(patch).is_some(), wanted.wants(patch)) {
            (true, false) => self.give_back(patch),
            (false, true) => self.grant(patch)?,
            _ => {}
        }
        Ok(())
    }

    /// Adjusts the slots of the `count` patches from `first` on.
    pub(crate) fn adjust_range<W: Wanted>(
        &mut self,
        wanted: &W,
        first: u16,
        count: u16,
    ) -> Result<(), NoSlot>
        requires { first + count ≤ 2400 }
        ensures { Adjusts (W.Wanted.wanted wanted.now) (in_row first count) self.old self.new result }
    {
        for patch in first..first + count {
            self.adjust_patch(wanted, patch)?;
        }
        Ok(())
    }

    /// Adjusts the slots of the patches of a block.
    fn adjust_block(&mut self, change: Change, block: Block) -> Result<(), NoSlot>
        ensures { Adjusts (needed change.entry) (in_block block.first block.columns block.rows) self.old self.new result }
    {
        for j in 0..block.rows {
            self.adjust_range(&change, block.first + 20 * j, block.columns)?;
        }
        Ok(())
    }

    // That the client `d` is below 8 stays a precondition: the caller counts through the clients, and a type for them would be made and opened at
    // each turn.
    /// Adjusts the slots of the patches in the layer of the client `d` that an area meets, or the frame of the client `c`; of none, if the layer is
    /// neither open nor c's.
    fn adjust_layer(&mut self, change: Change, c: u8, area: Rectangle, d: u8) -> Result<(), NoSlot>
        requires { d < 8 }
        ensures { AdjustsBut (needed change.entry) (λ k. k / 300 ≡ d → InLayer change.entry.after.now c k → Clear change.entry.after.now c area k) self.old self.new result }
    {
        if d != c && !change.after.is_open(d) {
            return Ok(());
        }
        let frame = change.after.frame(d);
        let own = change.after.frame(c);
        self.adjust_block(change, patches_met(d, frame, area))?;
        self.adjust_block(change, patches_met(d, frame, own))
    }

    /// Adjusts the slots of all patches that can tell a change of the client's layer, from an area to its frame after the change.
    pub(crate) fn adjust(&mut self, change: Change, c: u8, area: Rectangle) -> Result<(), NoSlot>
        ensures { AdjustsBut (needed change.entry) (λ k. InLayer change.entry.after.now c k → Clear change.entry.after.now c area k) self.old self.new result }
    {
        for d in 0..8u8 {
            self.adjust_layer(change, c, area, d)?;
        }
        Ok(())
    }
}
