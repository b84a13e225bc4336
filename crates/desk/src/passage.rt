//! The way from one arrangement of the layers to another.
ghost use Rattle.std.specs.Prelude.{◌≡◌, ◌<◌, ◌≤◌, MatchResult};
ghost use Rattle.raster.specs.declared.refusal.Refusal.TheVariants.{TooFewSlots};
ghost use Rattle.paper.specs.Desk.{because};
ghost use Rattle.plan.specs.Plans.{needs};
ghost use Rattle.plan.specs.Counts.{passing};
ghost use Rattle.slots.specs.Allots.{Supplied};
ghost use Rattle.desk.specs.Moves.{Serves, Settled};

use crate::book::Book;
use crate::faults::because;
use hold::Layout;
use paper::DeskFault;
use plan::{Change, Plan};
use raster::Refusal;
use slots::Slots;

/// An arrangement to go over to, and a table in which each patch that it hides has a slot.
#[derive(Drop)]
pub(crate) struct Passage {
    pub(crate) after: Plan,
    pub(crate) slots: Slots,
    ghost serves: { Serves after slots },
}

impl Passage {
    /// The layers as they were arranged, with the table of the passage.
    pub(crate) fn before<'a>(&'a self, plan: &'a Plan) -> Layout<'a>
        ensures plan { result.plan.now ≡ plan.now }
        ensures slots { result.slots.now ≡ self.now.slots }
    {
        Layout {
            plan,
            slots: &self.slots,
        }
    }

    /// The layers as they will be, with that table.
    pub(crate) fn later(&self) -> Layout<'_>
        ensures plan { result.plan.now ≡ self.now.after }
        ensures slots { result.slots.now ≡ self.now.slots }
    {
        self.before(&self.after)
    }

    /// The book after the passage, with the slots of the patches that are hidden then.
    pub(crate) fn settled(&self) -> Book
        ensures { Settled self.now.after self.now.slots result }
    {
        Book {
            plan: self.after,
            slots: self.slots.released(&self.after),
        }
    }
}

impl Book {
    /// The passage to another arrangement, or the client's fault that there are too few slots for it.
    pub(crate) fn passage(
        &self,
        c: u8,
        after: Plan,
        moved: Option<u8>,
    ) -> Result<Passage, DeskFault>
        ensures { MatchResult result (λ w. (w.after ≡ after) × (passing (needs self.now.plan after moved) ≤ self.now.slots.places) × Supplied self.now.slots (needs self.now.plan after moved) w.slots) (λ f. (self.now.slots.places < passing (needs self.now.plan after moved)) × (f ≡ because TooFewSlots c)) }
    {
        let change = Change {
            before: &self.plan,
            after: &after,
            moved,
        };
        let slots = self
            .slots
            .allot(change)
            .ok_or(because(Refusal::TooFewSlots, c))?;
        Ok(Passage { after, slots })
    }
}
