//! What a desk notes of its layers.
ghost use Rattle.std.specs.Prelude.{◌≡◌, ℕ, ◌<◌};
ghost use Rattle.plan.specs.Plans.{hidden_patch};
ghost use Rattle.slots.specs.Tables.{has_slot};

use hold::{Layer, Layout};
use plan::Plan;
use slots::Slots;

/// The arrangement of the layers, and the slot of each hidden patch.
#[derive(Clone, Copy)]
pub struct Book {
    pub(crate) plan: Plan,
    pub(crate) slots: Slots,
    ghost held: { (k : ℕ) → k < 2400 → has_slot slots k ≡ hidden_patch plan k },
}

impl Book {
    /// A client's layer.
    pub(crate) fn layer(&self, client: u8) -> Layer<'_>
        ensures plan { result.layout.plan.now ≡ self.now.plan }
        ensures slots { result.layout.slots.now ≡ self.now.slots }
        ensures client { result.client ≡ client }
    {
        let layout = Layout {
            plan: &self.plan,
            slots: &self.slots,
        };
        Layer { layout, client }
    }
}
