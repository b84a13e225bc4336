//! Which patches are to have a slot.
ghost use Rattle.std.specs.Prelude.{◌≡◌, ℕ, ◌<◌, Bool, false, slice_index_or};
ghost use Rattle.plan.specs.Plans.{hidden_patch};
ghost use Rattle.slots.specs.Changes.{needed};

use plan::{Change, Plan};

/// A test of patches: those that are to have a slot.
pub(crate) trait Wanted {
    /// The patches that pass.
    ghost wanted: { Self → ℕ → Bool };

    /// Whether a patch passes.
    fn wants(&self, patch: u16) -> bool
        requires { patch < 2400 }
        ensures { result ≡ wanted self.now patch };
}

/// Those that a change needs slots for.
impl Wanted for Change<'_> {
    ghost wanted = { needed };

    fn wants(&self, patch: u16) -> bool {
        self.needs(patch)
    }
}

/// Those that are hidden in an arrangement.
impl Wanted for Plan {
    ghost wanted = { hidden_patch };

    fn wants(&self, patch: u16) -> bool {
        self.hides(patch)
    }
}

/// Patches marked one by one, so that a test is asked once of each.
#[derive(Clone, Copy)]
pub(crate) struct Marks([bool; 2400]);

impl Wanted for Marks {
    ghost wanted = { λ marks k. slice_index_or marks.0 k false };

    fn wants(&self, patch: u16) -> bool {
        self.0[usize::from(patch)]
    }
}

impl Marks {
    /// The patches that a change needs slots for.
    pub(crate) fn of(change: Change) -> Marks
        ensures { (k : ℕ) → k < 2400 → slice_index_or result.0 k false ≡ needed change.entry k }
    {
        let mut marks = [false; 2400];
        for (patch, mark) in marks.iter_mut().enumerate() {
            *mark = change.needs(patch as u16);
        }
        Marks(marks)
    }
}
