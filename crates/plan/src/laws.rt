//! What the numbers of patches are worth.
ghost use Rattle.plan.specs.Laws.{PlanLaws};

/// Patches counted by their numbers are those that a desk on paper counts.
pub fn plan_laws()
    ensures { PlanLaws }
{}
