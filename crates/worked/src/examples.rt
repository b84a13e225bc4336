//! The worked examples hold.
ghost use Rattle.worked.specs.Examples.{WorkedExamples};

/// What the definitions give on small cases: the theorem of specs/Examples.antt.
pub fn worked_examples()
    ensures { WorkedExamples }
{}
