//! Laws over the writing of rows.
ghost use Rattle.runrows.specs.Laws.{RunLaws};

/// What the writing of a row means: the laws of specs/Laws.antt hold.
pub fn run_laws()
    ensures { RunLaws }
{}
