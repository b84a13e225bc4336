//! What the phases come to.
ghost use Rattle.moving.specs.Laws.{MovingLaws};

/// Stowing, repainting and blanking in the order of a call leave the desk on paper and the screen that the call should: the laws of
/// specs/Laws.antt hold.
pub fn moving_laws()
    ensures { MovingLaws }
{}
