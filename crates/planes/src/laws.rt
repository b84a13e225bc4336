//! Laws over the layout.
ghost use Rattle.planes.specs.Laws.{PlanesLaws};

/// What the layout means: the laws of specs/Laws.antt hold.
pub fn planes_laws()
    ensures { PlanesLaws }
{}
