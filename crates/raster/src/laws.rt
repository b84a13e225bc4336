//! Laws over the definitions.
ghost use Rattle.raster.specs.Laws.{BitmapLaws};

/// What the definitions of rules, BitBlt and the calls mean: the laws of specs/Laws.antt hold.
pub fn bitmap_laws()
    ensures { BitmapLaws }
{}
