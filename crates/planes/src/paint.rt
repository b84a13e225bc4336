//! Rectangles, painted pixel by pixel where they lie.
ghost use Rattle.std.specs.Prelude.{◌≡◌, ◌<◌};
ghost use Rattle.raster.specs.Blits.{Below, performed};
ghost use Rattle.raster.proofs.Paints.{row_painted};
ghost use Rattle.planes.specs.Means.{picture_of, PlanesKept};

use crate::planes::Planes;
use raster::Blit;

// Layers of a desk are painted likewise, in the crate draw. One text for both would be a trait over a struct of the two bitmaps that a layer lies
// on, and no trait can say that such a struct holds the same two still after each call.
// That a blit's places are in the bitmap stays a precondition: it speaks of the blit and of the bitmap together, so no type of either can carry it.
#[tactic(auto, using(crate::proofs::Painting::painting))]
impl Planes {
    /// Paints the columns of a blit in the row `y`, from the row `sy`.
    fn paint_row(&mut self, blit: Blit, y: u16, sy: u16)
        requires columns { Below self.old.size.width blit.columns }
        requires row { y < self.old.size.height }
        requires from { sy < self.old.size.height }
        ensures after { picture_of self.new ≡ row_painted blit y sy (picture_of self.old) }
        ensures rest { PlanesKept self.old self.new }
    {
        let from = self.line(sy);
        let to = self.line(y);
        // By an index: the law of the order speaks of the turn's number (`turn` of raster/specs/Blits.antt), and both ends of the pair follow from it.
        for i in 0..blit.columns.len {
            let k = blit.columns.turn(i);
            let s = self.sample(blit.ink, from, blit.columns.source + k);
            self.touch(to, blit.rule, s, blit.columns.first + k);
        }
    }

    /// Performs a blit.
    pub(crate) fn paint(&mut self, blit: Blit)
        requires columns { Below self.old.size.width blit.columns }
        requires rows { Below self.old.size.height blit.rows }
        ensures after { picture_of self.new ≡ performed blit (picture_of self.old) }
        ensures rest { PlanesKept self.old self.new }
    {
        // By an index: the law of the order speaks of the turn's number (`turn` of raster/specs/Blits.antt), and both ends of the pair follow from it.
        for j in 0..blit.rows.len {
            let k = blit.rows.turn(j);
            self.paint_row(blit, blit.rows.first + k, blit.rows.source + k);
        }
    }
}
