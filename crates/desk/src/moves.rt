//! A layer moved to another corner.
ghost use Rattle.paper.specs.Desk.{move_layer};
ghost use Rattle.desk.specs.Desks.{Performed};
ghost use Rattle.desk.specs.Moves.{done};

use crate::desk::Desk;
use paper::DeskFault;
use raster::Bitmap;

impl<S: Bitmap, T: Bitmap> Desk<S, T> {
    /// Moves the client's layer to another corner, on the screen or off it.
    pub fn move_to(&mut self, c: u8, x: i16, y: i16) -> Result<(), DeskFault>
        ensures { Performed S.Bitmap T.Bitmap self.old (move_layer c x y) (done result) self.new }
    {
        self.check_open(c)?;
        let after = self.book.plan.moved(c, x, y);
        let passage = self.book.passage(c, after, Some(c))?;
        let old = self.book.plan.frame(c);
        let new = after.frame(c);
        self.rearrange(&passage, &[old, new]);
        Ok(())
    }
}
