//! Reading a layer.
ghost use Rattle.std.specs.Prelude.{◌≡◌};
ghost use Rattle.paper.specs.Desk.{answer, read_layer};
ghost use Rattle.desk.specs.Desks.{on_paper};

use crate::desk::Desk;
use crate::faults::carried;
use paper::DeskFault;
use raster::Bitmap;

impl<S: Bitmap, T: Bitmap> Desk<S, T> {
    /// The pixel (x, y) of the client's layer, counted from its corner.
    pub fn read(&self, c: u8, x: i16, y: i16) -> Result<u8, DeskFault>
        ensures { result ≡ answer (on_paper S.Bitmap T.Bitmap self.now) (read_layer c x y) }
    {
        self.check_open(c)?;
        let (u, v) = carried(c, self.pane_size(c).read_place(x, y))?;
        Ok(
            self.book
                .layer(c)
                .read_pixel(&self.screen, &self.store, u, v),
        )
    }
}
