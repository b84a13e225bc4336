//! Drawing on a layer.
ghost use Rattle.raster.specs.Picture.{sizes};
ghost use Rattle.raster.specs.Calls.{BitmapCall, Unaltered};
ghost use Rattle.raster.specs.Blits.{Prepares};
ghost use Rattle.paper.specs.Layers.{pane};
ghost use Rattle.paper.specs.Desk.{Call, fill_layer, scroll_layer};
ghost use Rattle.paper.specs.Run.{Does};
ghost use Rattle.paper.proofs.Draws.{SameDrawing};
ghost use Rattle.desk.specs.Desks.{on_paper, state_of, Keeps, Performed};

use crate::desk::Desk;
use crate::faults::carried;
use draw::paint;
use paper::DeskFault;
use raster::{Bitmap, Blit, Fault, Rectangle, Transfer};

impl<S: Bitmap, T: Bitmap> Desk<S, T> {
    /// Performs a fill or a scroll on the client's layer, as it was prepared for a bitmap of the layer's size.
    fn perform(&mut self, c: u8, prepared: Result<Blit, Fault>) -> Result<u32, DeskFault>
        ensures does { (k : Call) (b : BitmapCall) → SameDrawing c k b → Prepares (sizes (pane c (on_paper S.Bitmap T.Bitmap self.old))) b prepared → Does (state_of S.Bitmap T.Bitmap self.old) k result (state_of S.Bitmap T.Bitmap self.new) }
        ensures rest { Keeps S.Bitmap T.Bitmap self.old self.new }
        ensures refused { Unaltered result self.old self.new }
    {
        self.check_open(c)?;
        let blit = carried(c, prepared)?;
        paint(&mut self.screen, &mut self.store, self.book.layer(c), blit);
        Ok(blit.count())
    }

    /// BitBlt onto a rectangle of the client's layer from a source that has the value `v` everywhere; the count of pixels concerned.
    pub fn fill(&mut self, c: u8, rule: u8, v: u8, area: Rectangle) -> Result<u32, DeskFault>
        ensures { Performed S.Bitmap T.Bitmap self.old (fill_layer c rule v area.x area.y area.w area.h) result self.new }
    {
        let prepared = Blit::fill(self.pane_size(c), rule, v, area);
        self.perform(c, prepared)
    }

    /// BitBlt within the client's layer; the count of pixels concerned.
    pub fn scroll(&mut self, c: u8, transfer: Transfer) -> Result<u32, DeskFault>
        ensures { Performed S.Bitmap T.Bitmap self.old (scroll_layer c transfer) result self.new }
    {
        let prepared = Blit::scroll(self.pane_size(c), transfer);
        self.perform(c, prepared)
    }
}
