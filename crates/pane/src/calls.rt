//! The calls of a pane: the client's drawing on its layer of the desk. Each is refused as a bitmap of that size refuses it. What passes, the desk
//! refuses only if the client has no open layer, and then there is no pixel to draw.
ghost use Rattle.pane.specs.Panes.{picture_of, PaneKept};
ghost use Rattle.pane.specs.Sounds.{pane_sound};
ghost use Rattle.pane.specs.Joins.{pane_same, pane_joins};

use crate::pane::Pane;
use raster::{Bitmap, Blit, Fault, Rectangle, SOURCE, Size, Transfer};

impl<S: Bitmap, T: Bitmap> Bitmap for Pane<S, T> {
    ghost picture = { picture_of S.Bitmap T.Bitmap };

    ghost keeps = { PaneKept S.Bitmap T.Bitmap };

    ghost sound = { λ p. pane_sound (S.Bitmap.picture p.desk.screen) (T.Bitmap.picture p.desk.store) (S.Bitmap.sound p.desk.screen) p.desk.book p.client };

    ghost same = { pane_same (record { picture = S.Bitmap.picture; keeps = S.Bitmap.keeps })
        (record { picture = T.Bitmap.picture; keeps = T.Bitmap.keeps }) S.Bitmap.same T.Bitmap.same };

    ghost joins = { pane_joins (record { picture = S.Bitmap.picture; keeps = S.Bitmap.keeps })
        (record { picture = T.Bitmap.picture; keeps = T.Bitmap.keeps }) S.Bitmap.joins T.Bitmap.joins };

    fn size(&self) -> Size {
        self.desk.pane_size(self.client)
    }

    fn read(&self, x: i16, y: i16) -> Result<u8, Fault> {
        self.size().read_place(x, y)?;
        Ok(self.desk.read(self.client, x, y).unwrap_or(0)) // never refused: the pixel is one of an open layer
    }

    fn write(&mut self, x: i16, y: i16, v: u8) -> Result<u32, Fault> {
        self.size().write_place(x, y, v)?;
        let _ = self
            .desk
            .fill(self.client, SOURCE, v, Rectangle::new(x, y, 1, 1));
        Ok(0)
    }

    fn fill(&mut self, rule: u8, v: u8, area: Rectangle) -> Result<u32, Fault> {
        let blit = Blit::fill(self.size(), rule, v, area)?;
        let _ = self.desk.fill(self.client, rule, v, area);
        Ok(blit.count())
    }

    fn scroll(&mut self, transfer: Transfer) -> Result<u32, Fault> {
        let blit = Blit::scroll(self.size(), transfer)?;
        let _ = self.desk.scroll(self.client, transfer);
        Ok(blit.count())
    }
}
