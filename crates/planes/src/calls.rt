//! The calls of planes. Beside what every bitmap promises, each settles every word: the bits of pixels by the picture, all others as before.
ghost use Rattle.planes.specs.Means.{picture_of, PlanesKept};
ghost use Rattle.planes.specs.Keep.{planes_sound, planes_same, planes_joins};

use crate::planes::Planes;
use raster::{Bitmap, Blit, Fault, Rectangle, Size, Transfer};

// The bodies read like those of run rows: each calls its own kind's pixels and blits, and a trait over both kinds would be `Bitmap` again.
impl Bitmap for Planes {
    ghost picture = { picture_of };

    ghost keeps = { PlanesKept };

    ghost sound = { planes_sound };

    ghost same = { planes_same };

    ghost joins = { planes_joins };

    fn size(&self) -> Size {
        self.size // as made
    }

    fn read(&self, x: i16, y: i16) -> Result<u8, Fault> {
        let (column, row) = self.size.read_place(x, y)?;
        Ok(self.get(self.line(row), column))
    }

    fn write(&mut self, x: i16, y: i16, v: u8) -> Result<u32, Fault> {
        let (column, row) = self.size.write_place(x, y, v)?;
        let line = self.line(row);
        self.put(line, column, v);
        Ok(0)
    }

    fn fill(&mut self, rule: u8, v: u8, area: Rectangle) -> Result<u32, Fault> {
        let blit = Blit::fill(self.size, rule, v, area)?;
        self.paint(blit);
        Ok(blit.count())
    }

    fn scroll(&mut self, transfer: Transfer) -> Result<u32, Fault> {
        let blit = Blit::scroll(self.size, transfer)?;
        self.paint(blit);
        Ok(blit.count())
    }
}
