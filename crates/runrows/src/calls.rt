//! The calls of run rows. Beside what every bitmap promises, each settles every entry:
//! a row with a pixel concerned stands in its one writing, and all other entries stay.
ghost use Rattle.raster.specs.Calls.{write_at, fill_with, scroll_by};
ghost use Rattle.runrows.specs.Means.{picture_of, RowsKept, RowsCalled};
ghost use Rattle.runrows.specs.Keep.{rows_sound, rows_same, rows_joins};

use crate::runrows::RunRows;
use raster::{Bitmap, Blit, Fault, Rectangle, Size, Transfer};

// The bodies read like those of planes: each calls its own kind's pixels and blits, and a trait over both kinds would be `Bitmap` again.
impl Bitmap for RunRows {
    ghost picture = { picture_of };

    ghost keeps = { RowsKept };

    ghost sound = { rows_sound };

    ghost same = { rows_same };

    ghost joins = { rows_joins };

    fn size(&self) -> Size {
        self.size // as made
    }

    fn read(&self, x: i16, y: i16) -> Result<u8, Fault> {
        let (column, row) = self.size.read_place(x, y)?;
        Ok(self.pixel(column, row))
    }

    fn write(&mut self, x: i16, y: i16, v: u8) -> Result<u32, Fault>
        ensures { RowsCalled self.old (write_at x y v) result self.new }
    {
        let (column, row) = self.size.write_place(x, y, v)?;
        self.put(column, row, v);
        Ok(0)
    }

    fn fill(&mut self, rule: u8, v: u8, area: Rectangle) -> Result<u32, Fault>
        ensures { RowsCalled self.old (fill_with rule v area.x area.y area.w area.h) result self.new }
    {
        let blit = Blit::fill(self.size, rule, v, area)?;
        self.paint(blit);
        Ok(blit.count())
    }

    fn scroll(&mut self, transfer: Transfer) -> Result<u32, Fault>
        ensures { RowsCalled self.old (scroll_by transfer) result self.new }
    {
        let blit = Blit::scroll(self.size, transfer)?;
        self.paint(blit);
        Ok(blit.count())
    }
}
