//! How a row of pixels is written as runs.
ghost use Rattle.std.specs.Prelude.{◌≡◌, ℕ, ◌<◌, ◌≤◌, length, nat_eq, slice_index};
ghost use Rattle.runrows.specs.Means.{picture_of, with_row, RowsRewritten};
ghost use Rattle.runrows.specs.Writing.{Added, PixelsFit, RowHolds};

use crate::runrows::RunRows;

/// One more pixel after `n` runs: the last run is longer by one, or a run is added. The count of runs then.
fn add_pixel(row: &mut [u16], n: usize, v: u8) -> usize
    requires runs { n < length row.old }
    requires small { v < 16 }
    requires short { (k : ℕ) → k < n → slice_index row.old k < 32768 }
    ensures { Added row.old n v row.new result }
{
    if n > 0 && row[n - 1] % 16 == u16::from(v) {
        row[n - 1] += 16;
        n
    } else {
        row[n] = 16 + u16::from(v);
        n + 1
    }
}

/// Writes the pixels as runs, each as long as it can be, and 0 after them.
// The runs are written where they stand, in the list that is handed in, so the count of them is kept beside.
fn write_runs(row: &mut [u16], pixels: &[u8])
    requires long { length row.old ≡ length pixels.now }
    requires wide { length pixels.now ≤ 1024 }
    requires small { PixelsFit 4 pixels.now }
    ensures { (depth : ℕ) → PixelsFit depth pixels.now → RowHolds depth row.new pixels.now }
{
    let mut n = 0;
    for pixel in pixels {
        n = add_pixel(row, n, *pixel);
    }
    row[n..].fill(0);
}

// That a row is in the bitmap stays a precondition: it speaks of the row and of the bitmap together, so no type of either can carry it.
impl RunRows {
    /// Writes row `y`, which then stands in its one writing.
    pub(crate) fn write_row(&mut self, y: u16, pixels: &[u8])
        requires down { y < self.old.size.height }
        requires long { length pixels.now ≡ self.old.size.width }
        requires small { PixelsFit self.old.size.depth pixels.now }
        ensures after { picture_of self.new ≡ with_row (picture_of self.old) y pixels.now }
        ensures rest { RowsRewritten (λ b. nat_eq b y) self.old self.new }
    {
        let range = self.range(y);
        write_runs(&mut self.entries[range], pixels);
    }
}
