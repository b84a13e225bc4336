//! How the pixels of a row are read, whatever its entries hold.
ghost use Rattle.std.specs.Prelude.{◌≡◌, ℕ, ◌+◌, ◌*◌, ◌/◌, ◌%◌, ◌^◌, ◌<◌, ◌≤◌, min, length, slice_index};
ghost use Rattle.runrows.specs.Runs.{row_entries};
ghost use Rattle.runrows.specs.Means.{entries_of, picture_of};

use crate::runrows::RunRows;
use std::ops::Range;

/// How many pixels a short run is filled with.
const SHORT: usize = 8;

/// Sets the `len` pixels of a run from `start` on, as far as the row goes, and tells where it ends. Pixels behind it may change: they are those of
/// runs to come.
// A short run is filled with a fixed number of pixels, where the row has as many: so it takes one store, and no loop is begun for it.
fn fill_run(out: &mut [u8], start: usize, len: u16, value: u8) -> usize
    requires { start ≤ length out.old }
    ensures end { result ≡ min (start + len) (length out.old) }
    ensures long { length out.new ≡ length out.old }
    ensures before { (k : ℕ) → k < start → slice_index out.new k ≡ slice_index out.old k }
    ensures run { (k : ℕ) → start ≤ k → k < result → slice_index out.new k ≡ value }
{
    let len = usize::from(len);
    if len <= SHORT && out.len() - start >= SHORT {
        out[start..start + SHORT].fill(value);
        return start + len;
    }
    let end = (start + len).min(out.len());
    out[start..end].fill(value);
    end
}

// That a row is in the bitmap stays a precondition: it speaks of the row and of the bitmap together, so no type of either can carry it.
impl RunRows {
    /// Where the entries of row `y` stand in the list.
    pub(crate) fn range(&self, y: u16) -> Range<usize>
        ensures start { result.start ≡ y * self.now.size.width }
        ensures end { result.end ≡ y * self.now.size.width + self.now.size.width }
    {
        let width = usize::from(self.size.width);
        let start = usize::from(y) * width;
        start..start + width
    }

    /// The entries of row `y`.
    fn row(&self, y: u16) -> &[u16]
        requires { y < self.now.size.height }
        ensures { result.now ≡ row_entries (entries_of self.now) self.now.size.width y }
    {
        &self.entries[self.range(y)]
    }

    /// The length and the value of an entry's run.
    fn run(&self, entry: u16) -> (u16, u8)
        ensures long { result.0 ≡ entry / 16 }
        ensures value { result.1 ≡ entry % 16 % 2 ^ self.now.size.depth }
    {
        (
            entry / 16,
            (entry % 16 & ((1 << self.size.depth) - 1)) as u8,
        )
    }

    /// The pixel (x, y).
    pub(crate) fn pixel(&self, x: u16, y: u16) -> u8
        requires across { x < self.now.size.width }
        requires down { y < self.now.size.height }
        ensures { result ≡ (picture_of self.now).at x y }
    {
        let row = self.row(y);
        let mut left = x;
        for entry in row {
            let (len, value) = self.run(*entry);
            if len == 0 {
                return 0;
            }
            if left < len {
                return value;
            }
            left -= len;
        }
        0
    }

    /// Reads the pixels of row `y`, one run after the other.
    pub(crate) fn unpack(&self, y: u16, out: &mut [u8])
        requires down { y < self.now.size.height }
        requires wide { length out.old ≡ self.now.size.width }
        ensures { (k : ℕ) → k < self.now.size.width → slice_index out.new k ≡ (picture_of self.now).at k y }
    {
        let row = self.row(y);
        let mut start = 0;
        for entry in row {
            let (len, value) = self.run(*entry);
            if len == 0 {
                break;
            }
            start = fill_run(out, start, len, value);
        }
        out[start..].fill(0);
    }
}
