//! Single pixels of planes.
ghost use Rattle.std.specs.Prelude.{◌≡◌, ◌≢◌, ℕ, ◌^◌, ◌<◌};
ghost use Rattle.raster.specs.Rules.{bit, combined};
ghost use Rattle.raster.specs.Picture.{with_pixel};
ghost use Rattle.raster.specs.Blits.{inked};
ghost use Rattle.planes.specs.Layout.{stride, InBitmap};
ghost use Rattle.planes.specs.Lines.{line_of};
ghost use Rattle.planes.specs.Means.{picture_of, PlanesKept};

use crate::planes::Planes;
use raster::{Ink, Rule};

/// The words of a row: a 32nd of its width, rounded up.
pub(crate) fn stride(width: u16) -> usize
    ensures { result ≡ stride width }
{
    usize::from(width).div_ceil(32)
}

/// The word with its bit `k` set to `b`.
fn put_bit(word: u32, k: u16, b: u8) -> u32
    requires place { k < 32 }
    requires small { b < 2 }
    ensures here { bit result k ≡ b }
    ensures others { (j : ℕ) → j ≢ k → bit result j ≡ bit word j }
{
    let change = ((word >> k) & 1) ^ u32::from(b);
    word ^ (change << k)
}

/// Where the words of a row stand: the first in plane 0, how many words lie from plane to plane, and how many planes there are. What is asked of
/// the planes for a row is asked once: each word that is set might else be their size.
#[derive(Clone, Copy)]
pub(crate) struct Line {
    row: u16,
    first: usize,
    plane: usize,
    depth: u8,
}

// That a place is in the bitmap, and that a line is one of the bitmap's, stay preconditions: they speak of the place or the line and of the bitmap
// together, so no type of either can carry them.
impl Planes {
    /// Where the words of row `y` stand.
    pub(crate) fn line(&self, y: u16) -> Line
        ensures row { result.row ≡ y }
        ensures words { result ≡ line_of self.now.size result.row }
    {
        let stride = stride(self.size.width);
        Line {
            row: y,
            first: usize::from(y) * stride,
            plane: usize::from(self.size.height) * stride,
            depth: self.size.depth,
        }
    }

    /// The pixel `x` of a row.
    pub(crate) fn get(&self, line: Line, x: u16) -> u8
        requires line { line ≡ line_of self.now.size line.row }
        requires pixel { InBitmap self.now.size x line.row }
        ensures { result ≡ (picture_of self.now).at x line.row }
    {
        let mut v = 0;
        let mut i = line.first + usize::from(x / 32);
        for j in 0..line.depth {
            v += (((self.words[i] >> (31 - x % 32)) & 1) as u8) << j;
            i += line.plane;
        }
        v
    }

    /// Sets the pixel `x` of a row.
    pub(crate) fn put(&mut self, line: Line, x: u16, v: u8)
        requires line { line ≡ line_of self.old.size line.row }
        requires pixel { InBitmap self.old.size x line.row }
        requires small { v < 2 ^ self.old.size.depth }
        ensures after { picture_of self.new ≡ with_pixel (picture_of self.old) x line.row v }
        ensures rest { PlanesKept self.old self.new }
    {
        let mut i = line.first + usize::from(x / 32);
        for j in 0..line.depth {
            self.words[i] = put_bit(self.words[i], 31 - x % 32, (v >> j) & 1);
            i += line.plane;
        }
    }

    /// The source pixel of an ink in a row, at `x`.
    pub(crate) fn sample(&self, ink: Ink, line: Line, x: u16) -> u8
        requires line { line ≡ line_of self.now.size line.row }
        requires pixel { InBitmap self.now.size x line.row }
        ensures { result ≡ inked ink (picture_of self.now) x line.row }
    {
        match ink {
            Ink::Value(v) => v,
            Ink::Itself => self.get(line, x),
        }
    }

    /// Combines the pixel `x` of a row with a source pixel.
    #[tactic(auto, using(raster::proofs::Digits::combined_below))]
    pub(crate) fn touch(&mut self, line: Line, rule: Rule, s: u8, x: u16)
        requires line { line ≡ line_of self.old.size line.row }
        requires pixel { InBitmap self.old.size x line.row }
        ensures after { picture_of self.new ≡ with_pixel (picture_of self.old) x line.row (combined self.old.size.depth rule.number s ((picture_of self.old).at x line.row)) }
        ensures rest { PlanesKept self.old self.new }
    {
        let d = self.get(line, x);
        self.put(line, x, rule.combine(line.depth, s, d));
    }
}
