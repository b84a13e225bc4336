//! Rectangles, painted row by row in a working row.
ghost use Rattle.std.specs.Prelude.{◌≡◌, ℕ, ◌+◌, ◌^◌, ◌<◌, ◌≤◌, ◌&&◌, min, length, nat_eq, nat_lt, slice_index};
ghost use Rattle.raster.specs.Picture.{with_pixel};
ghost use Rattle.raster.specs.Blits.{Below, spans, inked, performed};
ghost use Rattle.raster.proofs.Paints.{row_painted};
ghost use Rattle.runrows.specs.Means.{picture_of, Blended, RowsRewritten};

use crate::runrows::RunRows;
use raster::{Blit, Ink, Rule, Span};

/// The most pixels that a row has. A working row is an array of so many, since no call takes heap memory.
const WIDEST: usize = 1024;

/// Combines the pixels of a span with those of a source row.
fn blend(out: &mut [u8], source: &[u8], depth: u8, rule: Rule, columns: Span)
    requires paints { columns.first + columns.len ≤ length out.old }
    requires reads { columns.source + columns.len ≤ length source.now }
    ensures { Blended (min depth 8) rule.number columns source.now out.old out.new }
{
    let first = usize::from(columns.first);
    let from = usize::from(columns.source);
    let len = usize::from(columns.len);
    let painted = &mut out[first..first + len];
    let source = &source[from..from + len];
    // `enumerate` over `iter_mut` is the adapter whose elements are known after the loop; after a `zip`, a proof knows their count alone.
    for (i, pixel) in painted.iter_mut().enumerate() {
        *pixel = rule.combine(depth, source[i], *pixel);
    }
}

// That a row or a blit's place is in the bitmap stays a precondition: it speaks of the place and of the bitmap together, so no type of either can carry it.
impl RunRows {
    /// The source pixels of an ink in row `y`.
    fn source(&self, ink: Ink, y: u16, out: &mut [u8])
        requires down { y < self.now.size.height }
        requires wide { length out.old ≡ self.now.size.width }
        ensures { (k : ℕ) → k < self.now.size.width → slice_index out.new k ≡ inked ink (picture_of self.now) k y }
    {
        match ink {
            Ink::Value(v) => out.fill(v),
            Ink::Itself => self.unpack(y, out),
        }
    }

    /// Paints the columns of a blit in the row `y`, from the row `sy`.
    fn paint_row(&mut self, blit: Blit, y: u16, sy: u16)
        requires columns { Below self.old.size.width blit.columns }
        requires row { y < self.old.size.height }
        requires from { sy < self.old.size.height }
        ensures after { picture_of self.new ≡ row_painted blit y sy (picture_of self.old) }
        ensures rest { RowsRewritten (λ b. nat_eq b y) self.old self.new }
    {
        let mut source = [0u8; WIDEST];
        let mut pixels = [0u8; WIDEST];
        let width = usize::from(self.size.width);
        let source = &mut source[..width];
        let pixels = &mut pixels[..width];
        self.source(blit.ink, sy, source);
        self.unpack(y, pixels);
        blend(pixels, source, self.size.depth, blit.rule, blit.columns);
        self.write_row(y, pixels);
    }

    /// Performs a blit.
    pub(crate) fn paint(&mut self, blit: Blit)
        requires columns { Below self.old.size.width blit.columns }
        requires rows { Below self.old.size.height blit.rows }
        ensures after { picture_of self.new ≡ performed blit (picture_of self.old) }
        ensures rest { RowsRewritten (λ b. spans blit.rows b && nat_lt 0 blit.columns.len) self.old self.new }
    {
        if blit.columns.len == 0 {
            return;
        }
        // By an index: the law of the order speaks of the turn's number (`turn` of raster/specs/Blits.antt), and both ends of the pair follow from it.
        for j in 0..blit.rows.len {
            let k = blit.rows.turn(j);
            self.paint_row(blit, blit.rows.first + k, blit.rows.source + k);
        }
    }

    /// Sets the pixel (x, y).
    pub(crate) fn put(&mut self, x: u16, y: u16, v: u8)
        requires across { x < self.old.size.width }
        requires down { y < self.old.size.height }
        requires small { v < 2 ^ self.old.size.depth }
        ensures after { picture_of self.new ≡ with_pixel (picture_of self.old) x y v }
        ensures rest { RowsRewritten (λ b. nat_eq b y) self.old self.new }
    {
        let mut pixels = [0u8; WIDEST];
        let pixels = &mut pixels[..usize::from(self.size.width)];
        self.unpack(y, pixels);
        pixels[x as usize] = v;
        self.write_row(y, pixels);
    }
}
