//! One axis of a BitBlt, cut to the bitmaps.
ghost use Rattle.std.specs.Prelude.{◌≡◌};
ghost use Rattle.raster.specs.Blits.{turn};
ghost use Rattle.raster.specs.Clip.{Clipped};

/// The destination coordinates concerned are the `len` from `first`; their source coordinates are the `len` from `source`.
#[derive(Clone, Copy, Default)]
pub struct Span {
    pub first: u16,
    pub source: u16,
    pub len: u16,
}

impl Span {
    /// Cuts `n` coordinates from `d`, taken from those from `s`, to the sizes of source and destination.
    pub fn clip(s: i16, d: i16, n: u16, source: u16, dest: u16) -> Span
        ensures { Clipped s d n source dest result }
    {
        // counted from -32,768, so that none is negative
        let s = u32::from(s.abs_diff(i16::MIN));
        let d = u32::from(d.abs_diff(i16::MIN));
        let low = d.saturating_sub(32768).max(d.saturating_sub(s));
        let past = (d + u32::from(n)).saturating_sub(32768);
        let high = (d + u32::from(source))
            .saturating_sub(s)
            .min(past)
            .min(u32::from(dest));
        if low < high {
            Span {
                first: low as u16,
                source: (low + s - d) as u16,
                len: (high - low) as u16,
            }
        } else {
            Span::default()
        }
    }

    /// The place in the span that is painted at turn `i`, such that nothing is read after it is painted.
    pub fn turn(self, i: u16) -> u16
        ensures { result ≡ turn self i }
    {
        if self.source < self.first {
            self.len.saturating_sub(1).saturating_sub(i)
        } else {
            i
        }
    }
}
