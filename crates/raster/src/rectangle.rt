//! Rectangles of places.
ghost use Rattle.std.specs.Prelude.{◌≡◌};

/// The places from the corner (x, y) up to, not including, x + w, and likewise downward. The sums count in full.
#[derive(Clone, Copy, PartialEq, Eq, Debug, Default)]
pub struct Rectangle {
    pub x: i16,
    pub y: i16,
    pub w: u16,
    pub h: u16,
}

impl Rectangle {
    /// The rectangle at (x, y), w by h.
    pub fn new(x: i16, y: i16, w: u16, h: u16) -> Rectangle
        ensures { result ≡ record { x = x; y = y; w = w; h = h } }
    {
        Rectangle { x, y, w, h }
    }
}
