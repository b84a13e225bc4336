//! The places of an area of the screen, one after the other.
ghost use Rattle.std.specs.Prelude.{◌≡◌, ℕ, ◌+◌, ◌-◌, ◌*◌, ◌^◌};
ghost use Rattle.std.specs.Iterator.{at_most};
ghost use Rattle.moving.specs.Phases.{ahead, on_screen, Gives};

use raster::{Clip, Rectangle, Size};

/// The places of a rectangle that are still ahead: those of the row `y` from `x` on, and the rows after it.
#[derive(Drop)]
pub(crate) struct Places {
    left: u16,
    right: u16,
    bottom: u16,
    x: u16,
    y: u16,
}

impl Places {
    /// The places of an area on a screen of a size.
    pub(crate) fn new(size: Size, area: Rectangle) -> Self
        ensures { (x y : ℕ) → ahead result x y ≡ on_screen size area x y }
    {
        let Clip { columns, rows } = area.clip(size);
        Places {
            left: columns.first,
            right: columns.first + columns.len,
            bottom: rows.first + rows.len,
            x: columns.first,
            y: rows.first,
        }
    }
}

impl Iterator for Places {
    type Item = (u16, u16);

    ghost next_gives = { Gives };

    ghost remaining = { λ s. at_most ((s.bottom - s.y) * 2 ^ 16 + (s.right - s.x)) };

    fn next(&mut self) -> Option<(u16, u16)> {
        if self.x >= self.right {
            self.x = self.left;
            self.y = self.y.saturating_add(1);
        }
        if self.x >= self.right || self.y >= self.bottom {
            return None;
        }
        let place = (self.x, self.y);
        self.x += 1;
        Some(place)
    }
}
