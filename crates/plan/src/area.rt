//! Areas of places.
ghost use Rattle.std.specs.Prelude.{◌≡◌, ◌<ℤ◌, pos, ◌+ℤ◌};
ghost use Rattle.plan.specs.Areas.{reaches, meets, within, on_screen};

use raster::{Rectangle, Size};

/// The places from left to right and from top to bottom, the right column and the bottom row not counted.
#[derive(Clone, Copy)]
pub(crate) struct Area {
    pub(crate) left: i32,
    pub(crate) top: i32,
    pub(crate) right: i32,
    pub(crate) bottom: i32,
}

/// Whether one of the `n` numbers from `from` on lies from `a` up to `b`, where a < b.
fn reaches(from: i16, n: u16, a: i32, b: i32) -> bool
    ensures { result ≡ reaches from n a b }
{
    if n == 0 {
        return false;
    }
    (from as i32) < b && a < from as i32 + n as i32
}

/// Whether the numbers from `a` up to `b` are all among the first `n`.
fn within(a: i32, b: i32, n: u16) -> bool
    ensures { result ≡ within a b n }
{
    0 <= a && b <= n as i32
}

impl Area {
    /// The area of one place.
    pub(crate) fn of_place(x: i32, y: i32) -> Area
        requires column { x <ℤ pos 65536 }
        requires row { y <ℤ pos 65536 }
        ensures { result ≡ record { left = x; top = y; right = x +ℤ pos 1; bottom = y +ℤ pos 1 } }
    {
        Area {
            left: x,
            top: y,
            right: x + 1,
            bottom: y + 1,
        }
    }

    /// Whether a rectangle has a place in the area.
    pub(crate) fn meets(self, frame: Rectangle) -> bool
        ensures { result ≡ meets frame.x frame.y frame.w frame.h self.left self.top self.right self.bottom }
    {
        reaches(frame.x, frame.w, self.left, self.right)
            && reaches(frame.y, frame.h, self.top, self.bottom)
    }

    /// Whether the area lies on a screen as a whole.
    pub(crate) fn is_on(self, screen: Size) -> bool
        ensures { result ≡ on_screen screen self.left self.top self.right self.bottom }
    {
        within(self.left, self.right, screen.width) && within(self.top, self.bottom, screen.height)
    }
}
