//! Questions about an arrangement.
ghost use Rattle.std.specs.Prelude.{◌≡◌, ◌&&◌, pos, ◌+ℤ◌, if◌then◌else◌, Some, None, nat_lt, unsigned_abs, ◌==◌, position};
ghost use Rattle.raster.specs.Blt.{holds};
ghost use Rattle.paper.specs.Layers.{topmost};
ghost use Rattle.paper.specs.Desk.{client_if};
ghost use Rattle.plan.specs.Frames.{has};
ghost use Rattle.plan.specs.Plans.{listed, layers_in, frame_in, outlines, above, seen, hidden_patch};
ghost use Rattle.plan.specs.Areas.{met, hidden_area};

use crate::area::Area;
use crate::patch::corner;
use crate::plan::Plan;
use raster::{Rectangle, below};

impl Plan {
    /// The clients with an open layer, from bottom to top.
    pub(crate) fn clients(&self) -> &[u8]
        ensures { result.now ≡ listed self.now }
    {
        &self.order[..self.count as usize]
    }

    /// Whether the client has an open layer.
    pub fn is_open(&self, c: u8) -> bool
        ensures { result ≡ has c (listed self.now) }
    {
        self.clients().contains(&c)
    }

    /// Where the client stands in the order, if its layer is open.
    pub(crate) fn position(&self, c: u8) -> Option<usize>
        ensures { result ≡ position (λ d. d == c) (listed self.now) }
    {
        self.clients().iter().position(|d| *d == c)
    }

    /// The frame of the client's layer.
    pub fn frame(&self, c: u8) -> Rectangle
        ensures { result ≡ frame_in self.now c }
    {
        self.frames.get(c as usize).copied().unwrap_or_default()
    }

    /// The clients above a client, from bottom to top: none, if its layer is not open.
    fn above(&self, c: u8) -> &[u8]
        ensures { outlines result.now self.now.frames ≡ above c (layers_in self.now) }
    {
        match self.position(c) {
            Some(i) => &self.clients()[i + 1..],
            None => &[],
        }
    }

    /// Whether a layer above the client's has a place in an area.
    fn meets_above(&self, c: u8, area: Area) -> bool
        ensures { result ≡ met (above c (layers_in self.now)) area.left area.top area.right area.bottom }
    {
        self.above(c).iter().any(|d| area.meets(self.frame(*d)))
    }

    /// The screen place of the pixel (u, v) of the client's layer, if it is visible.
    pub fn sees(&self, c: u8, u: u16, v: u16) -> Option<(u16, u16)>
        ensures { result ≡ (if seen self.now c u v then Some (unsigned_abs ((frame_in self.now c).x +ℤ pos u), unsigned_abs ((frame_in self.now c).y +ℤ pos v)) else None) }
    {
        let frame = self.frame(c);
        let x = below(frame.x as i32 + u as i32, self.screen.width)?;
        let y = below(frame.y as i32 + v as i32, self.screen.height)?;
        if self.meets_above(c, Area::of_place(x as i32, y as i32)) {
            None
        } else {
            Some((x, y))
        }
    }

    /// The client whose layer is topmost at a place.
    pub fn top(&self, x: i16, y: i16) -> Option<u8>
        ensures { result ≡ client_if (topmost (layers_in self.now) x y) }
    {
        let place = Area::of_place(x as i32, y as i32);
        self.clients()
            .iter()
            .rev()
            .find(|d| place.meets(self.frame(**d)))
            .copied()
    }

    /// Whether the patch at the pixel (u, v) of the client's layer has a pixel that is not visible.
    fn hides_area(&self, c: u8, u: u16, v: u16) -> bool
        ensures { result ≡ hidden_area self.now.screen (above c (layers_in self.now)) (frame_in self.now c) u v }
    {
        let frame = self.frame(c);
        if u >= frame.w || v >= frame.h {
            return false;
        }
        let area = Area {
            left: frame.x as i32 + u as i32,
            top: frame.y as i32 + v as i32,
            right: frame.x as i32 + (u + 16).min(frame.w) as i32,
            bottom: frame.y as i32 + (v + 16).min(frame.h) as i32,
        };
        !area.is_on(self.screen) || self.meets_above(c, area)
    }

    /// Whether a patch is hidden.
    pub fn hides(&self, patch: u16) -> bool
        ensures { result ≡ (nat_lt patch 2400 && hidden_patch self.now patch) }
    {
        if patch >= 2400 {
            return false;
        }
        let (c, u, v) = corner(patch);
        self.is_open(c) && self.hides_area(c, u, v)
    }
}
