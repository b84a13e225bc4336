//! Layers opened, closed, moved and put in another order.
ghost use Rattle.std.specs.Prelude.{◌≡◌, true, false, not, ◌&&◌, ◌||◌, [], ◌∷◌, ◌++◌, ◌==◌};
ghost use Rattle.paper.specs.Layers.{without, only, alter, at_corner};
ghost use Rattle.plan.specs.Frames.{has};
ghost use Rattle.plan.specs.Plans.{listed, layers_in, frame_in, outline};
ghost use Rattle.plan.specs.Arranged.{Arranged, SameFrames, OtherFrames, cornered, can_open};

use crate::plan::Plan;
use raster::Rectangle;

impl Plan {
    /// The arrangement without the client's layer.
    pub fn closed(&self, c: u8) -> Plan
        ensures arranged { Arranged self.now result (without c (layers_in self.now)) (λ d. has d (listed self.now) && not (c == d)) }
        ensures frames { SameFrames self.now result }
        ensures same { has c (listed self.now) ≡ false → result ≡ self.now }
    {
        let Some(gone) = self.position(c) else {
            return *self;
        };
        let mut plan = *self;
        plan.order[gone..].rotate_left(1);
        plan.count -= 1;
        plan
    }

    /// The arrangement with the client's layer on top.
    pub fn raised(&self, c: u8) -> Plan
        ensures arranged { Arranged self.now result (without c (layers_in self.now) ++ only c (layers_in self.now)) (λ d. has d (listed self.now)) }
        ensures frames { SameFrames self.now result }
        ensures same { has c (listed self.now) ≡ false → result ≡ self.now }
    {
        let Some(old) = self.position(c) else {
            return *self;
        };
        let mut plan = *self;
        plan.order[old..self.count as usize].rotate_left(1);
        plan
    }

    /// The arrangement with the client's layer at the bottom.
    pub fn lowered(&self, c: u8) -> Plan
        ensures arranged { Arranged self.now result (only c (layers_in self.now) ++ without c (layers_in self.now)) (λ d. has d (listed self.now)) }
        ensures frames { SameFrames self.now result }
        ensures same { has c (listed self.now) ≡ false → result ≡ self.now }
    {
        let Some(i) = self.position(c) else {
            return *self;
        };
        let mut plan = *self;
        plan.order[0..=i].rotate_right(1);
        plan
    }

    /// The arrangement with the client's layer at another corner.
    pub fn moved(&self, c: u8, x: i16, y: i16) -> Plan
        ensures arranged { Arranged self.now result (alter c (at_corner x y) (layers_in self.now)) (λ d. has d (listed self.now)) }
        ensures frames { OtherFrames c self.now result }
        ensures own { has c (listed self.now) ≡ true → frame_in result c ≡ cornered x y (frame_in self.now c) }
        ensures same { has c (listed self.now) ≡ false → result ≡ self.now }
    {
        if !self.is_open(c) {
            return *self;
        }
        let mut plan = *self;
        plan.frames[c as usize] = Rectangle {
            x,
            y,
            ..self.frame(c)
        };
        plan
    }

    /// Whether a layer of the client can be opened.
    fn can_open(&self, c: u8, frame: Rectangle) -> bool
        ensures { result ≡ can_open self.now c frame }
    {
        c < 8 && !self.is_open(c) && frame.w <= 320 && frame.h <= 240
    }

    /// The arrangement with a new layer on top.
    pub fn opened(&self, c: u8, frame: Rectangle) -> Plan
        ensures arranged { can_open self.now c frame ≡ true → Arranged self.now result (layers_in self.now ++ (outline c frame ∷ [])) (λ d. has d (listed self.now) || c == d) }
        ensures frames { OtherFrames c self.now result }
        ensures own { can_open self.now c frame ≡ true → frame_in result c ≡ frame }
        ensures same { can_open self.now c frame ≡ false → result ≡ self.now }
    {
        if !self.can_open(c, frame) {
            return *self;
        }
        let mut plan = *self;
        plan.order[self.count as usize] = c;
        plan.count += 1;
        plan.frames[c as usize] = frame;
        plan
    }
}
