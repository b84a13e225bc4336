//! The arrangement without layers.
ghost use Rattle.std.specs.Prelude.{◌≡◌, []};
ghost use Rattle.plan.specs.Plans.{listed};

use crate::plan::Plan;
use raster::{Rectangle, Size};

impl Plan {
    /// No layers, on a screen of a size.
    pub fn new(screen: Size) -> Plan
        ensures layers { listed result ≡ [] }
        ensures screen { result.screen ≡ screen }
    {
        Plan {
            screen,
            count: 0,
            order: [0; 8],
            frames: [Rectangle::default(); 8],
        }
    }

    /// The size of the screen.
    pub fn screen(&self) -> Size
        ensures { result ≡ self.now.screen }
    {
        self.screen
    }
}
