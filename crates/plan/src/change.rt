//! The patches of a layer, and changes of the arrangement with the patches that need a slot for their time.
ghost use Rattle.std.specs.Prelude.{◌≡◌, ◌&&◌, nat_lt};
ghost use Rattle.plan.specs.Plans.{patch_of, needs};

use crate::patch::corner;
use crate::plan::Plan;

impl Plan {
    /// Whether a patch is one of the client's layer.
    pub fn has_patch(&self, c: u8, patch: u16) -> bool
        ensures { result ≡ patch_of self.now c patch }
    {
        let (client, u, v) = corner(patch);
        let frame = self.frame(c);
        self.is_open(c) && client == c && u < frame.w && v < frame.h
    }
}

/// One arrangement becomes another, and the client whose layer is moved, if there is one.
#[derive(Clone, Copy)]
pub struct Change<'a> {
    pub before: &'a Plan,
    pub after: &'a Plan,
    pub moved: Option<u8>,
}

impl Change<'_> {
    /// Whether a patch needs a slot while the change lasts.
    pub fn needs(&self, patch: u16) -> bool
        ensures { result ≡ (nat_lt patch 2400 && needs self.now.before.now self.now.after.now self.now.moved patch) }
    {
        patch < 2400
            && (self.before.hides(patch)
                || self.after.hides(patch)
                || self.moved.is_some_and(|c| self.after.has_patch(c, patch)))
    }
}
