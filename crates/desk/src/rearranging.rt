//! Going over to another arrangement: layers closed, raised and lowered.
ghost use Rattle.std.specs.Prelude.{◌≡◌};
ghost use Rattle.raster.specs.Picture.{sizes};
ghost use Rattle.raster.specs.Calls.{Unaltered};
ghost use Rattle.paper.specs.Desk.{Call, close_layer, raise_layer, lower_layer};
ghost use Rattle.paper.specs.Run.{Does};
ghost use Rattle.moving.specs.Phases.{Fitting};
ghost use Rattle.desk.specs.Desks.{state_of, Keeps, Performed};
ghost use Rattle.desk.specs.Moves.{done, Settled, StowedAll, repainted_all, Rearranges, Reorders};

use crate::book::Book;
use crate::desk::Desk;
use crate::passage::Passage;
use hold::Layout;
use moving::{repaint, stow};
use paper::DeskFault;
use plan::Plan;
use raster::{Bitmap, Rectangle};

/// Stows what shows in some areas.
fn stow_all<S: Bitmap, T: Bitmap>(
    screen: &S,
    store: &mut T,
    layout: Layout<'_>,
    areas: &[Rectangle],
)
    ensures keeps { T.Bitmap.keeps store.old store.new }
    ensures size { sizes (T.Bitmap.picture store.new) ≡ sizes (T.Bitmap.picture store.old) }
    ensures stows { Fitting (S.Bitmap.picture screen.now) (T.Bitmap.picture store.old) layout.entry.plan.now layout.entry.slots.now → StowedAll (S.Bitmap.picture screen.now) layout.entry.plan.now layout.entry.slots.now areas.now (T.Bitmap.picture store.old) (T.Bitmap.picture store.new) }
{
    for area in areas {
        stow(screen, store, layout, *area);
    }
}

/// Repaints some areas.
fn repaint_all<S: Bitmap, T: Bitmap>(
    screen: &mut S,
    store: &T,
    layout: Layout<'_>,
    areas: &[Rectangle],
)
    ensures keeps { S.Bitmap.keeps screen.old screen.new }
    ensures size { sizes (S.Bitmap.picture screen.new) ≡ sizes (S.Bitmap.picture screen.old) }
    ensures paints { Fitting (S.Bitmap.picture screen.old) (T.Bitmap.picture store.now) layout.entry.plan.now layout.entry.slots.now → S.Bitmap.picture screen.new ≡ repainted_all (T.Bitmap.picture store.now) layout.entry.plan.now layout.entry.slots.now areas.now (S.Bitmap.picture screen.old) }
{
    for area in areas {
        repaint(screen, store, layout, *area);
    }
}

impl<S: Bitmap, T: Bitmap> Desk<S, T> {
    /// Goes over to another arrangement: what shows in some areas is stowed, and the areas are repainted.
    pub(crate) fn rearrange(&mut self, passage: &Passage, areas: &[Rectangle])
        ensures book { Settled passage.now.after passage.now.slots self.new.book }
        ensures pixels { Rearranges self.old.book.plan passage.now.after passage.now.slots areas.now (S.Bitmap.picture self.old.screen) (T.Bitmap.picture self.old.store) (S.Bitmap.picture self.new.screen) (T.Bitmap.picture self.new.store) }
        ensures rest { Keeps S.Bitmap T.Bitmap self.old self.new }
    {
        let Book { plan, .. } = &self.book;
        let before = passage.before(plan);
        let later = passage.later();
        stow_all(&self.screen, &mut self.store, before, areas);
        repaint_all(&mut self.screen, &self.store, later, areas);
        self.book = passage.settled();
    }

    /// Puts the client's layer where another order has it.
    fn reorder(&mut self, c: u8, after: Plan) -> Result<(), DeskFault>
        ensures does { (k : Call) → Reorders self.old.book.plan after c k → Does (state_of S.Bitmap T.Bitmap self.old) k (done result) (state_of S.Bitmap T.Bitmap self.new) }
        ensures rest { Keeps S.Bitmap T.Bitmap self.old self.new }
        ensures refused { Unaltered (done result) self.old self.new }
    {
        self.check_open(c)?;
        let passage = self.book.passage(c, after, None)?;
        let area = self.book.plan.frame(c);
        self.rearrange(&passage, &[area]);
        Ok(())
    }

    /// Puts the client's layer on top.
    pub fn raise(&mut self, c: u8) -> Result<(), DeskFault>
        ensures { Performed S.Bitmap T.Bitmap self.old (raise_layer c) (done result) self.new }
    {
        let after = self.book.plan.raised(c);
        self.reorder(c, after)
    }

    /// Puts the client's layer below all others.
    pub fn lower(&mut self, c: u8) -> Result<(), DeskFault>
        ensures { Performed S.Bitmap T.Bitmap self.old (lower_layer c) (done result) self.new }
    {
        let after = self.book.plan.lowered(c);
        self.reorder(c, after)
    }

    /// Takes the client's layer away; what it covered shows.
    pub fn close(&mut self, c: u8) -> Result<(), DeskFault>
        ensures { Performed S.Bitmap T.Bitmap self.old (close_layer c) (done result) self.new }
    {
        self.check_open(c)?;
        let after = self.book.plan.closed(c);
        let slots = self.book.slots;
        let area = self.book.plan.frame(c);
        self.rearrange(&Passage { after, slots }, &[area]);
        Ok(())
    }
}
