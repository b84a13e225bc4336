//! Questions about a desk, and the checks that calls share.
ghost use Rattle.std.specs.Prelude.{◌≡◌, ◌≤◌, ◌&&◌, [], ◌∷◌};
ghost use Rattle.raster.specs.Calls.{unless, first_fault};
ghost use Rattle.raster.specs.Picture.{sizes};
ghost use Rattle.paper.specs.Layers.{is_open, pane};
ghost use Rattle.paper.specs.Slots.{slots_of};
ghost use Rattle.paper.specs.Desk.{no_client, not_open, top_answer};
ghost use Rattle.desk.specs.Desks.{made_for, on_paper};

use crate::desk::Desk;
use crate::faults::{because, check_client, unnamed};
use paper::DeskFault;
use raster::{Bitmap, Refusal, Size};

/// How many slots a store has for a screen of a depth.
pub(crate) fn slots_there(store: Size, depth: u8) -> u16
    requires wide { store.width ≤ 1024 }
    requires high { store.height ≤ 1024 }
    ensures { result ≡ slots_of store depth }
{
    if store.depth < depth {
        return 0;
    }
    (store.width / 16) * (store.height / 16)
}

impl<S: Bitmap, T: Bitmap> Desk<S, T> {
    /// Whether the book was made for the store and the screen, where the screen is of a size.
    fn suits(&self, screen: Size) -> bool
        ensures { screen ≡ sizes (S.Bitmap.picture self.now.screen) → result ≡ made_for (S.Bitmap.picture self.now.screen) (T.Bitmap.picture self.now.store) self.now.book }
    {
        let slots = slots_there(self.store.size(), screen.depth);
        self.book.plan.screen() == screen && self.book.slots.places() == slots
    }

    /// Whether the book was made for the screen and the store.
    pub(crate) fn fits(&self) -> bool
        ensures { result ≡ made_for (S.Bitmap.picture self.now.screen) (T.Bitmap.picture self.now.store) self.now.book }
    {
        self.suits(self.screen.size())
    }

    /// Whether the client has an open layer, where the screen is of a size.
    fn open_on(&self, screen: Size, c: u8) -> bool
        ensures { screen ≡ sizes (S.Bitmap.picture self.now.screen) → result ≡ is_open c (on_paper S.Bitmap T.Bitmap self.now) }
    {
        self.suits(screen) && self.book.plan.is_open(c)
    }

    /// Whether the client has an open layer.
    pub(crate) fn is_open(&self, c: u8) -> bool
        ensures { result ≡ is_open c (on_paper S.Bitmap T.Bitmap self.now) }
    {
        self.open_on(self.screen.size(), c)
    }

    /// Refuses a client above 7, and one that has no open layer.
    pub(crate) fn check_open(&self, c: u8) -> Result<(), DeskFault>
        ensures { result ≡ unless (first_fault (no_client c ∷ not_open c (on_paper S.Bitmap T.Bitmap self.now) ∷ [])) tt }
    {
        check_client(c)?;
        if !self.is_open(c) {
            return Err(because(Refusal::NotOpen, c));
        }
        Ok(())
    }

    /// The size of the client's pane: its layer's, or 0 by 0 at the desk's depth if it has none.
    pub fn pane_size(&self, c: u8) -> Size
        ensures { result ≡ sizes (pane c (on_paper S.Bitmap T.Bitmap self.now)) }
    {
        let screen = self.screen.size(); // asked once, since a screen may be a pane, which asks the desk below
        if !self.open_on(screen, c) {
            return Size {
                width: 0,
                height: 0,
                ..screen
            };
        }
        let frame = self.book.plan.frame(c);
        Size {
            width: frame.w,
            height: frame.h,
            ..screen
        }
    }

    /// The client whose layer is topmost at a screen place, or none.
    pub fn top(&self, x: i16, y: i16) -> Result<Option<u8>, DeskFault>
        ensures { result ≡ top_answer (on_paper S.Bitmap T.Bitmap self.now) x y }
    {
        let screen = self.screen.size();
        screen
            .read_place(x, y)
            .map_err(|_| unnamed(Refusal::OutsideBitmap))?;
        if !self.suits(screen) {
            return Ok(None);
        }
        Ok(self.book.plan.top(x, y))
    }
}
