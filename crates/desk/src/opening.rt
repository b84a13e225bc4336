//! Making a desk, opening a layer, and taking a desk apart.
ghost use Rattle.std.specs.Prelude.{◌≡◌, true, [], ◌∷◌};
ghost use Rattle.raster.specs.Calls.{unless, first_fault};
ghost use Rattle.raster.specs.Picture.{sizes};
ghost use Rattle.raster.specs.declared.size.Size.{Size};
ghost use Rattle.paper.specs.Slots.{slots_of};
ghost use Rattle.paper.specs.Desk.{no_client, already_open, beyond_size, open_layer, slots_answer};
ghost use Rattle.paper.specs.Run.{new_state};
ghost use Rattle.desk.specs.Desks.{made_for, on_pictures, on_paper, state_of, Performed};
ghost use Rattle.desk.specs.Moves.{done, Fresh};

use crate::ask::slots_there;
use crate::book::Book;
use crate::desk::Desk;
use crate::faults::{because, check_client};
use moving::{blank, stow};
use paper::DeskFault;
use plan::Plan;
use raster::{Bitmap, Rectangle, Refusal, SOURCE, Size};
use slots::Slots;

impl Book {
    /// The book of a new desk, with a screen of a size and a number of slots.
    fn fresh(screen: Size, places: u16) -> Book
        ensures { Fresh screen places result }
    {
        Book {
            plan: Plan::new(screen),
            slots: Slots::none(places),
        }
    }
}

impl<S: Bitmap, T: Bitmap> Desk<S, T> {
    /// A desk without layers; the screen is 0 everywhere.
    pub fn new(mut screen: S, store: T) -> Desk<S, T>
        ensures state { state_of S.Bitmap T.Bitmap result ≡ new_state (sizes (S.Bitmap.picture screen)) (slots_of (sizes (T.Bitmap.picture store)) (S.Bitmap.picture screen).depth) }
        ensures screen { S.Bitmap.keeps screen result.screen }
        ensures store { result.store ≡ store }
    {
        let size = screen.size();
        let all = Rectangle::new(0, 0, size.width, size.height);
        let _ = screen.fill(SOURCE, 0, all);
        let places = slots_there(store.size(), size.depth);
        Desk {
            screen,
            store,
            book: Book::fresh(size, places),
        }
    }

    /// Both bitmaps, the screen as it shows.
    pub fn dismantle(self) -> (S, T)
        ensures { result ≡ (self.screen, self.store) }
    {
        (self.screen, self.store)
    }

    /// The slots in use, and the slots there are.
    pub fn slots(&self) -> (u16, u16)
        ensures { result ≡ slots_answer (on_paper S.Bitmap T.Bitmap self.now) }
    {
        let places = slots_there(self.store.size(), self.screen.size().depth);
        if self.fits() {
            (self.book.slots.used(), places)
        } else {
            (0, places)
        }
    }

    /// Refuses a client above 7, one that has an open layer, and a size beyond 1 to 320 by 1 to 240.
    fn check_new(&self, c: u8, w: u16, h: u16) -> Result<(), DeskFault>
        ensures { result ≡ unless (first_fault (no_client c ∷ already_open c (on_paper S.Bitmap T.Bitmap self.now) ∷ beyond_size c w h ∷ [])) tt }
    {
        check_client(c)?;
        if self.is_open(c) {
            return Err(because(Refusal::AlreadyOpen, c));
        }
        if w == 0 || w > 320 || h == 0 || h > 240 {
            return Err(because(Refusal::OpenBeyondSize, c));
        }
        Ok(())
    }

    /// The book, or that of a new desk if it was made for bitmaps of other sizes.
    fn current(&self) -> Book
        ensures fits { made_for (S.Bitmap.picture self.now.screen) (T.Bitmap.picture self.now.store) result ≡ true }
        ensures same { on_pictures (S.Bitmap.picture self.now.screen) (T.Bitmap.picture self.now.store) result ≡ on_paper S.Bitmap T.Bitmap self.now }
    {
        if self.fits() {
            return self.book;
        }
        let size = self.screen.size();
        Book::fresh(size, slots_there(self.store.size(), size.depth))
    }

    /// Opens a layer of the client on top of all others, 0 everywhere.
    pub fn open(&mut self, c: u8, frame: Rectangle) -> Result<(), DeskFault>
        ensures { Performed S.Bitmap T.Bitmap self.old (open_layer c frame.x frame.y frame.w frame.h) (done result) self.new }
    {
        self.check_new(c, frame.w, frame.h)?;
        let book = self.current();
        let after = book.plan.opened(c, frame);
        let passage = book.passage(c, after, None)?;
        let before = passage.before(&book.plan);
        stow(&self.screen, &mut self.store, before, frame);
        blank(&mut self.store, &passage.slots, c);
        let _ = self.screen.fill(SOURCE, 0, frame);
        self.book = passage.settled();
        Ok(())
    }
}
