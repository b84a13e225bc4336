//! The type of desks.
use crate::book::Book;
use raster::Bitmap;

/// A screen, a store, and the book of the layers whose pixels lie on them: visible ones on the screen, the others in slots of the store.
#[derive(Drop)]
pub struct Desk<S: Bitmap, T: Bitmap> {
    pub(crate) screen: S,
    pub(crate) store: T,
    pub(crate) book: Book,
}
