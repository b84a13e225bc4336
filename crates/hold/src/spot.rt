//! Where a pixel lies.

/// A place on the screen, or in the store.
#[derive(Clone, Copy)]
pub enum Spot {
    Screen(u16, u16),
    Store(u16, u16),
}
