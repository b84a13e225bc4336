//! What pixels are painted with.

/// The source of a painted pixel: one value everywhere, or the bitmap itself.
#[derive(Clone, Copy)]
pub enum Ink {
    Value(u8),
    Itself,
}
