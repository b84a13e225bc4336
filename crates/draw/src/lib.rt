//! Drawing on layers: rectangles painted and bitmaps stamped, pixel by pixel where they lie.
#![tactic(auto)]

mod blending;
mod calls;
mod source;
mod touch;

pub use calls::{paint, stamp};
