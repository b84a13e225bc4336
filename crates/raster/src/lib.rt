//! Bitmaps: the sixteen rules, BitBlt, and what every kind of bitmap offers.
#![tactic(auto)]

mod bitmap;
mod blit;
mod clip;
mod fault;
mod ink;
mod laws;
mod rectangle;
mod refusal;
mod row;
mod rows;
mod rule;
mod size;
mod span;
mod transfer;

pub use bitmap::Bitmap;
pub use blit::Blit;
pub use clip::Clip;
pub use fault::Fault;
pub use ink::Ink;
pub use laws::bitmap_laws;
pub use rectangle::Rectangle;
pub use refusal::Refusal;
pub use row::Row;
pub use rows::rows_carried;
pub use rule::{Rule, SOURCE};
pub use size::{Size, below};
pub use span::Span;
pub use transfer::Transfer;
