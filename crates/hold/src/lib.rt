//! Where the pixels of layers lie: visible ones on the screen, the others in slots of the store.
#![tactic(auto)]

mod find;
mod layer;
mod single;
mod spot;

pub use find::{patch, slot_corner};
pub use layer::{Layer, Layout, masked};
pub use single::{coordinate, pixel, set_pixel};
pub use spot::Spot;
