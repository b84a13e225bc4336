//! Planes: a bitmap in a list of 32-bit words, one plane for each bit of a pixel.
#![tactic(auto)]

mod calls;
mod laws;
mod make;
mod paint;
mod planes;
mod words;

pub use laws::planes_laws;
pub use planes::Planes;
