//! A client's layer of a desk as a bitmap.
#![tactic(auto)]

mod calls;
mod pane;

pub use pane::Pane;
