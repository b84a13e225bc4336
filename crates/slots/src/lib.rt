//! Tables of slots: which slot of a store each patch has, in plain numbers.
#![tactic(auto)]

mod block;
mod single;
mod slots;
mod start;
mod tables;
mod walk;
mod wanted;

pub use slots::Slots;
