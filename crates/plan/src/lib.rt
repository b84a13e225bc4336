//! Arrangements of layers, in plain numbers.
#![tactic(auto)]

mod area;
mod arrange;
mod ask;
mod change;
mod laws;
mod patch;
mod plan;
mod start;

pub use change::Change;
pub use laws::plan_laws;
pub use plan::Plan;
