//! Run rows: a bitmap in a list of 16-bit entries, each row as runs of equal pixels.
#![tactic(auto)]

mod calls;
mod laws;
mod make;
mod paint;
mod reads;
mod runrows;
mod writes;

pub use laws::run_laws;
pub use runrows::RunRows;
