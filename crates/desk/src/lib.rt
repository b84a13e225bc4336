//! The desk: layers that overlap on a screen, what is covered kept in a store.
#![tactic(auto)]

mod ask;
mod book;
mod desk;
mod drawing;
mod faults;
mod moves;
mod opening;
mod passage;
mod read;
mod rearranging;
mod stamping;

pub use book::Book;
pub use desk::Desk;
