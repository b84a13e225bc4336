//! The phases by which a desk goes from one arrangement of layers to another.
#![tactic(auto)]

mod backing;
mod blanking;
mod laws;
mod painting;
mod stowing;
mod walk;

pub use backing::Backing;
pub use blanking::blank;
pub use laws::moving_laws;
pub use painting::repaint;
pub use stowing::stow;
