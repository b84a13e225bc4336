//! The type of arrangements.
ghost use Rattle.std.specs.Prelude.{◌≡◌, ℕ, ◌<◌, ◌≤◌, true, length, take, slice_index, slice_index_or};
ghost use Rattle.plan.specs.Frames.{no_frame, distinct};

use raster::{Rectangle, Size};

/// An arrangement of layers on a screen: the clients with an open layer from bottom to top, and the frame of each client's layer.
/// The order is an array with its length, and no `ArrayVec`, which is not `Copy` and whose clone can fail: an arrangement is copied, and no change of it fails.
#[derive(Clone, Copy)]
pub struct Plan {
    pub(crate) screen: Size,
    pub(crate) count: u8,
    pub(crate) order: [u8; 8],
    pub(crate) frames: [Rectangle; 8],
    ghost long: { length frames ≡ 8 },
    ghost few: { count ≤ 8 },
    ghost low: { (k : ℕ) → slice_index order k < 8 },
    ghost once: { distinct (take count order) ≡ true },
    ghost narrow: { (c : ℕ) → (slice_index_or frames c no_frame).w ≤ 320 },
    ghost short: { (c : ℕ) → (slice_index_or frames c no_frame).h ≤ 240 },
}
