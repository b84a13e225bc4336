//! The type of planes.
ghost use Rattle.std.specs.Prelude.{vec_len};
ghost use Rattle.planes.specs.Layout.{Carried};

use raster::Size;

/// Plane j holds bit j of each pixel. A row has a word for each 32 pixels, the leftmost in its highest bit.
#[derive(Drop)]
pub struct Planes {
    pub(crate) words: Vec<u32>,
    pub(crate) size: Size,
    ghost carried: { Carried (vec_len words) size },
}
