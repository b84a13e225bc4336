//! The type of run rows.
ghost use Rattle.std.specs.Prelude.{vec_len};
ghost use Rattle.runrows.specs.Runs.{Carried};

use raster::Size;

/// Row y has the `width` entries from y * width. An entry is a run's length times 16, and its value.
#[derive(Drop)]
pub struct RunRows {
    pub(crate) entries: Vec<u16>,
    pub(crate) size: Size,
    ghost carried: { Carried (vec_len entries) size },
}
