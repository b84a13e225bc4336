//! How run rows are made, and how their list is given back.
ghost use Rattle.std.specs.Prelude.{◌≡◌, vec_len};
ghost use Rattle.runrows.specs.Runs.{run_rows, made_size};
ghost use Rattle.runrows.specs.Means.{entries_of, picture_of};

use crate::runrows::RunRows;
use raster::{Size, rows_carried};

impl RunRows {
    /// Takes a list as it is. Width and height are cut to 1,024 and the height to what the list carries; the depth is brought into 1 to 4.
    pub fn new(entries: Vec<u16>, width: u16, height: u16, depth: u8) -> RunRows
        ensures picture { picture_of result ≡ run_rows entries.items (made_size (vec_len entries) width height depth) }
        ensures entries { entries_of result ≡ entries.items }
    {
        let size = Size::capped(width, height, depth);
        let height = rows_carried(entries.len(), usize::from(size.width), size.height);
        RunRows {
            entries,
            size: Size { height, ..size },
        }
    }

    /// Gives the list back.
    pub fn into_entries(self) -> Vec<u16>
        ensures { result.items ≡ entries_of self }
    {
        self.entries
    }
}
