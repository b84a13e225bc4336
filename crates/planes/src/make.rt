//! How planes are made, and how their list is given back.
ghost use Rattle.std.specs.Prelude.{◌≡◌, vec_len};
ghost use Rattle.planes.specs.Layout.{laid_out, made_size};
ghost use Rattle.planes.specs.Means.{words_of, picture_of};

use crate::planes::Planes;
use crate::words::stride;
use raster::{Size, rows_carried};

impl Planes {
    /// Takes a list as it is. Width and height are cut to 1,024 and the height to what the list carries; the depth is brought into 1 to 4.
    pub fn new(words: Vec<u32>, width: u16, height: u16, depth: u8) -> Planes
        ensures picture { picture_of result ≡ laid_out words.items (made_size (vec_len words) width height depth) }
        ensures words { words_of result ≡ words.items }
    {
        let size = Size::capped(width, height, depth);
        let row = stride(size.width) * usize::from(size.depth);
        let height = rows_carried(words.len(), row, size.height);
        Planes {
            words,
            size: Size { height, ..size },
        }
    }

    /// Gives the list back.
    pub fn into_words(self) -> Vec<u32>
        ensures { result.items ≡ words_of self }
    {
        self.words
    }
}
