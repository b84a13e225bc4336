//! The type of panes.
ghost use Rattle.std.specs.Prelude.{◌≡◌};

use desk::Desk;
use raster::Bitmap;

/// A desk, seen as one client's layer: a bitmap of the layer's size, 0 by 0 if the client has no open layer.
#[derive(Drop)]
pub struct Pane<S: Bitmap, T: Bitmap> {
    pub(crate) desk: Desk<S, T>,
    pub(crate) client: u8,
}

impl<S: Bitmap, T: Bitmap> Pane<S, T> {
    /// The pane of a client on a desk.
    pub fn new(desk: Desk<S, T>, client: u8) -> Pane<S, T>
        ensures { result ≡ record { desk = desk; client = client } }
    {
        Pane { desk, client }
    }

    /// The desk that the pane is on, with what was drawn.
    pub fn into_desk(self) -> Desk<S, T>
        ensures { result ≡ self.desk }
    {
        self.desk
    }
}
