//! Calls of a desk, as they are written down and performed.
use desk::Desk;
use paper::DeskFault;
use raster::{Bitmap, Rectangle, Transfer};
use std::fmt;

/// A call with its arguments, in the order in which they are printed.
#[derive(Clone, Copy)]
pub(crate) enum Call {
    Open(u8, Rectangle),
    Close(u8),
    Raise(u8),
    Lower(u8),
    Move(u8, i16, i16),
    Fill(u8, u8, u8, Rectangle),
    Scroll(u8, Transfer),
    Read(u8, i16, i16),
    Top(i16, i16),
    Slots,
}

impl fmt::Display for Call {
    fn fmt<W: fmt::Write>(&self, f: &mut fmt::Formatter<W>) -> fmt::Result {
        match self {
            Call::Open(c, Rectangle { x, y, w, h }) => write!(f, "open {c} {x} {y} {w} {h}"),
            Call::Close(c) => write!(f, "close {c}"),
            Call::Raise(c) => write!(f, "raise {c}"),
            Call::Lower(c) => write!(f, "lower {c}"),
            Call::Move(c, x, y) => write!(f, "move {c} {x} {y}"),
            Call::Fill(c, rule, v, Rectangle { x, y, w, h }) => {
                write!(f, "fill {c} {rule} {v} {x} {y} {w} {h}")
            }
            Call::Scroll(
                c,
                Transfer {
                    rule,
                    sx,
                    sy,
                    dx,
                    dy,
                    w,
                    h,
                },
            ) => { write!(f, "scroll {c} {rule} {sx} {sy} {dx} {dy} {w} {h}") }
            Call::Read(c, x, y) => write!(f, "read {c} {x} {y}"),
            Call::Top(x, y) => write!(f, "top {x} {y}"),
            Call::Slots => write!(f, "slots"),
        }
    }
}

impl Call {
    /// Performs the call: its answer as a number, as the output has it. That of top is the client + 1, or 0; that of slots, the slots in use.
    pub(crate) fn perform<S: Bitmap, T: Bitmap>(
        self,
        desk: &mut Desk<S, T>,
    ) -> Result<u32, DeskFault> {
        match self {
            Call::Open(c, frame) => desk.open(c, frame).map(|()| 0),
            Call::Close(c) => desk.close(c).map(|()| 0),
            Call::Raise(c) => desk.raise(c).map(|()| 0),
            Call::Lower(c) => desk.lower(c).map(|()| 0),
            Call::Move(c, x, y) => desk.move_to(c, x, y).map(|()| 0),
            Call::Fill(c, rule, v, area) => desk.fill(c, rule, v, area),
            Call::Scroll(c, transfer) => desk.scroll(c, transfer),
            Call::Read(c, x, y) => desk.read(c, x, y).map(u32::from),
            Call::Top(x, y) => Ok(desk.top(x, y)?.map_or(0, |c| u32::from(c) + 1)),
            Call::Slots => Ok(u32::from(desk.slots().0)),
        }
    }
}
