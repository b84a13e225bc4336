//! What a BitBlt is told.

/// What BitBlt is told besides its source and destination: the rule, the source corner (sx, sy), the destination corner (dx, dy), and the size.
#[derive(Clone, Copy, PartialEq, Eq, Debug)]
pub struct Transfer {
    pub rule: u8,
    pub sx: i16,
    pub sy: i16,
    pub dx: i16,
    pub dy: i16,
    pub w: u16,
    pub h: u16,
}
