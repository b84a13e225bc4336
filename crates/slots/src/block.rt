//! Patches of a layer that an area meets.
ghost use Rattle.std.specs.Prelude.{◌≡◌, ℕ, ◌+◌, ◌*◌, ◌/◌, ◌<◌, ◌≤◌, true};
ghost use Rattle.slots.specs.Blocks.{past, in_block, Reached, InFrame, patch_met};

use raster::Rectangle;
use std::ops::Range;

/// Patches of the table in some columns and rows of a layer: the number of the first, and how many columns and rows there are.
#[derive(Clone, Copy)]
pub(crate) struct Block {
    pub first: u16,
    pub columns: u16,
    pub rows: u16,
    ghost inside: { (j : ℕ) → j < rows → first + 20 * j + columns ≤ 2400 },
}

/// How far the place `n` past `z` lies past a corner; 0 if it does not.
fn past(z: i16, n: u16, corner: i16) -> u32
    ensures { result ≡ past z n corner }
{
    let far = i32::from(z) + i32::from(n) - i32::from(corner);
    far.max(0) as u32
}

// That `n` is at most 320 stays a precondition: it is a side of a layer, which arrangements keep to that size, and a type for it would be made
// and opened at each call.
/// The patches along an axis, of `n` pixels from `x` on, that have one of the `m` places from `y` on.
fn along(x: i16, n: u16, y: i16, m: u16) -> Range<u16>
    requires { n ≤ 320 }
    ensures order { result.start ≤ result.end }
    ensures few { 16 * result.end < n + 16 }
    ensures all { Reached x n y m result }
{
    let from = past(y, 0, x).min(u32::from(n)) as u16;
    let to = past(y, m, x).min(u32::from(n)) as u16;
    from / 16..to.div_ceil(16)
}

// That a client is below 8 stays a precondition: the caller counts through the clients, and a type for them would be made and opened at each turn.
// So do the bounds of a frame: arrangements keep to them, and the type of a rectangle is for areas of any size.
/// The patches of a client's layer that an area meets.
pub(crate) fn patches_met(c: u8, frame: Rectangle, area: Rectangle) -> Block
    requires client { c < 8 }
    requires narrow { frame.w ≤ 320 }
    requires short { frame.h ≤ 240 }
    ensures { (k : ℕ) → k / 300 ≡ c → InFrame frame k → patch_met area frame k ≡ true → in_block result.first result.columns result.rows k ≡ true }
{
    let across = along(frame.x, frame.w, area.x, area.w);
    let down = along(frame.y, frame.h, area.y, area.h);
    Block {
        first: 300 * u16::from(c) + 20 * down.start + across.start,
        columns: across.end - across.start,
        rows: down.end - down.start,
    }
}
