//! Patches by their numbers.
ghost use Rattle.std.specs.Prelude.{◌≡◌, ◌*◌, ◌/◌, ◌%◌};

/// The client of a patch, and the pixel of the client's layer at its corner. A patch is one number, 300 * client + 20 * row + column:
/// its place in the table of slots, which is one array.
pub(crate) fn corner(patch: u16) -> (u8, u16, u16)
    ensures { result ≡ (patch / 300, 16 * (patch % 300 % 20), 16 * (patch % 300 / 20)) }
{
    let client = (patch / 300) as u8;
    (client, 16 * (patch % 300 % 20), 16 * (patch % 300 / 20))
}
