//! How many rows a list has entries for.
ghost use Rattle.std.specs.Prelude.{◌≡◌, ◌*◌, ◌≤◌};
ghost use Rattle.raster.specs.Rows.{rows_carried};

/// A height, cut to what `n` entries carry, where each row takes `row` of them.
pub fn rows_carried(n: usize, row: usize, height: u16) -> u16
    ensures value { result ≡ rows_carried n row height }
    ensures room { result * row ≤ n }
    ensures below { result ≤ height }
{
    match n.checked_div(row) {
        Some(rows) => rows.min(usize::from(height)) as u16,
        None => height,
    }
}
