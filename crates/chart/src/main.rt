//! The chart of the sixteen rules, on both kinds of bitmap.
#![tactic(auto)]

use planes::Planes;
use raster::{Bitmap, Row, Transfer};
use runrows::RunRows;
use std::io;

/// How wide the chart is.
const WIDTH: u8 = 16;

/// How many values a pixel of depth 2 has.
const VALUES: u8 = 4;

/// Row 0 has each value four times in turn, row 1 four times in a row.
fn draw<B: Bitmap>(b: &mut B) {
    for x in 0..WIDTH {
        let _ = b.write(i16::from(x), 0, x % VALUES);
        let _ = b.write(i16::from(x), 1, x / VALUES);
    }
}

/// Scrolls row 0 onto row 1 by a rule.
fn scroll<B: Bitmap>(b: &mut B, rule: u8) {
    let _ = b.scroll(Transfer {
        rule,
        sx: 0,
        sy: 0,
        dx: 0,
        dy: 1,
        w: u16::from(WIDTH),
        h: 1,
    });
}

/// The chart on one kind of bitmap, drawn anew for each rule: row 1 after row 0 is scrolled onto it.
fn print_chart<B: Bitmap>(rt: &HostRuntime, kind: &str, b: &mut B) -> io::Result<()> {
    for rule in 0..16 {
        draw(b);
        scroll(b, rule);
        println!(rt; "{kind} rule {rule}: {}", Row(b, 1))?;
    }
    Ok(())
}

fn main(rt: HostRuntime) -> io::Result<()> {
    let heap = rt.alloc();
    let width = u16::from(WIDTH);
    let mut planes = Planes::new(vec![in heap; 0; 4]?, width, 2, 2);
    print_chart(&rt, "planes", &mut planes)?;
    let mut rows = RunRows::new(vec![in heap; 0; 32]?, width, 2, 2);
    print_chart(&rt, "run rows", &mut rows)
}

#[cfg(test)]
mod tests;
