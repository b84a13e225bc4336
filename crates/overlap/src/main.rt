//! Three overlapping layers on a small screen: calls with their answers, and what the screen shows in the end.
#![tactic(auto)]

mod call;

use call::Call;
use desk::Desk;
use planes::Planes;
use raster::{Rectangle, Row, SOURCE, Transfer};
use runrows::RunRows;
use std::io;

/// The calls of the run, in order.
fn calls() -> [Call; 25] {
    [
        Call::Open(1, Rectangle::new(2, 1, 20, 8)),
        Call::Fill(1, SOURCE, 1, Rectangle::new(0, 0, 20, 8)),
        Call::Open(2, Rectangle::new(10, 4, 18, 7)),
        Call::Fill(2, SOURCE, 2, Rectangle::new(0, 0, 18, 7)),
        Call::Open(3, Rectangle::new(-4, -3, 12, 9)),
        Call::Fill(3, SOURCE, 3, Rectangle::new(0, 0, 12, 9)),
        Call::Fill(1, 6, 3, Rectangle::new(5, 2, 12, 5)),
        Call::Scroll(
            1,
            Transfer {
                rule: SOURCE,
                sx: 0,
                sy: 0,
                dx: 3,
                dy: 1,
                w: 10,
                h: 5,
            },
        ),
        Call::Slots,
        Call::Raise(1),
        Call::Read(1, 12, 5),
        Call::Lower(3),
        Call::Slots,
        Call::Move(2, 30, 8),
        Call::Fill(2, 12, 1, Rectangle::new(-2, -2, 9, 4)),
        Call::Top(3, 2),
        Call::Top(39, 0),
        Call::Raise(9),
        Call::Fill(2, SOURCE, 4, Rectangle::new(0, 0, 1, 1)),
        Call::Open(1, Rectangle::new(0, 0, 1, 1)),
        Call::Open(4, Rectangle::new(0, 0, 200, 200)),
        Call::Close(3),
        Call::Read(1, 20, 0),
        Call::Move(2, 8, 0),
        Call::Slots,
    ]
}

fn main(rt: HostRuntime) -> io::Result<()> {
    let heap = rt.alloc();
    let screen = Planes::new(vec![in heap; 0; 48]?, 40, 12, 2);
    let store = RunRows::new(vec![in heap; 0; 2048]?, 64, 32, 2);
    let mut desk = Desk::new(screen, store);
    for call in calls() {
        match call.perform(&mut desk) {
            Ok(n) => println!(rt; "{call}: ok {n}")?,
            Err(f) => println!(rt; "{call}: no {}", f.refusal.number())?,
        }
    }
    let (screen, _) = desk.dismantle();
    for y in 0..12 {
        println!(rt; "{}", Row(&screen, y))?;
    }
    Ok(())
}

#[cfg(test)]
mod tests;
