//! The same hundred calls on three pairs of bitmaps.
use crate::call::Call;
use desk::Desk;
use planes::Planes;
use raster::{Bitmap, Rectangle, SOURCE, Transfer};
use runrows::RunRows;
use std::alloc::Global;
use std::process::Abort;
use std::test::Fail;

/// The k-th of some numbers without a pattern, for the n-th call.
fn number(n: u8, k: u8) -> u8 {
    let x = (u32::from(n) * 7 + u32::from(k) * 13 + 5) % 251;
    ((x * x + 31 * x + 17) % 241) as u8
}

/// A corner from -8 to 43.
fn corner(n: u8, k: u8) -> i16 {
    i16::from(number(n, k) % 52) - 8
}

/// The n-th call: of five clients, four of which may have a layer, with rules and values of which some are refused.
fn nth(n: u8) -> Call {
    let c = number(n, 0) % 5 + 4 * (n % 25 / 24);
    let (x, y) = (corner(n, 1), corner(n, 2));
    let (w, h) = (u16::from(number(n, 3) % 30), u16::from(number(n, 4) % 14));
    let area = Rectangle::new(x, y, w, h);
    let rule = number(n, 5) % 17;
    let v = number(n, 6) % 5;
    match n % 10 {
        0 => Call::Open(c, area),
        1 => Call::Fill(c, rule, v, area),
        2 => Call::Raise(c),
        3 => Call::Scroll(
            c,
            Transfer {
                rule,
                sx: x,
                sy: y,
                dx: corner(n, 7),
                dy: corner(n, 8),
                w,
                h,
            },
        ),
        4 => Call::Open(n / 10 % 5, Rectangle::new(x, y, w + 1, h + 1)),
        5 => Call::Move(c, x, y),
        6 => Call::Fill(n / 10 % 5, SOURCE, v % 4, Rectangle::new(0, 0, w, h)),
        7 => Call::Lower(c),
        8 => Call::Read(c, x, y),
        _ => if n % 30 == 29 {
            Call::Close(c)
        } else {
            Call::Top(x, y)
        },
    }
}

/// Two bitmaps, 40 wide, show the same in a row.
fn same_row<A: Bitmap, B: Bitmap>(rt: &impl Abort, a: &A, b: &B, y: i16) -> Result<(), Fail> {
    for x in 0..40 {
        assert_eq!(rt; a.read(x, y)?, b.read(x, y)?);
    }
    Ok(())
}

/// Two bitmaps of 40 by 12 show the same.
fn same_screen<A: Bitmap, B: Bitmap>(rt: &impl Abort, a: &A, b: &B) -> Result<(), Fail> {
    for y in 0..12 {
        same_row(rt, a, b, y)?;
    }
    Ok(())
}

/// A hundred calls on a desk of planes over run rows and on one of this screen and store: answers,
/// slots in use after each, and what shows in the end.
fn compare<S: Bitmap + Drop, T: Bitmap + Drop>(
    rt: &impl Abort,
    heap: Global,
    screen: S,
    store: T,
) -> Result<(), Fail> {
    let mut a = Desk::new(
        Planes::new(vec![in heap; 0; 48]?, 40, 12, 2),
        RunRows::new(vec![in heap; 0; 2048]?, 64, 32, 2),
    );
    let mut b = Desk::new(screen, store);
    for n in 0..100 {
        assert_eq!(rt; nth(n).perform(&mut a), nth(n).perform(&mut b));
        assert_eq!(rt; a.slots().0, b.slots().0);
    }
    same_screen(rt, &a.dismantle().0, &b.dismantle().0)
}

#[test]
fn planes_over_run_rows_and_run_rows_over_planes(rt: HostRuntime) -> Result<(), Fail> {
    let heap = rt.alloc();
    let screen = RunRows::new(vec![in heap; 0; 480]?, 40, 12, 2);
    let store = Planes::new(vec![in heap; 0; 128]?, 64, 32, 2);
    compare(&rt, heap, screen, store)
}

#[test]
fn planes_over_run_rows_and_planes_over_planes(rt: HostRuntime) -> Result<(), Fail> {
    let heap = rt.alloc();
    let screen = Planes::new(vec![in heap; 0; 48]?, 40, 12, 2);
    let store = Planes::new(vec![in heap; 0; 128]?, 64, 32, 2);
    compare(&rt, heap, screen, store)
}
