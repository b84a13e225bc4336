//! Both kinds of bitmap on the same cases, and rows as they may be handed in.
use planes::Planes;
use raster::{Bitmap, Fault, Rectangle, Refusal, Size, Transfer};
use runrows::RunRows;
use std::process::Abort;
use std::test::Fail;

/// The first row has these four pixels.
fn shows<B: Bitmap>(rt: &impl Abort, b: &B, row: [u8; 4]) -> Result<(), Fail> {
    for (x, v) in (0..4).zip(row) {
        assert_eq!(rt; b.read(x, 0)?, v);
    }
    Ok(())
}

/// The call was refused for this reason.
fn refused<A: Drop>(rt: &impl Abort, r: Result<A, Fault>, why: Refusal) {
    assert_eq!(rt; r.err().map(|f| f.refusal), Some(why));
}

/// Sets the first row to 1 2 3 0.
fn start<B: Bitmap>(rt: &impl Abort, b: &mut B) -> Result<(), Fail> {
    for (x, v) in (0..4).zip([1, 2, 3, 0]) {
        assert_eq!(rt; b.write(x, 0, v)?, 0);
    }
    Ok(())
}

/// A transfer of `w` pixels of row 0, from x = `from` to x = `to`.
fn along(rule: u8, from: i16, to: i16, w: u16) -> Transfer {
    Transfer {
        rule,
        sx: from,
        sy: 0,
        dx: to,
        dy: 0,
        w,
        h: 1,
    }
}

/// Scrolls in both directions, off the edge, and by other rules.
fn scrolls<B: Bitmap>(rt: &impl Abort, b: &mut B) -> Result<(), Fail> {
    start(rt, b)?;
    assert_eq!(rt; b.scroll(along(3, 0, 1, 3))?, 3);
    shows(rt, b, [1, 1, 2, 3])?;
    start(rt, b)?;
    assert_eq!(rt; b.scroll(along(3, 1, 0, 3))?, 3);
    shows(rt, b, [2, 3, 0, 0])?;
    start(rt, b)?;
    assert_eq!(rt; b.scroll(along(3, -1, 0, 3))?, 2);
    shows(rt, b, [1, 1, 2, 0])?;
    assert_eq!(rt; b.scroll(along(6, 0, 0, 4))?, 4);
    shows(rt, b, [0, 0, 0, 0])
}

/// Fills, clipped on all sides, and by other rules.
fn fills<B: Bitmap>(rt: &impl Abort, b: &mut B) -> Result<(), Fail> {
    start(rt, b)?;
    assert_eq!(rt; b.fill(12, 1, Rectangle::new(1, 0, 2, 1))?, 2);
    shows(rt, b, [1, 2, 2, 0])?;
    assert_eq!(rt;
        b.fill(7, 1, Rectangle::new(-32768, -32768, 65535, 65535))?,
        8
    );
    shows(rt, b, [1, 3, 3, 1])?;
    assert_eq!(rt; b.fill(3, 2, Rectangle::new(4, 0, 9, 9))?, 0);
    assert_eq!(rt; b.fill(15, 0, Rectangle::new(3, 1, 9, 9))?, 1);
    assert_eq!(rt; b.read(3, 1)?, 3);
    shows(rt, b, [1, 3, 3, 1])
}

/// Refusals, in the order in which they are asked, and what they leave.
fn refuses<B: Bitmap>(rt: &impl Abort, b: &mut B) -> Result<(), Fail> {
    start(rt, b)?;
    refused(
        rt,
        b.fill(16, 4, Rectangle::new(0, 0, 4, 1)),
        Refusal::RuleAboveFifteen,
    );
    refused(
        rt,
        b.fill(3, 4, Rectangle::new(0, 0, 4, 1)),
        Refusal::ValueTooLarge,
    );
    refused(rt, b.scroll(along(16, 0, 1, 3)), Refusal::RuleAboveFifteen);
    refused(rt, b.write(4, 0, 4), Refusal::ValueTooLarge);
    refused(rt, b.write(4, 0, 3), Refusal::OutsideBitmap);
    refused(rt, b.write(0, -1, 3), Refusal::OutsideBitmap);
    refused(rt, b.read(0, 2), Refusal::OutsideBitmap);
    shows(rt, b, [1, 2, 3, 0])
}

/// All cases on one bitmap of 4 by 2.
fn all<B: Bitmap>(rt: &impl Abort, b: &mut B) -> Result<(), Fail> {
    assert_eq!(rt;
        b.size(),
        Size {
            width: 4,
            height: 2,
            depth: 2,
        }
    );
    scrolls(rt, b)?;
    fills(rt, b)?;
    refuses(rt, b)
}

#[test]
fn planes_on_the_cases(rt: HostRuntime) -> Result<(), Fail> {
    let mut b = Planes::new(vec![in rt.alloc(); 0; 4]?, 4, 2, 2);
    all(&rt, &mut b)
}

#[test]
fn run_rows_on_the_cases(rt: HostRuntime) -> Result<(), Fail> {
    let mut b = RunRows::new(vec![in rt.alloc(); 0; 8]?, 4, 2, 2);
    all(&rt, &mut b)
}

#[test]
fn spare_bits_stay(rt: HostRuntime) -> Result<(), Fail> {
    let mut b = Planes::new(vec![in rt.alloc(); 0xffff_ffff; 3]?, 4, 9, 1);
    assert_eq!(rt; b.size().height, 3);
    assert_eq!(rt; b.fill(0, 0, Rectangle::new(0, 0, 9, 2))?, 8);
    let words = b.into_words();
    assert_eq!(rt;
        words.as_slice(),
        [0x0fff_ffff, 0x0fff_ffff, 0xffff_ffff].as_slice()
    );
    Ok(())
}

#[test]
fn damaged_rows_are_read(rt: HostRuntime) -> Result<(), Fail> {
    // a value above the depth, and an end before the width; and a run that passes the width
    let entries = vec![in rt.alloc(); 16 * 2 + 7, 5, 33, 33, 16 * 9 + 2, 1, 1, 1]?;
    let mut b = RunRows::new(entries, 4, 2, 2);
    shows(&rt, &b, [3, 3, 0, 0])?;
    assert_eq!(rt; b.read(3, 1)?, 2);
    assert_eq!(rt; b.write(2, 0, 3)?, 0);
    shows(&rt, &b, [3, 3, 3, 0])?;
    let entries = b.into_entries();
    // the other row stays as it was
    assert_eq!(rt;
        entries.as_slice(),
        [16 * 3 + 3, 16, 0, 0, 16 * 9 + 2, 1, 1, 1].as_slice()
    );
    Ok(())
}
