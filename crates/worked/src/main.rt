//! The worked examples, performed on real bitmaps.
#![tactic(auto)]

mod examples;

use examples::worked_examples;
use planes::Planes;
use raster::{Bitmap, Fault, Rectangle, SOURCE, Transfer};
use runrows::RunRows;
use std::{fmt, io};

/// What a call answers, as it is printed: its number, or its refusal's number behind `no`.
#[derive(Clone, Copy)]
struct Answer(Result<u32, Fault>);

impl fmt::Display for Answer {
    fn fmt<W: fmt::Write>(&self, f: &mut fmt::Formatter<W>) -> fmt::Result {
        match self.0 {
            Ok(n) => write!(f, "{n}"),
            Err(fault) => write!(f, "no {}", fault.refusal.number()),
        }
    }
}

/// The pixels of row 0 as they are printed: a blank before each. (`Row` of raster prints digits.)
#[derive(Drop)]
struct Pixels<'a, B>(&'a B);

impl<B: Bitmap> fmt::Display for Pixels<'_, B> {
    fn fmt<W: fmt::Write>(&self, f: &mut fmt::Formatter<W>) -> fmt::Result {
        for v in (0..=i16::MAX).map_while(|x| self.0.read(x, 0).ok()) {
            write!(f, " {v}")?;
        }
        Ok(())
    }
}

/// Sets row 0 to 1 2 3 0.
fn start<B: Bitmap>(b: &mut B) {
    for (x, v) in (0..4).zip([1, 2, 3, 0]) {
        let _ = b.write(x, 0, v);
    }
}

/// A row of 1 2 3 0, scrolled by three pixels from x = 0 to x = 1, and from x = -1 to x = 0.
fn print_scrolls<B: Bitmap>(rt: &HostRuntime, b: &mut B) -> io::Result<()> {
    for (from, to) in [(0, 1), (-1, 0)] {
        start(b);
        let n = Answer(b.scroll(Transfer {
            rule: SOURCE,
            sx: from,
            sy: 0,
            dx: to,
            dy: 0,
            w: 3,
            h: 1,
        }));
        println!(rt; "scroll from {from} to {to}: {n} pixels:{}", Pixels(b))?;
    }
    Ok(())
}

fn print_planes(rt: &HostRuntime) -> io::Result<()> {
    let heap = rt.alloc();
    let mut b = Planes::new(vec![in heap; 0; 4]?, 3, 2, 2);
    let _ = b.write(0, 0, 1);
    let _ = b.fill(12, 1, Rectangle::new(0, 0, 1, 1));
    println!(rt; "rule 12 of the source 1 at depth 2:{}", Pixels(&b))?;
    let n = Answer(b.fill(SOURCE, 1, Rectangle::new(-2, -1, 4, 3)));
    println!(rt; "fill at (-2, -1), 4 by 3, of 3 by 2: {n}")?;
    print_scrolls(rt, &mut Planes::new(vec![in heap; 0; 2]?, 4, 1, 2))?;
    let mut b = Planes::new(vec![in heap; 0; 2400]?, 320, 240, 1);
    let _ = b.write(256, 204, 1);
    let words = b.into_words();
    if let Some((i, word)) = words.iter().enumerate().find(|(_, word)| **word != 0) {
        println!(rt; "row 204, column 256 of 320: word {i} is {word}")?;
    }
    Ok(())
}

fn print_runs(rt: &HostRuntime) -> io::Result<()> {
    let heap = rt.alloc();
    let mut b = RunRows::new(vec![in heap; 0; 4]?, 4, 1, 2);
    print_scrolls(rt, &mut b)?;
    let _ = b.fill(SOURCE, 2, Rectangle::new(0, 0, 2, 1));
    let _ = b.write(2, 0, 0);
    let _ = b.write(3, 0, 1);
    let entries = b.into_entries();
    println!(rt; "run row 2 2 0 1: {entries:?}")
}

fn main(rt: HostRuntime) -> io::Result<()> {
    worked_examples();
    println!(rt; "planes")?;
    print_planes(&rt)?;
    println!(rt; "run rows")?;
    print_runs(&rt)
}
