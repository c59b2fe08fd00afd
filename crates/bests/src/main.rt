//! The best shapes of document 01's plates, best shapes within limits and by prices, and verdicts on other shapes of P1.
//! The shapes expected are document 01's, P6 straight; those with limits and prices were found by trying all; the verdicts were worked out by hand.
#![tactic(auto)]

ghost use Rattle.std.specs.Prelude.{◌≡◌, ◌%◌, ◌≤◌, length};
ghost use Rattle.embedding.specs.Plates.{plate};
ghost use Rattle.embedding.specs.Read.{Reads};

use embedding::{Plate, read_plate};
use refusals::Refusal;
use shapes::best::{BestShape, best, best_by};
use shapes::counts::Counts;
use shapes::judge::judge;
use shapes::rates::{StripRates, prices_ok};
use std::io;

// Writes numbers behind a word.
fn show_counts(rt: &impl Print, word: &[u8], counts: &[u8]) -> io::Result<()> {
    rt.write_all(word)?;
    for count in counts {
        print!(rt; " {count}")?;
    }
    Ok(())
}

// Writes the bends, the right bends and the angles by dart, and ends the line.
fn show_shape(rt: &impl Print, darts: usize, s: BestShape) -> io::Result<()>
    requires { (darts ≤ 256) × (darts % 2 ≡ 0) }
{
    let counts = s.counts(darts);
    print!(rt; " bends {}", s.total)?;
    show_counts(rt, b" rights", counts.rights)?;
    show_counts(rt, b" angles", counts.angles)?;
    rt.write_all(b"\n")
}

// A plate as its list gives it. Like the lists that `embedding` reads from, which are private there.
#[derive(Clone, Copy)]
struct GivenPlate<'a> {
    posts: u8,
    ends: &'a [u8],
    order: &'a [u8],
    outer: u8,
    ghost few_ends: { length ends.now ≤ 256 },
    ghost even_ends: { length ends.now % 2 ≡ 0 },
    ghost few_darts: { length order.now ≤ 256 },
}

impl GivenPlate<'_> {
    fn read(&self) -> Result<Plate, Refusal>
        ensures { Reads (plate self.now.posts self.now.ends.now self.now.order.now self.now.outer) result }
    {
        read_plate(self.posts, self.ends, self.order, self.outer)
    }
}

const P1: GivenPlate<'static> = GivenPlate {
    posts: 2,
    ends: b"\x00\x01\x00\x01",
    order: b"\x00\x02\x01\x03",
    outer: 1,
};

const P7: GivenPlate<'static> = GivenPlate {
    posts: 2,
    ends: b"\x00\x01\x00\x01\x00\x01",
    order: b"\x00\x02\x04\x05\x03\x01",
    outer: 1,
};

// Writes a line: the label and the best shape.
fn show(rt: &impl Print, label: &[u8], list: GivenPlate) -> io::Result<()> {
    rt.write_all(label)?;
    match list.read() {
        Ok(q) => show_shape(rt, list.ends.len(), best(q)),
        Err(_) => println!(rt; " refused"),
    }
}

// Writes a line: the label and the best shape within limits and by prices. They come as two slices, so that a case stays one line.
fn show_by(
    rt: &impl Print,
    label: &[u8],
    list: GivenPlate,
    limits: &[u8],
    prices: &[u8],
) -> io::Result<()> {
    rt.write_all(label)?;
    let Ok(q) = list.read() else {
        return println!(rt; " refused");
    };
    if !prices_ok(prices) {
        return println!(rt; " prices refused");
    }
    match best_by(q, StripRates { limits, prices }) {
        Some(shape) => show_shape(rt, list.ends.len(), shape),
        None => println!(rt; " no shape"),
    }
}

fn rated_to_try(rt: &impl Print) -> io::Result<()> {
    // One bend for each strip.
    show_by(rt, b"P1, limits 1 1", P1, b"\x01\x01", b"")?;
    show_by(rt, b"P1, limits 1 0", P1, b"\x01\x00", b"")?;
    show_by(rt, b"P1, limits 255 0", P1, b"\xff\x00", b"")?;
    show_by(rt, b"P1, prices 1 100", P1, b"", b"\x01\x64")?;
    show_by(rt, b"P1, prices 1 0", P1, b"", b"\x01\x00")?;
    show_by(rt, b"P1, prices 1 101", P1, b"", b"\x01\x65")
}

fn more_rated_to_try(rt: &impl Print) -> io::Result<()> {
    show_by(rt, b"P7, limit 1", P7, b"\x01", b"")?;
    show_by(rt, b"P7, limits 1 255 1", P7, b"\x01\xff\x01", b"")?;
    // More bends cost less.
    show_by(rt, b"P7, prices 9 1 1", P7, b"", b"\x09\x01\x01")?;
    show_by(
        rt,
        b"P7, limit 1, prices 1 9 1",
        P7,
        b"\x01",
        b"\x01\x09\x01",
    )
}

// Writes a line: the label and the verdict on a shape of P1. Angles and right bends come as two slices, so that a case stays short.
fn verdict(rt: &impl Print, label: &[u8], angles: &[u8], rights: &[u8]) -> io::Result<()> {
    rt.write_all(label)?;
    let Ok(q) = P1.read() else {
        return Ok(());
    };
    if angles.len() != q.darts || rights.len() != q.darts {
        return Ok(());
    }
    match judge(q, Counts { angles, rights }) {
        Ok(()) => println!(rt; " 0"),
        Err(refusal) => println!(rt; " {}", refusal.number()),
    }
}

fn shapes_to_try(rt: &impl Print) -> io::Result<()> {
    show(rt, b"P1", P1)?;
    show(
        rt,
        b"P2",
        GivenPlate {
            posts: 3,
            ends: b"\x00\x01\x01\x02\x02\x00",
            order: b"\x00\x05\x01\x02\x03\x04",
            outer: 1,
        },
    )?;
    show(
        rt,
        b"P3",
        GivenPlate {
            posts: 4,
            ends: b"\x00\x01\x01\x02\x02\x03\x03\x00",
            order: b"\x00\x07\x01\x02\x03\x04\x05\x06",
            outer: 1,
        },
    )?;
    show(
        rt,
        b"P4",
        GivenPlate {
            posts: 2,
            ends: b"\x00\x01",
            order: b"\x00\x01",
            outer: 0,
        },
    )
}

// Strips from a post to itself: the one of request E5, and two of which the second lies inside the first.
fn strips_to_itself(rt: &impl Print) -> io::Result<()> {
    show(
        rt,
        b"to itself",
        GivenPlate {
            posts: 1,
            ends: b"\x00\x00",
            order: b"\x00\x01",
            outer: 1,
        },
    )?;
    show(
        rt,
        b"to itself twice",
        GivenPlate {
            posts: 1,
            ends: b"\x00\x00\x00\x00",
            order: b"\x00\x02\x03\x01",
            outer: 1,
        },
    )
}

fn more_shapes_to_try(rt: &impl Print) -> io::Result<()> {
    show(
        rt,
        b"P5",
        GivenPlate {
            posts: 5,
            ends: b"\x00\x01\x00\x02\x00\x03\x00\x04",
            order: b"\x00\x02\x04\x06\x01\x03\x05\x07",
            outer: 1,
        },
    )?;
    show(
        rt,
        b"P6",
        GivenPlate {
            posts: 3,
            ends: b"\x00\x01\x01\x02",
            order: b"\x00\x01\x02\x03",
            outer: 1,
        },
    )?;
    show(rt, b"P7", P7)?;
    show(
        rt,
        b"P8",
        GivenPlate {
            posts: 2,
            ends: b"\x00\x01\x00\x01\x00\x01",
            order: b"\x00\x02\x04\x01\x03\x05",
            outer: 1,
        },
    )
}

fn verdicts(rt: &impl Print) -> io::Result<()> {
    // The shape that document 01 gives.
    verdict(rt, b"P1's own", b"\x01\x03\x03\x01", b"\x00\x00\x00\x02")?;
    // The other strip bends, with as many bends.
    verdict(
        rt,
        b"P1, bends on dart 0",
        b"\x01\x03\x03\x01",
        b"\x02\x00\x00\x00",
    )?;
    // Strip 1 bends right and left once more.
    verdict(
        rt,
        b"P1, two bends more",
        b"\x01\x03\x03\x01",
        b"\x00\x00\x01\x03",
    )?;
    // 19 comes before 20: dart 0 has no angle.
    verdict(
        rt,
        b"P1, an angle of 0",
        b"\x00\x03\x03\x01",
        b"\x00\x00\x00\x02",
    )?;
    verdict(
        rt,
        b"P1, an angle of 5",
        b"\x05\x03\x03\x01",
        b"\x00\x00\x00\x02",
    )
}

fn verdicts_on_sums(rt: &impl Print) -> io::Result<()> {
    // 20 comes before 21: the angles at post 1 add to 5.
    verdict(
        rt,
        b"P1, angles at a post",
        b"\x02\x03\x03\x01",
        b"\x00\x00\x00\x02",
    )?;
    // No bend: the turns of the inner face add to 2.
    verdict(rt, b"P1, no bend", b"\x01\x03\x03\x01", b"\x00\x00\x00\x00")?;
    // The inner face bends outwards.
    verdict(
        rt,
        b"P1, bends on dart 2",
        b"\x01\x03\x03\x01",
        b"\x00\x00\x02\x00",
    )
}

fn main(rt: HostRuntime) -> io::Result<()> {
    shapes_to_try(&rt)?;
    more_shapes_to_try(&rt)?;
    strips_to_itself(&rt)?;
    rated_to_try(&rt)?;
    more_rated_to_try(&rt)?;
    verdicts(&rt)?;
    verdicts_on_sums(&rt)
}
