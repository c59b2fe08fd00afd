//! Plates read: the refusal's number, or 0 with the number of faces and their degrees, by lowest dart.
//! The expected lines were compared with those of a separate program written from document 01.
#![tactic(auto)]

ghost use Rattle.std.specs.Prelude.{◌≡◌, List, ℕ, ◌%◌, ◌≤◌, length};
ghost use Rattle.refusals.specs.Numbers.{fault_of};
ghost use Rattle.embedding.specs.Plates.{plate};
ghost use Rattle.embedding.specs.Pass.{strips_fault};

use embedding::strips::{answer, go_on, no_strips};
use embedding::{Plate, read_plate};
use refusals::Refusal;
use std::io;

// Writes 0 and the degrees of the faces, and ends the line.
fn show_faces(rt: &impl Print, plate: &Plate) -> io::Result<()> {
    rt.write_all(b" 0")?;
    let sizes = &plate.sizes[..plate.faces];
    for size in sizes {
        print!(rt; " {size}")?;
    }
    rt.write_all(b"\n")
}

// Reads a plate and writes a line: its label, then the refusal's number, or 0 and the faces.
// Six parameters: most of the calls below are one line, and with a struct each would name its fields.
fn show(
    rt: &impl Print,
    label: &[u8],
    posts: u8,
    ends: &[u8],
    order: &[u8],
    outer: u8,
) -> io::Result<()>
    requires { (length ends.now ≤ 256) × (length ends.now % 2 ≡ 0) × (length order.now ≤ 256) }
{
    rt.write_all(label)?;
    match read_plate(posts, ends, order, outer) {
        Ok(plate) => show_faces(rt, &plate),
        Err(refusal) => println!(rt; " {}", refusal.number()),
    }
}

// The answer of a pass over the strips that stops after those of `ends[..at]` and goes on over the rest: that of the whole field.
fn stopped_at(posts: usize, ends: &[u8], at: usize) -> Result<(), Refusal>
    requires { (posts ≤ 64) × (length ends.now % 2 ≡ 0) × (at % 2 ≡ 0) × (at ≤ length ends.now) }
    ensures { (o : List ℕ) (x : ℕ) → fault_of result ≡ strips_fault (plate posts ends.now o x) }
{
    let begun = go_on(posts, no_strips(), &ends[..at]);
    let whole = go_on(posts, begun, &ends[at..]);
    answer(whole)
}

// Writes a line: the label, then the answer of a pass that stops before the first strip, after it, and so on to the last.
fn show_stopped(rt: &impl Print, label: &[u8], posts: usize, ends: &[u8]) -> io::Result<()>
    requires { (posts ≤ 64) × (length ends.now ≤ 256) × (length ends.now % 2 ≡ 0) }
{
    rt.write_all(b"stopped, ")?;
    rt.write_all(label)?;
    for strips in 0..=ends.len() / 2 {
        match stopped_at(posts, ends, 2 * strips) {
            Ok(()) => print!(rt; " 0")?,
            Err(refusal) => print!(rt; " {}", refusal.number())?,
        }
    }
    rt.write_all(b"\n")
}

// Document 01's P1 to P4.
fn plates_to_try(rt: &impl Print) -> io::Result<()> {
    show(rt, b"P1", 2, b"\x00\x01\x00\x01", b"\x00\x02\x01\x03", 1)?;
    show(
        rt,
        b"P2",
        3,
        b"\x00\x01\x01\x02\x02\x00",
        b"\x00\x05\x01\x02\x03\x04",
        1,
    )?;
    show(
        rt,
        b"P3",
        4,
        b"\x00\x01\x01\x02\x02\x03\x03\x00",
        b"\x00\x07\x01\x02\x03\x04\x05\x06",
        1,
    )?;
    show(rt, b"P4", 2, b"\x00\x01", b"\x00\x01", 0)
}

// Document 01's P5 to P8.
fn more_plates_to_try(rt: &impl Print) -> io::Result<()> {
    show(
        rt,
        b"P5",
        5,
        b"\x00\x01\x00\x02\x00\x03\x00\x04",
        b"\x00\x02\x04\x06\x01\x03\x05\x07",
        1,
    )?;
    show(rt, b"P6", 3, b"\x00\x01\x01\x02", b"\x00\x01\x02\x03", 1)?;
    show(
        rt,
        b"P7",
        2,
        b"\x00\x01\x00\x01\x00\x01",
        b"\x00\x02\x04\x05\x03\x01",
        1,
    )?;
    show(
        rt,
        b"P8",
        2,
        b"\x00\x01\x00\x01\x00\x01",
        b"\x00\x02\x04\x01\x03\x05",
        1,
    )
}

// Refusals 7 to 9: P10's 65 and 64 posts, and each against the next.
fn posts_and_strips(rt: &impl Print) -> io::Result<()> {
    show(rt, b"no post", 0, b"\x00\x01", b"\x00\x01", 0)?;
    show(rt, b"65 posts", 65, b"\x00\x01", b"\x00\x01", 0)?;
    show(rt, b"64 posts, no strip", 64, b"", b"", 0)?;
    show(rt, b"64 posts, one strip", 64, b"\x3e\x3f", b"\x00\x01", 0)?;
    show(
        rt,
        b"an end that is no post",
        2,
        b"\x00\x02",
        b"\x00\x01",
        0,
    )?;
    show(
        rt,
        b"a strip to itself, then no post",
        2,
        b"\x01\x01\x00\x02",
        b"\x00\x01\x02\x03",
        0,
    )
}

// Refusal 11: P10's fifth strip at a post, and a fourth.
fn strips_at_a_post(rt: &impl Print) -> io::Result<()> {
    show(
        rt,
        b"five strips, then one to itself",
        2,
        b"\x00\x01\x00\x01\x00\x01\x00\x01\x00\x01\x01\x01",
        b"",
        0,
    )?;
    show(
        rt,
        b"five strips",
        2,
        b"\x00\x01\x00\x01\x00\x01\x00\x01\x00\x01",
        b"\x00\x02\x04\x06\x08\x09\x07\x05\x03\x01",
        1,
    )?;
    show(
        rt,
        b"four strips",
        2,
        b"\x00\x01\x00\x01\x00\x01\x00\x01",
        b"\x00\x02\x04\x06\x07\x05\x03\x01",
        1,
    )
}

// Strips from a post to itself: each takes two places, and each of its darts may be a face.
fn strips_to_itself(rt: &impl Print) -> io::Result<()> {
    show(
        rt,
        b"a strip to itself",
        2,
        b"\x00\x01\x01\x01",
        b"\x00\x01\x02\x03",
        0,
    )?;
    show(rt, b"one strip to itself", 1, b"\x00\x00", b"\x00\x01", 1)?;
    show(
        rt,
        b"two strips to itself",
        1,
        b"\x00\x00\x00\x00",
        b"\x00\x01\x02\x03",
        1,
    )?;
    show(
        rt,
        b"two strips to itself across each other",
        1,
        b"\x00\x00\x00\x00",
        b"\x00\x02\x01\x03",
        1,
    )?;
    show(
        rt,
        b"a strip to itself and three",
        2,
        b"\x00\x00\x00\x01\x00\x01\x00\x01",
        b"\x00\x01\x02\x04\x06\x07\x05\x03",
        1,
    )
}

// Refusal 12 before 13.
fn orders(rt: &impl Print) -> io::Result<()> {
    show(
        rt,
        b"order too short",
        2,
        b"\x00\x01\x00\x01",
        b"\x00\x02\x01",
        9,
    )?;
    show(
        rt,
        b"a dart twice",
        2,
        b"\x00\x01\x00\x01",
        b"\x00\x00\x01\x03",
        9,
    )?;
    show(
        rt,
        b"a dart of the other post",
        2,
        b"\x00\x01\x00\x01",
        b"\x00\x01\x02\x03",
        9,
    )?;
    show(
        rt,
        b"a dart that is not there",
        2,
        b"\x00\x01\x00\x01",
        b"\x00\x04\x01\x03",
        9,
    )
}

// Refusals 9 and 11 by a pass that stops after each strip in turn: each before and behind the other, strips to itself, and none.
fn stopped(rt: &impl Print) -> io::Result<()> {
    show_stopped(
        rt,
        b"a strip to itself, then no post",
        2,
        b"\x01\x01\x00\x02",
    )?;
    show_stopped(
        rt,
        b"no post, then five strips",
        2,
        b"\x02\x00\x00\x01\x00\x01\x00\x01\x00\x01\x00\x01",
    )?;
    show_stopped(
        rt,
        b"five strips, then no post",
        2,
        b"\x00\x01\x00\x01\x00\x01\x00\x01\x00\x01\x00\x02",
    )?;
    show_stopped(
        rt,
        b"five strips",
        2,
        b"\x00\x01\x00\x01\x00\x01\x00\x01\x00\x01",
    )?;
    show_stopped(rt, b"four strips", 2, b"\x00\x01\x00\x01\x00\x01\x00\x01")?;
    show_stopped(
        rt,
        b"three strips, then one to itself",
        2,
        b"\x00\x01\x00\x01\x00\x01\x01\x01",
    )?;
    show_stopped(
        rt,
        b"two strips, then one to itself",
        2,
        b"\x00\x01\x00\x01\x01\x01",
    )?;
    show_stopped(rt, b"no strip", 2, b"")
}

// Refusals 13 to 15, each against the next.
fn whole_plates(rt: &impl Print) -> io::Result<()> {
    show(
        rt,
        b"outer dart too high",
        4,
        b"\x00\x01\x02\x03",
        b"\x00\x01\x02\x03",
        4,
    )?;
    show(
        rt,
        b"two pieces",
        4,
        b"\x00\x01\x02\x03",
        b"\x00\x01\x02\x03",
        3,
    )?;
    show(rt, b"a post alone", 3, b"\x00\x01", b"\x00\x01", 1)?;
    show(
        rt,
        b"not plane",
        2,
        b"\x00\x01\x00\x01\x00\x01",
        b"\x00\x02\x04\x01\x03\x05",
        5,
    )
}

fn main(rt: HostRuntime) -> io::Result<()> {
    plates_to_try(&rt)?;
    more_plates_to_try(&rt)?;
    posts_and_strips(&rt)?;
    strips_at_a_post(&rt)?;
    strips_to_itself(&rt)?;
    orders(&rt)?;
    stopped(&rt)?;
    whole_plates(&rt)
}
