//! Shapes and checks small plates, converts their shapes to text and back, and prints a line for each. The expected
//! lines were worked out by hand from documents 01 and 02.
//! A line of shaping: the label, the number, and with 0 the length, the bends and the bytes; then how many bytes behind the
//! shape, or with a refusal in the whole memory, are as they were lent. A line of checking: the label, the number, and with
//! 0 the total, the fewest and whether the shape is the one that shaping writes. A line of text: a shape file converted to
//! its text, which stands behind the line; a line of back: a text converted to the shape file, as a line of shaping. A line of
//! remark: the label, and the bytes of the remark of an accepted list.
#![tactic(auto)]

ghost use Rattle.std.specs.Prelude.{◌<◌};

use plates::encoding::Written;
use plates::reading::read_list;
use plates::{check_shape, write_shape};
use refusals::Refusal;
use std::io;
use texts::{read_text, write_text};

// The files that stand in several cases, by what they are. A file of one or two cases stands where it is used.

// Document 01's P1: two strips between two posts.
const P1: &[u8] =
    b"\x01\x00\x02\x00\x07\x02\x00\x01\x02\x03\x00\x04\x00\x01\x00\x01\x04\x00\x04\x00\x02\x01\x03\x05\x00\x01\x01";

// P1, each strip with at most one bend.
const P1_LIMITS_1_1: &[u8] =
    b"\x01\x00\x02\x00\x07\x02\x00\x01\x02\x03\x00\x04\x00\x01\x00\x01\x04\x00\x04\x00\x02\x01\x03\x05\x00\x01\x01\x07\x00\x02\x01\x01";

// P1, strip 0 with at most one bend, strip 1 with none: no shape keeps these limits.
const P1_LIMITS_1_0: &[u8] =
    b"\x01\x00\x02\x00\x07\x02\x00\x01\x02\x03\x00\x04\x00\x01\x00\x01\x04\x00\x04\x00\x02\x01\x03\x05\x00\x01\x01\x07\x00\x02\x01\x00";

// P1, a bend on strip 1 costs twice one on strip 0.
const P1_PRICES_1_2: &[u8] =
    b"\x01\x00\x02\x00\x07\x02\x00\x01\x02\x03\x00\x04\x00\x01\x00\x01\x04\x00\x04\x00\x02\x01\x03\x05\x00\x01\x01\x08\x00\x02\x01\x02";

// P1, each strip with at most one bend, and prices 1 2.
const P1_LIMITS_PRICES: &[u8] =
    b"\x01\x00\x02\x00\x07\x02\x00\x01\x02\x03\x00\x04\x00\x01\x00\x01\x04\x00\x04\x00\x02\x01\x03\x05\x00\x01\x01\x07\x00\x02\x01\x01\x08\x00\x02\x01\x02";

// P3: a square.
const P3: &[u8] =
    b"\x01\x00\x02\x00\x07\x02\x00\x01\x04\x03\x00\x08\x00\x01\x01\x02\x02\x03\x03\x00\x04\x00\x08\x00\x07\x01\x02\x03\x04\x05\x06\x05\x00\x01\x01";

// P6: two strips in a row.
const P6: &[u8] =
    b"\x01\x00\x02\x00\x07\x02\x00\x01\x03\x03\x00\x04\x00\x01\x01\x02\x04\x00\x04\x00\x01\x02\x03\x05\x00\x01\x01";

// P8: three strips between two posts, with one face only.
const P8: &[u8] =
    b"\x01\x00\x02\x00\x07\x02\x00\x01\x02\x03\x00\x06\x00\x01\x00\x01\x00\x01\x04\x00\x06\x00\x02\x04\x01\x03\x05\x05\x00\x01\x01";

// One post, one strip from it to itself.
const TO_ITSELF: &[u8] =
    b"\x01\x00\x02\x00\x07\x02\x00\x01\x01\x03\x00\x02\x00\x00\x04\x00\x02\x00\x01\x05\x00\x01\x01";

// The shape of P1 that we write: both bends on dart 3.
const P1_SHAPE: &[u8] =
    b"\x11\x00\x02\x00\x07\x12\x00\x02\x00\x02\x13\x00\x04\x01\x03\x03\x01\x14\x00\x04\x00\x00\x00\x02";

// The shape of P1 within limits 1 1: a bend on each strip.
const P1_ONE_EACH: &[u8] =
    b"\x11\x00\x02\x00\x07\x12\x00\x02\x00\x02\x13\x00\x04\x01\x03\x03\x01\x14\x00\x04\x01\x00\x00\x01";

// The shape of P1 with prices 1 2: both bends on dart 0, which cost 2.
const P1_PRICED: &[u8] =
    b"\x11\x00\x02\x00\x07\x12\x00\x02\x00\x02\x13\x00\x04\x01\x03\x03\x01\x14\x00\x04\x02\x00\x00\x00\x16\x00\x04\x00\x00\x00\x02";

// The shape of P1 that we write where no bend has a price, with what it would cost for prices 1 2.
const P1_SHAPE_COSTS_4: &[u8] =
    b"\x11\x00\x02\x00\x07\x12\x00\x02\x00\x02\x13\x00\x04\x01\x03\x03\x01\x14\x00\x04\x00\x00\x00\x02\x16\x00\x04\x00\x00\x00\x04";

// A sound shape of P1 whose strip 0 bends both ways.
const P1_BOTH_WAYS: &[u8] =
    b"\x11\x00\x02\x00\x07\x12\x00\x02\x00\x04\x13\x00\x04\x01\x03\x03\x01\x14\x00\x04\x01\x01\x00\x02";

// The text of P1's shape.
const P1_TEXT: &[u8] = b"1 - 3 2 11 3\n0 - 1 3 00 1\n";

// Writes bytes in hexadecimal, each behind a blank.
fn say_bytes(rt: &impl Print, s: &[u8]) -> io::Result<()> {
    for byte in s {
        print!(rt; " {byte:02x}")?;
    }
    Ok(())
}

// How many bytes are still those that all memory here is filled with.
fn untouched(s: &[u8]) -> usize {
    s.iter().filter(|byte| **byte == 0xee).count()
}

// Ends a line with the number of bytes that are untouched, of how many.
fn say_untouched(rt: &impl Print, word: &str, s: &[u8]) -> io::Result<()> {
    let same = untouched(s);
    let all = s.len();
    println!(rt; " {word} {same} of {all} untouched")
}

// Writes a refusal's number and what is left of the memory.
fn say_refused(rt: &impl Print, refusal: Refusal, memory: &[u8]) -> io::Result<()> {
    print!(rt; ": {}", refusal.number())?;
    say_untouched(rt, "memory", memory)
}

// Writes the line of shaping or of back, by its answer and what it left in the memory, which was filled with 0xee.
fn say_shaped(
    rt: &impl Print,
    kind: &str,
    label: &str,
    shaped: Result<Written, Refusal>,
    memory: &[u8],
) -> io::Result<()> {
    print!(rt; "{kind} {label}")?;
    match shaped {
        Ok(Written { long, bends }) => {
            print!(rt; ": 0 length {long} bends {bends} bytes")?;
            // `as`: usize has no From of u32.
            let (shape, behind) = memory.split_at(memory.len().min(long as usize));
            say_bytes(rt, shape)?;
            say_untouched(rt, "behind", behind)
        }
        Err(refusal) => say_refused(rt, refusal, memory),
    }
}

// A label with files and memory, here and below, is a case; a struct of them makes each call longer.
fn shape_into(rt: &impl Print, label: &str, list: &[u8], memory: &mut [u8]) -> io::Result<()> {
    let shaped = write_shape(list, memory);
    say_shaped(rt, "shape", label, shaped, memory)
}

fn shape(rt: &impl Print, label: &str, list: &[u8]) -> io::Result<()> {
    let mut memory = [0xeeu8; 320];
    shape_into(rt, label, list, &mut memory)
}

fn check(rt: &impl Print, label: &str, list: &[u8], shape: &[u8]) -> io::Result<()> {
    print!(rt; "check {label}: ")?;
    match check_shape(list, shape) {
        Ok(sound) => {
            let ours = if sound.ours { "yes" } else { "no" };
            println!(rt;
                "0 total {} fewest {} ours {ours}",
                sound.total, sound.fewest
            )
        }
        Err(refusal) => println!(rt; "{}", refusal.number()),
    }
}

// Writes the remark of an accepted list.
fn remark(rt: &impl Print, label: &str, list: &[u8]) -> io::Result<()> {
    print!(rt; "remark {label}:")?;
    match read_list(list) {
        Ok(list) => say_bytes(rt, list.remark())?,
        Err(refusal) => print!(rt; " refused {}", refusal.number())?,
    }
    println!(rt; "")
}

// Document 01's P1 to P4: number, bends, angles and right bends are those written there.
fn first_plates(rt: &impl Print) -> io::Result<()> {
    // Two strips between two posts: both bends on dart 3.
    shape(rt, "P1", P1)?;
    // A triangle: three corners of a quarter turn inside, so one bend, on dart 4.
    shape(
        rt,
        "P2",
        b"\x01\x00\x02\x00\x07\x02\x00\x01\x03\x03\x00\x06\x00\x01\x01\x02\x02\x00\x04\x00\x06\x00\x05\x01\x02\x03\x04\x05\x00\x01\x01",
    )?;
    // A square: no bend.
    shape(rt, "P3", P3)?;
    // One strip: a whole turn at each end.
    shape(
        rt,
        "P4",
        b"\x01\x00\x02\x00\x07\x02\x00\x01\x02\x03\x00\x02\x00\x01\x04\x00\x02\x00\x01\x05\x00\x01\x00",
    )
}

// Document 01's P5 to P8. P9, the face sums of the example in document 000, is proved and not run.
fn more_plates(rt: &impl Print) -> io::Result<()> {
    // Four strips from one post.
    shape(
        rt,
        "P5",
        b"\x01\x00\x02\x00\x07\x02\x00\x01\x05\x03\x00\x08\x00\x01\x00\x02\x00\x03\x00\x04\x04\x00\x08\x00\x02\x04\x06\x01\x03\x05\x07\x05\x00\x01\x01",
    )?;
    // Two strips in a row: among equal totals the smaller angle of dart 0 comes first.
    shape(rt, "P6", P6)?;
    // Three strips between two posts: two bends on dart 0 and two on dart 5.
    shape(
        rt,
        "P7",
        b"\x01\x00\x02\x00\x07\x02\x00\x01\x02\x03\x00\x06\x00\x01\x00\x01\x00\x01\x04\x00\x06\x00\x02\x04\x05\x03\x01\x05\x00\x01\x01",
    )?;
    // P7 with the order at post 1 turned round: one face only.
    shape(rt, "P8", P8)
}

// Document 01's P10, but for the memory: what just passes and what just does not.
fn limits(rt: &impl Print) -> io::Result<()> {
    // No byte ends the walk; every field is absent.
    shape(rt, "empty", b"")?;
    // 65 posts are too many.
    shape(
        rt,
        "65 posts",
        b"\x01\x00\x02\x00\x07\x02\x00\x01\x41\x03\x00\x02\x00\x01\x04\x00\x02\x00\x01\x05\x00\x01\x00",
    )?;
    // 64 posts go on: refused only because 62 of them hang on nothing.
    shape(
        rt,
        "64 posts",
        b"\x01\x00\x02\x00\x07\x02\x00\x01\x40\x03\x00\x02\x3e\x3f\x04\x00\x02\x00\x01\x05\x00\x01\x00",
    )?;
    // A fifth strip at a post.
    shape(
        rt,
        "five strips",
        b"\x01\x00\x02\x00\x07\x02\x00\x01\x02\x03\x00\x0a\x00\x01\x00\x01\x00\x01\x00\x01\x00\x01\x04\x00\x0a\x00\x02\x04\x06\x08\x09\x07\x05\x03\x01\x05\x00\x01\x01",
    )?;
    // A fourth goes on. Every corner has one quarter; each inner face has two bends more to the right than to the left, so 2, 0, -2, -4.
    shape(
        rt,
        "four strips",
        b"\x01\x00\x02\x00\x07\x02\x00\x01\x02\x03\x00\x08\x00\x01\x00\x01\x00\x01\x00\x01\x04\x00\x08\x00\x02\x04\x06\x07\x05\x03\x01\x05\x00\x01\x01",
    )
}

// Refusals 1 to 6, each once or twice.
fn walk_refusals(rt: &impl Print) -> io::Result<()> {
    // One byte remains.
    shape(rt, "one byte", b"\x01")?;
    // P1, and two bytes remain.
    shape(
        rt,
        "P1 and two bytes",
        b"\x01\x00\x02\x00\x07\x02\x00\x01\x02\x03\x00\x04\x00\x01\x00\x01\x04\x00\x04\x00\x02\x01\x03\x05\x00\x01\x01\x06\x00",
    )?;
    // A tag that no file has.
    shape(rt, "tag 09", b"\x09\x00\x00")?;
    // A tag of the shape file.
    shape(rt, "tag 11", P1_SHAPE)?;
    // A tag met before.
    shape(
        rt,
        "revision twice",
        b"\x01\x00\x02\x00\x07\x01\x00\x02\x00\x07",
    )?;
    // A revision has two bytes.
    shape(rt, "revision of three", b"\x01\x00\x03\x00\x07\x00")?;
    // A remark has at most 80 bytes.
    shape(
        rt,
        "remark of 81",
        b"\x06\x00\x51\x41\x41\x41\x41\x41\x41\x41\x41\x41\x41\x41\x41\x41\x41\x41\x41\x41\x41\x41\x41\x41\x41\x41\x41\x41\x41\x41\x41\x41\x41\x41\x41\x41\x41\x41\x41\x41\x41\x41\x41\x41\x41\x41\x41\x41\x41\x41\x41\x41\x41\x41\x41\x41\x41\x41\x41\x41\x41\x41\x41\x41\x41\x41\x41\x41\x41\x41\x41\x41\x41\x41\x41\x41\x41\x41\x41\x41\x41\x41\x41\x41",
    )?;
    // One byte of two.
    shape(rt, "revision cut", b"\x01\x00\x02\x00")?;
    // P1 without its outer dart.
    shape(
        rt,
        "no outer dart",
        b"\x01\x00\x02\x00\x07\x02\x00\x01\x02\x03\x00\x04\x00\x01\x00\x01\x04\x00\x04\x00\x02\x01\x03",
    )
}

// Several faults in the walk: all six are tried at one field before the next.
fn first_in_walk(rt: &impl Print) -> io::Result<()> {
    // 1 comes before 2.
    shape(rt, "other tag and two bytes", b"\x09\x00")?;
    // 2 comes before 4 and 5.
    shape(rt, "tag ff", b"\xff\xff\xff")?;
    // 3 comes before 4 and 5.
    shape(
        rt,
        "revision twice, second too long",
        b"\x01\x00\x02\x00\x07\x01\x00\x09\x00",
    )?;
    // 29 comes before 4 and 5.
    shape(
        rt,
        "outer dart, then posts too long",
        b"\x05\x00\x01\x01\x02\x00\x09",
    )?;
    // 4 comes before 5.
    shape(rt, "odd strips, cut", b"\x03\x00\x03\x00")?;
    // A fault 4 in the first field comes before a fault 2 in the second.
    shape(
        rt,
        "posts of two, then tag 09",
        b"\x02\x00\x02\x02\x02\x09\x00\x00",
    )?;
    // A fault 1 behind a field comes before 6.
    shape(rt, "revision and one byte", b"\x01\x00\x02\x00\x07\x02")?;
    // 6 comes before 7: 65 posts, and no outer dart.
    shape(
        rt,
        "65 posts, no outer dart",
        b"\x01\x00\x02\x00\x07\x02\x00\x01\x41\x03\x00\x02\x00\x01\x04\x00\x02\x00\x01",
    )
}

// Refusals 7 and 8, each against the next.
fn post_counts(rt: &impl Print) -> io::Result<()> {
    // No post.
    shape(
        rt,
        "no post",
        b"\x01\x00\x02\x00\x07\x02\x00\x01\x00\x03\x00\x02\x00\x01\x04\x00\x02\x00\x01\x05\x00\x01\x00",
    )?;
    // 7 comes before 8.
    shape(
        rt,
        "65 posts, no strip",
        b"\x01\x00\x02\x00\x07\x02\x00\x01\x41\x03\x00\x00\x04\x00\x00\x05\x00\x01\x00",
    )?;
    // 8 comes before 12: the order of no strip is empty, and this one is not.
    shape(
        rt,
        "no strip",
        b"\x01\x00\x02\x00\x07\x02\x00\x01\x02\x03\x00\x00\x04\x00\x02\x00\x01\x05\x00\x01\x00",
    )
}

// Refusals 9 and 11, each against the next.
fn strips(rt: &impl Print) -> io::Result<()> {
    // Post 2 of two posts.
    shape(
        rt,
        "an end that is no post",
        b"\x01\x00\x02\x00\x07\x02\x00\x01\x02\x03\x00\x02\x00\x02\x04\x00\x02\x00\x01\x05\x00\x01\x00",
    )?;
    // A strip to itself is no refusal, but post 2 of the strip behind it is.
    shape(
        rt,
        "to itself, then no post",
        b"\x01\x00\x02\x00\x07\x02\x00\x01\x02\x03\x00\x04\x01\x01\x00\x02\x04\x00\x04\x00\x01\x02\x03\x05\x00\x01\x00",
    )?;
    // Post 0 has five places taken, post 1 seven.
    shape(
        rt,
        "five strips, then to itself",
        b"\x01\x00\x02\x00\x07\x02\x00\x01\x02\x03\x00\x0c\x00\x01\x00\x01\x00\x01\x00\x01\x00\x01\x01\x01\x04\x00\x00\x05\x00\x01\x00",
    )?;
    // 11 comes before 12.
    shape(
        rt,
        "five strips, no order",
        b"\x01\x00\x02\x00\x07\x02\x00\x01\x02\x03\x00\x0a\x00\x01\x00\x01\x00\x01\x00\x01\x00\x01\x04\x00\x00\x05\x00\x01\x00",
    )
}

// Strips from a post to itself.
fn strips_to_itself(rt: &impl Print) -> io::Result<()> {
    // Strip 1 joins post 1 to itself: inside it, one corner of 1 and three bends to the right.
    shape(
        rt,
        "to itself",
        b"\x01\x00\x02\x00\x07\x02\x00\x01\x02\x03\x00\x04\x00\x01\x01\x01\x04\x00\x04\x00\x01\x02\x03\x05\x00\x01\x00",
    )?;
    // One post, one strip: three bends on dart 0.
    shape(rt, "one strip to itself", TO_ITSELF)?;
    // 11 counts places: two strips to itself take four, three take six.
    shape(
        rt,
        "two strips to itself",
        b"\x01\x00\x02\x00\x07\x02\x00\x01\x01\x03\x00\x04\x00\x00\x00\x00\x04\x00\x04\x00\x01\x02\x03\x05\x00\x01\x01",
    )?;
    shape(
        rt,
        "three strips to itself",
        b"\x01\x00\x02\x00\x07\x02\x00\x01\x01\x03\x00\x06\x00\x00\x00\x00\x00\x00\x04\x00\x06\x00\x01\x02\x03\x04\x05\x05\x00\x01\x01",
    )
}

// Refusals 12 and 13, each against the next.
fn order_and_whole(rt: &impl Print) -> io::Result<()> {
    // The order has a dart too few.
    shape(
        rt,
        "order of three",
        b"\x01\x00\x02\x00\x07\x02\x00\x01\x02\x03\x00\x04\x00\x01\x00\x01\x04\x00\x03\x00\x02\x01\x05\x00\x01\x01",
    )?;
    // Dart 0 stands twice, dart 2 not at all.
    shape(
        rt,
        "dart twice",
        b"\x01\x00\x02\x00\x07\x02\x00\x01\x02\x03\x00\x04\x00\x01\x00\x01\x04\x00\x04\x00\x00\x01\x03\x05\x00\x01\x01",
    )?;
    // 12 comes before 13: dart 1 leaves post 1, and there is no dart 9.
    shape(
        rt,
        "dart of another post, outer dart 9",
        b"\x01\x00\x02\x00\x07\x02\x00\x01\x02\x03\x00\x04\x00\x01\x00\x01\x04\x00\x04\x00\x01\x02\x03\x05\x00\x01\x09",
    )?;
    // Darts are 0 to 3.
    shape(
        rt,
        "outer dart 4",
        b"\x01\x00\x02\x00\x07\x02\x00\x01\x02\x03\x00\x04\x00\x01\x00\x01\x04\x00\x04\x00\x02\x01\x03\x05\x00\x01\x04",
    )
}

// Refusals 13 to 15, each against the next.
fn whole_plates(rt: &impl Print) -> io::Result<()> {
    // 13 comes before 14.
    shape(
        rt,
        "two pieces, outer dart 4",
        b"\x01\x00\x02\x00\x07\x02\x00\x01\x04\x03\x00\x04\x00\x01\x02\x03\x04\x00\x04\x00\x01\x02\x03\x05\x00\x01\x04",
    )?;
    // Two strips that share no post.
    shape(
        rt,
        "two pieces",
        b"\x01\x00\x02\x00\x07\x02\x00\x01\x04\x03\x00\x04\x00\x01\x02\x03\x04\x00\x04\x00\x01\x02\x03\x05\x00\x01\x01",
    )?;
    // 14 comes before 15: P8 beside a post alone.
    shape(
        rt,
        "P8 and a post alone",
        b"\x01\x00\x02\x00\x07\x02\x00\x01\x03\x03\x00\x06\x00\x01\x00\x01\x00\x01\x04\x00\x06\x00\x02\x04\x01\x03\x05\x05\x00\x01\x01",
    )
}

// What is copied, and what makes no difference.
fn copies(rt: &impl Print) -> io::Result<()> {
    // The remark is passed over.
    shape(
        rt,
        "remark",
        b"\x01\x00\x02\x00\x07\x02\x00\x01\x02\x03\x00\x04\x00\x01\x00\x01\x04\x00\x04\x00\x02\x01\x03\x05\x00\x01\x01\x06\x00\x02\x48\x69",
    )?;
    // Another revision and an empty remark: the same total, angles and right bends.
    shape(
        rt,
        "empty remark",
        b"\x01\x00\x02\x12\x34\x02\x00\x01\x02\x03\x00\x04\x00\x01\x00\x01\x04\x00\x04\x00\x02\x01\x03\x05\x00\x01\x01\x06\x00\x00",
    )?;
    // The fields of P1 in reversed order.
    shape(
        rt,
        "reversed",
        b"\x05\x00\x01\x01\x04\x00\x04\x00\x02\x01\x03\x03\x00\x04\x00\x01\x00\x01\x02\x00\x01\x02\x01\x00\x02\x00\x07",
    )?;
    // P1 with outer dart 0: the faces change places, and so do angles and bends of the two sides.
    shape(
        rt,
        "P1, outer dart 0",
        b"\x01\x00\x02\x00\x07\x02\x00\x01\x02\x03\x00\x04\x00\x01\x00\x01\x04\x00\x04\x00\x02\x01\x03\x05\x00\x01\x00",
    )
}

// Refusal 16, and what comes before it. A written shape fills its memory; a refusal changes none of it.
fn memory(rt: &impl Print) -> io::Result<()> {
    // P1's shape has 24 bytes.
    let mut short = [0xeeu8; 23];
    shape_into(rt, "P1 in 23", P1, &mut short)?;
    let mut enough = [0xeeu8; 24];
    shape_into(rt, "P1 in 24", P1, &mut enough)?;
    // A remark takes no memory.
    let mut near = [0xeeu8; 23];
    shape_into(
        rt,
        "P1 and remark in 23",
        b"\x01\x00\x02\x00\x07\x02\x00\x01\x02\x03\x00\x04\x00\x01\x00\x01\x04\x00\x04\x00\x02\x01\x03\x05\x00\x01\x01\x06\x00\x01\x41",
        &mut near,
    )?;
    let mut just = [0xeeu8; 24];
    shape_into(
        rt,
        "P1 and remark in 24",
        b"\x01\x00\x02\x00\x07\x02\x00\x01\x02\x03\x00\x04\x00\x01\x00\x01\x04\x00\x04\x00\x02\x01\x03\x05\x00\x01\x01\x06\x00\x01\x41",
        &mut just,
    )?;
    // 15 comes before 16: P8 with no memory at all.
    shape_into(rt, "P8 in 0", P8, &mut short[..0])
}

// Sound shapes of P1. Its inner face, darts 0 and 3, wants two bends more to the right than to the left.
fn sound_p1(rt: &impl Print) -> io::Result<()> {
    // The shape that we write.
    check(rt, "P1", P1, P1_SHAPE)?;
    // Both bends on dart 0: as few, but dart 0 has more.
    check(
        rt,
        "P1, bends on dart 0",
        P1,
        b"\x11\x00\x02\x00\x07\x12\x00\x02\x00\x02\x13\x00\x04\x01\x03\x03\x01\x14\x00\x04\x02\x00\x00\x00",
    )?;
    // A bend on each strip.
    check(rt, "P1, a bend on each", P1, P1_ONE_EACH)?;
    // Three to the right and one to the left on strip 1: more than the fewest.
    check(
        rt,
        "P1, four bends",
        P1,
        b"\x11\x00\x02\x00\x07\x12\x00\x02\x00\x04\x13\x00\x04\x01\x03\x03\x01\x14\x00\x04\x00\x00\x01\x03",
    )
}

// More sound shapes of P1: bends of two bytes, another angle, a remark, the fields in reversed order.
fn sound_p1_with_more(rt: &impl Print) -> io::Result<()> {
    // 255 and 253 of them: a total of two bytes.
    check(
        rt,
        "P1, 508 bends",
        P1,
        b"\x11\x00\x02\x00\x07\x12\x00\x02\x01\xfc\x13\x00\x04\x01\x03\x03\x01\x14\x00\x04\x00\x00\xfd\xff",
    )?;
    // A wider corner inside: one bend more.
    check(
        rt,
        "P1, angle 2 inside",
        P1,
        b"\x11\x00\x02\x00\x07\x12\x00\x02\x00\x03\x13\x00\x04\x02\x03\x02\x01\x14\x00\x04\x00\x00\x00\x03",
    )?;
    // The remark makes no difference.
    check(
        rt,
        "P1, with remark",
        P1,
        b"\x11\x00\x02\x00\x07\x12\x00\x02\x00\x02\x13\x00\x04\x01\x03\x03\x01\x14\x00\x04\x00\x00\x00\x02\x15\x00\x01\x41",
    )?;
    // The fields in reversed order.
    check(
        rt,
        "P1 reversed, with remark",
        P1,
        b"\x15\x00\x01\x41\x14\x00\x04\x00\x00\x00\x02\x13\x00\x04\x01\x03\x03\x01\x12\x00\x02\x00\x02\x11\x00\x02\x00\x07",
    )
}

// Sound shapes of other plates.
fn sound_others(rt: &impl Print) -> io::Result<()> {
    // The shape that we write.
    check(
        rt,
        "P3",
        P3,
        b"\x11\x00\x02\x00\x07\x12\x00\x02\x00\x00\x13\x00\x08\x01\x03\x01\x03\x01\x03\x01\x03\x14\x00\x08\x00\x00\x00\x00\x00\x00\x00\x00",
    )?;
    // A strip that bends right and left.
    check(
        rt,
        "P3, right and left",
        P3,
        b"\x11\x00\x02\x00\x07\x12\x00\x02\x00\x02\x13\x00\x08\x01\x03\x01\x03\x01\x03\x01\x03\x14\x00\x08\x01\x01\x00\x00\x00\x00\x00\x00",
    )?;
    // The shape that we write, straight on at post 1.
    check(
        rt,
        "P6",
        P6,
        b"\x11\x00\x02\x00\x07\x12\x00\x02\x00\x00\x13\x00\x04\x02\x04\x04\x02\x14\x00\x04\x00\x00\x00\x00",
    )?;
    // A corner at post 1: no bend either, and a smaller angle of dart 0.
    check(
        rt,
        "P6, cornered",
        P6,
        b"\x11\x00\x02\x00\x07\x12\x00\x02\x00\x00\x13\x00\x04\x01\x04\x04\x03\x14\x00\x04\x00\x00\x00\x00",
    )?;
    // The shape that we write.
    check(
        rt,
        "P7",
        b"\x01\x00\x02\x00\x07\x02\x00\x01\x02\x03\x00\x06\x00\x01\x00\x01\x00\x01\x04\x00\x06\x00\x02\x04\x05\x03\x01\x05\x00\x01\x01",
        b"\x11\x00\x02\x00\x07\x12\x00\x02\x00\x04\x13\x00\x06\x01\x02\x01\x01\x02\x01\x14\x00\x06\x02\x00\x00\x00\x00\x02",
    )
}

// One post, one strip from it to itself.
fn check_to_itself(rt: &impl Print) -> io::Result<()> {
    // The shape that we write.
    check(
        rt,
        "to itself",
        TO_ITSELF,
        b"\x11\x00\x02\x00\x07\x12\x00\x02\x00\x03\x13\x00\x02\x01\x03\x14\x00\x02\x03\x00",
    )?;
    // A larger angle inside takes a bend more.
    check(
        rt,
        "to itself, angle 2 inside",
        TO_ITSELF,
        b"\x11\x00\x02\x00\x07\x12\x00\x02\x00\x04\x13\x00\x02\x02\x02\x14\x00\x02\x04\x00",
    )?;
    // The inner face does not close.
    check(
        rt,
        "to itself, two bends",
        TO_ITSELF,
        b"\x11\x00\x02\x00\x07\x12\x00\x02\x00\x02\x13\x00\x02\x01\x03\x14\x00\x02\x02\x00",
    )
}

// Faults of the list come before those of the shape, and the shape's walk before the rest.
fn check_walks(rt: &impl Print) -> io::Result<()> {
    // 15 of the list before 6 of the shape.
    check(rt, "P8 and no shape", P8, b"")?;
    // 6 of the list before 1 of the shape.
    check(rt, "no list and one byte", b"", b"\x11")?;
    // One byte remains.
    check(rt, "shape of one byte", P1, b"\x11")?;
    // A tag of the plate list.
    check(rt, "list as shape", P1, P1)?;
    // A tag met before.
    check(
        rt,
        "total twice",
        P1,
        b"\x12\x00\x02\x00\x02\x12\x00\x02\x00\x02",
    )?;
    // A total has two bytes.
    check(rt, "total of one", P1, b"\x12\x00\x01\x02")?;
    // One byte of right bends is missing.
    check(
        rt,
        "shape cut",
        P1,
        b"\x11\x00\x02\x00\x07\x12\x00\x02\x00\x02\x13\x00\x04\x01\x03\x03\x01\x14\x00\x04\x00\x00\x00",
    )?;
    // No right bends.
    check(
        rt,
        "no right bends",
        P1,
        b"\x11\x00\x02\x00\x07\x12\x00\x02\x00\x02\x13\x00\x04\x01\x03\x03\x01",
    )
}

// Refusals 17 and 18 of damaged copies of P1's shape, each against the next.
fn check_lengths(rt: &impl Print) -> io::Result<()> {
    // Three angles for four darts.
    check(
        rt,
        "three angles",
        P1,
        b"\x11\x00\x02\x00\x07\x12\x00\x02\x00\x02\x13\x00\x03\x01\x03\x03\x14\x00\x04\x00\x00\x00\x02",
    )?;
    // Six right bends for four darts.
    check(
        rt,
        "six right bends",
        P1,
        b"\x11\x00\x02\x00\x07\x12\x00\x02\x00\x02\x13\x00\x04\x01\x03\x03\x01\x14\x00\x06\x00\x00\x00\x02\x00\x00",
    )?;
    // 17 comes before 18.
    check(
        rt,
        "three angles, revision 8",
        P1,
        b"\x11\x00\x02\x00\x08\x12\x00\x02\x00\x02\x13\x00\x03\x01\x03\x03\x14\x00\x04\x00\x00\x00\x02",
    )?;
    // The list has revision 7.
    check(
        rt,
        "revision 8",
        P1,
        b"\x11\x00\x02\x00\x08\x12\x00\x02\x00\x02\x13\x00\x04\x01\x03\x03\x01\x14\x00\x04\x00\x00\x00\x02",
    )?;
    // The high byte counts too. 18 comes before 19.
    check(
        rt,
        "revision 263, angle 0",
        P1,
        b"\x11\x00\x02\x01\x07\x12\x00\x02\x00\x02\x13\x00\x04\x00\x03\x04\x01\x14\x00\x04\x00\x00\x00\x02",
    )
}

// Refusals 19 and 20 of damaged copies of P1's shape, each against the next.
fn check_angles(rt: &impl Print) -> io::Result<()> {
    // An angle of 0, though the angles at both posts add to 4.
    check(
        rt,
        "angle 0",
        P1,
        b"\x11\x00\x02\x00\x07\x12\x00\x02\x00\x03\x13\x00\x04\x00\x03\x04\x01\x14\x00\x04\x00\x00\x00\x03",
    )?;
    // 19 comes before 20.
    check(
        rt,
        "angle 5",
        P1,
        b"\x11\x00\x02\x00\x07\x12\x00\x02\x00\x02\x13\x00\x04\x05\x03\x03\x01\x14\x00\x04\x00\x00\x00\x02",
    )?;
    // Angles 2 and 3 at post 1, 2 and 1 at post 0; both faces are right.
    check(
        rt,
        "angles at posts",
        P1,
        b"\x11\x00\x02\x00\x07\x12\x00\x02\x00\x03\x13\x00\x04\x02\x02\x03\x01\x14\x00\x04\x00\x00\x00\x03",
    )?;
    // 20 comes before 21.
    check(
        rt,
        "angles at a post",
        P1,
        b"\x11\x00\x02\x00\x07\x12\x00\x02\x00\x02\x13\x00\x04\x01\x03\x03\x02\x14\x00\x04\x00\x00\x00\x02",
    )
}

// Refusals 21 and 22 of damaged copies of P1's shape, each against the next.
fn check_turns(rt: &impl Print) -> io::Result<()> {
    // A bend too few.
    check(
        rt,
        "one bend",
        P1,
        b"\x11\x00\x02\x00\x07\x12\x00\x02\x00\x01\x13\x00\x04\x01\x03\x03\x01\x14\x00\x04\x00\x00\x00\x01",
    )?;
    // The bends on the other side of the strip.
    check(
        rt,
        "bends on dart 2",
        P1,
        b"\x11\x00\x02\x00\x07\x12\x00\x02\x00\x02\x13\x00\x04\x01\x03\x03\x01\x14\x00\x04\x00\x00\x02\x00",
    )?;
    // 21 comes before 22.
    check(
        rt,
        "one bend, total 2",
        P1,
        b"\x11\x00\x02\x00\x07\x12\x00\x02\x00\x02\x13\x00\x04\x01\x03\x03\x01\x14\x00\x04\x00\x00\x00\x01",
    )?;
    // Each bend counts once.
    check(
        rt,
        "total 4",
        P1,
        b"\x11\x00\x02\x00\x07\x12\x00\x02\x00\x04\x13\x00\x04\x01\x03\x03\x01\x14\x00\x04\x00\x00\x00\x02",
    )
}

// Limits of bends: the shape within them, 23 and 24.
fn bend_limits(rt: &impl Print) -> io::Result<()> {
    // Each strip of P1 takes one of the two bends.
    shape(rt, "P1, limits 1 1", P1_LIMITS_1_1)?;
    // Both bends on strip 0.
    shape(
        rt,
        "P1, limits 255 0",
        b"\x01\x00\x02\x00\x07\x02\x00\x01\x02\x03\x00\x04\x00\x01\x00\x01\x04\x00\x04\x00\x02\x01\x03\x05\x00\x01\x01\x07\x00\x02\xff\x00",
    )?;
    // No limit.
    shape(
        rt,
        "P1, limits 255 255",
        b"\x01\x00\x02\x00\x07\x02\x00\x01\x02\x03\x00\x04\x00\x01\x00\x01\x04\x00\x04\x00\x02\x01\x03\x05\x00\x01\x01\x07\x00\x02\xff\xff",
    )?;
    // Strip 0 of P7 may bend once: a bend more than with no limit.
    shape(
        rt,
        "P7, limits 1 255 255",
        b"\x01\x00\x02\x00\x07\x02\x00\x01\x02\x03\x00\x06\x00\x01\x00\x01\x00\x01\x04\x00\x06\x00\x02\x04\x05\x03\x01\x05\x00\x01\x01\x07\x00\x03\x01\xff\xff",
    )?;
    // The inner face wants two bends.
    shape(rt, "P1, limits 1 0", P1_LIMITS_1_0)
}

// Limits of bends in memory one byte short: 24 and 16.
fn bend_limits_in_23(rt: &impl Print) -> io::Result<()> {
    let mut short = [0xeeu8; 23];
    // 24 comes before 16.
    shape_into(rt, "P1, limits 1 0, in 23", P1_LIMITS_1_0, &mut short)?;
    // Where some shape keeps the limits there is 16.
    shape_into(rt, "P1, limits 1 1, in 23", P1_LIMITS_1_1, &mut short)
}

// Limits of bends that are refused, and what comes before them.
fn limits_refused(rt: &impl Print) -> io::Result<()> {
    // One limit for two strips.
    shape(
        rt,
        "P1, one limit",
        b"\x01\x00\x02\x00\x07\x02\x00\x01\x02\x03\x00\x04\x00\x01\x00\x01\x04\x00\x04\x00\x02\x01\x03\x05\x00\x01\x01\x07\x00\x01\x01",
    )?;
    // No limit at all is not one for each strip.
    shape(
        rt,
        "P1, empty limits",
        b"\x01\x00\x02\x00\x07\x02\x00\x01\x02\x03\x00\x04\x00\x01\x00\x01\x04\x00\x04\x00\x02\x01\x03\x05\x00\x01\x01\x07\x00\x00",
    )?;
    // 15 comes before 23.
    shape(
        rt,
        "P8, one limit",
        b"\x01\x00\x02\x00\x07\x02\x00\x01\x02\x03\x00\x06\x00\x01\x00\x01\x00\x01\x04\x00\x06\x00\x02\x04\x01\x03\x05\x05\x00\x01\x01\x07\x00\x01\x01",
    )?;
    // Tags ascend.
    shape(
        rt,
        "P1, limits, then a remark",
        b"\x01\x00\x02\x00\x07\x02\x00\x01\x02\x03\x00\x04\x00\x01\x00\x01\x04\x00\x04\x00\x02\x01\x03\x05\x00\x01\x01\x07\x00\x02\x01\x01\x06\x00\x00",
    )
}

// Limits of bends against shape files: 25, and what comes before it.
fn check_limits(rt: &impl Print) -> io::Result<()> {
    // The shape that we write within the limits.
    check(rt, "P1, limits 1 1", P1_LIMITS_1_1, P1_ONE_EACH)?;
    // As few bends, but two on strip 1.
    check(
        rt,
        "P1, limits 1 1, bends on dart 3",
        P1_LIMITS_1_1,
        P1_SHAPE,
    )?;
    // 22 comes before 25.
    check(
        rt,
        "P1, limits 1 1, total 4",
        P1_LIMITS_1_1,
        b"\x11\x00\x02\x00\x07\x12\x00\x02\x00\x04\x13\x00\x04\x01\x03\x03\x01\x14\x00\x04\x00\x00\x00\x02",
    )?;
    // No shape keeps the limits, so each passes one.
    check(rt, "P1, limits 1 0", P1_LIMITS_1_0, P1_ONE_EACH)
}

// Bends to both sides, the fewest within limits, and 23 before all of the shape file.
fn check_more_limits(rt: &impl Print) -> io::Result<()> {
    // Bends to both sides count.
    check(
        rt,
        "P1, limits 3 255",
        b"\x01\x00\x02\x00\x07\x02\x00\x01\x02\x03\x00\x04\x00\x01\x00\x01\x04\x00\x04\x00\x02\x01\x03\x05\x00\x01\x01\x07\x00\x02\x03\xff",
        b"\x11\x00\x02\x00\x07\x12\x00\x02\x00\x04\x13\x00\x04\x01\x03\x03\x01\x14\x00\x04\x03\x01\x00\x00",
    )?;
    // The fewest are those within the limits.
    check(
        rt,
        "P7, limits 1 255 255",
        b"\x01\x00\x02\x00\x07\x02\x00\x01\x02\x03\x00\x06\x00\x01\x00\x01\x00\x01\x04\x00\x06\x00\x02\x04\x05\x03\x01\x05\x00\x01\x01\x07\x00\x03\x01\xff\xff",
        b"\x11\x00\x02\x00\x07\x12\x00\x02\x00\x05\x13\x00\x06\x01\x02\x01\x01\x02\x01\x14\x00\x06\x01\x00\x00\x01\x00\x03",
    )?;
    // 23 comes before all of the shape file.
    check(
        rt,
        "P1, one limit, no shape",
        b"\x01\x00\x02\x00\x07\x02\x00\x01\x02\x03\x00\x04\x00\x01\x00\x01\x04\x00\x04\x00\x02\x01\x03\x05\x00\x01\x01\x07\x00\x01\x01",
        b"",
    )
}

// Prices of bends: the least sum first, then, with as many cornered posts, the fewest bends.
fn prices(rt: &impl Print) -> io::Result<()> {
    // Both bends on the cheaper strip.
    shape(rt, "P1, prices 1 2", P1_PRICES_1_2)?;
    // All prices alike: the shape is the one without prices.
    shape(
        rt,
        "P1, prices 100 100",
        b"\x01\x00\x02\x00\x07\x02\x00\x01\x02\x03\x00\x04\x00\x01\x00\x01\x04\x00\x04\x00\x02\x01\x03\x05\x00\x01\x01\x08\x00\x02\x64\x64",
    )?;
    // Within the limits.
    shape(rt, "P1, limits 1 1, prices 1 2", P1_LIMITS_PRICES)?;
    // Six bends on strips 0 and 1 cost less than four of which two are on strip 2.
    shape(
        rt,
        "P7, prices 1 1 9",
        b"\x01\x00\x02\x00\x07\x02\x00\x01\x02\x03\x00\x06\x00\x01\x00\x01\x00\x01\x04\x00\x06\x00\x02\x04\x05\x03\x01\x05\x00\x01\x01\x08\x00\x03\x01\x01\x09",
    )?;
    // Four, five and six bends cost 6 each: four.
    shape(
        rt,
        "P7, prices 1 1 2",
        b"\x01\x00\x02\x00\x07\x02\x00\x01\x02\x03\x00\x06\x00\x01\x00\x01\x00\x01\x04\x00\x06\x00\x02\x04\x05\x03\x01\x05\x00\x01\x01\x08\x00\x03\x01\x01\x02",
    )?;
    // Seven, eight and nine bends cost 10 each, and only with eight post 2 is straight: eight.
    shape(
        rt,
        "five strips, prices 1 1 1 1 2",
        b"\x01\x00\x02\x00\x07\x02\x00\x01\x03\x03\x00\x0a\x00\x01\x00\x01\x00\x02\x02\x01\x00\x01\x04\x00\x0a\x00\x02\x04\x08\x09\x07\x03\x01\x05\x06\x05\x00\x01\x01\x08\x00\x05\x01\x01\x01\x01\x02",
    )?;
    // A shape with a sum is 7 bytes longer.
    let mut short = [0xeeu8; 30];
    shape_into(rt, "P1, prices 1 2, in 30", P1_PRICES_1_2, &mut short)
}

// Prices that are refused, and what comes before and behind them.
fn prices_refused(rt: &impl Print) -> io::Result<()> {
    // One price for two strips.
    shape(
        rt,
        "P1, one price",
        b"\x01\x00\x02\x00\x07\x02\x00\x01\x02\x03\x00\x04\x00\x01\x00\x01\x04\x00\x04\x00\x02\x01\x03\x05\x00\x01\x01\x08\x00\x01\x01",
    )?;
    // A bend costs something.
    shape(
        rt,
        "P1, prices 0 1",
        b"\x01\x00\x02\x00\x07\x02\x00\x01\x02\x03\x00\x04\x00\x01\x00\x01\x04\x00\x04\x00\x02\x01\x03\x05\x00\x01\x01\x08\x00\x02\x00\x01",
    )?;
    // At most 100.
    shape(
        rt,
        "P1, prices 1 101",
        b"\x01\x00\x02\x00\x07\x02\x00\x01\x02\x03\x00\x04\x00\x01\x00\x01\x04\x00\x04\x00\x02\x01\x03\x05\x00\x01\x01\x08\x00\x02\x01\x65",
    )?;
    // 23 comes before 38.
    shape(
        rt,
        "P1, one limit, one price",
        b"\x01\x00\x02\x00\x07\x02\x00\x01\x02\x03\x00\x04\x00\x01\x00\x01\x04\x00\x04\x00\x02\x01\x03\x05\x00\x01\x01\x07\x00\x01\x01\x08\x00\x01\x01",
    )?;
    // 38 comes before 24.
    shape(
        rt,
        "P1, limits 1 0, one price",
        b"\x01\x00\x02\x00\x07\x02\x00\x01\x02\x03\x00\x04\x00\x01\x00\x01\x04\x00\x04\x00\x02\x01\x03\x05\x00\x01\x01\x07\x00\x02\x01\x00\x08\x00\x01\x01",
    )
}

// Sums of shape files: 39, and what comes before it.
fn check_sums(rt: &impl Print) -> io::Result<()> {
    check(rt, "P1, prices 1 2", P1_PRICES_1_2, P1_PRICED)?;
    // Sound, but not ours: the least sum is 2.
    check(
        rt,
        "P1, prices 1 2, bends on dart 3",
        P1_PRICES_1_2,
        P1_SHAPE_COSTS_4,
    )?;
    // No sum for a list with prices.
    check(rt, "P1, prices 1 2, no sum", P1_PRICES_1_2, P1_SHAPE)?;
    // A sum for a list without prices.
    check(rt, "P1, a sum", P1, P1_PRICED)?;
    // The sum of other bends.
    check(
        rt,
        "P1, prices 1 2, sum 3",
        P1_PRICES_1_2,
        b"\x11\x00\x02\x00\x07\x12\x00\x02\x00\x02\x13\x00\x04\x01\x03\x03\x01\x14\x00\x04\x02\x00\x00\x00\x16\x00\x04\x00\x00\x00\x03",
    )?;
    // 25 comes before 39.
    check(
        rt,
        "P1, limits 1 1, prices 1 2, no sum",
        P1_LIMITS_PRICES,
        P1_SHAPE,
    )
}

// To text and back with prices: 39 going, the sum coming back.
fn texts_priced(rt: &impl Print) -> io::Result<()> {
    text(rt, "P1, prices 1 2", P1_PRICES_1_2, P1_PRICED)?;
    text(rt, "P1, prices 1 2, no sum", P1_PRICES_1_2, P1_SHAPE)?;
    back(rt, "P1, prices 1 2", P1_PRICES_1_2, P1_TEXT)
}

// The heads of the six fields of the longest list without limits and prices: 64 posts, 256 bytes of strips and of order, a remark of 80 zeros.
fn ring_heads() -> [u8; 614] {
    let mut list = [0u8; 614];
    list[0] = 0x01;
    list[2] = 2;
    list[4] = 7;
    list[5] = 0x02;
    list[7] = 1;
    list[8] = 64;
    list[9] = 0x03;
    list[10] = 1;
    list[268] = 0x04;
    list[269] = 1;
    list[527] = 0x05;
    list[529] = 1;
    list[530] = 1;
    list[531] = 0x06;
    list[533] = 80;
    list
}

// Two strips go from post v to the next, strip 2v outside and strip 2v + 1 inside. Clockwise at a post: outside and
// inside to the next post, inside and outside to the one before.
fn ring_post(list: &mut [u8; 614], v: u8)
    requires { v < 64 }
{
    let next = (v + 1) % 64;
    let before = (v + 63) % 64;
    let at = 4 * usize::from(v);
    list[12 + at] = v;
    list[13 + at] = next;
    list[14 + at] = v;
    list[15 + at] = next;
    list[271 + at] = 4 * v;
    list[272 + at] = 4 * v + 2;
    list[273 + at] = 4 * before + 3;
    list[274 + at] = 4 * before + 1;
}

fn ring_list() -> [u8; 614] {
    let mut list = ring_heads();
    for v in 0..64 {
        ring_post(&mut list, v);
    }
    list
}

// The largest plate: 64 posts, 128 strips, a list of 614 bytes. All corners have one quarter. In each pair outside less
// inside is 2, and over all pairs outside adds to 68, so 128 bends are the fewest; the first order puts two to the left
// on the inside strips of pairs 0 to 29, and two to the right on the outside strips of the others.
fn ring_of_64(rt: &impl Print) -> io::Result<()> {
    let list = ring_list();
    let mut memory = [0xeeu8; 640];
    shape_into(rt, "ring of 64", &list, &mut memory)
}

// Converts a shape file to its text. Three slices, as the call that is tried takes them.
fn text_into(
    rt: &impl Print,
    label: &str,
    list: &[u8],
    shape: &[u8],
    memory: &mut [u8],
) -> io::Result<()> {
    let listed = write_text(list, shape, memory);
    print!(rt; "text {label}")?;
    match listed {
        Ok(long) => {
            print!(rt; ": 0 length {long}")?;
            let (text, behind) = memory.split_at(memory.len().min(long));
            say_untouched(rt, "behind", behind)?;
            rt.write_all(text)
        }
        Err(refusal) => say_refused(rt, refusal, memory),
    }
}

fn text(rt: &impl Print, label: &str, list: &[u8], shape: &[u8]) -> io::Result<()> {
    let mut memory = [0xeeu8; 60];
    text_into(rt, label, list, shape, &mut memory)
}

// Converts a text to its shape file. Three slices, as the call that is tried takes them.
fn back_into(
    rt: &impl Print,
    label: &str,
    list: &[u8],
    text: &[u8],
    memory: &mut [u8],
) -> io::Result<()> {
    let shaped = read_text(list, text, memory);
    say_shaped(rt, "back", label, shaped, memory)
}

fn back(rt: &impl Print, label: &str, list: &[u8], text: &[u8]) -> io::Result<()> {
    let mut memory = [0xeeu8; 60];
    back_into(rt, label, list, text, &mut memory)
}

// To text: P1, P2, a strip to itself, a shape that is not ours; a remark of a file, which is passed over.
fn texts(rt: &impl Print) -> io::Result<()> {
    text(rt, "P1", P1, P1_SHAPE)?;
    text(
        rt,
        "P2",
        b"\x01\x00\x02\x00\x07\x02\x00\x01\x03\x03\x00\x06\x00\x01\x01\x02\x02\x00\x04\x00\x06\x00\x05\x01\x02\x03\x04\x05\x00\x01\x01",
        b"\x11\x00\x02\x00\x07\x12\x00\x02\x00\x01\x13\x00\x06\x01\x03\x01\x03\x01\x03\x14\x00\x06\x00\x00\x00\x00\x01\x00",
    )?;
    text(
        rt,
        "one strip to itself",
        TO_ITSELF,
        b"\x11\x00\x02\x00\x07\x12\x00\x02\x00\x03\x13\x00\x02\x01\x03\x14\x00\x02\x03\x00",
    )?;
    text(
        rt,
        "P1, bends on dart 0",
        P1,
        b"\x11\x00\x02\x00\x07\x12\x00\x02\x00\x02\x13\x00\x04\x01\x03\x03\x01\x14\x00\x04\x02\x00\x00\x00",
    )?;
    text(
        rt,
        "P1, with remark",
        P1,
        b"\x11\x00\x02\x00\x07\x12\x00\x02\x00\x02\x13\x00\x04\x01\x03\x03\x01\x14\x00\x04\x00\x00\x00\x02\x15\x00\x01\x41",
    )
}

// Back: P1, a shape that is not ours, a strip to itself; a remark of a list, which is passed over.
fn texts_back(rt: &impl Print) -> io::Result<()> {
    back(rt, "P1", P1, P1_TEXT)?;
    back(
        rt,
        "P1, bends on dart 0",
        P1,
        b"1 11 3 2 - 3\n0 00 1 3 - 1\n",
    )?;
    back(
        rt,
        "P1 and remark",
        b"\x01\x00\x02\x00\x07\x02\x00\x01\x02\x03\x00\x04\x00\x01\x00\x01\x04\x00\x04\x00\x02\x01\x03\x05\x00\x01\x01\x06\x00\x02\x48\x69",
        P1_TEXT,
    )?;
    back(rt, "one strip to itself", TO_ITSELF, b"1 111 3\n0 000 1\n")
}

// To text: the list, 19, 22, 25, then 31.
fn texts_refused(rt: &impl Print) -> io::Result<()> {
    text(
        rt,
        "P1, list cut",
        b"\x01\x00\x02\x00\x07\x02\x00\x01\x02\x03\x00\x04\x00\x01\x00\x01\x04\x00\x04\x00\x02\x01\x03\x05\x00\x01",
        P1_SHAPE,
    )?;
    text(
        rt,
        "P1, an angle of 5",
        P1,
        b"\x11\x00\x02\x00\x07\x12\x00\x02\x00\x02\x13\x00\x04\x05\x03\x03\x01\x14\x00\x04\x00\x00\x00\x02",
    )?;
    text(
        rt,
        "P1, total 3",
        P1,
        b"\x11\x00\x02\x00\x07\x12\x00\x02\x00\x03\x13\x00\x04\x01\x03\x03\x01\x14\x00\x04\x00\x00\x00\x02",
    )?;
    text(
        rt,
        "P1, limits 2 1",
        b"\x01\x00\x02\x00\x07\x02\x00\x01\x02\x03\x00\x04\x00\x01\x00\x01\x04\x00\x04\x00\x02\x01\x03\x05\x00\x01\x01\x07\x00\x02\x02\x01",
        P1_SHAPE,
    )?;
    text(rt, "P1, strip 0 both ways", P1, P1_BOTH_WAYS)?;
    text(
        rt,
        "P1, strip 0 both ways, limits 1 2",
        b"\x01\x00\x02\x00\x07\x02\x00\x01\x02\x03\x00\x04\x00\x01\x00\x01\x04\x00\x04\x00\x02\x01\x03\x05\x00\x01\x01\x07\x00\x02\x01\x02",
        P1_BOTH_WAYS,
    )
}

// Back: the list, then 30, 31, 32.
fn lines_refused(rt: &impl Print) -> io::Result<()> {
    back(rt, "P8, no text", P8, b"")?;
    back(rt, "no text", P1, b"")?;
    back(rt, "last line not ended", P1, b"1 - 3 2 11 3\n0 - 1 3 00 1")?;
    back(rt, "leading zero", P1, b"01 - 3 2 11 3\n0 - 1 3 00 1\n")?;
    back(rt, "both digits", P1, b"1 - 3 2 10 3\n0 - 1 3 10 1\n")?;
    back(rt, "both digits, then no angle", P1, b"1 - 3 2 10 3\n0 -\n")?;
    back(rt, "inner face first", P1, b"0 - 1 3 00 1\n1 - 3 2 11 3\n")?;
    back(rt, "from dart 2", P1, b"2 11 3 1 - 3\n0 - 1 3 00 1\n")?;
    back(rt, "dart 257", P1, b"257 - 3 2 11 3\n0 - 1 3 00 1\n")?;
    back(
        rt,
        "words that disagree",
        P1,
        b"1 - 3 2 1 3\n0 - 1 3 00 1\n",
    )
}

// Back: 20, 21, 25, and never 24.
fn counts_refused(rt: &impl Print) -> io::Result<()> {
    back(rt, "angles at post 0", P1, b"1 - 4 2 11 3\n0 - 1 3 00 1\n")?;
    back(rt, "one bend", P1, b"1 - 3 2 1 3\n0 - 1 3 0 1\n")?;
    back(
        rt,
        "P1, limits 2 1",
        b"\x01\x00\x02\x00\x07\x02\x00\x01\x02\x03\x00\x04\x00\x01\x00\x01\x04\x00\x04\x00\x02\x01\x03\x05\x00\x01\x01\x07\x00\x02\x02\x01",
        P1_TEXT,
    )?;
    back(rt, "P1, limits 1 0, no shape", P1_LIMITS_1_0, P1_TEXT)
}

// To text: memory one byte short, and just enough; 31 before 16.
fn text_memory(rt: &impl Print) -> io::Result<()> {
    let mut short = [0xeeu8; 25];
    text_into(rt, "P1 in 25", P1, P1_SHAPE, &mut short)?;
    let mut enough = [0xeeu8; 26];
    text_into(rt, "P1 in 26", P1, P1_SHAPE, &mut enough)?;
    let mut none = [0xeeu8; 0];
    text_into(
        rt,
        "P1, strip 0 both ways, in 0",
        P1,
        P1_BOTH_WAYS,
        &mut none,
    )
}

// Back: memory one byte short, and just enough.
fn back_memory(rt: &impl Print) -> io::Result<()> {
    let mut less = [0xeeu8; 23];
    back_into(rt, "P1 in 23", P1, P1_TEXT, &mut less)?;
    let mut just = [0xeeu8; 24];
    back_into(rt, "P1 in 24", P1, P1_TEXT, &mut just)
}

// Remarks: one, one of no bytes, none.
fn remarks(rt: &impl Print) -> io::Result<()> {
    remark(
        rt,
        "P1 and remark",
        b"\x01\x00\x02\x00\x07\x02\x00\x01\x02\x03\x00\x04\x00\x01\x00\x01\x04\x00\x04\x00\x02\x01\x03\x05\x00\x01\x01\x06\x00\x02\x48\x69",
    )?;
    remark(
        rt,
        "P1 and empty remark",
        b"\x01\x00\x02\x00\x07\x02\x00\x01\x02\x03\x00\x04\x00\x01\x00\x01\x04\x00\x04\x00\x02\x01\x03\x05\x00\x01\x01\x06\x00\x00",
    )?;
    remark(rt, "P1, limits and prices", P1_LIMITS_PRICES)
}

fn main(rt: HostRuntime) -> io::Result<()> {
    first_plates(&rt)?;
    more_plates(&rt)?;
    limits(&rt)?;
    walk_refusals(&rt)?;
    first_in_walk(&rt)?;
    post_counts(&rt)?;
    strips(&rt)?;
    strips_to_itself(&rt)?;
    order_and_whole(&rt)?;
    whole_plates(&rt)?;
    copies(&rt)?;
    memory(&rt)?;
    ring_of_64(&rt)?;
    sound_p1(&rt)?;
    sound_p1_with_more(&rt)?;
    sound_others(&rt)?;
    check_to_itself(&rt)?;
    check_walks(&rt)?;
    check_lengths(&rt)?;
    check_angles(&rt)?;
    check_turns(&rt)?;
    bend_limits(&rt)?;
    bend_limits_in_23(&rt)?;
    limits_refused(&rt)?;
    check_limits(&rt)?;
    check_more_limits(&rt)?;
    prices(&rt)?;
    prices_refused(&rt)?;
    check_sums(&rt)?;
    texts(&rt)?;
    texts_back(&rt)?;
    texts_refused(&rt)?;
    lines_refused(&rt)?;
    counts_refused(&rt)?;
    texts_priced(&rt)?;
    text_memory(&rt)?;
    back_memory(&rt)?;
    remarks(&rt)
}
