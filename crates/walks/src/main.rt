//! Walks short files, with the number of each; puts older ones in order; then writes fields and shows their bytes.
#![tactic(auto)]

ghost use Rattle.std.specs.Prelude.{◌≤◌, length};

use fields::ordering::order_fields;
use fields::writing::write_field;
use fields::{walk_list, walk_older, walk_shape};
use refusals::Refusal;
use std::io;

// Writes a line: the file, the case and the number of its refusal, 0 where there is none.
fn show(rt: &impl Print, file: &[u8], label: &[u8], refusal: Option<Refusal>) -> io::Result<()> {
    let number = refusal.map_or(0, Refusal::number);
    rt.write_all(file)?;
    rt.write_all(label)?;
    rt.write_all(b": ")?;
    println!(rt; "{number}")
}

// A label and a file, here and below, are a case; a struct of both makes each call longer.
fn list(rt: &impl Print, label: &[u8], s: &[u8]) -> io::Result<()> {
    show(rt, b"list ", label, walk_list(s).err())
}

fn shape(rt: &impl Print, label: &[u8], s: &[u8]) -> io::Result<()> {
    show(rt, b"shape ", label, walk_shape(s).err())
}

// An older file in any order, of the kind that `walk_older` is told.
fn older(rt: &impl Print, label: &[u8], s: &[u8], is_shape: bool) -> io::Result<()> {
    show(rt, b"older ", label, walk_older(s, is_shape).err())
}

// Writes fields of zeros, of these tags and lengths, as many as there is room for, and gives their bytes.
fn zeros<'a>(out: &'a mut [u8], fields: &[(u8, usize)]) -> &'a [u8]
    ensures { length result.now ≤ length out.old }
{
    let content = [0u8; 4096];
    let mut at = 0;
    for (tag, long) in fields {
        if *long > content.len() || out.len() - at < 3 + *long {
            break;
        }
        at = write_field(out, at, *tag, &content[..*long]);
    }
    &out[..at]
}

// A list of fields of zeros, of these lengths for strips, order, remark, limits and prices of bends.
fn long_list(
    rt: &impl Print,
    label: &[u8],
    [strips, order, remark, limits, prices]: [usize; 5],
) -> io::Result<()> {
    let fields = [
        (0x01, 2),
        (0x02, 1),
        (0x03, strips),
        (0x04, order),
        (0x05, 1),
        (0x06, remark),
        (0x07, limits),
        (0x08, prices),
    ];
    let mut s = [0u8; 4096];
    list(rt, label, zeros(&mut s, &fields))
}

// A shape of fields of zeros, of these lengths for angles, right bends, remark and sum.
fn long_shape(
    rt: &impl Print,
    label: &[u8],
    [angles, rights, remark, sum]: [usize; 4],
) -> io::Result<()> {
    let fields = [
        (0x11, 2),
        (0x12, 2),
        (0x13, angles),
        (0x14, rights),
        (0x15, remark),
        (0x16, sum),
    ];
    let mut s = [0u8; 4096];
    shape(rt, label, zeros(&mut s, &fields))
}

// Where the walk over a list ends.
fn list_ends(rt: &impl Print) -> io::Result<()> {
    // No byte ends the walk; every field is absent.
    list(rt, b"empty", b"")?;
    // One byte remains.
    list(rt, b"one byte", b"\x01")?;
    // Two bytes remain.
    list(rt, b"two bytes", b"\x01\x00")?;
    // 1 comes before 2.
    list(rt, b"other tag, two bytes", b"\x09\x00")?;
    // Every field but the remark, in tag order; none remains.
    list(
        rt,
        b"P1",
        b"\x01\x00\x02\x00\x07\x02\x00\x01\x02\x03\x00\x04\x00\x01\x00\x01\x04\x00\x04\x00\x02\x01\x03\x05\x00\x01\x01",
    )?;
    // The whole of P1, and one byte remains.
    list(
        rt,
        b"P1 and one byte",
        b"\x01\x00\x02\x00\x07\x02\x00\x01\x02\x03\x00\x04\x00\x01\x00\x01\x04\x00\x04\x00\x02\x01\x03\x05\x00\x01\x01\x06",
    )?;
    // The whole of P1, and two bytes remain.
    list(
        rt,
        b"P1 and two bytes",
        b"\x01\x00\x02\x00\x07\x02\x00\x01\x02\x03\x00\x04\x00\x01\x00\x01\x04\x00\x04\x00\x02\x01\x03\x05\x00\x01\x01\x06\x00",
    )?;
    // 1 in the walk comes before 6 after it.
    list(rt, b"revision and one byte", b"\x01\x00\x02\x00\x07\x02")
}

// Tags of a list.
fn list_tags(rt: &impl Print) -> io::Result<()> {
    // Below the first tag.
    list(rt, b"tag 00", b"\x00\x00\x00")?;
    // Behind the last tag.
    list(rt, b"tag 09", b"\x09\x00\x00")?;
    // A tag of the shape file.
    list(rt, b"tag 11", b"\x11\x00\x02\x00\x07")?;
    // 2 comes before 4 and 5.
    list(rt, b"tag FF", b"\xff\xff\xff")?;
    // A tag met before.
    list(rt, b"02 twice", b"\x02\x00\x01\x02\x02\x00\x01\x02")?;
    // 3 comes before 4 and 5.
    list(
        rt,
        b"02 twice, second too long",
        b"\x02\x00\x01\x02\x02\x00\x09\x02",
    )?;
    // Tags ascend.
    list(
        rt,
        b"reversed",
        b"\x05\x00\x01\x01\x04\x00\x04\x00\x02\x01\x03\x03\x00\x04\x00\x01\x00\x01\x02\x00\x01\x02\x01\x00\x02\x00\x07",
    )?;
    // The remark in front of all others: the second field is refused.
    list(
        rt,
        b"remark first",
        b"\x06\x00\x01\x41\x01\x00\x02\x00\x07\x02\x00\x01\x02\x03\x00\x04\x00\x01\x00\x01\x04\x00\x04\x00\x02\x01\x03\x05\x00\x01\x01",
    )
}

// Lengths of the fields of a list.
fn list_lengths(rt: &impl Print) -> io::Result<()> {
    // The revision has 2 bytes.
    list(rt, b"01 of 1", b"\x01\x00\x01\x07")?;
    // The revision has 2 bytes.
    list(rt, b"01 of 3", b"\x01\x00\x03\x00\x07\x00")?;
    // The number of posts has 1 byte.
    list(rt, b"02 of 0", b"\x02\x00\x00")?;
    // The number of posts has 1 byte.
    list(rt, b"02 of 2", b"\x02\x00\x02\x02\x02")?;
    // The outer dart has 1 byte.
    list(rt, b"05 of 2", b"\x05\x00\x02\x01\x01")?;
    // The length of the strips is even.
    list(rt, b"03 of 3", b"\x03\x00\x03\x00\x01\x00")?;
    // The high byte is first: 256, and 4 comes before 5.
    list(rt, b"06 of 256", b"\x06\x01\x00")?;
    // A remark has at most 80 bytes; 4 comes before 5.
    list(rt, b"06 of 81", b"\x06\x00\x51")
}

// Contents that pass the end of a list.
fn list_passes(rt: &impl Print) -> io::Result<()> {
    // A length of 80 is as laid out; no content stands there.
    list(rt, b"06 of 80, none there", b"\x06\x00\x50")?;
    // The low byte is last: 1.
    list(rt, b"06 of 1, none there", b"\x06\x00\x01")?;
    // One byte of two.
    list(rt, b"01 of 2, one there", b"\x01\x00\x02\x00")?;
    // The last field alone passes the end.
    list(
        rt,
        b"last byte of P1 cut",
        b"\x01\x00\x02\x00\x07\x02\x00\x01\x02\x03\x00\x04\x00\x01\x00\x01\x04\x00\x04\x00\x02\x01\x03\x05\x00\x01",
    )?;
    // A field that ends where the file ends does not pass it.
    list(rt, b"01 ends at the end", b"\x01\x00\x02\x00\x07")
}

// A field of a list is absent.
fn list_absent(rt: &impl Print) -> io::Result<()> {
    // The revision is absent.
    list(
        rt,
        b"no 01",
        b"\x02\x00\x01\x02\x03\x00\x04\x00\x01\x00\x01\x04\x00\x04\x00\x02\x01\x03\x05\x00\x01\x01",
    )?;
    // The number of posts is absent.
    list(
        rt,
        b"no 02",
        b"\x01\x00\x02\x00\x07\x03\x00\x04\x00\x01\x00\x01\x04\x00\x04\x00\x02\x01\x03\x05\x00\x01\x01",
    )?;
    // The strips are absent.
    list(
        rt,
        b"no 03",
        b"\x01\x00\x02\x00\x07\x02\x00\x01\x02\x04\x00\x04\x00\x02\x01\x03\x05\x00\x01\x01",
    )?;
    // The order is absent.
    list(
        rt,
        b"no 04",
        b"\x01\x00\x02\x00\x07\x02\x00\x01\x02\x03\x00\x04\x00\x01\x00\x01\x05\x00\x01\x01",
    )?;
    // The outer dart is absent.
    list(
        rt,
        b"no 05",
        b"\x01\x00\x02\x00\x07\x02\x00\x01\x02\x03\x00\x04\x00\x01\x00\x01\x04\x00\x04\x00\x02\x01\x03",
    )
}

// Fields of no bytes.
fn list_empty(rt: &impl Print) -> io::Result<()> {
    // A remark stands for no other field.
    list(
        rt,
        b"no 05, remark",
        b"\x01\x00\x02\x00\x07\x02\x00\x01\x02\x03\x00\x04\x00\x01\x00\x01\x04\x00\x04\x00\x02\x01\x03\x06\x00\x00",
    )?;
    // A remark of no bytes.
    list(
        rt,
        b"empty remark",
        b"\x01\x00\x02\x00\x07\x02\x00\x01\x02\x03\x00\x04\x00\x01\x00\x01\x04\x00\x04\x00\x02\x01\x03\x05\x00\x01\x01\x06\x00\x00",
    )?;
    // No strips is no refusal of the walk.
    list(
        rt,
        b"empty 03 and 04",
        b"\x01\x00\x02\x00\x07\x02\x00\x01\x02\x03\x00\x00\x04\x00\x00\x05\x00\x01\x01",
    )
}

// A tag below the previous one.
fn list_below(rt: &impl Print) -> io::Result<()> {
    // 2 comes before 29.
    list(rt, b"05, then 00", b"\x05\x00\x01\x01\x00\x00\x00")?;
    // 3 comes before 29.
    list(
        rt,
        b"02, 05, 02",
        b"\x02\x00\x01\x02\x05\x00\x01\x01\x02\x00\x01\x02",
    )?;
    // 29 comes before 4.
    list(
        rt,
        b"05, then 02 of 2",
        b"\x05\x00\x01\x01\x02\x00\x02\x02\x02",
    )?;
    // 29 comes before 5.
    list(rt, b"05, then 04 cut", b"\x05\x00\x01\x01\x04\x00\x04\x00")?;
    // 29 at a field comes before 1 behind it.
    list(
        rt,
        b"02, 01, one byte",
        b"\x02\x00\x01\x02\x01\x00\x02\x00\x07\x03",
    )?;
    // Two neighbours exchanged.
    list(
        rt,
        b"04, 03",
        b"\x01\x00\x02\x00\x07\x02\x00\x01\x02\x04\x00\x00\x03\x00\x00\x05\x00\x01\x01",
    )?;
    // 4 at a field before it counts first.
    list(
        rt,
        b"05 of 2, then 02",
        b"\x05\x00\x02\x01\x01\x02\x00\x01\x02",
    )
}

// Two faults in one list: the earlier place counts.
fn list_two(rt: &impl Print) -> io::Result<()> {
    // A length, then a tag.
    list(rt, b"4, then 2", b"\x02\x00\x02\x01\x01\x09\x00\x00")?;
    // A tag, then one byte.
    list(rt, b"2, then 1", b"\x09\x00\x00\x01")?;
    // A tag met before, then one byte.
    list(
        rt,
        b"3, then 1",
        b"\x01\x00\x02\x00\x07\x01\x00\x02\x00\x07\x02",
    )?;
    // A length, then a tag met before.
    list(
        rt,
        b"4, then 3",
        b"\x02\x00\x01\x02\x05\x00\x00\x02\x00\x01\x02",
    )?;
    // A tag, then a content that passes the end.
    list(rt, b"2, then 5", b"\x10\x00\x00\x01\x00\x02\x00")
}

// Where the walk over a shape ends.
fn shape_ends(rt: &impl Print) -> io::Result<()> {
    // No byte ends the walk; every field is absent.
    shape(rt, b"empty", b"")?;
    // One byte remains.
    shape(rt, b"one byte", b"\x11")?;
    // Two bytes remain.
    shape(rt, b"two bytes", b"\x11\x00")?;
    // P1's shape.
    shape(
        rt,
        b"P1",
        b"\x11\x00\x02\x00\x07\x12\x00\x02\x00\x02\x13\x00\x04\x01\x03\x03\x01\x14\x00\x04\x00\x00\x00\x02",
    )?;
    // The whole of P1's shape, and two bytes remain.
    shape(
        rt,
        b"P1 and two bytes",
        b"\x11\x00\x02\x00\x07\x12\x00\x02\x00\x02\x13\x00\x04\x01\x03\x03\x01\x14\x00\x04\x00\x00\x00\x02\x15\x00",
    )
}

// A field of a shape is absent.
fn shape_absent(rt: &impl Print) -> io::Result<()> {
    // The revision is absent.
    shape(
        rt,
        b"no 11",
        b"\x12\x00\x02\x00\x02\x13\x00\x04\x01\x03\x03\x01\x14\x00\x04\x00\x00\x00\x02",
    )?;
    // The total is absent.
    shape(
        rt,
        b"no 12",
        b"\x11\x00\x02\x00\x07\x13\x00\x04\x01\x03\x03\x01\x14\x00\x04\x00\x00\x00\x02",
    )?;
    // The angles are absent; a remark stands for no other field.
    shape(
        rt,
        b"no 13, remark",
        b"\x11\x00\x02\x00\x07\x12\x00\x02\x00\x02\x14\x00\x04\x00\x00\x00\x02\x15\x00\x00",
    )?;
    // The right bends are absent.
    shape(
        rt,
        b"no 14",
        b"\x11\x00\x02\x00\x07\x12\x00\x02\x00\x02\x13\x00\x04\x01\x03\x03\x01",
    )
}

// Tags of a shape, and contents that pass its end.
fn shape_tags(rt: &impl Print) -> io::Result<()> {
    // Below the first tag.
    shape(rt, b"tag 10", b"\x10\x00\x00")?;
    // Behind the last tag.
    shape(rt, b"tag 17", b"\x17\x00\x00")?;
    // A tag of the plate list.
    shape(rt, b"tag 01", b"\x01\x00\x02\x00\x07")?;
    // A tag met before.
    shape(
        rt,
        b"13 twice",
        b"\x13\x00\x04\x01\x03\x03\x01\x13\x00\x04\x01\x03\x03\x01",
    )?;
    // 3 comes before 4.
    shape(
        rt,
        b"11 twice, second too short",
        b"\x11\x00\x02\x00\x07\x11\x00\x01\x07",
    )?;
    // Tags ascend.
    shape(
        rt,
        b"reversed",
        b"\x15\x00\x01\x41\x14\x00\x04\x00\x00\x00\x02\x13\x00\x04\x01\x03\x03\x01\x12\x00\x02\x00\x02\x11\x00\x02\x00\x07",
    )?;
    // One byte of the last content is missing.
    shape(
        rt,
        b"14 of 4, three there",
        b"\x11\x00\x02\x00\x07\x12\x00\x02\x00\x02\x13\x00\x04\x01\x03\x03\x01\x14\x00\x04\x00\x00\x00",
    )
}

// Lengths of the fields of a shape, and two faults in one.
fn shape_lengths(rt: &impl Print) -> io::Result<()> {
    // The revision has 2 bytes.
    shape(rt, b"11 of 1", b"\x11\x00\x01\x07")?;
    // The total has 2 bytes.
    shape(rt, b"12 of 3", b"\x12\x00\x03\x00\x00\x02")?;
    // Angles have at most 256 bytes; 4 comes before 5.
    shape(rt, b"13 of 257", b"\x13\x01\x01")?;
    // A length of 256 is as laid out.
    shape(rt, b"14 of 256, none there", b"\x14\x01\x00")?;
    // A remark has at most 80 bytes.
    shape(rt, b"15 of 81", b"\x15\x00\x51")?;
    // Only the length of the strips is even; the other fields are absent.
    shape(rt, b"13 of 3", b"\x13\x00\x03\x01\x01\x02")?;
    // A tag, then a content that passes the end.
    shape(rt, b"2, then 5", b"\x17\x00\x00\x11\x00\x02\x00")?;
    // A length, then a tag.
    shape(rt, b"4, then 2", b"\x12\x00\x01\x02\x17\x00\x00")?;
    // A tag met before, then one byte.
    shape(
        rt,
        b"3, then 1",
        b"\x12\x00\x02\x00\x02\x12\x00\x02\x00\x02\x11",
    )
}

// Limits of a list.
fn long_lists(rt: &impl Print) -> io::Result<()> {
    // The longest list, 876 bytes.
    long_list(rt, b"256 256 80 128 128", [256, 256, 80, 128, 128])?;
    // A remark of 81 bytes.
    long_list(rt, b"256 256 81 128 128", [256, 256, 81, 128, 128])?;
    // Strips of odd length.
    long_list(rt, b"257 256 80 128 128", [257, 256, 80, 128, 128])?;
    // Strips over 256 bytes.
    long_list(rt, b"258 256 80 128 128", [258, 256, 80, 128, 128])?;
    // An order over 256 bytes.
    long_list(rt, b"256 257 80 128 128", [256, 257, 80, 128, 128])?;
    // An order of odd length.
    long_list(rt, b"256 255 80 128 128", [256, 255, 80, 128, 128])?;
    // Limits of 129 bytes.
    long_list(rt, b"256 256 80 129 128", [256, 256, 80, 129, 128])?;
    // Prices of 129 bytes.
    long_list(rt, b"256 256 80 128 129", [256, 256, 80, 128, 129])
}

// Limits of a shape.
fn long_shapes(rt: &impl Print) -> io::Result<()> {
    // The longest shape, 618 bytes.
    long_shape(rt, b"256 256 80 4", [256, 256, 80, 4])?;
    // A remark of 81 bytes.
    long_shape(rt, b"256 256 81 4", [256, 256, 81, 4])?;
    // Angles over 256 bytes.
    long_shape(rt, b"257 256 80 4", [257, 256, 80, 4])?;
    // Right bends over 256 bytes.
    long_shape(rt, b"256 258 80 4", [256, 258, 80, 4])?;
    // Angles of odd length.
    long_shape(rt, b"255 256 80 4", [255, 256, 80, 4])?;
    // A sum of 3 bytes, and of 5.
    long_shape(rt, b"256 256 80 3", [256, 256, 80, 3])?;
    long_shape(rt, b"256 256 80 5", [256, 256, 80, 5])
}

// Older files: the walk in any order.
fn older_files(rt: &impl Print) -> io::Result<()> {
    older(
        rt,
        b"list reversed",
        b"\x05\x00\x01\x01\x04\x00\x04\x00\x02\x01\x03\x03\x00\x04\x00\x01\x00\x01\x02\x00\x01\x02\x01\x00\x02\x00\x07",
        false,
    )?;
    older(
        rt,
        b"shape reversed",
        b"\x15\x00\x01\x41\x14\x00\x04\x00\x00\x00\x02\x13\x00\x04\x01\x03\x03\x01\x12\x00\x02\x00\x02\x11\x00\x02\x00\x07",
        true,
    )
}

// Older files with a fault.
fn older_faults(rt: &impl Print) -> io::Result<()> {
    // Every other number is as before: 2, 3, 4, 5, 1.
    older(rt, b"05, then 00", b"\x05\x00\x01\x01\x00\x00\x00", false)?;
    older(
        rt,
        b"02, 05, 02",
        b"\x02\x00\x01\x02\x05\x00\x01\x01\x02\x00\x01\x02",
        false,
    )?;
    older(
        rt,
        b"05, then 02 of 2",
        b"\x05\x00\x01\x01\x02\x00\x02\x02\x02",
        false,
    )?;
    older(
        rt,
        b"05, then 04 cut",
        b"\x05\x00\x01\x01\x04\x00\x04\x00",
        false,
    )?;
    older(
        rt,
        b"02, 01, one byte",
        b"\x02\x00\x01\x02\x01\x00\x02\x00\x07\x03",
        false,
    )?;
    // Prices, and their sum in a shape, have no tag in older files.
    older(rt, b"05, then 08", b"\x05\x00\x01\x01\x08\x00\x00", false)?;
    older(
        rt,
        b"12, then 16",
        b"\x12\x00\x02\x00\x02\x16\x00\x04\x00\x00\x00\x02",
        true,
    )?;
    older(rt, b"empty", b"", false)
}

// Writes bytes on a line, in hexadecimal.
fn show_bytes(rt: &impl Print, s: &[u8]) -> io::Result<()> {
    for (i, byte) in s.iter().enumerate() {
        if i > 0 {
            rt.write_all(b" ")?;
        }
        print!(rt; "{byte:02x}")?;
    }
    rt.write_all(b"\n")
}

// Puts an older file, of a case, in order, and shows the number and the bytes of the memory lent. A label, a file and memory: a case.
fn order_into(rt: &impl Print, label: &[u8], s: &[u8], out: &mut [u8]) -> io::Result<()> {
    show(rt, b"order ", label, order_fields(s, out).err())?;
    show_bytes(rt, out)
}

// Files put in order; a refusal changes no byte.
fn ordered_files(rt: &impl Print) -> io::Result<()> {
    let mut some = [0xeeu8; 30];
    // The remark is kept.
    order_into(
        rt,
        b"list reversed, with remark",
        b"\x06\x00\x00\x05\x00\x01\x01\x04\x00\x04\x00\x02\x01\x03\x03\x00\x04\x00\x01\x00\x01\x02\x00\x01\x02\x01\x00\x02\x00\x07",
        &mut some,
    )?;
    let mut other = [0xeeu8; 24];
    order_into(
        rt,
        b"shape, 14 and 12 exchanged",
        b"\x11\x00\x02\x00\x07\x14\x00\x02\x00\x00\x13\x00\x02\x04\x04\x12\x00\x02\x00\x00",
        &mut other,
    )?;
    let mut few = [0xeeu8; 2];
    // 16 comes last, and measures.
    order_into(
        rt,
        b"too short",
        b"\x05\x00\x01\x00\x04\x00\x00\x03\x00\x00\x02\x00\x01\x02\x01\x00\x02\x00\x07",
        &mut few,
    )?;
    // A first byte of 10 hexadecimal means a shape file, of which it is no tag; 0F a plate list.
    order_into(rt, b"10", b"\x10\x00\x00", &mut few)?;
    order_into(rt, b"0F, cut", b"\x0f\x00", &mut few)?;
    // 08 and 16 are no tags here, wherever they stand.
    order_into(rt, b"08", b"\x08\x00\x00", &mut few)?;
    order_into(rt, b"16", b"\x16\x00\x04\x00\x00\x00\x00", &mut few)?;
    order_into(rt, b"empty", b"", &mut few)
}

// Two fields, one behind the other; the bytes before and behind them stay.
fn written(rt: &impl Print) -> io::Result<()> {
    let mut out = [0xffu8; 12];
    let next = write_field(&mut out, 1, 0x15, b"ab");
    write_field(&mut out, next, 0x06, b"");
    show_bytes(rt, &out)
}

// A length of 258: high byte 1, low byte 2.
fn long_written(rt: &impl Print) -> io::Result<()> {
    let mut out = [0u8; 4096];
    out[0] = 0xff;
    zeros(&mut out[1..], &[(0x14, 258)]);
    show_bytes(rt, &out[..6])
}

fn main(rt: HostRuntime) -> io::Result<()> {
    list_ends(&rt)?;
    list_tags(&rt)?;
    list_lengths(&rt)?;
    list_passes(&rt)?;
    list_absent(&rt)?;
    list_empty(&rt)?;
    list_below(&rt)?;
    list_two(&rt)?;
    shape_ends(&rt)?;
    shape_absent(&rt)?;
    shape_tags(&rt)?;
    shape_lengths(&rt)?;
    long_lists(&rt)?;
    long_shapes(&rt)?;
    older_files(&rt)?;
    older_faults(&rt)?;
    ordered_files(&rt)?;
    written(&rt)?;
    long_written(&rt)
}
