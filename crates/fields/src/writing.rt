//! Fields written into lent memory.
//
// `out` and `at` stay beside each other: of a struct of both, each method's contract has to say that it keeps the memory lent and its
// length, and each caller has to carry both to its end, where of a slice Rattle knows them by itself.
ghost use Rattle.std.specs.Prelude.{◌≡◌, ◌+◌, ◌<◌, ◌≤◌, length};
ghost use Rattle.fields.specs.Files.{two, four, field};
ghost use Rattle.fields.specs.Writing.{put_at, Written};

/// A number in two bytes, high byte first.
pub fn two_bytes(v: usize) -> [u8; 2]
    requires { v < 65536 }
    ensures { result ≡ two v }
{
    // `as`: it fits, by the `requires`, and `try_from` would test it again.
    (v as u16).to_be_bytes()
}

/// A number in four bytes, high byte first.
pub fn four_bytes(v: u32) -> [u8; 4]
    ensures { result ≡ four v }
{
    v.to_be_bytes()
}

/// Copies `content` into `out` from `at` on.
// Byte by byte: the library's copy would make the archive need `memmove`, which C callers did not have to give before.
pub fn copy_at(out: &mut [u8], at: usize, content: &[u8])
    requires { at + length content.now ≤ length out.old }
    ensures { out.new ≡ put_at at content.now out.old }
{
    for (i, byte) in content.iter().enumerate() {
        out[at + i] = *byte;
    }
}

/// Writes a field from `at` on, and gives the place behind it.
#[tactic(auto, using(crate::proofs::Puts::field_written))]
pub fn write_field(out: &mut [u8], at: usize, tag: u8, content: &[u8]) -> usize
    requires { (at + (3 + length content.now) ≤ length out.old) × (length content.now < 65536) }
    ensures { Written at (field tag content.now) out.old out.new result }
{
    let long = two_bytes(content.len());
    out[at] = tag;
    copy_at(out, at + 1, &long);
    copy_at(out, at + 3, content);
    at + 3 + content.len()
}
