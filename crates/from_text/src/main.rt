//! Writes the shape file of a text. The arguments: the name of the plate list, the name of the text.
#![tactic(auto)]

ghost use Rattle.std.specs.Prelude.{◌≤◌, length, IfOk};

use console::{complain, print_answer, with_files};
use refusals::Refusal;
use std::io;
use texts::read_text;

// Writes the shape file of the text to the front of `out` and gives its length. Three slices: two files, and memory for a third.
fn write_shape(list: &[u8], text: &[u8], out: &mut [u8]) -> Result<usize, Refusal>
    ensures { IfOk result (λ n. n ≤ length out.new) }
{
    // `as`: a usize has 64 bits, and `try_from` would test it again.
    read_text(list, text, out).map(|file| file.long as usize)
}

// No text of over 66,962 bytes is accepted (`TextShort.accepted`), and of such a one no answer is given. A written
// shape file has at most 535 bytes, so 16 is never printed.
fn show(rt: &impl Print, list: &[u8], text: &[u8]) -> io::Result<()> {
    if text.len() == 66963 {
        return complain(rt, b"text", b": over 66962 bytes", b"");
    }
    print_answer::<535, _>(rt, |out| write_shape(list, text, out))
}

// Of a longer list only the first 4,096 bytes are read, which have the number of the whole (`Files.front`).
// One call of what the programs share; each `main` names its own files and sizes.
fn main(rt: HostRuntime) -> io::Result<()> {
    with_files::<4096, 66963, _, _>(&rt, b"plate list", b"text", |list, text| {
        show(&rt, list, text)
    })
}
