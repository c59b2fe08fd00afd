//! Writes the text of a shape file. The arguments: the name of the plate list, the name of the shape file.
#![tactic(auto)]

use console::{print_answer, with_files};
use std::io;
use texts::write_text;

// No text has more than 66,962 bytes (`TextShort.written`), so 16 is never printed.
fn show(rt: &impl Print, list: &[u8], shape: &[u8]) -> io::Result<()> {
    print_answer::<66962, _>(rt, |out| write_text(list, shape, out))
}

// Of a longer file only the first 4,096 bytes are read. Such a file is refused, by the number that the whole
// has (`Files.front`).
// One call of what the programs share; each `main` names its own files and sizes.
fn main(rt: HostRuntime) -> io::Result<()> {
    with_files::<4096, 4096, _, _>(&rt, b"plate list", b"shape file", |list, shape| {
        show(&rt, list, shape)
    })
}
