//! Reads a plate list from standard input and prints the listing of its shape, or its refusal.
#![tactic(auto)]

use console::{print_answer, with_input};
use plates::write_listing;
use std::io;

// 8,192 bytes hold every listing: a line for each of 256 darts has at most 27 bytes, and the two in front
// of them have at most 15 each (a listing has at most 6,939 bytes). So 16 is never printed, and what is printed of
// a list that is refused is the listing that says so.
fn show(rt: &impl Print, list: &[u8]) -> io::Result<()> {
    print_answer::<8192, _>(rt, |text| write_listing(list, text))
}

// Of longer input only the first 1,024 bytes are read. No accepted list is longer than 876 bytes, so such
// input is refused, by the number that the whole has (`Files.front`).
// One call of what the programs share; each `main` names its own files and sizes.
fn main(rt: HostRuntime) -> io::Result<()> {
    with_input::<1024, _, _>(&mut rt.stdin(), |list| show(&rt, list))
}
