//! Reads an older plate list or shape file from standard input and writes it with its fields in tag order, or prints its refusal.
#![tactic(auto)]

use console::{print_answer, with_input};
use fields::ordering::order_fields;
use std::io;

// The memory lent is as long as what is read, and a file in order is as long as before, so 16 is never printed.
fn show(rt: &impl Print, file: &[u8]) -> io::Result<()> {
    print_answer::<1024, _>(rt, |out| order_fields(file, out))
}

// Of longer input only the first 1,024 bytes are read, which have the answer of the whole (`TagOrder.front`).
// One call of what the programs share; each `main` names its own files and sizes.
fn main(rt: HostRuntime) -> io::Result<()> {
    with_input::<1024, _, _>(&mut rt.stdin(), |file| show(&rt, file))
}
