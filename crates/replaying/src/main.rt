//! Replays the editor's journal over a plate list. The arguments: the name of the plate list, the name of the
//! journal, the name of the file to write.
#![tactic(auto)]

ghost use Rattle.std.specs.Prelude.{◌≡◌, ◌≤◌, length};

use crate::replay::{Replay, Stop};
use console::{complain, open_argument, print_answer, with_files};
use plates::write_listing;
use std::io::Write;
use std::rt::{Env, Files};
use std::{fs, io};

mod lines;
mod replay;

// Prints the listing of the list at the end, or at which line and why the replay ended before. 8,192 bytes hold every listing (`ListingShort`).
fn report(rt: &impl Print, end: &Replay, outcome: Result<(), Stop>) -> io::Result<()> {
    let line = end.line();
    match outcome {
        Ok(()) => print_answer::<8192, _>(rt, |text| write_listing(end.list(), text)),
        Err(Stop::Refused(refusal)) => println!(rt; "{refusal} at line {line}"),
        Err(Stop::NoStep) => println!(rt; "line {line}: no step"),
    }
}

// Writes the list to the file that the third argument names, and answers whether it was written.
fn save<R: Print + Env + Files>(rt: &R, list: &[u8]) -> io::Result<bool> {
    let file = open_argument(rt, 3, b"file to write", |rt, path| fs::create(rt, path))?;
    let Some(mut file) = file else {
        return Ok(false);
    };
    let is_written = file.write_all(list).is_ok();
    if !is_written {
        complain(rt, b"file to write", b": cannot write", b"")?;
    }
    Ok(is_written)
}

fn finish(rt: &(impl Print + Env + Files), start: Replay, journal: &[u8]) -> io::Result<()>
    requires { (start.line ≡ 0) × (length journal.now ≤ 65535) }
{
    let mut replay = start;
    let outcome = replay.take_lines(journal);
    if save(rt, replay.list())? {
        return report(rt, &replay, outcome);
    }
    Ok(())
}

// A list that is refused is told, and nothing is written.
fn run(rt: &(impl Print + Env + Files), list: &[u8], journal: &[u8]) -> io::Result<()>
    requires { (length list.now ≤ 1024) × (length journal.now ≤ 65536) }
{
    if journal.len() == 65536 {
        return complain(rt, b"journal", b": over 65535 bytes", b"");
    }
    match Replay::start(list) {
        Ok(start) => finish(rt, start, journal),
        Err(refusal) => println!(rt; "{refusal}"),
    }
}

// Of a longer list only the first 1,024 bytes are read, which have the number of the whole (`Files.front`).
// One call of what the programs share; each `main` names its own files and sizes.
fn main(rt: HostRuntime) -> io::Result<()> {
    with_files::<1024, 65536, _, _>(&rt, b"plate list", b"journal", |list, journal| {
        run(&rt, list, journal)
    })
}
