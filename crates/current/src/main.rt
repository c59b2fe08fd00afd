//! Prints the current revision of a model. The arguments: the name of the book, the model as a decimal number.
#![tactic(auto)]

ghost use Rattle.std.specs.Prelude.{◌≡◌};
ghost use Rattle.current.specs.Numbers.{number_in};

use book::current_revision;
use console::{argument, complain, decimal, open_named, read_named};
use std::io;
use std::io::Read;
use std::rt::Env;

// The number that decimal digits stand for, up to 65,535.
fn read_number(digits: &[u8]) -> Option<u16>
    ensures { result ≡ number_in digits.now }
{
    u16::try_from(decimal(digits)?).ok()
}

fn show(rt: &impl Print, book: &[u8], model: u16) -> io::Result<()> {
    match current_revision(book, model) {
        Ok(Some(revision)) => println!(rt; "revision {revision}"),
        Ok(None) => println!(rt; "absent"),
        Err(refusal) => println!(rt; "{refusal}"),
    }
}

// The longest book that is read has 10,922 entries, 65,532 bytes. Of a longer one no answer is given.
fn show_file(rt: &impl Print, file: &mut impl Read, model: u16) -> io::Result<()> {
    let mut book = [0u8; 65536];
    let Some(n) = read_named(rt, file, b"book", &mut book)? else {
        return Ok(());
    };
    if n == 65536 {
        return complain(rt, b"book", b": over 65535 bytes", b"");
    }
    show(rt, &book[..n], model)
}

// An argument that is not there is no number.
fn read_model(rt: &impl Env) -> Option<u16> {
    let mut digits = [0u8; 4096];
    let n = argument(rt, 2, &mut digits)?;
    read_number(&digits[..n])
}

fn main(rt: HostRuntime) -> io::Result<()> {
    let file = open_named(&rt, 1, b"book")?;
    let Some(model) = read_model(&rt) else {
        return complain(&rt, b"model", b": no number up to 65535 given", b"");
    };
    match file {
        Some(mut file) => show_file(&rt, &mut file, model),
        None => Ok(()),
    }
}
