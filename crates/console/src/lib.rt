//! For the programs: lines to standard output, standard input, and files that arguments name.
#![tactic(auto)]

ghost use Rattle.std.specs.Prelude.{◌≡◌, ◌≤◌, length, IfOk, IfSome};
ghost use Rattle.console.specs.Decimals.{decimal_in};

use refusals::Refusal;
use std::env::FillError;
use std::io::Read;
use std::rt::{Env, Files};
use std::{fs, io, str};

// Prints a line: what is meant, what is wrong with it, and its name where one was given. Bytes, since a name may be no UTF-8.
pub fn complain(rt: &impl Print, which: &[u8], wrong: &[u8], name: &[u8]) -> io::Result<()> {
    rt.write_all(which)?;
    rt.write_all(wrong)?;
    rt.write_all(name)?;
    rt.write_all(b"\n")
}

// Writes the front of `out`, as many bytes as the answer says, or the answer's refusal.
fn write_answer(rt: &impl Print, out: &[u8], answer: Result<usize, Refusal>) -> io::Result<()>
    requires { IfOk answer (λ n. n ≤ length out.now) }
{
    match answer {
        Ok(long) => rt.write_all(&out[..long]),
        Err(refusal) => println!(rt; "{refusal}"),
    }
}

// Runs on N bytes of memory, up to 1 MiB, and writes the answer: the front of it, or the refusal.
pub fn print_answer<const N: usize, F: FnOnce(&mut [u8]) -> Result<usize, Refusal>>(
    rt: &impl Print,
    run: F,
) -> io::Result<()>
    requires small { N ≤ 1048576 }
    requires called { (out : _) → length out.now ≡ N → F.pre run out }
    requires within { (out : _) (answer : _) (left : _) → length out.now ≡ N → F.post run out answer left → IfOk answer (λ n. n ≤ length left.now) }
{
    let mut out = [0u8; N];
    let answer = run(&mut out);
    write_answer(rt, &out, answer)
}

// Puts an argument at the start of `buf` and gives its length. One that does not fit counts as empty, and an empty name opens nothing.
pub fn argument(rt: &impl Env, place: usize, buf: &mut [u8]) -> Option<usize>
    ensures { IfSome result (λ n. n ≤ length buf.new) }
{
    match rt.arg(place, buf) {
        Ok(n) => Some(n),
        Err(FillError::TooLong) => Some(0),
        Err(FillError::NotPresent) => None,
    }
}

// Opens, in the way given, the file that argument `place` names, or says why it cannot and gives none. A name that is not UTF-8 opens nothing.
pub fn open_argument<R: Print + Env + Files, F: FnOnce(&R, &str) -> io::Result<R::File>>(
    rt: &R,
    place: usize,
    which: &[u8],
    opener: F,
) -> io::Result<Option<R::File>>
    requires { F.IsAlwaysCallable opener }
{
    let mut name = [0u8; 4096];
    let Some(n) = argument(rt, place, &mut name) else {
        complain(rt, which, b": no name given", b"")?;
        return Ok(None);
    };
    let file = match str::from_utf8(&name[..n]) {
        Ok(path) => opener(rt, path).ok(),
        Err(_) => None,
    };
    if file.is_none() {
        complain(rt, which, b": cannot open ", &name[..n])?;
    }
    Ok(file)
}

// The same for a file to read.
pub fn open_named<R: Print + Env + Files>(
    rt: &R,
    place: usize,
    which: &[u8],
) -> io::Result<Option<R::File>> {
    open_argument(rt, place, which, |rt, path| fs::open(rt, path))
}

// Says so where a file cannot be read, and gives whether it cannot. At the end of one that can be read a further read gives 0; of a folder every read fails.
fn tell_unreadable(rt: &impl Print, file: &mut impl Read, which: &[u8]) -> io::Result<bool> {
    let mut byte = [0u8; 1];
    if file.read(&mut byte).is_err() {
        complain(rt, which, b": cannot read", b"")?;
        return Ok(true);
    }
    Ok(false)
}

// Reads until `buf` is full or the input ends, and gives how many bytes it put at the start of `buf`.
pub fn read_full(from: &mut impl Read, buf: &mut [u8]) -> io::Result<usize>
    ensures { IfOk result (λ n. n ≤ length buf.new) }
{
    let mut done = 0;
    // A while: each read gives as many bytes as it has, so no iterator gives the places.
    while done < buf.len() {
        let n = from.read(&mut buf[done..])?;
        if n == 0 {
            break;
        }
        done += n;
    }
    Ok(done)
}

// The same for a file that was opened by name: it gives none, and says so, where the file cannot be read.
pub fn read_named(
    rt: &impl Print,
    file: &mut impl Read,
    which: &[u8],
    buf: &mut [u8],
) -> io::Result<Option<usize>>
    ensures { IfOk result (λ got. IfSome got (λ n. n ≤ length buf.new)) }
{
    let Ok(n) = read_full(file, buf) else {
        complain(rt, which, b": cannot read", b"")?;
        return Ok(None);
    };
    if tell_unreadable(rt, file, which)? {
        return Ok(None);
    }
    Ok(Some(n))
}

// Runs on the first N bytes of the input, up to 1 MiB.
pub fn with_input<const N: usize, I: Read, F: FnOnce(&[u8]) -> io::Result<()>>(
    input: &mut I,
    run: F,
) -> io::Result<()>
    requires small { N ≤ 1048576 }
    requires called { F.IsAlwaysCallable run }
{
    let mut buf = [0u8; N];
    let n = read_full(input, &mut buf)?;
    run(&buf[..n])
}

// Runs on the first N and the first M bytes of the files that the first two arguments name, up to 1 MiB of each, or says which cannot be opened or read.
pub fn with_files<
    const N: usize,
    const M: usize,
    R: Print + Env + Files,
    F: FnOnce(&[u8], &[u8]) -> io::Result<()>,
>(rt: &R, first: &[u8], second: &[u8], run: F) -> io::Result<()>
    requires small { (N ≤ 1048576) × (M ≤ 1048576) }
    requires called { (a b : _) → length a.now ≤ N → length b.now ≤ M → F.pre run a b }
{
    let first_file = open_named(rt, 1, first)?;
    let second_file = open_named(rt, 2, second)?;
    let (Some(mut first_file), Some(mut second_file)) = (first_file, second_file) else {
        return Ok(());
    };
    let mut front = [0u8; N];
    let Some(n) = read_named(rt, &mut first_file, first, &mut front)? else {
        return Ok(());
    };
    let mut other = [0u8; M];
    let Some(k) = read_named(rt, &mut second_file, second, &mut other)? else {
        return Ok(());
    };
    run(&front[..n], &other[..k])
}

// The number that decimal digits stand for; one above 65,536 counts as 65,536. `parse` would take a plus sign, and refuse a larger number.
pub fn decimal(digits: &[u8]) -> Option<u32>
    ensures { result ≡ decimal_in digits.now }
{
    if digits.is_empty() {
        return None;
    }
    let mut value = 0;
    for digit in digits {
        if !digit.is_ascii_digit() {
            return None;
        }
        value = (10 * value + u32::from(*digit - b'0')).min(65536);
    }
    Some(value)
}
