//! A line of the journal: the step that it stands for, or that it is none.
ghost use Rattle.std.specs.Prelude.{◌≡◌, ◌==◌, position};
ghost use Rattle.replaying.specs.Lines.{number_in, join_in, step_in};

use console::decimal;
use embedding::journal::Step;

// The number that decimal digits stand for; one above 65,535 counts as 65,535, which no strip or dart has.
fn number_in(digits: &[u8]) -> Option<usize>
    ensures { result ≡ number_in digits.now }
{
    let number = decimal(digits)?;
    // `as`: it is at most 65,535, and `try_from` would test it again.
    Some(number.min(65535) as usize)
}

fn space_in(numbers: &[u8]) -> Option<usize>
    ensures { result ≡ position (λ x. x == 32) numbers.now }
{
    numbers.iter().position(|x| *x == b' ')
}

// The two numbers of a join.
fn join_in(numbers: &[u8]) -> Option<Step>
    ensures { result ≡ join_in numbers.now }
{
    let space = space_in(numbers)?;
    let dart = number_in(&numbers[..space])?;
    let other = number_in(&numbers[space + 1..])?;
    Some(Step::Join(dart, other))
}

// A line without its line feed.
pub fn step_in(line: &[u8]) -> Option<Step>
    ensures { result ≡ step_in line.now }
{
    if let Some(digits) = line.strip_prefix(b"split ") {
        return number_in(digits).map(Step::Split);
    }
    if let Some(digits) = line.strip_prefix(b"hang ") {
        return number_in(digits).map(Step::Hang);
    }
    join_in(line.strip_prefix(b"join ")?)
}
