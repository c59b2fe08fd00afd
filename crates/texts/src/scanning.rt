//! One entry at the front of a text: number, word, angle. Each reader gives what it read, and the text behind it.
ghost use Rattle.std.specs.Prelude.{◌≡◌, ◌&&◌, ◌||◌, not, ◌≤◌, eqb, ltb, leb, length, get_or, option_map};
ghost use Rattle.plates.specs.Plates.{pick};
ghost use Rattle.plates.specs.Shapes.{rights};
ghost use Rattle.plates.specs.Listing.{number_of};
ghost use Rattle.plates.specs.Grammar.{run_of, bends};
ghost use Rattle.texts.specs.Parses.{capped, space_read, number_read, word_read, angle_read, entry_read};

use crate::entries::{Entry, Word};

// How many bytes from the front on are the digits 0 to `top`.
fn run_long(s: &[u8], top: u8) -> usize
    ensures run { result ≡ run_of (λ x. leb 48 x && leb x top) s.now }
    ensures within { result ≤ length s.now }
{
    s.iter().take_while(|b| (b'0'..=top).contains(*b)).count()
}

// The number that digits stand for, told exactly below 1000. `console::decimal` is of the programs, refuses other bytes and stops at another
// number; the library does not stand on it.
fn number_in(digits: &[u8]) -> usize
    ensures { result ≡ capped (number_of 0 digits.now) }
{
    digits.iter().fold(0usize, |n, b| {
        let digit = usize::from(b.saturating_sub(b'0'));
        n.saturating_mul(10).saturating_add(digit).min(1000)
    })
}

// How many of the digits of a word are 0.
#[tactic(auto, using(crate::proofs::ScanLaws::zeros_counted))]
fn zeros_in(digits: &[u8]) -> usize
    ensures zeros { result ≡ rights (bends digits.now) }
    ensures within { result ≤ length digits.now }
{
    digits.iter().filter(|b| **b == b'0').count()
}

// The space at the front.
fn read_space(s: &[u8]) -> Option<&[u8]>
    ensures { space_read s.now ≡ option_map (λ x. x.now) result }
{
    match s {
        [b' ', rest @ ..] => Some(rest),
        _ => None,
    }
}

// Whether digits are a number without leading zeros.
fn is_number(digits: &[u8]) -> bool
    ensures { result ≡ (ltb 0 (length digits.now) && (eqb (length digits.now) 1 || not (eqb (get_or digits.now 0 0) 48))) }
{
    !matches!(digits, [] | [b'0', _, ..])
}

// A number, and a space.
fn read_number(s: &[u8]) -> Option<(usize, &[u8])>
    ensures { number_read s.now ≡ option_map (λ x. (x.0, x.1.now)) result }
{
    let (digits, rest) = s.split_at(run_long(s, b'9'));
    if !is_number(digits) {
        return None;
    }
    let rest = read_space(rest)?;
    Some((number_in(digits), rest))
}

// How long a word is: - is one byte.
fn word_long(s: &[u8], digits: usize) -> usize
    ensures { result ≡ pick (eqb (get_or s.now 0 0) 45) 1 digits }
{
    match s {
        [b'-', ..] => 1,
        _ => digits,
    }
}

// A word of 1 to 255 digits or -, and a space.
fn read_word(s: &[u8]) -> Option<(Word, &[u8])>
    ensures { word_read s.now ≡ option_map (λ x. (x.0, x.1.now)) result }
{
    let digits = &s[..run_long(s, b'1')];
    let long = word_long(s, digits.len());
    if !(1..=255).contains(&long) {
        return None;
    }
    let rest = read_space(&s[long..])?;
    let right = zeros_in(digits);
    // `as`: both are at most 255, and `try_from` would test it again.
    let word = Word {
        right: right as u8,
        left: (digits.len() - right) as u8,
    };
    Some((word, rest))
}

// An angle, 1 to 4, and what ends the entry: whether it is a line feed.
fn read_angle(s: &[u8]) -> Option<(u8, bool, &[u8])>
    ensures { angle_read s.now ≡ option_map (λ x. (x.0, x.1, x.2.now)) result }
{
    match s {
        [angle @ b'1'..=b'4', end @ (b'\n' | b' '), rest @ ..] => {
            Some((*angle - b'0', *end == b'\n', rest))
        }
        _ => None,
    }
}

/// The entry at the front of a text, if there is one.
pub fn read_entry(s: &[u8]) -> Option<(Entry, &[u8])>
    ensures { entry_read s.now ≡ option_map (λ x. (x.0, x.1.now)) result }
{
    let (dart, rest) = read_number(s)?;
    let (word, rest) = read_word(rest)?;
    let (angle, last, rest) = read_angle(rest)?;
    let entry = Entry {
        dart,
        word,
        angle,
        last,
    };
    Some((entry, rest))
}
