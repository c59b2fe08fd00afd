//! A text printed: the entries of a plan, with words and angles from counts.
//
// `out` stays beside `at` and beside what is written, for the reason that `fields::writing` gives.
ghost use Rattle.std.specs.Prelude.{◌≡◌, ◌+◌, ◌<◌, ◌≤◌, min, length, replicate};
ghost use Rattle.fields.specs.Writing.{Written};
ghost use Rattle.plates.specs.Shapes.{even_word};
ghost use Rattle.plates.specs.Listing.{decimal};
ghost use Rattle.plates.specs.Text.{word_text, entry_text, text_of};
ghost use Rattle.texts.specs.Plan.{laid};
ghost use Rattle.texts.specs.Prints.{count_entries, entry_of, bends_of, entry_long, long_up_to, EntryRoom, PrintRoom};

use crate::entries::{Entry, Word};
use crate::planning::Turn;
use embedding::twin_of;
use plates::listing::write_decimal;
use shapes::counts::Counts;

// How long a number is.
#[tactic(auto, using(crate::proofs::PrintLaws::digits_counted))]
fn digits_long(n: usize) -> usize
    ensures long { result ≡ length (decimal n) }
    ensures most { result ≤ 20 }
{
    // `as`: usize has no From of u32.
    n.checked_ilog10().unwrap_or(0) as usize + 1
}

// How long a word of one digit is: - is one byte.
#[tactic(auto, using(crate::proofs::PrintLaws::word_counted))]
fn even_word_long(word: Word) -> usize
    ensures long { result ≡ length (word_text (even_word word.right word.left)) }
    ensures most { result ≤ 510 }
{
    (usize::from(word.right) + usize::from(word.left)).max(1)
}

// The word of a dart.
fn word_of(counts: Counts, d: usize) -> Word
    requires { d < length counts.rights.now }
    ensures { result ≡ bends_of counts.entry.rights.now d }
{
    Word {
        right: counts.rights[d],
        left: counts.rights[twin_of(d)],
    }
}

// How long the entry of a dart is.
fn entry_long(counts: Counts, d: usize) -> usize
    requires { d < length counts.rights.now }
    ensures long { result ≡ entry_long counts.entry.rights.now d }
    ensures most { result ≤ 600 }
{
    digits_long(d) + even_word_long(word_of(counts, d)) + 4
}

/// How long the entries of all darts are.
pub fn text_long(counts: Counts) -> usize
    ensures { result ≡ long_up_to (length counts.entry.rights.now) counts.entry.rights.now }
{
    (0..counts.rights.len())
        .map(|d| entry_long(counts, d))
        .sum()
}

// The byte that a word is a run of, and how often: - is one byte.
#[tactic(auto, using(crate::proofs::PrintLaws::left_word, crate::proofs::PrintLaws::right_word))]
fn word_bytes(word: Word) -> (u8, usize)
    requires { min word.right word.left ≡ 0 }
    ensures { word_text (even_word word.right word.left) ≡ replicate result.1 result.0 }
{
    match (word.right, word.left) {
        (0, 0) => (b'-', 1),
        (0, left) => (b'1', usize::from(left)),
        (right, _) => (b'0', usize::from(right)),
    }
}

// Writes a word of right bends or of left bends, and gives the place behind it.
fn write_word(out: &mut [u8], at: usize, word: Word) -> usize
    requires { (min word.right word.left ≡ 0) × (at + length (word_text (even_word word.right word.left)) ≤ length out.old) }
    ensures { Written at (word_text (even_word word.right word.left)) out.old out.new result }
{
    let (byte, count) = word_bytes(word);
    out[at..at + count].fill(byte);
    at + count
}

// Writes an entry, and gives the place behind it.
fn write_entry(out: &mut [u8], at: usize, entry: Entry) -> usize
    requires { EntryRoom entry at (length out.old) }
    ensures { Written at (entry_text (entry_of entry)) out.old out.new result }
{
    let second = write_decimal(out, at, entry.dart);
    out[second] = b' ';
    let third = write_word(out, second + 1, entry.word);
    let end = if entry.last { b'\n' } else { b' ' };
    out[third..third + 3].copy_from_slice(&[b' ', b'0' + entry.angle, end]);
    third + 3
}

/// Writes the entries of a plan to the front of `out`, and gives their length.
pub fn write_entries(out: &mut [u8], plan: &[Turn], counts: Counts) -> usize
    requires { PrintRoom plan.now counts.angles.now counts.rights.now (length out.old) }
    ensures { Written 0 (text_of (count_entries counts.entry.angles.now counts.entry.rights.now (laid plan.now))) out.old out.new result }
{
    let mut at = 0;
    for turn in plan {
        let d = usize::from(turn.dart);
        let entry = Entry {
            dart: d,
            word: word_of(counts, d),
            angle: counts.angles[d],
            last: turn.last,
        };
        at = write_entry(out, at, entry);
    }
    at
}
