//! The listing of a plate list: "refused N", or the revision, the bends and a line for each dart.
//
// `out` stays beside `at` and beside what is written, for the reason that `fields::writing` gives.
ghost use Rattle.std.specs.Prelude.{◌≡◌, true, ◌+◌, ◌≤◌, length};
ghost use Rattle.refusals.specs.Numbers.{number_of};
ghost use Rattle.fields.specs.Writing.{Written, all_bytes};
ghost use Rattle.plates.specs.Answers.{listed_of};
ghost use Rattle.plates.specs.Claims.{BestCounts};
ghost use Rattle.plates.specs.Listing.{decimal, numbered, line, refused_text, dart_line, dart_lines, listing_text, TextWritten, Gives, ListingSays};

use crate::reading::PlateList;
use fields::writing::copy_at;
use refusals::Refusal;
use shapes::counts::Counts;

// Writes a decimal number from `at` on, and gives the place behind it.
// By hand: the listing's definitions have `decimal` of their own, and a text of std's would be led to them in each proof.
#[tactic(auto, using(crate::proofs::ListingText::decimal_one_long, crate::proofs::ListingText::decimal_more_long))]
pub fn write_decimal(out: &mut [u8], at: usize, n: usize) -> usize
    requires { at + length (decimal n) ≤ length out.old }
    ensures { Written at (decimal n) out.old out.new result }
{
    // `as`: a digit fits a byte, and `try_from` would test it again.
    let last = b'0' + (n % 10) as u8;
    if n < 10 {
        out[at] = last;
        return at + 1;
    }
    let behind = write_decimal(out, at, n / 10);
    out[behind] = last;
    behind + 1
}

// Writes a text from `at` on, and gives the place behind it.
fn put_text(out: &mut [u8], at: usize, text: &[u8]) -> usize
    requires { at + length text.now ≤ length out.old }
    ensures { Written at text.now out.old out.new result }
{
    copy_at(out, at, text);
    at + text.len()
}

// Writes a word and a number.
fn write_numbered(out: &mut [u8], at: usize, word: &[u8], n: usize) -> usize
    requires { at + length (numbered word.now n) ≤ length out.old }
    ensures { Written at (numbered word.now n) out.old out.new result }
{
    let digits = put_text(out, at, word);
    write_decimal(out, digits, n)
}

// Writes a word and a number as the end of a line.
#[tactic(auto, using(crate::proofs::ListingRows::numbered_long, crate::proofs::ListingRows::line_long, crate::proofs::ListingRows::line_written))]
fn write_line(out: &mut [u8], at: usize, word: &[u8], n: usize) -> usize
    requires { at + length (line word.now n) ≤ length out.old }
    ensures { Written at (line word.now n) out.old out.new result }
{
    let end = write_numbered(out, at, word, n);
    out[end] = b'\n';
    end + 1
}

// Writes the line of one dart.
fn write_dart(out: &mut [u8], at: usize, dart: usize, right: usize, angle: usize) -> usize
    requires { at + length (dart_line dart right angle) ≤ length out.old }
    ensures { Written at (dart_line dart right angle) out.old out.new result }
{
    let second = write_numbered(out, at, b"dart ", dart);
    let third = write_numbered(out, second, b" right ", right);
    write_line(out, third, b" angle ", angle)
}

// Writes the lines of all darts.
// The angle by its index: of a `zip` the loop's invariant would have to say what is left of each list.
fn write_darts(out: &mut [u8], at: usize, counts: Counts) -> usize
    requires { at + length (dart_lines (length counts.rights.now) counts.angles.now counts.rights.now) ≤ length out.old }
    ensures { Written at (dart_lines (length counts.entry.rights.now) counts.entry.angles.now counts.entry.rights.now) out.old out.new result }
{
    let mut next = at;
    for (d, right) in counts.rights.iter().enumerate() {
        let angle = counts.angles[d];
        next = write_dart(out, next, d, usize::from(*right), usize::from(angle));
    }
    next
}

// Writes the listing of these counts, and gives its length.
fn write_counts(out: &mut [u8], revision: usize, counts: Counts) -> usize
    requires { length (listing_text revision counts.angles.now counts.rights.now) ≤ length out.old }
    ensures { TextWritten (listing_text revision counts.entry.angles.now counts.entry.rights.now) out.old out.new result }
{
    let second = write_line(out, 0, b"revision ", revision);
    // `as`: a `u32` fits a `usize`, and `try_from` would test it again.
    let third = write_line(out, second, b"bends ", counts.total() as usize);
    write_darts(out, third, counts)
}

// Gives a text into lent memory, or 16.
fn give_text(text: &[u8], out: &mut [u8]) -> Result<usize, Refusal>
    ensures { Gives text.now out.old out.new (listed_of result) }
{
    if out.len() < text.len() {
        return Err(Refusal::MemoryShort);
    }
    copy_at(out, 0, text);
    Ok(text.len())
}

// The listing of a refused list.
// As `Display` prints it; that needs a `fmt::Write`, which lent memory is not.
#[tactic(auto, using(crate::proofs::ListingShort::refused_short))]
pub(crate) fn list_refused(refusal: Refusal, out: &mut [u8]) -> Result<usize, Refusal>
    ensures { Gives (refused_text (number_of refusal)) out.old out.new (listed_of result) }
{
    // A fixed buffer: the library allocates nothing.
    let mut text = [0u8; 12];
    let number = usize::from(refusal.number());
    let long = write_line(&mut text, 0, b"refused ", number);
    give_text(&text[..long], out)
}

impl PlateList<'_> {
    // The listing of an accepted list, from the counts of its best shape.
    #[tactic(auto, using(crate::proofs::ListingSaid::listing_room))]
    pub(crate) fn list_counts(&self, counts: Counts, out: &mut [u8]) -> Result<usize, Refusal>
        requires bytes { all_bytes self.now.bytes.now ≡ true }
        requires best { BestCounts self.now.bytes.now counts.angles.now counts.rights.now }
        ensures { ListingSays self.now.bytes.now out.old out.new (listed_of result) }
    {
        // A fixed buffer: the library allocates nothing.
        let mut text = [0u8; 6939];
        let long = write_counts(&mut text, self.revision(), counts);
        give_text(&text[..long], out)
    }
}
