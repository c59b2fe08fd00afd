//! The library for C and Rust: what a struct or an enum answers is a number returned and numbers behind references.
//
// Files, memory and the numbers behind references stay beside each other, and functions of one form are not made one: each is a name of the C
// interface, and these are its parameters.
#![tactic(auto)]

ghost use Rattle.std.specs.Prelude.{◌≡◌};
ghost use Rattle.fields.specs.Ordering.{ordered_of};
ghost use Rattle.plates.specs.Says.{ShapeSays, CheckSays};
ghost use Rattle.plates.specs.Listing.{ListingSays};
ghost use Rattle.plates.specs.Answers.{shaped, shaped_of, verdict, listed, listed_of, ordered};
ghost use Rattle.plates.specs.Texts.{WriteSays, ReadSays};
ghost use Rattle.plates.specs.Ordering.{OrderSays};
ghost use Rattle.plates.specs.Journal.{EditSays, Split, Hang, Join};
ghost use Rattle.plates.specs.Books.{RevisionIs};

use book::current_revision;
use edits::{hang_strip, join_darts, split_strip};
use fields::ordering::order_fields;
use plates::encoding::Written;
use plates::{check_shape, write_listing, write_shape};
use refusals::Refusal;
use texts::{read_text, write_text};

// The answer of a call that writes a text, a list or a file in order, as C is given it.
fn give_length(answer: Result<usize, Refusal>, long: &mut usize) -> u8
    ensures as_listed { listed result long.new ≡ listed_of answer }
    ensures as_ordered { ordered result long.new ≡ ordered_of answer }
{
    match answer {
        Ok(n) => {
            *long = n;
            0
        }
        Err(refusal) => {
            *long = 0;
            refusal.number()
        }
    }
}

// The answer of a call that writes a shape file, as C is given it.
fn give_written(answer: Result<Written, Refusal>, long: &mut u32, bends: &mut u32) -> u8
    ensures { shaped result long.new bends.new ≡ shaped_of answer }
{
    match answer {
        Ok(written) => {
            *long = written.long;
            *bends = written.bends;
            0
        }
        Err(refusal) => {
            *long = 0;
            *bends = 0;
            refusal.number()
        }
    }
}

// Shaping: the refusal's number, or 0 with the shape at the front of `out`, its length and its bends.
#[unsafe(no_mangle)]
pub extern "C" fn plates_write_shape(
    list: &[u8],
    out: &mut [u8],
    long: &mut u32,
    bends: &mut u32,
) -> u8
    ensures { ShapeSays list.now out.old out.new (shaped result long.new bends.new) }
{
    give_written(write_shape(list, out), long, bends)
}

// Checking: the refusal's number, or 0 with the file's total, the fewest within the limits (for a list with prices the least sum), and whether
// the shape is the one written.
#[unsafe(no_mangle)]
pub extern "C" fn plates_check_shape(
    list: &[u8],
    shape: &[u8],
    total: &mut u32,
    fewest: &mut u32,
    ours: &mut bool,
) -> u8
    ensures { CheckSays list.now shape.now (verdict result total.new fewest.new ours.new) }
{
    match check_shape(list, shape) {
        Ok(sound) => {
            *total = sound.total;
            *fewest = sound.fewest;
            *ours = sound.ours;
            0
        }
        Err(refusal) => {
            *total = 0;
            *fewest = 0;
            *ours = false;
            refusal.number()
        }
    }
}

// Listing: 0 with the text at the front of `out` and its length, or 16 where `out` is too short for it.
#[unsafe(no_mangle)]
pub extern "C" fn plates_write_listing(list: &[u8], out: &mut [u8], long: &mut usize) -> u8
    ensures { ListingSays list.now out.old out.new (listed result long.new) }
{
    give_length(write_listing(list, out), long)
}

// To text: the refusal's number, or 0 with the text at the front of `out` and its length.
#[unsafe(no_mangle)]
pub extern "C" fn plates_write_text(
    list: &[u8],
    shape: &[u8],
    out: &mut [u8],
    long: &mut usize,
) -> u8
    ensures { WriteSays list.now shape.now out.old out.new (listed result long.new) }
{
    give_length(write_text(list, shape, out), long)
}

// Back from text: the refusal's number, or 0 with the shape file at the front of `out`, its length and its bends.
#[unsafe(no_mangle)]
pub extern "C" fn plates_read_text(
    list: &[u8],
    text: &[u8],
    out: &mut [u8],
    long: &mut u32,
    bends: &mut u32,
) -> u8
    ensures { ReadSays list.now text.now out.old out.new (shaped result long.new bends.new) }
{
    give_written(read_text(list, text, out), long, bends)
}

// Putting an older file in tag order: the old walk's refusal or 16, or 0 with the file at the front of `out` and its length.
#[unsafe(no_mangle)]
pub extern "C" fn plates_order_fields(file: &[u8], out: &mut [u8], long: &mut usize) -> u8
    ensures { OrderSays file.now out.old out.new (ordered result long.new) }
{
    give_length(order_fields(file, out), long)
}

// A step of the editor: a strip ends at a new post, and a new strip runs from there to its old end. The refusal's number, or 0 with the list
// after the step at the front of `out` and its length.
#[unsafe(no_mangle)]
pub extern "C" fn plates_split_strip(
    list: &[u8],
    strip: usize,
    out: &mut [u8],
    long: &mut usize,
) -> u8
    ensures { EditSays list.now (Split strip) out.old out.new (listed result long.new) }
{
    give_length(split_strip(list, strip, out), long)
}

// A new strip to a new post, in the corner where a dart ends.
#[unsafe(no_mangle)]
pub extern "C" fn plates_hang_strip(
    list: &[u8],
    dart: usize,
    out: &mut [u8],
    long: &mut usize,
) -> u8
    ensures { EditSays list.now (Hang dart) out.old out.new (listed result long.new) }
{
    give_length(hang_strip(list, dart, out), long)
}

// A new strip from the corner where a dart ends to the corner where another dart of its face ends.
#[unsafe(no_mangle)]
pub extern "C" fn plates_join_darts(
    list: &[u8],
    dart: usize,
    other: usize,
    out: &mut [u8],
    long: &mut usize,
) -> u8
    ensures { EditSays list.now (Join dart other) out.old out.new (listed result long.new) }
{
    give_length(join_darts(list, dart, other, out), long)
}

// Books: the refusal's number, or 0 with the current revision of the model, 0 where the model is not there.
#[unsafe(no_mangle)]
pub extern "C" fn plates_current_revision(book: &[u8], model: u16, revision: &mut u16) -> u8
    ensures { RevisionIs book.now model result revision.new }
{
    match current_revision(book, model) {
        Ok(found) => {
            *revision = found.unwrap_or(0);
            0
        }
        Err(refusal) => {
            *revision = 0;
            refusal.number()
        }
    }
}
