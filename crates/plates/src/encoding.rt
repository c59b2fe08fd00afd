//! The fields of a shape file, written one behind the other into lent memory.
ghost use Rattle.std.specs.Prelude.{◌≡◌, ◌+◌, ◌≤◌, false, length};
ghost use Rattle.fields.specs.Writing.{Written as WrittenAt};
ghost use Rattle.plates.specs.Files.{walk_all, sum_bytes};
ghost use Rattle.plates.specs.Answers.{shaped_of};
ghost use Rattle.plates.specs.Says.{file_long};
ghost use Rattle.plates.specs.Encodes.{FileGiven, FileWritten, FileSays};

use crate::reading::{PlateList, WalkedList};
use fields::writing::{four_bytes, two_bytes, write_field};
use refusals::Refusal;
use shapes::counts::Counts;
use shapes::rates::price_of;

/// A shape written: its length and its total bends.
#[derive(Clone, Copy, Debug, PartialEq, Eq)]
pub struct Written {
    pub long: u32,
    pub bends: u32,
}

impl WalkedList<'_> {
    /// The length of the list's shape file.
    pub fn file_long(&self) -> usize
        ensures { result ≡ file_long self.now.bytes.now }
    {
        let plain = 16 + 2 * self.fields.ends.len();
        match self.fields.prices {
            Some(_) => plain + 7,
            None => plain,
        }
    }

    // Writes the sum of bends times price from `at` on, if the list has prices, and gives the place behind it.
    // `out` stays beside `at`, for the reason that `fields::writing` gives.
    fn write_sum(&self, counts: Counts, out: &mut [u8], at: usize) -> usize
        requires { at + length (sum_bytes (walk_all false self.now.bytes.now).fields counts.rights.now) ≤ length out.old }
        ensures { WrittenAt at (sum_bytes (walk_all false self.now.bytes.now).fields counts.entry.rights.now) out.old out.new result }
    {
        match self.fields.prices {
            Some(prices) => write_field(out, at, 0x16, &four_bytes(price_of(prices, counts))),
            None => at,
        }
    }

    /// Writes the shape file of these counts, and gives its length.
    #[tactic(auto, using(crate::proofs::FileRows::lengths))]
    pub fn write_fields(&self, counts: Counts, out: &mut [u8]) -> usize
        requires given { FileGiven (length self.now.fields.ends.now) counts.angles.now counts.rights.now }
        requires enough { file_long self.now.bytes.now ≤ length out.old }
        ensures { FileWritten self.now.bytes.now counts.entry.angles.now counts.entry.rights.now out.old out.new result }
    {
        // `as`: a `u32` fits a `usize`, and `try_from` would test it again.
        let bends = two_bytes(counts.total() as usize);
        let second = write_field(out, 0, 0x11, self.fields.revision);
        let third = write_field(out, second, 0x12, &bends);
        let fourth = write_field(out, third, 0x13, counts.angles);
        let fifth = write_field(out, fourth, 0x14, counts.rights);
        self.write_sum(counts, out, fifth)
    }

    /// Writes the shape file of counts, an angle and right bends for each dart, or refuses with 16.
    #[tactic(auto, using(crate::proofs::Sums::long_most))]
    pub fn write_file(&self, counts: Counts, out: &mut [u8]) -> Result<Written, Refusal>
        requires { FileGiven (length self.now.fields.ends.now) counts.angles.now counts.rights.now }
        ensures { FileSays self.now.bytes.now counts.entry.angles.now counts.entry.rights.now out.old out.new (shaped_of result) }
    {
        let long = self.file_long();
        if out.len() < long {
            return Err(Refusal::MemoryShort);
        }
        self.write_fields(counts, out);
        Ok(Written {
            // `as`: the length is at most 535, and `try_from` would test it again.
            long: long as u32,
            bends: counts.total(),
        })
    }
}

impl PlateList<'_> {
    /// Writes the shape file of counts, an angle and right bends for each dart, or refuses with 16.
    pub fn write_file(&self, counts: Counts, out: &mut [u8]) -> Result<Written, Refusal>
        requires { FileGiven self.now.plate.darts counts.angles.now counts.rights.now }
        ensures { FileSays self.now.bytes.now counts.entry.angles.now counts.entry.rights.now out.old out.new (shaped_of result) }
    {
        self.walked().write_file(counts, out)
    }
}
