//! Shapes as texts of faces: to text and back.
#![tactic(auto)]

ghost use Rattle.plates.specs.Answers.{listed_of, shaped_of};
ghost use Rattle.plates.specs.Texts.{WriteSays, ReadSays};

use crate::counting::{both_ways, print_counts};
use crate::judging::check_counted;
use crate::parsing::parse;
use crate::planning::plan_of;
use plates::encoding::Written;
use plates::reading::{read_list, read_shape};
use refusals::Refusal;

pub mod counting;
pub mod entries;
pub mod judging;
pub mod parsing;
pub mod planning;
pub mod printing;
pub mod scanning;

// In both calls the list, the other file and `out` stay three slices beside each other: two files, and memory for a third, which C gives as they are.

/// Writes the text of a sound shape file to the front of lent memory, or refuses with
/// the check's numbers, 31 or 16 and changes nothing.
#[tactic(auto, using(crate::proofs::WriteLaws::steps, plates::proofs::CheckCounts::counts_many))]
pub fn write_text(list: &[u8], shape: &[u8], out: &mut [u8]) -> Result<usize, Refusal>
    ensures { WriteSays list.now shape.now out.old out.new (listed_of result) }
{
    let list = read_list(list)?;
    let file = read_shape(list, shape)?;
    file.check()?;
    if both_ways(file.counts.rights) {
        return Err(Refusal::MixedWord);
    }
    print_counts(file.list.plate, file.counts, out)
}

/// Writes the shape file of a text to the front of lent memory, or refuses with
/// the list's numbers, 30 to 32, 20, 21, 25 or 16 and changes nothing.
#[tactic(auto, using(crate::proofs::ReadLaws::steps, crate::proofs::FaceLeads::dart_bounds))]
pub fn read_text(list: &[u8], text: &[u8], out: &mut [u8]) -> Result<Written, Refusal>
    ensures { ReadSays list.now text.now out.old out.new (shaped_of result) }
{
    let list = read_list(list)?;
    let plan = plan_of(list.plate);
    let read = parse(text, plan.turns())?;
    check_counted(&list, &read)?;
    list.write_file(read.counts(list.plate.darts), out)
}
