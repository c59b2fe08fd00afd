//! Counts of a shape: whether they bend some strip both ways, and their text.
ghost use Rattle.std.specs.Prelude.{◌≡◌, length};
ghost use Rattle.embedding.specs.Read.{meant};
ghost use Rattle.plates.specs.Answers.{listed_of};
ghost use Rattle.plates.specs.Shapes.{shape_of};
ghost use Rattle.plates.specs.Listing.{Gives};
ghost use Rattle.plates.specs.Lines.{face_text, both_ways};
ghost use Rattle.texts.specs.Prints.{Straight};

use crate::planning::plan_of;
use crate::printing::{text_long, write_entries};
use embedding::Plate;
use refusals::Refusal;
use shapes::counts::Counts;

/// Whether some strip bends both ways.
pub fn both_ways(rights: &[u8]) -> bool
    ensures { result ≡ both_ways rights.now }
{
    let (strips, _) = rights.as_chunks::<2>();
    strips.iter().any(|strip| 0 < strip[0] && 0 < strip[1])
}

/// Writes the text of counts, or refuses with 16.
pub fn print_counts(plate: Plate, counts: Counts, out: &mut [u8]) -> Result<usize, Refusal>
    requires many { length counts.angles.now ≡ plate.darts }
    requires straight { Straight counts.angles.now counts.rights.now }
    ensures { Gives (face_text (meant plate) counts.entry.angles.now (shape_of (meant plate) counts.entry.angles.now counts.entry.rights.now).words) out.old out.new (listed_of result) }
{
    let long = text_long(counts);
    if out.len() < long {
        return Err(Refusal::MemoryShort);
    }
    let plan = plan_of(plate);
    write_entries(out, plan.turns(), counts);
    Ok(long)
}
