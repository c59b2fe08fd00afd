//! From plate list to the shape with fewest bends: shaping, checking, listing.
#![tactic(auto)]

ghost use Rattle.shapes.specs.BestOf.{Answers};
ghost use Rattle.plates.specs.Files.{plate_of, rates_of};
ghost use Rattle.plates.specs.Answers.{shaped_of, verdict_of, listed_of};
ghost use Rattle.plates.specs.Says.{ShapeSays, CheckSays};
ghost use Rattle.plates.specs.Listing.{ListingSays};

use crate::checking::Sound;
use crate::encoding::Written;
use crate::listing::list_refused;
use crate::reading::{PlateList, read_list, read_shape};
use refusals::Refusal;
use shapes::best::{BestShape, best_by};
use shapes::rates::StripRates;

pub mod checking;
pub mod encoding;
pub mod listing;
pub mod reading;

impl PlateList<'_> {
    /// The best shape within the list's limits, by its prices, if some shape keeps them. (`shapes::best` has no limits, and so always a shape.)
    #[tactic(auto, using(crate::proofs::Sums::held_fair))]
    pub fn best(&self) -> Option<BestShape>
        ensures { Answers (plate_of self.now.bytes.now) (rates_of self.now.bytes.now) result }
    {
        let limits = self.limits();
        let prices = self.prices();
        best_by(self.plate, StripRates { limits, prices })
    }
}

// In the calls below `list`, `shape` and `out` stay beside each other: they are files, and memory for one, which C gives as they are.

/// Writes the best shape of a plate list to the front of lent memory, or
/// refuses with the list's number, 24 or 16 and changes nothing.
pub fn write_shape(list: &[u8], out: &mut [u8]) -> Result<Written, Refusal>
    ensures { ShapeSays list.now out.old out.new (shaped_of result) }
{
    let read = read_list(list)?;
    let best = read.best().ok_or(Refusal::NoShapeWithin)?;
    read.write_file(best.counts(read.plate.darts), out)
}

/// The verdict on a shape file against a plate list.
pub fn check_shape(list: &[u8], shape: &[u8]) -> Result<Sound, Refusal>
    ensures { CheckSays list.now shape.now (verdict_of result) }
{
    let read = read_list(list)?;
    let file = read_shape(read, shape)?;
    file.check()?;
    Ok(file.sound())
}

/// Writes the listing of a plate list to the front of lent memory and gives
/// its length, or refuses with 16 and changes nothing.
pub fn write_listing(list: &[u8], out: &mut [u8]) -> Result<usize, Refusal>
    ensures { ListingSays list.now out.old out.new (listed_of result) }
{
    let read = match read_list(list) {
        Ok(read) => read,
        Err(refusal) => return list_refused(refusal, out),
    };
    match read.best() {
        Some(best) => read.list_counts(best.counts(read.plate.darts), out),
        None => list_refused(Refusal::NoShapeWithin, out),
    }
}
