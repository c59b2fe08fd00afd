//! The verdict on the counts that a text gives.
ghost use Rattle.std.specs.Prelude.{◌≡◌};
ghost use Rattle.refusals.specs.Numbers.{fault_of};
ghost use Rattle.plates.specs.Files.{plate_of, limits_of};
ghost use Rattle.texts.specs.Reads.{counted_fault};

use crate::parsing::Counted;
use plates::reading::PlateList;
use refusals::Refusal;
use shapes::judge::judge;
use shapes::rates::limits_ok;

/// 32 for words that do not agree across a strip, then 20 and 21, then 25.
#[tactic(auto, using(crate::proofs::FaceLeads::dart_bounds))]
pub fn check_counted(list: &PlateList, read: &Counted) -> Result<(), Refusal>
    ensures { fault_of result ≡ counted_fault (plate_of list.now.bytes.now) (limits_of list.now.bytes.now) list.now.plate.darts read.now.angles read.now.rights read.now.lefts }
{
    let darts = list.plate.darts;
    if !read.twins_agree(darts) {
        return Err(Refusal::TextFaces);
    }
    let counts = read.counts(darts);
    judge(list.plate, counts)?;
    let limits = list.limits();
    if !limits_ok(limits, counts) {
        return Err(Refusal::LimitPassed);
    }
    Ok(())
}
