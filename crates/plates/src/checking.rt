//! The verdict on a shape file, from what is read, judged and shaped.
ghost use Rattle.std.specs.Prelude.{◌≡◌, ◌&&◌, false, true, Ok};
ghost use Rattle.refusals.specs.Numbers.{fault_of};
ghost use Rattle.plates.specs.Shapes.{same};
ghost use Rattle.plates.specs.Files.{walk_all};
ghost use Rattle.plates.specs.Says.{sum_true, check_fault, CheckSays};
ghost use Rattle.plates.specs.Answers.{verdict_of};

use crate::reading::ShapeFile;
use fields::number;
use fields::writing::four_bytes;
use refusals::Refusal;
use shapes::counts::Counts;
use shapes::judge::judge;
use shapes::rates::{limits_ok, price_of};

/// A sound shape file: its total, the fewest within the limits (for a list with
/// prices the least sum of bends times price), and whether its angles and right
/// bends are those that shaping writes.
#[derive(Clone, Copy, Debug, PartialEq, Eq)]
pub struct Sound {
    pub total: u32,
    pub fewest: u32,
    pub ours: bool,
}

// Have two shapes the same angles and right bends? A function of its own: an `&&` in the struct that holds it would leave two ways to prove.
fn is_same(ours: Counts, theirs: Counts) -> bool
    ensures { result ≡ (same ours.entry.angles.now theirs.entry.angles.now && same ours.entry.rights.now theirs.entry.rights.now) }
{
    ours.angles == theirs.angles && ours.rights == theirs.rights
}

impl ShapeFile<'_> {
    // Does the file have the sum of bends times price, for its own bends, exactly where the list has prices?
    #[tactic(auto, using(crate::proofs::Sums::no_sum_asked))]
    fn is_sum_true(&self) -> bool
        ensures { result ≡ sum_true (walk_all false self.now.list.bytes.now).fields (walk_all true self.now.bytes.now).fields }
    {
        match (self.list.fields.prices, self.sum) {
            (Some(prices), Some(said)) => said == &four_bytes(price_of(prices, self.counts))[..],
            (Some(_), None) => false,
            (None, Some(_)) => false,
            (None, None) => true,
        }
    }

    /// The check's refusal, if any: 19 to 22, 25, 39.
    #[tactic(auto, using(crate::proofs::CheckCounts::steps))]
    pub fn check(&self) -> Result<(), Refusal>
        ensures { fault_of result ≡ check_fault self.now.list.bytes.now self.now.bytes.now }
    {
        judge(self.list.plate, self.counts)?;
        let said = number(self.total);
        // `as`: a `u32` fits a `usize`, and `try_from` would test it again.
        let bends = self.counts.total() as usize;
        if said != bends {
            return Err(Refusal::TotalDiffers);
        }
        if !limits_ok(self.list.limits(), self.counts) {
            return Err(Refusal::LimitPassed);
        }
        if !self.is_sum_true() {
            return Err(Refusal::SumWrong);
        }
        Ok(())
    }

    // The verdict on a sound file. It is itself a shape within the limits, so there is a best one.
    pub(crate) fn sound(&self) -> Sound
        requires { check_fault self.now.list.bytes.now self.now.bytes.now ≡ 0 }
        ensures { CheckSays self.now.list.bytes.now self.now.bytes.now (verdict_of (Ok result)) }
    {
        let best = self.list.best().unwrap();
        let ours = best.counts(self.list.plate.darts);
        Sound {
            total: self.counts.total(),
            fewest: price_of(self.list.prices(), ours),
            ours: is_same(ours, self.counts),
        }
    }
}
