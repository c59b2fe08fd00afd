//! Refusals 7 to 15, or the plate.
ghost use Rattle.std.specs.Prelude.{◌≡◌, ◌%◌, ◌≤◌, length};
ghost use Rattle.refusals.specs.Numbers.{fault_of};
ghost use Rattle.embedding.specs.Plates.{plate};
ghost use Rattle.embedding.specs.Pass.{early_fault};
ghost use Rattle.embedding.specs.Read.{Past, Reads};

use crate::Plate;
use crate::labels::Walk;
use crate::order::{Ordered, padded};
use crate::strips::{answer, go_on, no_strips};
use refusals::Refusal;

// A plate as it is given: how many posts, the ends of its strips, its posts' darts in clockwise order, the outer dart.
#[derive(Clone, Copy)]
pub struct Lists<'a> {
    pub posts: usize,
    pub ends: &'a [u8],
    pub order: &'a [u8],
    pub outer: u8,
    pub ghost short: { length ends.now ≤ 256 },
    pub ghost even: { length ends.now % 2 ≡ 0 },
}

impl Lists<'_> {
    // Refusals 7 and 8.
    fn check_counts(&self) -> Result<(), Refusal>
        ensures { fault_of result ≡ early_fault self.now.posts self.now.ends.now }
    {
        if self.posts == 0 || 64 < self.posts {
            return Err(Refusal::PostCount);
        }
        if self.ends.is_empty() {
            return Err(Refusal::NoStrips);
        }
        Ok(())
    }

    // Refusals 12 to 15, or the plate.
    fn read_rest(&self, degrees: [u8; 64]) -> Result<Plate, Refusal>
        requires { Past self.now.posts self.now.ends.now degrees }
        ensures { Reads (plate self.now.posts self.now.ends.now self.now.order.now self.now.outer) result }
    {
        let darts = self.ends.len();
        if self.order.len() != darts {
            return Err(Refusal::ClockwiseOrder);
        }
        let places = self.read_order(degrees).ok_or(Refusal::ClockwiseOrder)?;
        if darts <= usize::from(self.outer) {
            return Err(Refusal::OuterDart);
        }
        let ordered = Ordered {
            posts: self.posts,
            ends: self.ends,
            places,
            degrees,
        };
        if ordered.reach_count() != self.posts {
            return Err(Refusal::NotConnected);
        }
        let next = ordered.next_darts();
        let labelled = Walk { darts, next }.faces();
        if self.posts + labelled.faces != darts / 2 + 2 {
            return Err(Refusal::NotPlane);
        }
        Ok(Plate {
            posts: self.posts,
            darts,
            ends: padded(self.ends),
            places,
            degrees,
            outer: self.outer,
            next,
            face: labelled.face,
            faces: labelled.faces,
            sizes: labelled.plate_sizes(),
        })
    }
}

// The plate of `posts` posts whose strips have these ends, whose posts have these darts in clockwise order, and whose outer face holds dart `outer`.
pub fn read_plate(posts: u8, ends: &[u8], order: &[u8], outer: u8) -> Result<Plate, Refusal>
    requires { (length ends.now ≤ 256) × (length ends.now % 2 ≡ 0) × (length order.now ≤ 256) }
    ensures { Reads (plate posts ends.now order.now outer) result }
{
    let lists = Lists {
        posts: usize::from(posts),
        ends,
        order,
        outer,
    };
    lists.check_counts()?;
    let strips = go_on(lists.posts, no_strips(), ends);
    answer(strips)?;
    lists.read_rest(strips.degrees)
}
