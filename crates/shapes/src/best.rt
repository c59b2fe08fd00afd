//! The best shape of a plate: the first of the cheapest flows, read as right bends and angles.
ghost use Rattle.std.specs.Prelude.{◌≡◌, ℕ, ◌+◌, ◌%◌, ◌<◌, ◌≤◌, length, get_or, take, drop};
ghost use Rattle.finite.specs.Tables.{Table, up_to};
ghost use Rattle.embedding.specs.Read.{meant};
ghost use Rattle.shapes.specs.Rates.{rates, Fair, pair_sums};
ghost use Rattle.shapes.specs.Entries.{ByArc, ByNode};
ghost use Rattle.shapes.specs.BestOf.{BestHeld, Answers, Small, Taken};

use crate::counts::{Counts, total_bends};
use crate::network::{arc_count, lay_network, node_count};
use crate::rates::StripRates;
use embedding::Plate;
use flow::nodes::{Infeasible, Node};
use flow::solve::solve;
use residual::arcs::{Arc, NO_ARC};

/// The angle and the right bends of each dart, and the sum of the right bends. Unused places are 0.
/// Arrays with a place for each dart that can be: the library has no heap.
#[derive(Clone, Copy)]
pub struct BestShape {
    pub angles: [u8; 256],
    pub rights: [u8; 256],
    pub total: u32,
}

impl BestShape {
    /// The counts of the first `darts` darts.
    // A text's counts have a method like it: a struct of the two arrays for both would be a field more in each definition.
    pub fn counts(&self, darts: usize) -> Counts<'_>
        requires { (darts ≤ 256) × (darts % 2 ≡ 0) }
        ensures { (result.angles.now ≡ take darts self.now.angles) × (result.rights.now ≡ take darts self.now.rights) }
    {
        Counts {
            angles: &self.angles[..darts],
            rights: &self.rights[..darts],
        }
    }
}

// A byte for each of the first `n` places, where `at` gives a number that fits one.
// Not array::from_fn: its closure would have to test for the places behind them.
fn bytes_of<F: Fn(usize) -> u16>(n: usize, at: F) -> [u8; 256]
    requires few { n ≤ 256 }
    requires given { (i : ℕ) → i < n → F.pre at i }
    requires fit { (i : ℕ) (r : _) → i < n → F.post at i r → r < 256 }
    ensures { (g : ℕ → ℕ) → ((i : ℕ) (r : _) → i < n → F.post at i r → r ≡ g i) → Table 256 (up_to n g) result }
{
    let mut bytes = [0u8; 256];
    for i in 0..n {
        // `as`: each fits a byte, as the `requires` says, and `try_from` would test it again.
        bytes[i] = at(i) as u8;
    }
    bytes
}

// The two units of the corner of dart `d` together.
fn corner_units(darts: usize, x: &[u16], d: usize) -> u16
    requires { Small darts x.now × (d < darts) }
    ensures { (result ≡ get_or (pair_sums (drop darts x.now)) d 0) × (result < 256) }
{
    let first = darts + d + d;
    x[first] + x[first + 1]
}

// The units of the darts are right bends, those of the corners angles.
fn take_shape(darts: usize, x: &[u16]) -> BestShape
    requires { Small darts x.now }
    ensures { Taken darts x.now result }
{
    let rights = bytes_of(darts, |d| x[d]);
    let angles = bytes_of(darts, |d| corner_units(darts, x, d));
    let total = total_bends(&rights[..darts]);
    BestShape {
        angles,
        rights,
        total,
    }
}

// The answer, in lent space.
// Of the three lists two go by arc and one by node, so a struct would ask for as many lengths.
fn best_in(
    q: &Plate,
    by: StripRates,
    arcs: &mut [Arc],
    nodes: &mut [Node],
    x: &mut [u16],
) -> Option<BestShape>
    requires { Fair (rates by.limits.now by.prices.now) × ByArc q.now arcs.old × ByNode q.now nodes.old × ByArc q.now x.old }
    ensures { Answers (meant q.now) (rates by.entry.limits.now by.entry.prices.now) result }
{
    lay_network(q, by, arcs, nodes);
    match solve(arcs, nodes, x) {
        Ok(()) => Some(take_shape(q.darts, x)),
        Err(Infeasible) => None,
    }
}

/// The best shape of an accepted plate within limits, by prices of bends, if some shape keeps the limits.
pub fn best_by(q: Plate, by: StripRates) -> Option<BestShape>
    requires { Fair (rates by.limits.now by.prices.now) }
    ensures { Answers (meant q) (rates by.entry.limits.now by.entry.prices.now) result }
{
    let by_arc = arc_count(&q);
    let by_node = node_count(&q);
    let mut arcs = [NO_ARC; 768];
    let mut nodes = [Node {
        supply: 0,
        demand: 0,
    }; 130];
    let mut x = [0u16; 768];
    best_in(
        &q,
        by,
        &mut arcs[..by_arc],
        &mut nodes[..by_node],
        &mut x[..by_arc],
    )
}

/// The best shape of an accepted plate: no limits, and each bend costs 1.
// A plate list has a method of this name, within the limits that the list gives.
pub fn best(q: Plate) -> BestShape
    ensures { BestHeld (meant q) result }
{
    best_by(
        q,
        StripRates {
            limits: b"",
            prices: b"",
        },
    )
    .unwrap()
}
