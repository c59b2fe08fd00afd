//! The gap to the next tight arc, and the raise of the potentials by it.
ghost use Rattle.std.specs.Prelude.{◌≡◌, ℕ, ◌+◌, ◌^◌, ◌<◌, ◌≤◌, length, get_or, unwrap_or};
ghost use Rattle.residual.specs.Residual.{near_ends};
ghost use Rattle.residual.specs.Graphs.{lists_of};
ghost use Rattle.residual.specs.Searches.{Standing};
ghost use Rattle.residual.specs.Prices.{Fits, short, Sums, Slack, Positive, Lesser, LeavesBy, LeavesFrom, Closest, Gap, Raised};

use crate::arcs::{UNREACHED, open_end};
use crate::graph::ResidualGraph;
use crate::search::Space;

// `on` is that of `arcs`: a step on, or back.

// How short of nothing the cost of a step on, or back, is between the potentials of the nodes near and far.
fn short_by(on: bool, cost: u64, near: u64, far: u64) -> u64
    requires { Fits on cost near far }
    ensures { result ≡ short on cost near far }
{
    if on {
        return (cost + near).saturating_sub(far);
    }
    near.saturating_sub(cost + far)
}

// How short of tight arc a is if it leaves the reached nodes and is not tight; u is reached, and a step on, or back, along a begins there.
// An option beside `Positive`, and 0 for none in the other clauses: the definitions compare numbers, and 0 is above no gap.
// That cost and potential together fit is asked for here: the search and the push do not need it of a `ResidualGraph`.
fn slack_at(r: ResidualGraph, dist: &[u8], on: bool, u: usize, a: usize) -> Option<u64>
    requires dist_len { length dist.now ≡ r.graph.nodes }
    requires sums { Sums (lists_of r) }
    requires a_in_bounds { a < length r.graph.arcs.now }
    requires a_value { get_or (near_ends on (lists_of r)) a 0 ≡ u }
    requires standing { Standing dist.now u }
    ensures slack { Slack (lists_of r.entry) dist.now a (unwrap_or result 0) }
    ensures positive { Positive result }
{
    let v = open_end(r, dist, on, a)?;
    let short = short_by(on, r.graph.arcs[a].cost, r.pot[u], r.pot[v]);
    if short > 0 { Some(short) } else { None }
}

// The lesser of two numbers, of which the first may be missing.
// A function of its own: it promises `Lesser`, which the library's `min` does not name.
fn lesser(m: Option<u64>, n: u64) -> Option<u64>
    requires m_positive { Positive m }
    requires n_positive { 0 < n }
    ensures lesser { Lesser (unwrap_or m 0) n (unwrap_or result 0) }
    ensures positive { Positive result }
{
    match m {
        Some(a) => Some(a.min(n)),
        None => Some(n),
    }
}

// The lesser of `most` and of what the arcs that steps on, or back, from u lead along are short of tight where they leave the reached nodes.
fn gap_by(r: ResidualGraph, dist: &[u8], on: bool, u: usize, most: Option<u64>) -> Option<u64>
    requires dist_len { length dist.now ≡ r.graph.nodes }
    requires sums { Sums (lists_of r) }
    requires standing { Standing dist.now u }
    requires most_positive { Positive most }
    ensures closest { Closest (lists_of r.entry) dist.now (LeavesBy (lists_of r.entry) dist.now on u) (unwrap_or most 0) (unwrap_or result 0) }
    ensures positive { Positive result }
{
    let links = r.links(on);
    let mut best = most;
    let mut at = usize::from(links.last[u]);
    // A while: each arc names the next one.
    while at > 0 {
        let a = at - 1;
        if let Some(short) = slack_at(r, dist, on, u, a) {
            best = lesser(best, short);
        }
        at = usize::from(links.before[a]);
    }
    best
}

// The same for steps on and back, if u is reached.
fn gap_at(r: ResidualGraph, dist: &[u8], u: usize, most: Option<u64>) -> Option<u64>
    requires dist_len { length dist.now ≡ r.graph.nodes }
    requires sums { Sums (lists_of r) }
    requires u_in_bounds { u < length dist.now }
    requires most_positive { Positive most }
    ensures closest { Closest (lists_of r.entry) dist.now (LeavesFrom (lists_of r.entry) dist.now u) (unwrap_or most 0) (unwrap_or result 0) }
    ensures positive { Positive result }
{
    if dist[u] == UNREACHED {
        return most;
    }
    let on = gap_by(r, dist, true, u, most);
    gap_by(r, dist, false, u, on)
}

// The least by which a residual arc that leaves the reached nodes is short of tight, if one is.
pub fn gap(r: ResidualGraph, space: &Space<'_>) -> Option<u64>
    requires dist_len { length space.now.dist.now ≡ r.graph.nodes }
    requires sums { Sums (lists_of r) }
    ensures gap { Gap (lists_of r.entry) space.now.dist.now (unwrap_or result 0) }
    ensures positive { Positive result }
{
    let mut best = None;
    for u in 0..r.graph.nodes {
        best = gap_at(r, space.dist, u, best);
    }
    best
}

// Raises the potential of every node that is not reached.
pub fn raise(pot: &mut [u64], space: &Space<'_>, by: u64)
    requires pot_len { length pot.old ≡ length space.now.dist.now }
    requires by_index { (v : ℕ) → 255 ≤ get_or space.now.dist.now v 0 → get_or pot.old v 0 + by < 2 ^ 64 }
    ensures { Raised space.now.dist.now by pot.old pot.new }
{
    for (v, price) in pot.iter_mut().enumerate() {
        if space.dist[v] == UNREACHED {
            *price += by;
        }
    }
}
