//! Arcs, tests on one arc, and where a step along it leads.
ghost use Rattle.std.specs.Prelude.{◌≡◌, ◌+◌, ◌<◌, length, get_or};
ghost use Rattle.residual.specs.Arcs.{tails_of, heads_of, ends_of, fars_of, top_of};
ghost use Rattle.residual.specs.Residual.{Tells, Even, Roomy, far_end, Open};
ghost use Rattle.residual.specs.Graphs.{lists_of};

use crate::graph::ResidualGraph;

// An arc: its ends, the least and the most units on it, and what a unit costs.
#[derive(Clone, Copy)]
pub struct Arc {
    pub tail: u8,
    pub head: u8,
    pub lower: u16,
    pub upper: u16,
    pub cost: u64,
}

// What stands where no arc is noted yet.
pub const NO_ARC: Arc = Arc {
    tail: 0,
    head: 0,
    lower: 0,
    upper: 0,
    cost: 0,
};

// The mark of a node that no source leads to. A byte, no option: marks are compared in order, and this one stands above all others.
pub(crate) const UNREACHED: u8 = 255;

// Whether an arc of this cost is tight between potentials low and high.
pub fn is_tight(cost: u64, low: u64, high: u64) -> bool
    ensures { Tells result (cost + low ≡ high) }
{
    low <= high && high - low == cost
}

// `on` says which way a step goes, here and wherever a function takes it: on, from an arc's tail to its head, or back.
// A flag, since the definitions have it: one function, and one proof, serves both ways.

// Whether an arc of this cost is tight, for a step on, or back, between the potentials of the nodes near and far.
pub(crate) fn is_tight_by(on: bool, cost: u64, near: u64, far: u64) -> bool
    ensures { Tells result (Even on cost near far) }
{
    if on {
        is_tight(cost, near, far)
    } else {
        is_tight(cost, far, near)
    }
}

// The most units on an arc that is held to `most` above its least.
pub fn top(arc: Arc, most: u16) -> u16
    ensures { result ≡ top_of most arc }
{
    arc.upper.min(arc.lower.saturating_add(most))
}

// Whether there is room between an arc's bounds for a step on, or back.
fn has_room(on: bool, units: u16, lower: u16, upper: u16) -> bool
    ensures { Tells result (Roomy on units lower upper) }
{
    if on { units < upper } else { lower < units }
}

// Where a step on, or back, along arc a leads, as the arc has it.
pub(crate) fn leads_to(arcs: &[Arc], on: bool, a: usize) -> u8
    requires { a < length arcs.now }
    ensures { result ≡ get_or (fars_of on arcs.now) a 0 }
{
    if on { arcs[a].head } else { arcs[a].tail }
}

// Where a step on, or back, along arc a begins: where one the other way leads.
// Called with `far_end` also where the arc is at hand: they promise the ends as the lists by arc have them, and so that each is a node.
pub fn near_end(arcs: &[Arc], on: bool, a: usize) -> usize
    requires { a < length arcs.now }
    ensures { result ≡ get_or (ends_of on arcs.now) a 0 }
{
    usize::from(leads_to(arcs, !on, a))
}

// Where a step on, or back, along arc a leads.
pub fn far_end(arcs: &[Arc], on: bool, a: usize) -> usize
    requires { a < length arcs.now }
    ensures { result ≡ far_end on (tails_of arcs.now) (heads_of arcs.now) a }
{
    usize::from(leads_to(arcs, on, a))
}

// Where a step on, or back, along arc a leads, if that node is new and there is room.
pub(crate) fn open_end(r: ResidualGraph, dist: &[u8], on: bool, a: usize) -> Option<usize>
    requires dist_len { length dist.now ≡ r.graph.nodes }
    requires a_in_bounds { a < length r.graph.arcs.now }
    ensures { Open (lists_of r.entry) dist.now on a result }
{
    let v = r.graph.far_end(on, a);
    if dist[v] < UNREACHED {
        return None;
    }
    let arc = r.graph.arcs[a];
    if !has_room(on, r.x[a], r.graph.lowers[a], top(arc, r.graph.most)) {
        return None;
    }
    Some(v)
}
