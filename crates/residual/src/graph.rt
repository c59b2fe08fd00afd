//! Arcs that are linked at their ends, and residual arcs: those with units on them, and potentials of the nodes.
ghost use Rattle.std.specs.Prelude.{◌≡◌, ◌<◌, length};
ghost use Rattle.residual.specs.Residual.{Shaped, far_end};
ghost use Rattle.residual.specs.Chains.{Chain, ChainBy};
ghost use Rattle.residual.specs.Arcs.{tails_of, heads_of, lowers_of, tops_of, residual_from};

use crate::arcs::Arc;

// The arcs at each node that can move, from the last one back: by node its last arc, by arc the one before it, each one more than its number;
// and by arc the node that it leads to.
// 0 is none: one test, `at > from`, ends a walk there and below `from`.
// Lists, not a list of structs: of most arcs a walk reads the far end only, and a list of bytes takes less memory and fewer instructions to read.
#[derive(Clone, Copy)]
pub struct Links<'a> {
    pub last: &'a [u16],
    pub before: &'a [u16],
    pub far: &'a [u8],
}

// Arcs between so many nodes, each held to `most` units above its least, linked where they begin and where they end.
// The least of each stands in a list too: a step back asks for nothing else of an arc.
#[derive(Clone, Copy)]
pub struct Graph<'a> {
    pub arcs: &'a [Arc],
    pub most: u16,
    pub lowers: &'a [u16],
    pub nodes: usize,
    pub outs: Links<'a>,
    pub ins: Links<'a>,
    pub ghost by_tail: { Chain (tails_of arcs.now) (lowers_of arcs.now) (tops_of most arcs.now) nodes outs.last.now outs.before.now },
    pub ghost by_head: { Chain (heads_of arcs.now) (lowers_of arcs.now) (tops_of most arcs.now) nodes ins.last.now ins.before.now },
    pub ghost least: { lowers.now ≡ lowers_of arcs.now },
    pub ghost on_to: { outs.far.now ≡ heads_of arcs.now },
    pub ghost back_to: { ins.far.now ≡ tails_of arcs.now },
}

impl Graph<'_> {
    // Where a step on, or back, along arc a leads; `on` is that of `arcs`.
    pub fn far_end(self, on: bool, a: usize) -> usize
        requires { a < length self.arcs.now }
        ensures { result ≡ far_end on (tails_of self.entry.arcs.now) (heads_of self.entry.arcs.now) a }
    {
        usize::from(if on {
            self.outs.far[a]
        } else {
            self.ins.far[a]
        })
    }
}

// A graph with units on its arcs within their bounds, and potentials of its nodes.
#[derive(Clone, Copy)]
pub struct ResidualGraph<'a, 'x, 'p> {
    pub graph: Graph<'a>,
    pub x: &'x [u16],
    pub pot: &'p [u64],
    pub ghost shaped: { Shaped (residual_from graph.most graph.arcs.now x.now pot.now) graph.nodes },
}

impl<'a> ResidualGraph<'a, '_, '_> {
    // The links at the ends where steps on, or back, begin.
    pub(crate) fn links(self, on: bool) -> Links<'a>
        ensures { ChainBy on (residual_from self.entry.graph.most self.entry.graph.arcs.now self.entry.x.now self.entry.pot.now) self.entry.graph.nodes result.last.now result.before.now }
    {
        if on { self.graph.outs } else { self.graph.ins }
    }
}
