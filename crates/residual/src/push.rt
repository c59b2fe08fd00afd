//! A push of one unit along the tree of a search, and the search before it.
ghost use Rattle.std.specs.Prelude.{◌≡◌, ◌⊎◌, ◌<◌, length, get_or};
ghost use Rattle.residual.specs.Residual.{reached, Walkable, Up, Down, Walked, Shaped, Fresh};
ghost use Rattle.residual.specs.Chains.{Lined};
ghost use Rattle.residual.specs.Arcs.{tails_of, heads_of};
ghost use Rattle.residual.specs.Graphs.{residual_on, Workspace};
ghost use Rattle.residual.specs.Searches.{Augmented};

use crate::arcs::Arc;
use crate::graph::{Graph, ResidualGraph};
use crate::marks::want_only;
use crate::search::{Space, search};

// Moves a unit along arc a, on to v or, where a does not lead to v, back from it; the node at its other end.
fn shift(arcs: &[Arc], x: &mut [u16], a: usize, v: usize) -> usize
    requires a_in_bounds { a < length arcs.now }
    requires x_len { length x.old ≡ length arcs.now }
    requires a_bound { get_or (heads_of arcs.now) a 0 ≡ v → get_or x.old a 0 < 65535 }
    requires nonzero { (get_or (heads_of arcs.now) a 0 ≡ v → ⊥) → 0 < get_or x.old a 0 }
    ensures { Up (tails_of arcs.now) (heads_of arcs.now) x.old a v x.new result ⊎ Down (tails_of arcs.now) (heads_of arcs.now) x.old a v x.new result }
{
    let tail = usize::from(arcs[a].tail);
    let head = usize::from(arcs[a].head);
    if head == v {
        x[a] += 1;
        return tail;
    }
    x[a] -= 1;
    head
}

// Moves a unit to the target along the tree, from the source that it ends at.
pub fn push(arcs: &[Arc], x: &mut [u16], space: &Space<'_>, target: usize) -> usize
    requires walkable { Walkable (tails_of arcs.now) (heads_of arcs.now) x.old space.now.dist.now space.now.via.now }
    requires target_in_bounds { target < length space.now.dist.now }
    requires reached { reached space.now.dist.now target }
    ensures walked { Walked (tails_of arcs.now) (heads_of arcs.now) space.now.dist.now space.now.via.now x.old target x.new result }
    ensures result_value { get_or space.now.dist.now result 0 ≡ 0 }
{
    let mut v = target;
    // A while: each node names the arc that leads to it.
    while space.dist[v] > 0 {
        v = shift(arcs, x, usize::from(space.via[v]), v);
    }
    v
}

// Searches from the source, which stands in the queue, for the target and moves a unit to it; the source, if the target is reached.
// Seven parameters: the units change here, so no `ResidualGraph` can hold them, and `space` and `wanted` are lent by the caller.
pub fn augment(
    graph: Graph,
    x: &mut [u16],
    pot: &[u64],
    from: usize,
    space: &mut Space<'_>,
    wanted: &mut [u16],
    target: usize,
) -> Option<usize>
    requires shaped { Shaped (residual_on graph x.old pot.now) graph.nodes }
    requires workspace { Workspace graph.nodes space.old }
    requires wanted_len { length wanted.old ≡ graph.nodes }
    requires fresh { Fresh space.old.dist.now }
    requires lined { Lined space.old.dist.now 1 space.old.queue.now }
    requires target_in_bounds { target < graph.nodes }
    ensures augmented { Augmented (residual_on graph.entry x.old pot.now) from space.old.dist.now target x.new space.new.dist.now space.new.via.now result }
    ensures workspace { Workspace graph.entry.nodes space.new }
{
    want_only(target, wanted);
    search(ResidualGraph { graph, x, pot }, from, space, wanted, 1)?;
    Some(push(graph.arcs, x, space, target))
}
