//! Units that can go over one tight arc are sent first, without a search.
ghost use Rattle.std.specs.Prelude.{◌≡◌, ◌*◌, ◌<◌, length};
ghost use Rattle.residual.specs.Graphs.{residual_on};
ghost use Rattle.flow.specs.Network.{total};
ghost use Rattle.flow.specs.Solver.{Moved, Ready, Eased, phase_most};

use crate::nodes::Units;
use residual::arcs::{far_end, is_tight, near_end, top};
use residual::graph::Graph;

// Sends over arc a what its tail has left, its head lacks and the arc has room for, if the arc is tight.
fn send_over(graph: Graph, x: &mut [u16], pot: &[u64], units: &mut Units<'_>, a: usize)
    requires ready { Ready (residual_on graph x.old pot.now) (phase_most * total units.old.left.now) units.old.left.now units.old.lack.now }
    requires a_in_bounds { a < length graph.arcs.now }
    ensures carried { Moved graph.entry x.old units.old x.new units.new }
    ensures eased { Eased (residual_on graph.entry x.new pot.now) units.new.left.now units.new.lack.now units.old.left.now }
{
    let t = near_end(graph.arcs, true, a);
    let h = far_end(graph.arcs, true, a);
    let some = units.left[t].min(units.lack[h]);
    if some == 0 {
        return;
    }
    let arc = graph.arcs[a];
    if !is_tight(arc.cost, pot[t], pot[h]) {
        return;
    }
    let sent = some.min(top(arc, graph.most) - x[a]);
    x[a] += sent;
    units.left[t] -= sent;
    units.lack[h] -= sent;
}

// Sends what node v has left over single tight arcs to nodes that lack some; later arcs first.
fn send_from(graph: Graph, x: &mut [u16], pot: &[u64], units: &mut Units<'_>, v: usize)
    requires ready { Ready (residual_on graph x.old pot.now) (phase_most * total units.old.left.now) units.old.left.now units.old.lack.now }
    requires v_in_bounds { v < graph.nodes }
    requires v_in_left { v < length units.old.left.now }
    ensures carried { Moved graph.entry x.old units.old x.new units.new }
    ensures eased { Eased (residual_on graph.entry x.new pot.now) units.new.left.now units.new.lack.now units.old.left.now }
{
    if units.left[v] == 0 {
        return;
    }
    let mut at = usize::from(graph.outs.last[v]);
    // A while: each arc names the next one.
    while at > 0 {
        let a = at - 1;
        send_over(graph, x, pot, units, a);
        at = usize::from(graph.outs.before[a]);
    }
}

// Sends units over single tight arcs, each from a node that has some left to one that lacks some: node by node, later arcs first.
pub(crate) fn send_direct(graph: Graph, x: &mut [u16], pot: &[u64], units: &mut Units<'_>)
    requires ready { Ready (residual_on graph x.old pot.now) (phase_most * total units.old.left.now) units.old.left.now units.old.lack.now }
    requires left_len { length units.old.left.now ≡ graph.nodes }
    ensures carried { Moved graph.entry x.old units.old x.new units.new }
    ensures eased { Eased (residual_on graph.entry x.new pot.now) units.new.left.now units.new.lack.now units.old.left.now }
{
    for v in 0..graph.nodes {
        send_from(graph, x, pot, units, v);
    }
}
