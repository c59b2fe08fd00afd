//! The search from the sources along tight residual arcs, by a queue of the nodes reached.
ghost use Rattle.std.specs.Prelude.{◌≡◌, ◌<◌, ◌-◌, length, get_or};
ghost use Rattle.residual.specs.Residual.{near_ends, Fresh};
ghost use Rattle.residual.specs.Chains.{Lined};
ghost use Rattle.residual.specs.Graphs.{lists_of, Workspace};
ghost use Rattle.residual.specs.Searches.{Reach, Standing, Underway, Further, SpentAt, Done, Sought};

use crate::arcs::{is_tight_by, open_end};
use crate::graph::ResidualGraph;

// Space to search in, by node: its mark, the arc that leads to it, and a queue.
// Slices of arrays of fixed size, since nothing is allocated.
// That they have a place for each node of a graph is asked for where both are met: no value of this type knows the graph.
#[derive(Drop)]
pub struct Space<'a> {
    pub dist: &'a mut [u8],
    pub via: &'a mut [u16],
    pub queue: &'a mut [u8],
}

// `on` is that of `arcs`: a step on, or back.

// The node that a step on, or back, from u along arc a reaches anew.
fn reached_by(r: ResidualGraph, space: &Space<'_>, on: bool, u: usize, a: usize) -> Option<usize>
    requires dist_len { length space.now.dist.now ≡ r.graph.nodes }
    requires a_in_bounds { a < length r.graph.arcs.now }
    requires a_value { get_or (near_ends on (lists_of r)) a 0 ≡ u }
    requires standing { Standing space.now.dist.now u }
    ensures { Reach (lists_of r.entry) space.now.dist.now u a result }
{
    let v = open_end(r, space.dist, on, a)?;
    if !is_tight_by(on, r.graph.arcs[a].cost, r.pot[u], r.pot[v]) {
        return None;
    }
    Some(v)
}

// The node in place i of the queue.
fn node_at(space: &Space<'_>, i: usize) -> usize
    requires { i < length space.now.queue.now }
    ensures { result ≡ get_or space.now.queue.now i 0 }
{
    usize::from(space.queue[i])
}

// Marks each new node that a step on, or back, from u along an arc from `from` on leads to, notes the arc and puts the node into the queue,
// until one is wanted; how many nodes then stand there.
// Seven parameters: a struct of the walk would be made and taken apart for each node.
fn fan(
    r: ResidualGraph,
    from: usize,
    space: &mut Space<'_>,
    wanted: &[u16],
    on: bool,
    u: usize,
    count: usize,
) -> usize
    requires dist_len { length space.old.dist.now ≡ r.graph.nodes }
    requires wanted_len { length wanted.now ≡ r.graph.nodes }
    requires standing { Standing space.old.dist.now u }
    requires underway { Underway (lists_of r) from count space.old.dist.now space.old.via.now space.old.queue.now }
    ensures further { Further (lists_of r.entry) from count space.old.dist.now space.old.queue.now result space.new.dist.now space.new.via.now space.new.queue.now }
    ensures spent_at { get_or wanted.now (get_or space.new.queue.now (result - 1) 0) 0 ≡ 0 → SpentAt (lists_of r.entry) from (near_ends on (lists_of r.entry)) space.new.dist.now u }
{
    let links = r.links(on);
    let mut next = count;
    let mut at = usize::from(links.last[u]);
    // A while: each arc names the next one.
    while at > from {
        let a = at - 1;
        if let Some(v) = reached_by(r, space, on, u, a) {
            // `as`: there are 255 nodes and 1024 arcs at most, and `try_from` would test it again.
            space.dist[v] = next as u8;
            space.via[v] = a as u16;
            space.queue[next] = v as u8;
            next += 1;
            if wanted[v] > 0 {
                return next;
            }
        }
        at = usize::from(links.before[a]);
    }
    next
}

// Marks each new node that an arc from `from` on leads to from u, until one is wanted; how many nodes then stand in the queue.
// Six parameters, as `fan`.
fn visit(
    r: ResidualGraph,
    from: usize,
    space: &mut Space<'_>,
    wanted: &[u16],
    u: usize,
    count: usize,
) -> usize
    requires dist_len { length space.old.dist.now ≡ r.graph.nodes }
    requires wanted_len { length wanted.now ≡ r.graph.nodes }
    requires standing { Standing space.old.dist.now u }
    requires underway { Underway (lists_of r) from count space.old.dist.now space.old.via.now space.old.queue.now }
    ensures further { Further (lists_of r.entry) from count space.old.dist.now space.old.queue.now result space.new.dist.now space.new.via.now space.new.queue.now }
    ensures done { get_or wanted.now (get_or space.new.queue.now (result - 1) 0) 0 ≡ 0 → Done (lists_of r.entry) from space.new.dist.now u }
{
    let next = fan(r, from, space, wanted, true, u, count);
    let newest = node_at(space, next - 1);
    if wanted[newest] > 0 {
        return next;
    }
    fan(r, from, space, wanted, false, u, next)
}

// Marks the nodes that tight residual arcs from `from` on lead to from the sources, which stand in the queue, each above the node it is reached from,
// and notes the arcs, until a wanted node is reached: that node, or none if all are marked and none is wanted.
pub fn search(
    r: ResidualGraph,
    from: usize,
    space: &mut Space<'_>,
    wanted: &[u16],
    sources: usize,
) -> Option<usize>
    requires workspace { Workspace r.graph.nodes space.old }
    requires wanted_len { length wanted.now ≡ r.graph.nodes }
    requires fresh { Fresh space.old.dist.now }
    requires lined { Lined space.old.dist.now sources space.old.queue.now }
    ensures sought { Sought (lists_of r.entry) from space.old.dist.now wanted.now space.new.dist.now space.new.via.now result }
    ensures workspace { Workspace r.entry.graph.nodes space.new }
{
    let mut count = sources;
    let mut next = 0;
    // A while: the queue grows in its body.
    while next < count {
        let u = node_at(space, next);
        if wanted[u] > 0 {
            return Some(u);
        }
        count = visit(r, from, space, wanted, u, count);
        let newest = node_at(space, count - 1);
        if wanted[newest] > 0 {
            return Some(newest);
        }
        next += 1;
    }
    None
}
