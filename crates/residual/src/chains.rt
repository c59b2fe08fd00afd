//! The arcs at each node that can move, linked from the last one back; the queue of a search.
ghost use Rattle.std.specs.Prelude.{◌≡◌, true, false, ℕ, ◌+◌, ◌<◌, ◌≤◌, length, get_or};
ghost use Rattle.residual.specs.Residual.{Fresh};
ghost use Rattle.residual.specs.Chains.{Linking, Linked, Lined};
ghost use Rattle.residual.specs.Arcs.{tails_of, heads_of, ends_of};

use crate::arcs::{Arc, leads_to, near_end};
use crate::graph::Links;
use crate::search::Space;

// Lent space for the links at one end of each arc: by node its last arc, by arc the one before it and where it leads.
// Slices of arrays of fixed size, since nothing is allocated; how long they are is known where they are lent, and no value of this type knows the arcs.
#[derive(Drop)]
pub struct LinkSpace<'a> {
    pub last: &'a mut [u16],
    pub before: &'a mut [u16],
    pub far: &'a mut [u8],
}

impl LinkSpace<'_> {
    // The links, to be read.
    pub fn links(&self) -> Links<'_>
        ensures last_is { result.last.now ≡ self.now.last.now }
        ensures before_is { result.before.now ≡ self.now.before.now }
        ensures far_is { result.far.now ≡ self.now.far.now }
    {
        Links {
            last: self.last,
            before: self.before,
            far: self.far,
        }
    }
}

// `on` is that of `arcs`: a step on, or back.

// Links arc a, if it can move, where a step on, or back, along it begins, and notes where that leads.
fn link_arc(arcs: &[Arc], on: bool, links: &mut LinkSpace<'_>, a: usize)
    requires a_in_bounds { a < length arcs.now }
    requires arcs_len_bound { length arcs.now ≤ 1024 }
    requires node { get_or (ends_of on arcs.now) a 0 < length links.old.last.now }
    requires linking { Linking on arcs.now (length links.old.last.now) a links.old.last.now links.old.before.now links.old.far.now }
    ensures linking { Linking on arcs.now (length links.old.last.now) (a + 1) links.new.last.now links.new.before.now links.new.far.now }
{
    let arc = arcs[a];
    let v = near_end(arcs, on, a);
    let to = leads_to(arcs, on, a);
    links.before[a] = links.last[v];
    links.far[a] = to;
    if arc.lower < arc.upper {
        // `as`: there are 1024 arcs at most, and `try_from` would test it again.
        links.last[v] = (a + 1) as u16;
    }
}

// Links the arcs that can move, however far they are held, at both ends.
pub fn chain(arcs: &[Arc], outs: &mut LinkSpace<'_>, ins: &mut LinkSpace<'_>)
    requires arcs_len_bound { length arcs.now ≤ 1024 }
    requires outs_before_len { length outs.old.before.now ≡ length arcs.now }
    requires outs_far_len { length outs.old.far.now ≡ length arcs.now }
    requires ins_before_len { length ins.old.before.now ≡ length arcs.now }
    requires ins_far_len { length ins.old.far.now ≡ length arcs.now }
    requires tails_in { (a : ℕ) → a < length arcs.now → get_or (tails_of arcs.now) a 0 < length outs.old.last.now }
    requires heads_in { (a : ℕ) → a < length arcs.now → get_or (heads_of arcs.now) a 0 < length ins.old.last.now }
    ensures outs_linked { Linked true arcs.now (length outs.old.last.now) outs.new.last.now outs.new.before.now outs.new.far.now }
    ensures ins_linked { Linked false arcs.now (length ins.old.last.now) ins.new.last.now ins.new.before.now ins.new.far.now }
{
    outs.last.fill(0);
    ins.last.fill(0);
    for a in 0..arcs.len() {
        link_arc(arcs, true, outs, a);
        link_arc(arcs, false, ins, a);
    }
}

// Puts the nodes marked 0 at the front of the queue; how many there are.
pub fn enqueue_sources(space: &mut Space<'_>) -> usize
    requires queue_len { length space.old.queue.now ≡ length space.old.dist.now }
    requires dist_len_bound { length space.old.dist.now ≤ 255 }
    requires fresh { Fresh space.old.dist.now }
    ensures lined { Lined space.old.dist.now result space.new.queue.now }
    ensures dist_after { space.new.dist.now ≡ space.old.dist.now }
    ensures via_after { space.new.via.now ≡ space.old.via.now }
    ensures queue_len { length space.new.queue.now ≡ length space.old.queue.now }
{
    let mut count = 0;
    for v in 0..space.dist.len() {
        if space.dist[v] == 0 {
            // `as`: there are 255 nodes at most, and `try_from` would test it again.
            space.queue[count] = v as u8;
            count += 1;
        }
    }
    count
}
