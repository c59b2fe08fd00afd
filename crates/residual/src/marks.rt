//! The marks of the sources before a search, and the nodes that it is for.
ghost use Rattle.std.specs.Prelude.{◌≡◌, ◌≤◌, ◌<◌, length};
ghost use Rattle.residual.specs.Chains.{Lined};
ghost use Rattle.residual.specs.Marks.{mark_of, marks_of, Single, Wants};

use crate::arcs::UNREACHED;
use crate::search::Space;

// The mark of a node that has so much left, before a search.
fn mark_of(left: u16) -> u8
    ensures { result ≡ mark_of left }
{
    if left == 0 { UNREACHED } else { 0 }
}

// Marks the nodes that have something left as sources, and no other.
pub fn mark_sources(left: &[u16], dist: &mut [u8])
    requires { length dist.old ≡ length left.now }
    ensures { dist.new ≡ marks_of left.now }
{
    for (v, mark) in dist.iter_mut().enumerate() {
        *mark = mark_of(left[v]);
    }
}

// Marks one node as the source, and no other, and puts it into the queue.
pub fn mark_only(source: usize, space: &mut Space<'_>)
    requires queue_len { length space.old.queue.now ≡ length space.old.dist.now }
    requires source_in_bounds { source < length space.old.dist.now }
    requires dist_len_bound { length space.old.dist.now ≤ 255 }
    ensures single { Single space.new.dist.now source }
    ensures lined { Lined space.new.dist.now 1 space.new.queue.now }
    ensures dist_len { length space.new.dist.now ≡ length space.old.dist.now }
    ensures via_after { space.new.via.now ≡ space.old.via.now }
    ensures queue_len { length space.new.queue.now ≡ length space.old.queue.now }
{
    space.dist.fill(UNREACHED);
    space.dist[source] = 0;
    // `as`: there are 255 nodes at most, and `try_from` would test it again.
    space.queue[0] = source as u8;
}

// Wants one node, and no other.
pub(crate) fn want_only(target: usize, wanted: &mut [u16])
    requires { target < length wanted.old }
    ensures { Wants wanted.new target }
{
    wanted.fill(0);
    wanted[target] = 1;
}
