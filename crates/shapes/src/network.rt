//! The flow network of a plate, as arcs and nodes in lent space.
//! The plate, its rates and the two lists are parameters of their own: each step takes those that it needs.
//! That a dart is one of the plate's is asked for at each: a type for such a dart would hold the plate.
ghost use Rattle.std.specs.Prelude.{◌≡◌, true, false, ◌+◌, ◌<◌, ◌≤◌, length};
ghost use Rattle.flow.specs.Nodes.{network_from};
ghost use Rattle.embedding.specs.Read.{meant};
ghost use Rattle.shapes.specs.Rates.{rates};
ghost use Rattle.shapes.specs.NetworkOf.{strip_most, rated_of};
ghost use Rattle.shapes.specs.Entries.{node_at, outer_node, joint_at, supply_at, demand_at, bend_arc, corner_arc, node, no_arc, no_node, Begun, CornersLaid, ByArc, ByNode};

use crate::rates::{StripRates, price_at};
use embedding::{Plate, twin_of};
use flow::nodes::Node;
use residual::arcs::Arc;

// What a bend costs for each unit of its price. Each bend costs 1 more.
const BEND_COST: u64 = 1 << 32;

// What a cornered post costs.
const CORNER_COST: u64 = 65536;

/// How many arcs the network has.
pub fn arc_count(q: &Plate) -> usize
    ensures { (result ≡ q.now.darts + (q.now.darts + q.now.darts)) × (result ≤ 768) }
{
    q.darts + (q.darts + q.darts)
}

/// How many nodes it has.
#[tactic(auto, using(crate::proofs::HeldPlate::few_posts, crate::proofs::HeldPlate::few_faces))]
pub fn node_count(q: &Plate) -> usize
    ensures { (result ≡ q.now.posts + q.now.faces) × (result ≤ 130) }
{
    q.posts + q.faces
}

// The node of the face of dart `d`.
#[tactic(auto, using(crate::proofs::HeldPlate::few_posts, crate::proofs::Laid::held_face))]
fn face_node(q: &Plate, d: usize) -> u8
    requires { d < q.now.darts }
    ensures { result ≡ node_at q.now.posts q.now.face d }
{
    // `as`: a plate keeps 64 posts at most, and `try_from` would test it again.
    q.posts as u8 + q.face[d]
}

// The most units across strip `i`: its limit, where 255 is none, as field 07 writes it.
fn strip_most(limits: &[u8], i: usize) -> u16
    ensures { result ≡ strip_most limits.now i }
{
    match limits.get(i) {
        Some(most) if *most < 255 => u16::from(*most),
        _ => 65535,
    }
}

// The arcs of the two darts of strip `i`, from each one's face to its twin's: a unit is a bend. A limit and a price are read once for both.
fn bend_arcs(q: &Plate, by: StripRates, i: usize) -> (Arc, Arc)
    requires { i + i + 1 < q.now.darts }
    ensures { (result.0 ≡ bend_arc q.now (rates by.entry.limits.now by.entry.prices.now) (i + i)) × (result.1 ≡ bend_arc q.now (rates by.entry.limits.now by.entry.prices.now) (i + i + 1)) }
{
    let even = Arc {
        tail: face_node(q, i + i),
        head: face_node(q, i + i + 1),
        lower: 0,
        upper: strip_most(by.limits, i),
        cost: u64::from(price_at(by.prices, i)) * BEND_COST + 1,
    };
    (
        even,
        Arc {
            tail: even.head,
            head: even.tail,
            ..even
        },
    )
}

// Does dart `d` end at a post with exactly two strip ends?
#[tactic(auto, using(crate::proofs::Laid::joint_below))]
fn is_joint(q: &Plate, d: usize) -> bool
    requires { d < q.now.darts }
    ensures { result ≡ joint_at q.now.ends q.now.degrees d }
{
    q.degrees[usize::from(q.ends[twin_of(d)])] == 2
}

// The two arcs of the corner of dart `d`, from the post to the dart's face: at least one unit on the first,
// and at a joint on the second the unit that makes a cornered post.
fn corner_arcs(q: &Plate, d: usize) -> (Arc, Arc)
    requires { d < q.now.darts }
    ensures { (result.0 ≡ corner_arc q.now true d) × (result.1 ≡ corner_arc q.now false d) }
{
    let (most, more) = if is_joint(q, d) { (2, 1) } else { (4, 0) };
    let first = Arc {
        tail: q.ends[twin_of(d)],
        head: face_node(q, d),
        lower: 1,
        upper: most,
        cost: 0,
    };
    (
        first,
        Arc {
            lower: 0,
            upper: more,
            cost: CORNER_COST,
            ..first
        },
    )
}

// What node `v` supplies: the outer face nothing.
fn supply_of(outer: usize, v: usize) -> u16
    ensures { result ≡ supply_at outer v }
{
    if v == outer { 0 } else { 4 }
}

// What node `v` demands: a face two for each dart, the outer four more.
fn demand_of(q: &Plate, outer: usize, v: usize) -> u16
    requires { v < q.now.posts + q.now.faces }
    ensures { result ≡ demand_at q.now.posts q.now.sizes outer v }
{
    if v < q.posts {
        return 0;
    }
    let corners = 2 * q.sizes[v - q.posts];
    if v == outer { corners + 4 } else { corners }
}

// The arcs of the darts, those of a strip together.
fn lay_bends(q: &Plate, by: StripRates, arcs: &mut [Arc])
    requires { ByArc q.now arcs.old }
    ensures { Begun no_arc (length arcs.old) (bend_arc q.now (rates by.entry.limits.now by.entry.prices.now)) q.now.darts arcs.new }
{
    for i in 0..q.darts / 2 {
        let (even, odd) = bend_arcs(q, by, i);
        arcs[i + i] = even;
        arcs[i + i + 1] = odd;
    }
}

// The arcs of the corners, two to each.
fn lay_corners(q: &Plate, arcs: &mut [Arc])
    requires { ByArc q.now arcs.old }
    ensures { CornersLaid q.now.darts (corner_arc q.now true) (corner_arc q.now false) q.now.darts arcs.old arcs.new }
{
    for d in 0..q.darts {
        let first = q.darts + d + d;
        let (low, high) = corner_arcs(q, d);
        arcs[first] = low;
        arcs[first + 1] = high;
    }
}

fn lay_nodes(q: &Plate, nodes: &mut [Node])
    requires { ByNode q.now nodes.old }
    ensures { Begun no_node (length nodes.old) (node q.now) (length nodes.old) nodes.new }
{
    let outer = usize::from(face_node(q, usize::from(q.outer)));
    for (v, node) in nodes.iter_mut().enumerate() {
        *node = Node {
            supply: supply_of(outer, v),
            demand: demand_of(q, outer, v),
        };
    }
}

/// Arcs: the darts, then the corners, two to each. Nodes: the posts, then the faces.
pub fn lay_network(q: &Plate, by: StripRates, arcs: &mut [Arc], nodes: &mut [Node])
    requires { ByArc q.now arcs.old × ByNode q.now nodes.old }
    ensures { network_from arcs.new nodes.new ≡ rated_of (meant q.now) (rates by.entry.limits.now by.entry.prices.now) }
{
    lay_bends(q, by, arcs);
    lay_corners(q, arcs);
    lay_nodes(q, nodes);
}
