//! Small networks, solved; writes the units of each arc, or that there is no flow.
//! Each network has six arcs and four nodes; an arc of no use may carry nothing.
//! The expected flows were found by trying every flow with at most the excess above each lower bound, not by this solver.
#![tactic(auto)]

ghost use Rattle.flow.specs.Network.{Sound};
ghost use Rattle.flow.specs.Nodes.{network_from};

use flow::nodes::{Infeasible, Node};
use flow::solve::solve;
use residual::arcs::Arc;
use std::io;

// Six arcs between four nodes. Arrays of fixed size: a network is a constant.
#[derive(Clone, Copy)]
struct Network {
    arcs: [Arc; 6],
    nodes: [Node; 4],
}

// An arc from tail to head, with its bounds and its cost.
macro_rules! arc {
    ($tail:expr, $head:expr, $lower:expr, $upper:expr, $cost:expr) => {
        Arc {
            tail: $tail,
            head: $head,
            lower: $lower,
            upper: $upper,
            cost: $cost,
        }
    };
}

// A node with the units that start there and those that end there.
macro_rules! node {
    ($supply:expr, $demand:expr) => {
        Node {
            supply: $supply,
            demand: $demand,
        }
    };
}

const NETWORKS: [Network; 13] = [
    // 0: the cheap arc takes what it can
    Network {
        arcs: [
            arc!(0, 1, 0, 65535, 2),
            arc!(0, 1, 0, 1, 1),
            arc!(0, 0, 0, 0, 0),
            arc!(0, 0, 0, 0, 0),
            arc!(0, 0, 0, 0, 0),
            arc!(0, 0, 0, 0, 0),
        ],
        nodes: [node!(2, 0), node!(0, 2), node!(0, 0), node!(0, 0)],
    },
    // 1: two ways at one price: the later arcs
    Network {
        arcs: [
            arc!(0, 1, 0, 65535, 1),
            arc!(0, 2, 0, 65535, 1),
            arc!(1, 3, 0, 65535, 1),
            arc!(2, 3, 0, 65535, 1),
            arc!(0, 0, 0, 0, 0),
            arc!(0, 0, 0, 0, 0),
        ],
        nodes: [node!(2, 0), node!(0, 0), node!(0, 0), node!(0, 2)],
    },
    // 2: a unit that must go round
    Network {
        arcs: [
            arc!(0, 1, 1, 3, 5),
            arc!(1, 0, 0, 3, 4),
            arc!(1, 0, 0, 3, 3),
            arc!(0, 0, 0, 0, 0),
            arc!(0, 0, 0, 0, 0),
            arc!(0, 0, 0, 0, 0),
        ],
        nodes: [node!(0, 0), node!(0, 0), node!(0, 0), node!(0, 0)],
    },
    // 3: room for one of two: no flow
    Network {
        arcs: [
            arc!(0, 1, 0, 1, 1),
            arc!(0, 0, 0, 0, 0),
            arc!(0, 0, 0, 0, 0),
            arc!(0, 0, 0, 0, 0),
            arc!(0, 0, 0, 0, 0),
            arc!(0, 0, 0, 0, 0),
        ],
        nodes: [node!(2, 0), node!(0, 2), node!(0, 0), node!(0, 0)],
    },
    // 4: a long way round that is cheaper
    Network {
        arcs: [
            arc!(0, 3, 0, 65535, 5),
            arc!(0, 1, 0, 65535, 1),
            arc!(1, 2, 0, 65535, 1),
            arc!(2, 3, 0, 65535, 1),
            arc!(0, 0, 0, 0, 0),
            arc!(0, 0, 0, 0, 0),
        ],
        nodes: [node!(3, 0), node!(0, 0), node!(0, 0), node!(0, 3)],
    },
    // 5: the long way is full after one
    Network {
        arcs: [
            arc!(0, 3, 0, 65535, 5),
            arc!(0, 1, 0, 65535, 1),
            arc!(1, 2, 0, 1, 1),
            arc!(2, 3, 0, 65535, 1),
            arc!(0, 0, 0, 0, 0),
            arc!(0, 0, 0, 0, 0),
        ],
        nodes: [node!(3, 0), node!(0, 0), node!(0, 0), node!(0, 3)],
    },
    // 6: parallel arcs at one price: the last
    Network {
        arcs: [
            arc!(0, 1, 0, 65535, 1),
            arc!(0, 1, 0, 65535, 1),
            arc!(0, 1, 0, 65535, 1),
            arc!(0, 0, 0, 0, 0),
            arc!(0, 0, 0, 0, 0),
            arc!(0, 0, 0, 0, 0),
        ],
        nodes: [node!(4, 0), node!(0, 4), node!(0, 0), node!(0, 0)],
    },
    // 7: parallel arcs, the last one narrow
    Network {
        arcs: [
            arc!(0, 1, 0, 65535, 1),
            arc!(0, 1, 0, 65535, 1),
            arc!(0, 1, 0, 1, 1),
            arc!(0, 0, 0, 0, 0),
            arc!(0, 0, 0, 0, 0),
            arc!(0, 0, 0, 0, 0),
        ],
        nodes: [node!(4, 0), node!(0, 4), node!(0, 0), node!(0, 0)],
    },
    // 8: a loop arc for nothing, one at its least
    Network {
        arcs: [
            arc!(0, 0, 0, 65535, 0),
            arc!(1, 1, 2, 5, 0),
            arc!(0, 1, 0, 65535, 1),
            arc!(0, 0, 0, 0, 0),
            arc!(0, 0, 0, 0, 0),
            arc!(0, 0, 0, 0, 0),
        ],
        nodes: [node!(1, 0), node!(0, 1), node!(0, 0), node!(0, 0)],
    },
    // 9: bounds that ask for more than there is: no flow
    Network {
        arcs: [
            arc!(0, 1, 2, 3, 1),
            arc!(1, 2, 0, 1, 1),
            arc!(0, 0, 0, 0, 0),
            arc!(0, 0, 0, 0, 0),
            arc!(0, 0, 0, 0, 0),
            arc!(0, 0, 0, 0, 0),
        ],
        nodes: [node!(2, 0), node!(0, 0), node!(0, 2), node!(0, 0)],
    },
    // 10: a tie across a cycle of four
    Network {
        arcs: [
            arc!(0, 1, 0, 3, 1),
            arc!(1, 3, 0, 3, 1),
            arc!(0, 2, 0, 3, 1),
            arc!(2, 3, 0, 3, 1),
            arc!(1, 2, 0, 3, 0),
            arc!(2, 1, 0, 3, 0),
        ],
        nodes: [node!(2, 0), node!(0, 0), node!(0, 0), node!(0, 2)],
    },
    // 11: units pushed back: the first path is undone
    Network {
        arcs: [
            arc!(0, 1, 0, 1, 1),
            arc!(0, 2, 0, 1, 4),
            arc!(1, 2, 0, 1, 1),
            arc!(1, 3, 0, 1, 4),
            arc!(2, 3, 0, 1, 1),
            arc!(0, 0, 0, 0, 0),
        ],
        nodes: [node!(2, 0), node!(0, 0), node!(0, 0), node!(0, 2)],
    },
    // 12: lower bounds at a price, and a tie
    Network {
        arcs: [
            arc!(0, 1, 1, 4, 3),
            arc!(0, 1, 0, 4, 1),
            arc!(0, 1, 1, 4, 1),
            arc!(1, 0, 1, 2, 2),
            arc!(0, 0, 0, 0, 0),
            arc!(0, 0, 0, 0, 0),
        ],
        nodes: [node!(2, 0), node!(0, 2), node!(0, 0), node!(0, 0)],
    },
];

// Writes an answer on a line.
fn show(rt: &impl Print, solved: Result<(), Infeasible>, x: &[u16]) -> io::Result<()> {
    if solved.is_err() {
        return println!(rt; " no flow");
    }
    for units in x {
        print!(rt; " {units}")?;
    }
    rt.write_all(b"\n")
}

// Solves network k and writes the answer.
fn run(rt: &impl Print, k: usize, network: &Network) -> io::Result<()>
    requires { Sound (network_from network.now.arcs network.now.nodes) }
{
    let mut x = [0u16; 6];
    let solved = solve(&network.arcs, &network.nodes, &mut x);
    print!(rt; "{k}")?;
    show(rt, solved, &x)
}

fn main(rt: HostRuntime) -> io::Result<()> {
    let networks = NETWORKS;
    for (k, network) in networks.iter().enumerate() {
        run(&rt, k, network)?;
    }
    Ok(())
}
