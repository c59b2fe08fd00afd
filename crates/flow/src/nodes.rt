//! Nodes, the units that they have left or lack, and the answer that there is no flow.
ghost use Rattle.std.specs.Prelude.{◌≡◌, ◌<◌};
ghost use Rattle.flow.specs.Network.{total};

// A node: the units that start there, and those that end there.
#[derive(Clone, Copy)]
pub struct Node {
    pub supply: u16,
    pub demand: u16,
}

// By node: the units that it has left, and those that it lacks.
// Slices of arrays of fixed size, since nothing is allocated.
// That they have a place for each node is asked for where a graph is met: no value of this type knows it.
#[derive(Drop)]
pub struct Units<'a> {
    pub left: &'a mut [u16],
    pub lack: &'a mut [u16],
}

// No flow meets all supplies and demands within the bounds.
#[derive(Clone, Copy, PartialEq, Eq, Debug)]
pub struct Infeasible;

// How many units are left.
pub(crate) fn total_left(units: &Units<'_>) -> u16
    requires { total units.now.left.now < 65536 }
    ensures { result ≡ total units.now.left.now }
{
    units.left.iter().sum()
}
