ghost use Rattle.std.specs.Prelude.{◌≡◌, ℕ, ◌<◌, ◌≤◌};
ghost use Rattle.cuttree.specs.Nodes.{parent_of, order_of};

use network::MOST_SITES;

/// How a place hangs in the tree: the place that it was joined to, the weight of that edge, and when it was joined. The
/// default stands for a place that has not been joined, and for the root: as an `Option` it would be looked into at each climb.
#[derive(Default, Clone, Copy)]
pub struct Node {
    pub(crate) parent: u8,
    pub(crate) weight: u16,
    pub(crate) order: u8,
}

impl Node {
    /// How a place hangs that is joined to this parent by an edge of this weight.
    pub(crate) fn joined(parent: usize, weight: usize, order: u8) -> Node
        requires low { parent < 64 }
        requires light { weight ≤ 512 }
        ensures { result ≡ record { parent = parent; weight = weight; order = order } }
    {
        Node {
            parent: parent as u8,
            weight: weight as u16,
            order,
        }
    }
}

/// A tree over the places of a network, with place 0 as its root. Every other place was joined after its parent. It is
/// made without allocation, so that it has the room of the most sites beside the count of its own.
#[derive(Clone, Copy)]
pub struct Tree {
    pub(crate) sites: usize,
    pub(crate) nodes: [Node; MOST_SITES],
    ghost few: { sites ≤ 64 },
    ghost inside: { (x : ℕ) → x < sites → parent_of nodes x < sites },
    ghost falls: { (x : ℕ) → x < sites → 0 < x → order_of nodes (parent_of nodes x) < order_of nodes x },
    ghost root: { order_of nodes 0 ≡ 0 },
}
