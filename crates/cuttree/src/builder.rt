//! The builder of the tree: it asks an engine for each pending pair, and splits the pair along the side of the answer.

ghost use Rattle.std.specs.Prelude.{◌≡◌, ℕ, ◌+◌, ◌<◌, ◌≤◌, true, List};
ghost use Rattle.network.specs.declared.line.Line.{Line};
ghost use Rattle.network.specs.Answers.{PartedBy};
ghost use Rattle.network.specs.Cuts.{level_of};
ghost use Rattle.network.specs.Sides.{member, size_below};
ghost use Rattle.cuttree.specs.Splits.{part, Grows};
ghost use Rattle.cuttree.specs.Trees.{two_places, Built, TreeOf};

use crate::pending::Pending;
use crate::tree::{Node, Tree};
use network::{Engine, Flow, Line, MOST_LINES, MOST_SITES, Network, Pair, side};

impl Tree {
    /// The tree of no sites.
    pub fn empty() -> Tree
        ensures none { result.sites ≡ 0 }
        ensures tree { (ls : List Line) → TreeOf 0 ls result }
    {
        Tree {
            sites: 0,
            nodes: [Node::default(); MOST_SITES],
        }
    }
}

/// The tree of a network of so many sites and of these lines: none where there are no sites or more than 64, more than
/// 512 lines, or a line that does not join two different sites.
pub fn build<E: Engine>(sites: usize, lines: &[Line]) -> Option<Tree>
    ensures { Built sites lines.now result }
{
    let net = Network::new(sites, lines)?;
    if sites == 0 {
        return None;
    }
    // fixed room here and for the marks, since a tree is made without allocation
    let mut nodes = [Node::default(); MOST_SITES];
    let whole = Pending::new(side::all_below(sites), 0);
    grow::<E>(&net, whole, 0, &mut nodes);
    Some(Tree { sites, nodes })
}

/// Joins the available places of the pair to its source, after `joined` others, and answers how many are joined then.
fn grow<E: Engine>(
    net: &Network<'_>,
    pending: Pending,
    joined: u8,
    nodes: &mut [Node; MOST_SITES],
) -> u8
    requires within { (x : ℕ) → member pending.available x ≡ true → x < net.now.sites }
    requires left { joined + size_below net.now.sites pending.available ≤ net.now.sites }
    ensures count { result + 1 ≡ joined + size_below net.now.sites pending.available }
    ensures joins { Grows net.now.sites net.now.lines.now (part pending.available pending.source) joined nodes.old result nodes.new }
{
    let Some(t) = pending.next() else {
        return joined;
    };
    let flow = flow_to::<E>(net, pending, t);
    nodes[t] = Node::joined(pending.source(), flow.value, joined + 1);
    let (near, far) = pending.split(t, flow.side);
    let inside = grow::<E>(net, near, joined + 1, nodes);
    grow::<E>(net, far, inside, nodes)
}

/// The flow from the pair's source to the place `t`.
fn flow_to<E: Engine>(net: &Network<'_>, pending: Pending, t: usize) -> Flow
    requires two { two_places net.now.sites pending.source t ≡ true }
    ensures level { result.value ≡ level_of net.now.sites net.now.lines.now pending.source t }
    ensures parted { PartedBy net.now.sites net.now.lines.now pending.source t result.value result.side }
{
    let pair = Pair {
        net: *net,
        a: pending.source(),
        b: t,
    };
    pair.flow::<E>(&mut [0; MOST_LINES])
}
