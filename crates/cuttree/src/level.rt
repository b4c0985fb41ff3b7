ghost use Rattle.std.specs.Prelude.{◌≡◌, ◌<◌, true};
ghost use Rattle.cuttree.specs.Nodes.{later, earlier};
ghost use Rattle.cuttree.specs.Trees.{lightest, two_places, level_told, LevelIs};

use crate::tree::Tree;

impl Tree {
    /// The level of two different places of the tree: the lightest edge on the way between them.
    pub fn level(&self, a: usize, b: usize) -> Option<usize>
        ensures told { result ≡ level_told self.now a b }
        ensures network { LevelIs self.now a b result }
    {
        if a >= self.sites || b >= self.sites || a == b {
            return None;
        }
        Some(usize::from(self.lightest_edge(a, b)))
    }

    /// The later joined of the two places climbs to its parent, until the two meet.
    pub(crate) fn lightest_edge(&self, a: usize, b: usize) -> u16
        requires two { two_places self.now.sites a b ≡ true }
        ensures { result ≡ lightest self.now a b }
    {
        let (late, early) = self.by_joining(a, b);
        let node = self.nodes[late];
        let up = usize::from(node.parent);
        if up == early {
            return node.weight;
        }
        node.weight.min(self.lightest_edge(up, early))
    }

    /// The two places, the later joined first.
    fn by_joining(&self, a: usize, b: usize) -> (usize, usize)
        requires first { a < self.now.sites }
        requires second { b < self.now.sites }
        ensures { result ≡ (later self.now.nodes a b, earlier self.now.nodes a b) }
    {
        if self.nodes[b].order < self.nodes[a].order {
            (a, b)
        } else {
            (b, a)
        }
    }
}
