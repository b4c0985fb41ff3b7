//! The groups at a level, from the tree: places with no lighter edge between them.

ghost use Rattle.std.specs.Prelude.{◌≡◌, ◌<◌, ◌≤◌};
ghost use Rattle.cuttree.specs.Trees.{lowest_in, GroupsTold, GroupsOf};

use crate::tree::Tree;

impl Tree {
    /// Writes for each place in order the lowest place in its group at level `k`, and answers how many groups there
    /// are; none where the list is too short.
    pub fn groups(&self, k: u32, list: &mut [u16]) -> Option<usize>
        ensures told { GroupsTold self.now k list.old list.new result }
        ensures network { GroupsOf self.now k list.new result }
    {
        // after `list.get_mut(..self.sites)?` no element of the list would be known
        if list.len() < self.sites {
            return None;
        }
        let entries = &mut list[..self.sites];
        let mut count = 0;
        for (x, entry) in entries.iter_mut().enumerate() {
            let low = self.lowest_near(k, x);
            *entry = low as u16;
            if low == x {
                count += 1;
            }
        }
        Some(count)
    }

    /// The lowest place that no edge lighter than `k` parts from `x`.
    fn lowest_near(&self, k: u32, x: usize) -> usize
        requires { x < self.now.sites }
        ensures is { result ≡ lowest_in self.now k x }
        ensures low { result ≤ x }
    {
        (0..x)
            .find(|&y| k <= u32::from(self.lightest_edge(x, y)))
            .unwrap_or(x)
    }
}
