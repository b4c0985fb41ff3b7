//! The groups that both trees of a network tell.

use crate::case::Case;
use crate::old::{Old, is_old};
use crate::trees::{Trees, grow};
use anyhow::{Context, anyhow, ensure};
use cuttree::Tree;
use std::io;

/// How many groups there are, and their list by places, which is longer than it needs.
#[derive(Clone, Copy, PartialEq, Eq)]
struct Groups {
    count: usize,
    places: [u16; 70],
}

fn groups_of(tree: &Tree, k: u32) -> anyhow::Result<Groups> {
    let mut places = [u16::OLD; 70];
    let count = tree.groups(k, &mut places).context("no groups")?;
    Ok(Groups { count, places })
}

// Both engines' groups at k, which have to be the same.
fn agreed(trees: &Trees, k: u32, sites: usize) -> anyhow::Result<Groups> {
    let groups = groups_of(&trees.shortest, k)?;
    let other = groups_of(&trees.push, k)?;
    ensure!(groups == other, "the groups differ");
    ensure!(
        is_old(&groups.places, sites),
        "the list past the last place is changed"
    );
    Ok(groups)
}

impl Case<'_> {
    // The number of the site at a place; the old number where the list was not written.
    fn site_at(&self, place: u16) -> u16 {
        self.net
            .sites
            .get(usize::from(place))
            .copied()
            .unwrap_or(u16::OLD)
    }

    fn print_list(&self, groups: &Groups) -> io::Result<()> {
        for place in groups.places.iter().take(self.net.sites.len()) {
            let site = self.site_at(*place);
            print!(self.rt; " {site}")?;
        }
        println!(self.rt)
    }

    /// Prints how many groups there are at k, and for each place in order the site at the lowest place in its group.
    /// The numbers are k and the lines held.
    pub fn print_groups(&mut self) -> anyhow::Result<()> {
        let [k, held @ ..] = self.numbers else {
            return Err(anyhow!("too few numbers"));
        };
        self.net.hold(held);
        let trees = grow(&self.net)?;
        let groups = agreed(&trees, u32::try_from(*k)?, self.net.sites.len())?;
        let count = groups.count;
        print!(self.rt; " at {k}: {count} groups:")?;
        self.print_list(&groups)?;
        Ok(())
    }
}
