//! The levels that both trees of a network tell.

use crate::case::Case;
use crate::trees::{Trees, grow};
use std::io;

impl Case<'_> {
    // The level of two places, or a dash where it is asked of one place and itself.
    fn print_level(&self, trees: &Trees, a: usize, b: usize) -> io::Result<()> {
        let level = trees.shortest.level(a, b);
        if level != trees.push.level(a, b) {
            return print!(self.rt; " differ");
        }
        match level {
            Some(level) => print!(self.rt; " {level}"),
            None => print!(self.rt; " -"),
        }
    }

    fn print_row(&self, trees: &Trees, a: usize) -> io::Result<()> {
        for (b, _) in self.net.sites.iter().enumerate() {
            self.print_level(trees, a, b)?;
        }
        println!(self.rt)
    }

    fn print_rows(&self, trees: &Trees) -> io::Result<()> {
        for (a, site) in self.net.sites.iter().enumerate() {
            print!(self.rt; "  {site}:")?;
            self.print_row(trees, a)?;
        }
        Ok(())
    }

    /// Prints a row for each site: its levels with all sites, by place. The numbers are the lines held.
    pub fn print_levels(&mut self) -> anyhow::Result<()> {
        self.net.hold(self.numbers);
        let trees = grow(&self.net)?;
        println!(self.rt; " levels")?;
        self.print_rows(&trees)?;
        Ok(())
    }
}
