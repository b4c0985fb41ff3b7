//! A case on a network: its network and its numbers, and where what comes out is printed.

use crate::networks::Network;
use anyhow::anyhow;

/// What every case but that of a file works on; which numbers it has is said where it is run.
#[derive(Drop)]
pub struct Case<'a> {
    pub rt: &'a HostRuntime,
    pub net: Network,
    pub numbers: &'a [usize],
}

impl Case<'_> {
    fn print_worked(&self) -> anyhow::Result<()> {
        let text = if self.net.is_worked() {
            "that of the proved cases"
        } else {
            "another"
        };
        println!(self.rt; ": {text}")?;
        Ok(())
    }

    /// Runs the case as one of its kind.
    pub fn run(&mut self, kind: &str) -> anyhow::Result<()> {
        // An enum of these kinds with a FromStr would only name each of them three times.
        match kind {
            "worked" => self.print_worked(),
            "flow" => self.print_flow(),
            "room" => self.print_room(),
            "take" => self.print_taking(),
            "levels" => self.print_levels(),
            "groups" => self.print_groups(),
            _ => Err(anyhow!("an unknown kind of case")),
        }
    }
}
