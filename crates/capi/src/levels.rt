//! The levels of all pairs, from a tree that is built so many times.

ghost use Rattle.std.specs.Prelude.{◌≡◌, ℕ, ◌*◌, ◌/◌, ◌%◌, ◌<◌, ◌≤◌, List, length, slice_index};
ghost use Rattle.network.specs.declared.line.Line.{Line};
ghost use Rattle.cuttree.specs.Trees.{Built, TreeOf};
ghost use Rattle.capi.specs.Calls.{level_or_0, levels_number, LevelsWritten};

use crate::refusal::Refusal;
use crate::task::Task;
use book::Fault;
use cuttree::{Tree, build};
use desk::Desk;
use network::{Engine, Line};

/// Builds the tree so many times, at least once, and writes the level of every two sites.
#[derive(Clone, Copy)]
pub struct Levels {
    pub turns: u32,
}

impl Task for Levels {
    type Entry = usize;

    type Answer = ();

    ghost check = { λ _ ss _ room. levels_number (length ss) room };

    ghost done = { λ _ ss ls list list' _. LevelsWritten (length ss) ls list list' };

    fn run<E: Engine>(&self, desk: &mut Desk<E>, levels: &mut [usize]) -> Result<(), Refusal> {
        let book = desk.book();
        let sites = book.sites().len();
        if levels.len() < sites * sites {
            return Err(Refusal::Book(Fault::ShortList));
        }
        let tree = build_often::<E>(sites, book.lines(), self.turns);
        write_levels(&tree.unwrap(), sites, levels);
        Ok(())
    }
}

// Builds the tree so many times, at least once, and answers the last. One function `often(turns, || ..)` for this and the two
// other tasks would have to lend desk or list to each turn and to tell what a denied turn leaves.
fn build_often<E: Engine>(sites: usize, lines: &[Line], turns: u32) -> Option<Tree>
    ensures { Built sites lines.now result }
{
    for _turn in 1..turns {
        let _ = build::<E>(sites, lines);
    }
    build::<E>(sites, lines)
}

fn write_levels(tree: &Tree, sites: usize, levels: &mut [usize])
    requires some { 0 < sites }
    requires few { sites ≤ 64 }
    requires room { sites * sites ≤ length levels.old }
    ensures { (ls : List Line) → TreeOf sites ls tree.now → LevelsWritten sites ls levels.old levels.new }
{
    write_table(tree, sites, &mut levels[..sites * sites]);
}

// The level of the places x and y, at x sites + y.
fn write_table(tree: &Tree, sites: usize, table: &mut [usize])
    requires some { 0 < sites }
    requires whole { length table.old ≡ sites * sites }
    ensures { (ls : List Line) → TreeOf sites ls tree.now → (i : ℕ) → i < sites * sites → slice_index table.new i ≡ level_or_0 sites ls (i / sites) (i % sites) }
{
    for (i, level) in table.iter_mut().enumerate() {
        *level = level_or_zero(tree, i / sites, i % sites);
    }
}

// The level of two places, and 0 of one.
fn level_or_zero(tree: &Tree, a: usize, b: usize) -> usize
    ensures { (n : ℕ) (ls : List Line) → TreeOf n ls tree.now → result ≡ level_or_0 n ls a b }
{
    tree.level(a, b).unwrap_or(0)
}
