ghost use Rattle.std.specs.Prelude.{◌≡◌, ℕ, ◌+◌, ◌<◌, ◌≤◌, true, vec_len, vec_capacity};
ghost use Rattle.network.specs.Lines.{AllJoin};
ghost use Rattle.cuttree.specs.Trees.{TreeOf};
ghost use Rattle.book.specs.Tables.{total_shown, total_held, sound, free_count, owned};

use crate::standing::Standing;
use cuttree::Tree;
use network::{Line, Site};
use std::marker::PhantomData;

mod acts;
mod steps;

/// The line book of one network, kept over one engine. It holds no network until it is opened. Its tree is always that
/// of the lines that are free now.
#[derive(Drop)]
pub struct Book<E> {
    sites: Vec<Site>,
    lines: Vec<Line>,
    standing: Vec<Standing>,
    shown: Vec<u16>,
    mark: u32,
    count: u16,
    tree: Tree,
    engine: PhantomData<E>,
    // all the memory that calls will ever need
    ghost site_room: { 64 ≤ vec_capacity sites },
    ghost line_room: { 512 ≤ vec_capacity lines },
    ghost row_room: { 512 ≤ vec_capacity standing },
    ghost shown_room: { 1024 ≤ vec_capacity shown },
    // what a network asks, in three facts: each is cited alone, also by the crates above, and would be taken out of one
    ghost few_sites: { vec_len sites ≤ 64 },
    ghost few_lines: { vec_len lines ≤ 512 },
    ghost joined: { AllJoin (vec_len sites) lines.items },
    // every line is free or held by a standing booking, and each booking shows at most two numbers a line
    ghost parted: { total_held standing.items + free_count lines.items ≡ vec_len lines },
    ghost totals: { total_shown standing.items ≡ vec_len shown },
    ghost rises: { sound lines.items 0 count standing.items ≡ true },
    // no line is held by a number that was not given yet
    ghost given: { ((n : ℕ) → count < n → owned lines.items n ≡ 0) },
    // the tree is that of the lines that are free now
    ghost spans: { tree.sites ≡ vec_len sites },
    ghost tells: { (0 < vec_len sites → ∥ TreeOf (vec_len sites) lines.items tree ∥₁) },
    // a book that holds no network is as it was made; it is no `Option` of an opened one, since its memory is laid aside before
    ghost unopened: { (vec_len sites ≡ 0 → (mark ≡ 0) × (count ≡ 0)) },
}
