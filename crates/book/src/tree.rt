//! The tree that a book keeps.

ghost use Rattle.std.specs.Prelude.{◌≡◌, ◌<◌, length};
ghost use Rattle.network.specs.Lines.{Fits};
ghost use Rattle.cuttree.specs.Trees.{TreeOf};

use cuttree::{Tree, build};
use network::{Engine, Line, Site};

/// The tree of the lines that are free.
pub(crate) fn tree_of<E: Engine>(sites: &[Site], lines: &[Line]) -> Tree
    requires { Fits (length sites.now) lines.now }
    ensures spans { result.sites ≡ length sites.now }
    ensures tells { 0 < length sites.now → ∥ TreeOf (length sites.now) lines.now result ∥₁ }
{
    build::<E>(sites.len(), lines).unwrap_or_else(Tree::empty)
}
