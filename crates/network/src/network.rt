//! The networks on which engines work; where they have a site, they have a tree.

ghost use Rattle.std.specs.Prelude.{◌≡◌, ◌≤◌, length, IfSome, IfNone};
ghost use Rattle.network.specs.Lines.{AllJoin, Fits};

use crate::line::{Line, all_join};

/// The most sites that a network has: a side has room for so many.
pub const MOST_SITES: usize = 64;

/// The most lines that a network has.
pub const MOST_LINES: usize = 512;

/// A network of so many sites and of these lines: no more than a network has, each of which joins two different sites.
#[derive(Clone, Copy)]
pub struct Network<'a> {
    pub sites: usize,
    pub lines: &'a [Line],
    ghost few_sites: { sites ≤ 64 },
    ghost few_lines: { length lines.now ≤ 512 },
    ghost joined: { AllJoin sites lines.now },
}

impl<'a> Network<'a> {
    /// The network of these lines; none where there are more sites or lines than a network has, or a line does not join
    /// two different sites.
    pub fn new(sites: usize, lines: &'a [Line]) -> Option<Network<'a>>
        ensures made { IfSome result (λ n. (n.sites ≡ sites) × (n.lines.now ≡ lines.now)) }
        ensures none { IfNone result (Fits sites lines.now → ⊥) }
    {
        if sites <= MOST_SITES && lines.len() <= MOST_LINES && all_join(sites, lines) {
            Some(Network { sites, lines })
        } else {
            None
        }
    }
}
