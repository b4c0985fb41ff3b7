//! What an engine has in hand while it works. Its methods stand with what they do: `push`, `search`, `shortest`.

ghost use Rattle.std.specs.Prelude.{◌≡◌, length};

use network::{Pair, SiteWork};

/// The pair of places that an engine works on, with a mark for each line of their network and a record for each site. That the
/// hand stays the same one is a clause of each method: of a hand that it has lent, a caller knows nothing else.
#[derive(Drop)]
pub struct Hand<'a> {
    pub pair: Pair<'a>,
    pub marks: &'a mut [u8],
    pub work: &'a mut [SiteWork],
    ghost marked: { length marks.now ≡ length pair.net.lines.now },
    ghost kept: { length work.now ≡ pair.net.sites },
}
