//! Whether marks carry a value from one place to another.

ghost use Rattle.std.specs.Prelude.{◌≡◌, ℕ, ◌≤◌, ◌↔◌, length, IsTrue, IfSome, IfNone};
ghost use Rattle.network.specs.Flow.{Balanced, Marked, AllMarked};
ghost use Rattle.routes.specs.Taking.{FitBy};
ghost use Rattle.routes.specs.Shapes.{PairOf, Ready, Sized, BalancedAt};

use crate::arcs::{End, carried_at};
use crate::marking::Marking;
use network::{Line, Pair};

impl<'a> Marking<'a> {
    /// The two places, where the marks carry `value` from `a` to `b` and `k` is no more, so that routes can be taken.
    pub(crate) fn fit_pair(&self, k: usize) -> Option<Pair<'a>>
        ensures of { IfSome result (λ q. PairOf self.now q) }
        ensures ready { IfSome result (λ q. Ready q self.now.marks.now self.now.value k) }
        ensures none { IfNone result (FitBy self.now k → ⊥) }
    {
        // asked first, so that no line is looked at for numbers that fit no marks
        if !self.is_sized(self.lines, k) {
            return None;
        }
        let pair = self.pair()?;
        if self.is_ready(&pair, k) {
            Some(pair)
        } else {
            None
        }
    }

    /// The two places in their network, where it is one and holds both, and they differ.
    fn pair(&self) -> Option<Pair<'a>>
        ensures of { IfSome result (λ q. PairOf self.now q) }
        ensures none { IfNone result ((k : ℕ) → FitBy self.now k → ⊥) }
    {
        Pair::new(self.sites, self.lines, self.a, self.b)
    }

    /// Whether the marks carry `value` between the two places, and `k` is no more.
    fn is_ready(&self, pair: &Pair<'_>, k: usize) -> bool
        ensures { IsTrue result ↔ Ready pair.now self.now.marks.now self.now.value k }
    {
        self.is_sized(pair.net.lines, k)
            && self.all_marked(pair.net.lines)
            && self.all_balance(pair)
    }

    /// What can be said of the marks without a look at them.
    fn is_sized(&self, lines: &[Line], k: usize) -> bool
        ensures { IsTrue result ↔ Sized lines.now self.now.marks.now self.now.value k }
    {
        lines.len() <= self.marks.len() && k <= self.value && self.value <= lines.len()
    }

    /// Whether each line has a mark that it may have.
    fn all_marked(&self, lines: &[Line]) -> bool
        ensures { IsTrue result ↔ AllMarked lines.now self.now.marks.now }
    {
        lines
            .iter()
            .zip(self.marks)
            .all(|(line, mark)| may_have(line, *mark))
    }

    /// Whether each place has the balance that it has where `value` goes between the two places.
    fn all_balance(&self, pair: &Pair<'_>) -> bool
        requires { self.now.value ≤ length pair.now.net.lines.now }
        ensures { IsTrue result ↔ Balanced pair.now.net.lines.now self.now.marks.now pair.now.a pair.now.b self.now.value }
    {
        (0..pair.net.sites).all(|place| self.balances(pair, place))
    }

    /// Whether what leaves the place and what comes to it differ as they do where `value` goes between the two places.
    fn balances(&self, pair: &Pair<'_>, place: usize) -> bool
        requires { self.now.value ≤ length pair.now.net.lines.now }
        ensures { IsTrue result ↔ BalancedAt pair.now.net.lines.now self.now.marks.now pair.now.a pair.now.b self.now.value place }
    {
        let leaving = carried_at(End::From, pair.net.lines, self.marks, place);
        let arriving = carried_at(End::To, pair.net.lines, self.marks, place);
        let ended = if place == pair.b { self.value } else { 0 };
        let begun = if place == pair.a { self.value } else { 0 };
        leaving + ended == arriving + begun
    }
}

/// Whether the line may have the mark.
fn may_have(line: &Line, mark: u8) -> bool
    ensures { IsTrue result ↔ Marked line.now mark }
{
    mark <= 2 && (mark == 0 || line.is_free())
}
