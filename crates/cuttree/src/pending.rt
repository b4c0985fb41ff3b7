//! A pair that the builder has still to join: a set of places, and the one of them that is in the tree already.

ghost use Rattle.std.specs.Prelude.{◌≡◌, ℕ, true, false, not, ◌&&◌, MatchOption};
ghost use Rattle.network.specs.Sides.{member};
ghost use Rattle.cuttree.specs.Splits.{part, Alone, Next, Split};

use network::side;

#[derive(Clone, Copy)]
pub(crate) struct Pending {
    available: u64,
    source: usize,
    ghost held: { member available source ≡ true },
}

impl Pending {
    /// The places that are available, and their source, which is one of them.
    pub(crate) fn new(available: u64, source: usize) -> Pending
        requires { member available source ≡ true }
        ensures { (result.available ≡ available) × (result.source ≡ source) }
    {
        Pending { available, source }
    }

    pub(crate) fn source(&self) -> usize
        ensures { result ≡ self.now.source }
    {
        self.source
    }

    /// The lowest available place other than the source; none where the pair is done.
    pub(crate) fn next(&self) -> Option<usize>
        ensures { MatchOption result (Alone (part self.now.available self.now.source)) (λ t. Next (part self.now.available self.now.source) t) }
    {
        side::lowest(side::remove(self.available, self.source))
    }

    /// The pair in two: the places in the side keep the source, those outside get `t`.
    pub(crate) fn split(&self, t: usize, side: u64) -> (Pending, Pending)
        requires inside { member side self.now.source ≡ true }
        requires outside { member side t ≡ false }
        requires waits { member self.now.available t ≡ true }
        ensures { Split (part self.now.available self.now.source) t side (part result.0.available result.0.source) (part result.1.available result.1.source) }
    {
        let near = side::intersection(self.available, side);
        let far = side::difference(self.available, side);
        (Pending::new(near, self.source), Pending::new(far, t))
    }
}
