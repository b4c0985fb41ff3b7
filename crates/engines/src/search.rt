//! The search outward from a place, over lines that can still carry. Both engines read their side off it.

ghost use Rattle.std.specs.Prelude.{◌≡◌, ℕ, ◌+◌, ◌^◌, ◌<◌, false, not, List, length, MatchBool, ◌==◌, ◌≢◌, slice_set};
ghost use Rattle.std.specs.Bool.{OnFalse};
ghost use Rattle.network.specs.Lines.{Joins};
ghost use Rattle.network.specs.Sides.{member};
ghost use Rattle.engines.specs.Hands.{SameHand};
ghost use Rattle.engines.specs.Search.{no_site, site_at, seen_at, noted, reaches, adds_up, seen_after, Scanned, Round, Found, Stuck};

use crate::hand::Hand;
use crate::residual::Way;
use network::side::insert;
use network::{Line, SiteWork};

fn note_seen(work: &mut [SiteWork], q: usize, by: u16, layer: u16)
    requires { q < length work.old }
    ensures { work.new ≡ slice_set work.old q (noted by layer (site_at work.old q)) }
{
    work[q] = SiteWork {
        parent: by,
        seen: layer,
        ..work[q]
    };
}

pub fn clear_work(work: &mut [SiteWork])
    ensures { (q : ℕ) → site_at work.new q ≡ no_site }
{
    work.fill(SiteWork::default());
}

fn start_search(work: &mut [SiteWork], a: usize)
    requires { a < length work.old }
    ensures begun { (ls : List Line) (ms : List ℕ) → Round ls ms a 1 false (λ k e. ⊥) work.new }
    ensures others { (q : ℕ) → q ≢ a → seen_at work.new q ≡ 0 }
{
    clear_work(work);
    note_seen(work, a, 0, 1);
}

impl Hand<'_> {
    // Sees the place that the way leads to, where it comes from one at the layer.
    fn try_reach(&mut self, way: Way, layer: u16) -> bool
        requires listed { way.line < length self.old.pair.net.lines.now }
        requires low { layer + 1 < 2 ^ 16 }
        ensures same { SameHand self.old self.new }
        ensures marks { self.new.marks.now ≡ self.old.marks.now }
        ensures answer { result ≡ reaches self.old.pair.net.lines.now self.old.marks.now layer way.line way.from_first self.old.work.now }
        ensures after { self.new.work.now ≡ seen_after self.old.pair.net.lines.now layer way.line way.from_first self.old.work.now result }
    {
        let (p, q) = way.ends(self);
        if self.work[p].seen == layer && self.work[q].seen == 0 && way.takes(self) {
            note_seen(self.work, q, way.line as u16, layer + 1);
            true
        } else {
            false
        }
    }

    // Whether the layers of the two ends of the line add up to the layer, as they do where one end is at it and the other
    // is not seen. Most lines are passed by on this one test. It casts by `as`: after `from` the check
    // no longer knows that a sum of two layers fits.
    fn may_reach(&self, line: &Line, layer: u16) -> bool
        requires { Joins self.now.pair.net.sites line.now }
        ensures { result ≡ adds_up layer line.now self.now.work.now }
    {
        let first = self.work[line.first as usize].seen as usize;
        let second = self.work[line.second as usize].seen as usize;
        first + second == layer as usize
    }

    // One round of the search: sees the far ends of all lines whose near end is at the layer, and answers whether there
    // were any.
    fn scan_round(&mut self, layer: u16) -> bool
        requires low { layer + 1 < 2 ^ 16 }
        ensures same { SameHand self.old self.new }
        ensures marks { self.new.marks.now ≡ self.old.marks.now }
        ensures scanned { Scanned self.old.pair.net.lines.now self.old.marks.now layer self.old.work.now self.new.work.now result }
        ensures idle { OnFalse result (self.new.work.now ≡ self.old.work.now) }
    {
        let mut found = false;
        let lines = self.pair.net.lines;
        for (k, line) in lines.iter().enumerate() {
            if self.may_reach(line, layer) {
                let forth = self.try_reach(Way::over(k, true), layer);
                let back = self.try_reach(Way::over(k, false), layer);
                found = found | forth | back;
            }
        }
        found
    }

    // Looks for a way from a to b over lines that can still carry, layer by layer. Where there is none, the places seen
    // are all that can be reached from a. It is part of its callers' code, so that their hand lies in registers: called with the
    // hand's address, a round would fetch where the table is anew for each line, since it may have written there.
    #[inline(always)]
    pub fn search(&mut self) -> bool
        ensures same { SameHand self.old self.new }
        ensures marks { self.new.marks.now ≡ self.old.marks.now }
        ensures found { MatchBool result (Found self.old.pair.net.lines.now self.old.marks.now self.new.work.now self.old.pair.a self.old.pair.b) (Stuck self.old.pair.net.lines.now self.old.marks.now self.new.work.now self.old.pair.a self.old.pair.b) }
    {
        start_search(self.work, self.pair.a);
        // how many layers there are shows only where a round finds nothing
        let mut layer = 1;
        'rounds: while self.scan_round(layer) {
            if self.work[self.pair.b].seen != 0 {
                return true;
            }
            layer += 1;
        }
        false
    }

    // The side of the places that the last search has seen. Both engines end with a search that does not reach b, and
    // read their side off it.
    pub fn side_seen(&self) -> u64
        ensures within { result < 2 ^ length self.now.work.now }
        ensures places { (q : ℕ) → q < length self.now.work.now → member result q ≡ not (seen_at self.now.work.now q == 0) }
    {
        let mut side = 0;
        for (p, site) in self.work.iter().enumerate() {
            if site.seen != 0 {
                side = insert(side, p);
            }
        }
        side
    }
}
