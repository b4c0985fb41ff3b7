//! The engine that floods the network from one place and lets what cannot get to the other run back.

ghost use Rattle.std.specs.Prelude.{◌≡◌, ◌+◌, ◌^◌, ◌<◌, ◌||◌, length, ◌==◌, ◌≢◌, IfSome, IfNone};
ghost use Rattle.engines.specs.Hands.{SameHand};
ghost use Rattle.engines.specs.Heights.{height_at, surplus_at, moved, raised, Loaded, Sends, Tried, TriedLine, TriedAll, Stepped, Preflow, Settled, Fresh, Opening};

use crate::hand::Hand;
use crate::residual::{Way, clear_marks};
use crate::search::clear_work;
use crate::task::{Method, answer};
use network::{Engine, Flow, Line, Pair, SiteWork};

// Takes one unit of surplus from p to q.
fn move_surplus(work: &mut [SiteWork], p: usize, q: usize)
    requires p_within { p < length work.old }
    requires q_within { q < length work.old }
    requires apart { p ≢ q }
    requires has { 0 < surplus_at work.old p }
    requires room { surplus_at work.old q + 1 < 2 ^ 16 }
    ensures { work.new ≡ moved work.old p q }
{
    work[p].surplus -= 1;
    work[q].surplus += 1;
}

fn raise(work: &mut [SiteWork], p: usize)
    requires within { p < length work.old }
    requires room { height_at work.old p + 1 < 2 ^ 16 }
    ensures { work.new ≡ raised work.old p }
{
    work[p].height += 1;
}

// Whether the line is one of p's.
fn touches(line: &Line, p: usize) -> bool
    ensures { result ≡ (line.now.first == p || line.now.second == p) }
{
    line.first as usize == p || line.second as usize == p
}

impl Hand<'_> {
    // Sends one unit of p's surplus that way, if it leads from p and the line takes one. That p is loaded stays a clause: the
    // unit may be p's last, so no struct of the hand and p could keep it as a field.
    fn try_send(&mut self, p: usize, way: Way) -> bool
        requires listed { way.line < length self.old.pair.net.lines.now }
        requires loaded { Loaded self.old.work.now p }
        ensures same { SameHand self.old self.new }
        ensures sends { Sends self.old.pair.net.lines.now self.old.marks.now self.old.work.now self.new.marks.now self.new.work.now p way.line way.from_first result }
    {
        let (from, to) = way.ends(self);
        if from == p && way.takes(self) {
            way.send(self.marks);
            move_surplus(self.work, from, to);
            true
        } else {
            false
        }
    }

    // Sends one unit of p's surplus that way, if it leads from p one step down and the line takes one.
    fn try_push(&mut self, p: usize, way: Way) -> bool
        requires listed { way.line < length self.old.pair.net.lines.now }
        requires loaded { Loaded self.old.work.now p }
        ensures same { SameHand self.old self.new }
        ensures tried { Tried self.old.pair.net.lines.now self.old.marks.now self.old.work.now self.new.marks.now self.new.work.now p way.line way.from_first result }
    {
        let (from, to) = way.ends(self);
        if self.work[from].height != self.work[to].height + 1 {
            return false;
        }
        self.try_send(p, way)
    }

    // Sends one unit of p's surplus one step down over the line k, if it takes it either way.
    fn try_line(&mut self, p: usize, k: usize) -> bool
        requires listed { k < length self.old.pair.net.lines.now }
        requires loaded { Loaded self.old.work.now p }
        ensures same { SameHand self.old self.new }
        ensures tried { TriedLine self.old.pair.net.lines.now self.old.marks.now self.old.work.now self.new.marks.now self.new.work.now p k result }
    {
        self.try_push(p, Way::over(k, true)) || self.try_push(p, Way::over(k, false))
    }

    // Sends one unit of p's surplus one step down, over the first of p's lines that takes it.
    fn push_from(&mut self, p: usize) -> bool
        requires loaded { Loaded self.old.work.now p }
        ensures same { SameHand self.old self.new }
        ensures tried { TriedAll self.old.pair.net.lines.now self.old.marks.now self.old.work.now self.new.marks.now self.new.work.now p result }
    {
        let lines = self.pair.net.lines;
        for (k, line) in lines.iter().enumerate() {
            if touches(line, p) && self.try_line(p, k) {
                return true;
            }
        }
        false
    }

    // A place other than a and b that has a surplus.
    fn find_active(&self) -> Option<usize>
        ensures active { IfSome result (λ p. (p < self.now.pair.net.sites) × (p ≢ self.now.pair.a) × (p ≢ self.now.pair.b) × (0 < surplus_at self.now.work.now p)) }
        ensures none { IfNone result (Settled self.now.work.now self.now.pair.a self.now.pair.b) }
    {
        let (a, b) = (self.pair.a, self.pair.b);
        self.work
            .iter()
            .enumerate()
            .position(|(p, site)| p != a && p != b && site.surplus != 0)
    }

    // One step at p, which has a surplus: a unit goes down, or else p goes up.
    fn step(&mut self, p: usize)
        requires loaded { Loaded self.old.work.now p }
        requires within { p < self.old.pair.net.sites }
        ensures same { SameHand self.old self.new }
        ensures stepped { Stepped self.old.pair.net.lines.now self.old.marks.now self.old.work.now self.new.marks.now self.new.work.now p }
    {
        if !self.push_from(p) {
            raise(self.work, p);
        }
    }

    // Steps until all surplus is back at a or has come to b.
    fn drain(&mut self)
        requires begun { Preflow self.old.pair.net.lines.now self.old.marks.now self.old.work.now self.old.pair.a self.old.pair.b }
        ensures same { SameHand self.old self.new }
        ensures ended { Preflow self.old.pair.net.lines.now self.new.marks.now self.new.work.now self.old.pair.a self.old.pair.b }
        ensures settled { Settled self.new.work.now self.old.pair.a self.old.pair.b }
    {
        'steps: while let Some(p) = self.find_active() {
            self.step(p);
        }
    }

    // The table before the first push: all places at height 0 and with no surplus, but for a, which is as high as there are
    // places, and has as many units as there are lines.
    fn prepare(&mut self)
        ensures same { SameHand self.old self.new }
        ensures marks { self.new.marks.now ≡ self.old.marks.now }
        ensures fresh { Fresh self.new.work.now self.old.pair.a (length self.old.pair.net.lines.now) }
    {
        clear_work(self.work);
        let Pair { net, a, .. } = self.pair;
        self.work[a] = SiteWork {
            height: net.sites as u16,
            surplus: net.lines.len() as u16,
            ..SiteWork::default()
        };
    }

    // Sends away from a what the lines at a take.
    fn saturate(&mut self)
        requires begun { Opening self.old.pair.net.lines.now self.old.marks.now self.old.work.now self.old.pair.a 0 }
        ensures same { SameHand self.old self.new }
        ensures opened { Opening self.old.pair.net.lines.now self.new.marks.now self.new.work.now self.old.pair.a (length self.old.pair.net.lines.now) }
    {
        let Pair { net, a, .. } = self.pair;
        for (k, line) in net.lines.iter().enumerate() {
            let _ = self.try_send(a, Way::over(k, line.first as usize == a));
        }
    }
}

/// The engine that moves surplus down heights, from place to place.
pub struct Push {}

impl Method for Push {
    // Sends from a all that its lines take, and moves the surplus on until it has come to b or is back at a.
    fn run(hand: &mut Hand<'_>) -> Flow {
        clear_marks(hand.marks);
        hand.prepare();
        hand.saturate();
        hand.drain();
        let value = hand.work[hand.pair.b].surplus as usize;
        // Some height between b's and a's has no place, and no arc leads down past it: the search never reaches b.
        let _ = hand.search();
        Flow {
            value,
            side: hand.side_seen(),
        }
    }
}

// `ShortestRoute` has the same lines: one impl for both would need a wrapper type, of which the two names were aliases.
impl Engine for Push {
    fn flow(
        sites: usize,
        lines: &[Line],
        a: usize,
        b: usize,
        marks: &mut [u8],
        work: &mut [SiteWork],
    ) -> Option<Flow> {
        answer::<Push>(sites, lines, a, b, marks, work)
    }
}
