//! The engine that looks for one shortest route after another.

ghost use Rattle.std.specs.Prelude.{◌≡◌, ◌<◌, length};
ghost use Rattle.network.specs.Lines.{line_at};
ghost use Rattle.network.specs.Flow.{AllMarked};
ghost use Rattle.engines.specs.Hands.{SameHand};
ghost use Rattle.engines.specs.Arcs.{tail, sent_over, Sent};
ghost use Rattle.engines.specs.Search.{parent_at, way_in, Found};

use crate::hand::Hand;
use crate::residual::{Way, clear_marks};
use crate::task::{Method, answer};
use network::{Engine, Flow, Line, SiteWork};

impl Hand<'_> {
    // Sends one unit to c over the line by which c was seen, and answers the place that this line comes from.
    fn step_back(&mut self, c: usize) -> usize
        requires within { c < self.old.pair.net.sites }
        requires listed { parent_at self.old.work.now c < length self.old.pair.net.lines.now }
        ensures same { SameHand self.old self.new }
        ensures work { self.new.work.now ≡ self.old.work.now }
        ensures place { result ≡ tail (line_at self.old.pair.net.lines.now (parent_at self.old.work.now c)) (way_in self.old.pair.net.lines.now self.old.work.now c) }
        ensures after { self.new.marks.now ≡ sent_over self.old.marks.now (parent_at self.old.work.now c) (way_in self.old.pair.net.lines.now self.old.work.now c) }
    {
        let line = self.work[c].parent as usize;
        let way = Way::over(line, self.pair.net.lines[line].second as usize == c);
        way.send(self.marks);
        way.ends(self).0
    }

    // Sends one unit from a to b, over the lines by which the search came to b.
    fn augment(&mut self)
        requires sound { AllMarked self.old.pair.net.lines.now self.old.marks.now }
        requires reached { Found self.old.pair.net.lines.now self.old.marks.now self.old.work.now self.old.pair.a self.old.pair.b }
        ensures same { SameHand self.old self.new }
        ensures sound { AllMarked self.old.pair.net.lines.now self.new.marks.now }
        ensures sent { Sent self.old.pair.net.lines.now self.old.marks.now self.new.marks.now self.old.pair.a self.old.pair.b }
    {
        // Each step needs the marks, and its line is found only at the place that the one before came to: no iterator walks so.
        let mut c = self.pair.b;
        'back: while c != self.pair.a {
            c = self.step_back(c);
        }
    }
}

/// The engine that searches outward, layer by layer, for a further route until none is left.
pub struct ShortestRoute {}

impl Method for ShortestRoute {
    // Sends units from a to b, one at a time, until no further route is left.
    fn run(hand: &mut Hand<'_>) -> Flow {
        clear_marks(hand.marks);
        let mut value = 0;
        'units: while hand.search() {
            hand.augment();
            value += 1;
        }
        Flow {
            value,
            side: hand.side_seen(),
        }
    }
}

impl Engine for ShortestRoute {
    fn flow(
        sites: usize,
        lines: &[Line],
        a: usize,
        b: usize,
        marks: &mut [u8],
        work: &mut [SiteWork],
    ) -> Option<Flow> {
        answer::<ShortestRoute>(sites, lines, a, b, marks, work)
    }
}
