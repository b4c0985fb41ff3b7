//! Which calls an engine takes, and how it answers them.

ghost use Rattle.std.specs.Prelude.{◌≡◌, ◌<◌, ◌≢◌, length, IfSome, IfNone};
ghost use Rattle.network.specs.Answers.{Task, Flows, Answer};
ghost use Rattle.engines.specs.Hands.{SameHand};

use crate::hand::Hand;
use network::{Flow, Line, Pair, SiteWork};

// The pair of places of a call that an engine takes; it declines every other. What it is handed is what the public trait lends.
fn taken<'a>(
    sites: usize,
    lines: &'a [Line],
    a: usize,
    b: usize,
    marks: &[u8],
    work: &[SiteWork],
) -> Option<Pair<'a>>
    ensures taken { IfSome result (λ q. Task sites lines.now a b marks.now work.now) }
    ensures asked { IfSome result (λ q. (q.net.sites ≡ sites) × (q.net.lines.now ≡ lines.now) × (q.a ≡ a) × (q.b ≡ b)) }
    ensures declined { IfNone result (Task sites lines.now a b marks.now work.now → ⊥) }
{
    // asked first, so that no line is looked at where what was lent is too short
    if lines.len() <= marks.len() && sites <= work.len() {
        Pair::new(sites, lines, a, b)
    } else {
        None
    }
}

// How an engine works on a pair of places, with marks and records for their network.
pub trait Method {
    fn run(hand: &mut Hand<'_>) -> Flow
        ensures same { SameHand hand.old hand.new }
        ensures flows { Flows hand.old.pair.net.sites hand.old.pair.net.lines.now hand.old.pair.a hand.old.pair.b hand.old.marks.now hand.new.marks.now result.value result.side };
}

// What the method answers on the pair, with just as many marks and records as there are lines and sites. It takes these
// as its own parameters: of a hand made of `&mut marks[..n]` in place, the check knows only the length afterwards.
fn start<M: Method>(pair: Pair<'_>, marks: &mut [u8], work: &mut [SiteWork]) -> Flow
    requires marked { length marks.old ≡ length pair.net.lines.now }
    requires kept { length work.old ≡ pair.net.sites }
    ensures { Flows pair.entry.net.sites pair.entry.net.lines.now pair.entry.a pair.entry.b marks.old marks.new result.value result.side }
{
    M::run(&mut Hand { pair, marks, work })
}

// Answers a call by the method, or declines it.
pub fn answer<M: Method>(
    sites: usize,
    lines: &[Line],
    a: usize,
    b: usize,
    marks: &mut [u8],
    work: &mut [SiteWork],
) -> Option<Flow>
    ensures { Answer sites lines.now a b marks.old marks.new work.old work.new result }
{
    let pair = taken(sites, lines, a, b, marks, work)?;
    Some(start::<M>(pair, &mut marks[..lines.len()], &mut work[..sites]))
}
