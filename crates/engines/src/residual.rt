//! What a line can still carry, and one unit more over it.

ghost use Rattle.std.specs.Prelude.{◌≡◌, ℕ, ◌<◌, length};
ghost use Rattle.network.specs.Lines.{line_at};
ghost use Rattle.network.specs.Flow.{mark_at};
ghost use Rattle.engines.specs.Arcs.{code, tail, head, arc, sent_over};

use crate::hand::Hand;

// A line taken in one of its two directions: from its first place to its second, or back. Which one it is comes from
// comparing places, and is only asked by `if`: an enum of the two would be made by an `if` from each comparison. That its line is
// listed is a clause of what takes a way: as a fact of the way it would need the network in it.
#[derive(Clone, Copy)]
pub struct Way {
    pub line: usize,
    pub from_first: bool,
}

impl Way {
    pub fn over(line: usize, from_first: bool) -> Way
        ensures { result ≡ record { line = line; from_first = from_first } }
    {
        Way { line, from_first }
    }

    // The place that a unit comes from which goes this way, and the place that it comes to.
    pub fn ends(self, hand: &Hand<'_>) -> (usize, usize)
        requires { self.line < length hand.now.pair.net.lines.now }
        ensures tail { result.0 ≡ tail (line_at hand.now.pair.net.lines.now self.line) self.from_first }
        ensures head { result.1 ≡ head (line_at hand.now.pair.net.lines.now self.line) self.from_first }
    {
        // places are cast by `as` in the engines: with `from` the loops' proofs were left open
        let line = &hand.pair.net.lines[self.line];
        if self.from_first {
            (line.first as usize, line.second as usize)
        } else {
            (line.second as usize, line.first as usize)
        }
    }

    // The mark of a line that carries this way. Marks stay bytes: they are lent by the engine's caller, and hold anything.
    fn code(self) -> u8
        ensures { result ≡ code self.from_first }
    {
        if self.from_first { 1 } else { 2 }
    }

    // Whether one more unit can go this way.
    pub fn takes(self, hand: &Hand<'_>) -> bool
        requires { self.line < length hand.now.pair.net.lines.now }
        ensures { result ≡ arc hand.now.pair.net.lines.now hand.now.marks.now self.line self.from_first }
    {
        // the mark first: where many lines join the same places it settles most of the questions
        hand.marks[self.line] != self.code() && hand.pair.net.lines[self.line].is_free()
    }

    // Sends one unit this way: an unused line starts to carry, one that carries the other way stops.
    pub fn send(self, marks: &mut [u8])
        requires { self.line < length marks.old }
        ensures { marks.new ≡ sent_over marks.old self.line self.from_first }
    {
        marks[self.line] = if marks[self.line] != 0 {
            0
        } else {
            self.code()
        };
    }
}

pub fn clear_marks(marks: &mut [u8])
    ensures { (k : ℕ) → k < length marks.new → mark_at marks.new k ≡ 0 }
{
    marks.fill(0);
}
