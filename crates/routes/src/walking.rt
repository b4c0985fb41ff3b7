//! Takes one route out of the marks, by a walk from its end back to its start.

ghost use Rattle.std.specs.Prelude.{◌≡◌, ℕ, suc, ◌<◌, ◌≤◌, Bool, true, false, ◌∷◌, length, drop, MatchOption, nat_eq, slice_set};
ghost use Rattle.network.specs.Lines.{line_at};
ghost use Rattle.network.specs.Lists.{among};
ghost use Rattle.network.specs.Routes.{chained, stops, touches, other_end};
ghost use Rattle.network.specs.Flow.{mark_at, arrives, ins};
ghost use Rattle.routes.specs.Walks.{carriers, Way, Supplies, Back};

use crate::arcs::{End, carries_at, far_end, source};
use network::{Line, Network, Pair};

/// A line that carries to the place, where there is one.
fn arriving(lines: &[Line], left: &[u8], place: usize) -> usize
    requires { 0 < ins (nat_eq place) lines.now left.now }
    ensures inside { result < length lines.now }
    ensures comes { arrives (nat_eq place) (line_at lines.now result) (mark_at left.now result) ≡ 1 }
{
    lines
        .iter()
        .zip(left)
        .position(|(line, mark)| carries_at(End::To, line, *mark, place))
        .unwrap()
}

/// Where the chain from the place `start` comes to `place`: from there on it leads from `place`.
fn find_stop(lines: &[Line], chain: &[u16], start: usize, place: usize) -> Option<usize>
    requires { chained lines.now start chain.now ≡ true }
    ensures { MatchOption result (among (start ∷ stops lines.now start chain.now) place ≡ false)
        (λ i. (i ≤ length chain.now) × ((Q : ℕ → Bool) (b : ℕ) → Way lines.now Q start b chain.now → Way lines.now Q place b (drop i chain.now))) }
{
    let mut stop = start;
    for (i, line) in chain.iter().enumerate() {
        if stop == place {
            return Some(i);
        }
        stop = far_end(&lines[usize::from(*line)], stop);
    }
    if stop == place {
        Some(chain.len())
    } else {
        None
    }
}

/// Puts the line before the chain `path[top..]`, so that it leads from `place`, and leaves out a loop that this makes.
fn extend(
    net: &Network<'_>,
    path: &mut [u16],
    top: usize,
    start: usize,
    line: usize,
    place: usize,
) -> usize
    requires within { top ≤ length path.old }
    requires space { 0 < top }
    requires inside { line < length net.now.lines.now }
    requires touching { touches (line_at net.now.lines.now line) place ≡ true }
    requires leading { other_end (line_at net.now.lines.now line) place ≡ start }
    requires linked { chained net.now.lines.now start (drop top path.old) ≡ true }
    ensures within { result ≤ length path.old }
    ensures longer { top ≤ suc result }
    ensures led { (Q : ℕ → Bool) (b : ℕ) → Q line ≡ true → Way net.now.lines.now Q start b (drop top path.old) → Way net.now.lines.now Q place b (drop result path.new) }
{
    let stop = find_stop(net.lines, &path[top..], start, place);
    path[top - 1] = line as u16;
    stop.map_or(top - 1, |i| top + i)
}

/// Takes the line out of those that still carry.
fn take_out(left: &mut [u8], line: usize)
    requires { line < length left.old }
    ensures { left.new ≡ slice_set left.old line 0 }
{
    left[line] = 0;
}

/// Takes one route between the two places out of the lines that still carry. It stands in `path` from the answered
/// place on: the path is lent, since no route is allocated, and fills from its end.
pub fn walk(pair: &Pair<'_>, left: &mut [u8], path: &mut [u16]) -> usize
    requires supplies { Supplies pair.now left.old 1 }
    requires space { carriers pair.now.net.lines.now left.old ≤ length path.old }
    ensures { Back pair.now left.old left.new pair.now.a path.new result }
{
    // each step changes the marks, and its line is found only at the place before it: no iterator walks so
    let mut top = path.len();
    let mut place = pair.b;
    'back: while place != pair.a {
        let line = arriving(pair.net.lines, left, place);
        let before = source(&pair.net.lines[line], left[line]);
        take_out(left, line);
        top = extend(&pair.net, path, top, place, line, before);
        place = before;
    }
    top
}
