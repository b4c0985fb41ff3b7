//! A line with its mark: where it comes from and where it leads.

ghost use Rattle.std.specs.Prelude.{◌≡◌, ◌==◌, nat_eq};
ghost use Rattle.network.specs.Routes.{other_end};
ghost use Rattle.routes.specs.Ends.{counts_at, carried_at};
ghost use Rattle.routes.specs.Walks.{source_of};

use network::Line;

/// The ends of a line that carries: where it comes from, and where it leads.
#[derive(Clone, Copy)]
pub enum End {
    From,
    To,
}

/// Whether the line carries, with this end at the place. The marks are lent as bytes, so that one may be any number.
pub fn carries_at(end: End, line: &Line, mark: u8, place: usize) -> bool
    ensures { result ≡ (counts_at end (nat_eq place) line.now mark == 1) }
{
    match (mark, end) {
        (1, End::From) | (2, End::To) => place == usize::from(line.first),
        (2, End::From) | (1, End::To) => place == usize::from(line.second),
        _ => false,
    }
}

/// How many lines carry with this end at the place.
pub fn carried_at(end: End, lines: &[Line], marks: &[u8], place: usize) -> usize
    ensures { result ≡ carried_at end (nat_eq place) lines.now marks.now }
{
    lines
        .iter()
        .zip(marks)
        .filter(|(line, mark)| carries_at(end, line, **mark, place))
        .count()
}

/// Where a line that carries comes from.
pub fn source(line: &Line, mark: u8) -> usize
    ensures { result ≡ source_of line.now mark }
{
    usize::from(if mark == 1 { line.first } else { line.second })
}

/// Where the line leads from the place.
pub fn far_end(line: &Line, place: usize) -> usize
    ensures { result ≡ other_end line.now place }
{
    if usize::from(line.first) == place {
        usize::from(line.second)
    } else {
        usize::from(line.first)
    }
}
