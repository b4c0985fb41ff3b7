//! What the trials ask of lines.

ghost use Rattle.std.specs.Prelude.{◌≡◌, Some, None, if◌then◌else◌};
ghost use Rattle.network.specs.Sides.{member};
ghost use Rattle.network.specs.Cuts.{crosses, crossing};
ghost use Rattle.network.specs.Routes.{touches, other_end};

use network::{Line, side};

fn crosses(line: &Line, side: u64) -> bool
    ensures { result ≡ crosses (member side) line.now }
{
    let first = side::contains(side, usize::from(line.first));
    let second = side::contains(side, usize::from(line.second));
    line.is_free() && first != second
}

/// How many free lines cross a side.
pub fn crossing(lines: &[Line], side: u64) -> usize
    ensures { result ≡ crossing lines.now side }
{
    lines.iter().filter(|line| crosses(line, side)).count()
}

/// Where a line leads from a place; none where it does not touch it.
pub fn across(line: &Line, place: usize) -> Option<usize>
    ensures { result ≡ (if touches line.now place then Some (other_end line.now place) else None) }
{
    let (first, second) = (usize::from(line.first), usize::from(line.second));
    if first == place {
        Some(second)
    } else if second == place {
        Some(first)
    } else {
        None
    }
}
