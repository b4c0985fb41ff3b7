ghost use Rattle.std.specs.Prelude.{◌≡◌};
ghost use Rattle.cases.specs.Table.{worked, WorkedCases};
ghost use Rattle.network.specs.declared.line.LineState.TheVariants.{Free};

use network::{Line, LineState};

fn joined(number: u16, first: u8, second: u8) -> Line
    ensures { result ≡ record { number = number; first = first; second = second; state = Free } }
{
    Line {
        number,
        first,
        second,
        state: LineState::Free,
    }
}

/// The lines of the worked network, all free. What the contract says of this network is proved from the definitions.
pub fn worked_lines() -> [Line; 5]
    ensures lines { result ≡ worked Free }
    ensures cases { WorkedCases }
{
    [
        joined(1, 0, 1),
        joined(2, 0, 1),
        joined(3, 1, 2),
        joined(4, 2, 0),
        joined(5, 2, 3),
    ]
}
