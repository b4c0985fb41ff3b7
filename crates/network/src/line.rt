ghost use Rattle.std.specs.Prelude.{◌≡◌, Decides};
ghost use Rattle.network.specs.Lines.{is_free, Joins, AllJoin};

/// What a line is doing now: free, or held by the booking of a number. It is no `Option`: the field is public, `None` would not
/// say that a line is free, and a line may one day be neither.
#[derive(Debug, Clone, Copy, PartialEq, Eq)]
pub enum LineState {
    Free,
    Held(u16),
}

/// A line of the network. Its identity is its position in the table of lines; `first` and `second` are the places
/// that it joins, and `number` is what the file calls it.
#[derive(Debug, Clone, Copy, PartialEq, Eq)]
pub struct Line {
    pub number: u16,
    pub first: u8,
    pub second: u8,
    pub state: LineState,
}

impl Line {
    /// Whether a route may take the line now.
    pub fn is_free(&self) -> bool
        ensures { result ≡ is_free self.now.state }
    {
        matches!(self.state, LineState::Free)
    }

    /// Whether the line joins two different places of a network of so many sites.
    pub fn joins(&self, sites: usize) -> bool
        ensures { Decides result (Joins sites self.now) }
    {
        usize::from(self.first) < sites
            && usize::from(self.second) < sites
            && self.first != self.second
    }
}

/// Whether each line joins two different places of a network of so many sites.
pub fn all_join(sites: usize, lines: &[Line]) -> bool
    ensures { Decides result (AllJoin sites lines.now) }
{
    lines.iter().all(|line| line.joins(sites))
}
