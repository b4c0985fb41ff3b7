use anyhow::anyhow;
use cases::worked_lines;
use netfile::NetworkFile;
use network::{Line, LineState};
use std::alloc::{AllocError, Global};

/// The network of a file: the numbers of its sites by place, and its lines by position.
#[derive(Drop)]
pub struct Network {
    pub sites: Vec<u16>,
    pub lines: Vec<Line>,
}

impl Network {
    /// Opens the file; all lines are free.
    pub fn read(heap: Global, bytes: &[u8]) -> anyhow::Result<Network> {
        let Ok(file) = NetworkFile::open(bytes) else {
            return Err(anyhow!("a file that is denied"));
        };
        let sites = sites_of(heap, &file)?;
        let lines = lines_of(heap, &file)?;
        Ok(Network { sites, lines })
    }

    /// Whether the lines are those of the network whose cases are proved.
    pub fn is_worked(&self) -> bool {
        self.lines.as_slice() == worked_lines().as_slice()
    }

    /// Has the lines at these positions held by booking 1.
    pub fn hold(&mut self, positions: &[usize]) {
        for position in positions {
            if let Some(line) = self.lines.get_mut(*position) {
                line.state = LineState::Held(1);
            }
        }
    }
}

fn sites_of(heap: Global, file: &NetworkFile) -> Result<Vec<u16>, AllocError> {
    (0..file.site_count())
        .filter_map(|place| file.site(place))
        .map(|site| site.number)
        .collect(heap)
}

fn lines_of(heap: Global, file: &NetworkFile) -> Result<Vec<Line>, AllocError> {
    (0..file.line_count())
        .filter_map(|position| file.line(position))
        .collect(heap)
}
