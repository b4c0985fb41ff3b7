//! The network as Graphviz reads it: sites are nodes, lines are edges, and the sites of a group stand in one cluster.

ghost use Rattle.std.specs.Prelude.{◌≡◌, ◌%◌};

use crate::callsign::LabelSign;
use crate::rows::LineRow;
use network::{Line, LineState, Site};
use std::fmt;

// How things look, said once.
const LOOKS: &str =
    "  graph [rankdir=LR, style=\"rounded,filled\", color=\"#c3ccd3\", fillcolor=\"#f2f5f7\", fontname=\"Helvetica\", fontsize=11, fontcolor=\"#55606a\"];
  node [shape=box, style=\"rounded,filled\", color=\"#55606a\", fillcolor=\"#ffffff\", fontname=\"Helvetica\", fontsize=12];
  edge [color=\"#8a949c\", fontname=\"Helvetica\", fontsize=10, fontcolor=\"#55606a\"];";

// Dark enough to be read on white.
const COLOURS: [&str; 6] = [
    "#8a5a2b", "#1f5fa8", "#c8500a", "#2a7d4f", "#7b4ea3", "#b3245a",
];

/// A network, and where groups are wanted for each place the number of the first site of its group.
#[derive(Clone, Copy)]
pub struct Graph<'a> {
    pub sites: &'a [Site],
    pub lines: &'a [Line],
    pub groups: Option<&'a [u16]>,
}

impl fmt::Display for Graph<'_> {
    fn fmt<W: fmt::Write>(&self, f: &mut fmt::Formatter<W>) -> fmt::Result {
        writeln!(f, "graph network {{")?;
        writeln!(f, "{LOOKS}")?;
        match self.groups {
            Some(firsts) => write_clusters(f, self.sites, firsts)?,
            None => write_nodes(f, self.sites)?,
        }
        for line in self.lines {
            let edge = Edge(LineRow {
                line: *line,
                sites: self.sites,
            });
            writeln!(f, "{edge}")?;
        }
        write!(f, "}}")
    }
}

fn write_nodes<W: fmt::Write>(f: &mut fmt::Formatter<W>, sites: &[Site]) -> fmt::Result {
    for site in sites {
        let node = Node(*site);
        writeln!(f, "  {node}")?;
    }
    Ok(())
}

// A cluster for each group, that of a single site too, so that the picture says what the group list says. The book tells
// that list in fixed memory, a number for each place, so it runs beside the sites: a list of groups would want a heap.
fn write_clusters<W: fmt::Write>(
    f: &mut fmt::Formatter<W>,
    sites: &[Site],
    firsts: &[u16],
) -> fmt::Result {
    for (site, first) in sites.iter().zip(firsts) {
        if site.number == *first {
            let cluster = Cluster {
                group: *first,
                sites,
                firsts,
            };
            writeln!(f, "{cluster}")?;
        }
    }
    Ok(())
}

// The sites of one group.
#[derive(Clone, Copy)]
struct Cluster<'a> {
    group: u16,
    sites: &'a [Site],
    firsts: &'a [u16],
}

impl fmt::Display for Cluster<'_> {
    fn fmt<W: fmt::Write>(&self, f: &mut fmt::Formatter<W>) -> fmt::Result {
        let group = self.group;
        writeln!(f, "  subgraph cluster_{group} {{")?;
        writeln!(f, "    label=\"group {group}\";")?;
        for (site, first) in self.sites.iter().zip(self.firsts) {
            if *first == group {
                let node = Node(*site);
                writeln!(f, "    {node}")?;
            }
        }
        write!(f, "  }}")
    }
}

// A site with its number and its call sign.
#[derive(Clone, Copy)]
struct Node(Site);

impl fmt::Display for Node {
    fn fmt<W: fmt::Write>(&self, f: &mut fmt::Formatter<W>) -> fmt::Result {
        let number = self.0.number;
        let sign = LabelSign(&self.0.call_sign);
        write!(f, "{number} [label=\"{number}{sign}\"];")
    }
}

// A line with its number. A free line is plain; a held one is named by its booking and has its colour.
#[derive(Clone, Copy)]
struct Edge<'a>(LineRow<'a>);

impl fmt::Display for Edge<'_> {
    fn fmt<W: fmt::Write>(&self, f: &mut fmt::Formatter<W>) -> fmt::Result {
        let number = self.0.line.number;
        let (first, second) = self.0.ends();
        write!(f, "  {first} -- {second} [label=\"{number}")?;
        match self.0.line.state {
            LineState::Free => write!(f, "\"];"),
            LineState::Held(booking) => {
                let colour = COLOURS[tint(booking)];
                write!(
                    f,
                    ": booking {booking}\", color=\"{colour}\", fontcolor=\"{colour}\", penwidth=2];"
                )
            }
        }
    }
}

// Which of the colours a booking has: two bookings whose numbers follow each other never share one.
fn tint(booking: u16) -> usize
    ensures { result ≡ booking % 6 }
{
    usize::from(booking) % COLOURS.len()
}
