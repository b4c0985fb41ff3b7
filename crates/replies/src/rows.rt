//! The rows of which replies are made.

use crate::callsign::CallSign;
use book::{Cut, Fault};
use network::side::contains;
use network::{Line, LineState, Site};
use std::fmt;

/// A cut as it is printed: its level, and the sites of its side by rising place.
#[derive(Clone, Copy)]
pub struct SideRow<'a> {
    pub cut: Cut,
    pub sites: &'a [Site],
}

impl fmt::Display for SideRow<'_> {
    fn fmt<W: fmt::Write>(&self, f: &mut fmt::Formatter<W>) -> fmt::Result {
        let Cut { level, side, size } = self.cut;
        write!(f, "level {level}, side of {size}:")?;
        for (_, site) in self
            .sites
            .iter()
            .enumerate()
            .filter(|(place, _)| contains(side, *place))
        {
            let number = site.number;
            write!(f, " {number}")?;
        }
        Ok(())
    }
}

/// A denial as it is printed: number, layer and what comes along.
#[derive(Clone, Copy)]
pub struct Denial<'a> {
    pub fault: Fault,
    pub sites: &'a [Site],
}

impl fmt::Display for Denial<'_> {
    fn fmt<W: fmt::Write>(&self, f: &mut fmt::Formatter<W>) -> fmt::Result {
        let number = self.fault.number();
        let layer = self.fault.layer();
        write!(f, "denied {number}, {layer}")?;
        match self.fault {
            Fault::Network(fault) => {
                let place = fault.place();
                write!(f, ": byte {place}")
            }
            Fault::NoSuchSite(site) => write!(f, ": site {site}"),
            Fault::TooFewRoutes(flow) => {
                let row = SideRow {
                    cut: flow.into(),
                    sites: self.sites,
                };
                write!(f, ": {row}")
            }
            _ => Ok(()),
        }
    }
}

/// A site as it is printed: its number and its call sign. A byte that is no printable ASCII is written as `\xNN`.
#[derive(Clone, Copy)]
pub struct SiteRow(pub Site);

impl fmt::Display for SiteRow {
    fn fmt<W: fmt::Write>(&self, f: &mut fmt::Formatter<W>) -> fmt::Result {
        let number = self.0.number;
        let sign = CallSign(&self.0.call_sign);
        write!(f, "{number} {sign}")
    }
}

/// A line as it is printed: its number, its two sites, and what it is doing.
#[derive(Clone, Copy)]
pub struct LineRow<'a> {
    pub line: Line,
    pub sites: &'a [Site],
}

// The number of the site at a place; 0 where there is none, which no line of a book has.
fn site_number(sites: &[Site], place: u8) -> u16 {
    sites.get(usize::from(place)).map_or(0, |site| site.number)
}

impl LineRow<'_> {
    /// The numbers of its two sites.
    pub(crate) fn ends(&self) -> (u16, u16) {
        (
            site_number(self.sites, self.line.first),
            site_number(self.sites, self.line.second),
        )
    }
}

impl fmt::Display for LineRow<'_> {
    fn fmt<W: fmt::Write>(&self, f: &mut fmt::Formatter<W>) -> fmt::Result {
        let number = self.line.number;
        let (first, second) = self.ends();
        write!(f, "{number}: {first} - {second} ")?;
        match self.line.state {
            LineState::Free => write!(f, "free"),
            LineState::Held(booking) => write!(f, "booking {booking}"),
        }
    }
}

/// A route as it runs from a site: sites and lines in turn.
#[derive(Clone, Copy)]
pub struct RouteRow<'a> {
    pub first: u16,
    pub numbers: &'a [u16],
    pub lines: &'a [Line],
    pub sites: &'a [Site],
}

impl RouteRow<'_> {
    // The site that the line of a number leads to from another. The lines are gone through: a row is not told that their numbers
    // rise.
    fn far_end(&self, number: u16, from: u16) -> u16 {
        let sites = self.sites;
        self.lines
            .iter()
            .find(|line| line.number == number)
            .map_or(from, |line| {
                let (first, second) = LineRow { line: *line, sites }.ends();
                if first == from { second } else { first }
            })
    }
}

impl fmt::Display for RouteRow<'_> {
    fn fmt<W: fmt::Write>(&self, f: &mut fmt::Formatter<W>) -> fmt::Result {
        let mut here = self.first;
        write!(f, "  {here}")?;
        for number in self.numbers {
            here = self.far_end(*number, here);
            write!(f, " -{number}- {here}")?;
        }
        Ok(())
    }
}
