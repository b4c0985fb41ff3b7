//! Asks an engine, and looks at its answer.

use crate::old::{Old, is_old};
use crate::taking::{NotTaken, take};
use cases::crossing;
use network::{Engine, Flow, Line, SiteWork, side};
use routes::Marking;
use std::error::Error;
use std::fmt;

/// More marks, and more records of the work table, than an engine needs.
pub const MARKS: usize = 520;

pub const WORK: usize = 70;

/// What an engine is asked, with the lengths of the two lists that it is lent.
#[derive(Clone, Copy)]
pub struct Question<'a> {
    pub sites: usize,
    pub lines: &'a [Line],
    pub a: usize,
    pub b: usize,
    pub marks: usize,
    pub work: usize,
}

/// What an engine answered, none where it declined, and what was found of it: an answer that is not sound is printed too.
#[derive(Clone, Copy)]
pub struct Asked {
    pub flow: Option<Flow>,
    pub finding: Result<(), Unsound>,
}

/// Why an answer does not hold: there is none, or something is wrong with it.
#[derive(Debug, Clone, Copy, PartialEq, Eq)]
pub enum Unsound {
    Declined,
    WroteInVain,
    MarksPast,
    NotParted,
    Outside,
    OtherCount,
    NoRoutes,
}

impl fmt::Display for Unsound {
    fn fmt<W: fmt::Write>(&self, f: &mut fmt::Formatter<W>) -> fmt::Result {
        match self {
            Unsound::Declined => write!(f, "declined"),
            Unsound::WroteInVain => write!(f, "declined, but marks or work are changed"),
            Unsound::MarksPast => write!(f, "marks past the last line are changed"),
            Unsound::NotParted => write!(f, "the side does not part the two"),
            Unsound::Outside => write!(f, "the side passes the network"),
            Unsound::OtherCount => write!(f, "another number of lines cross the side"),
            Unsound::NoRoutes => write!(f, "the routes do not walk"),
        }
    }
}

impl Error for Unsound {}

impl From<NotTaken> for Unsound {
    fn from(_fault: NotTaken) -> Unsound {
        Unsound::NoRoutes
    }
}

impl Question<'_> {
    // The side is to hold a, not b, only places of the network, and to be crossed by `value` free lines.
    fn look_at_side(self, flow: Flow) -> Result<(), Unsound> {
        let Flow { value, side: cut } = flow;
        if !side::contains(cut, self.a) || side::contains(cut, self.b) {
            return Err(Unsound::NotParted);
        }
        if side::intersection(cut, side::all_below(self.sites)) != cut {
            return Err(Unsound::Outside);
        }
        if crossing(self.lines, cut) != value {
            return Err(Unsound::OtherCount);
        }
        Ok(())
    }

    // Takes as many routes as the value out of the marks, and walks them.
    fn take_all(self, marks: &[u8], value: usize) -> Result<(), NotTaken> {
        let Question {
            sites,
            lines,
            a,
            b,
            ..
        } = self;
        let marking = Marking {
            sites,
            lines,
            marks,
            a,
            b,
            value,
        };
        take(&marking, value, 1024)
    }

    // Looks at an answer of the engine, and at what stands in the marks after it.
    fn look_at(self, marks: &[u8], flow: Flow) -> Result<(), Unsound> {
        if !is_old(marks, self.lines.len()) {
            return Err(Unsound::MarksPast);
        }
        self.look_at_side(flow)?;
        self.take_all(marks, flow.value)?;
        Ok(())
    }

    // Asks the engine with these two lists, which it leaves as they are where it declines.
    fn ask_with<E: Engine>(self, marks: &mut [u8], work: &mut [SiteWork]) -> Asked {
        let Question {
            sites,
            lines,
            a,
            b,
            ..
        } = self;
        let flow = E::flow(sites, lines, a, b, marks, work);
        let finding = match flow {
            Some(flow) => self.look_at(marks, flow),
            None if is_old(marks, 0) && is_old(work, 0) => Err(Unsound::Declined),
            None => Err(Unsound::WroteInVain),
        };
        Asked { flow, finding }
    }

    /// Asks the engine, with old numbers in marks and work table.
    pub fn ask<E: Engine>(self) -> Asked {
        let mut marks = [u8::OLD; MARKS];
        let mut work = [SiteWork::OLD; WORK];
        let lent_marks = &mut marks[..self.marks.min(MARKS)];
        let lent_work = &mut work[..self.work.min(WORK)];
        self.ask_with::<E>(lent_marks, lent_work)
    }
}
