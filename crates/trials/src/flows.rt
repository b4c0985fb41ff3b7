//! Asks both engines, and prints their answers.

use crate::answers::{Asked, MARKS, Question, Unsound, WORK};
use crate::case::Case;
use anyhow::anyhow;
use engines::{Push, ShortestRoute};
use network::{Flow, side};
use std::io;

// What is printed of an engine that declined.
const NO_FLOW: Flow = Flow { value: 0, side: 0 };

impl Case<'_> {
    // The value, and the sites of the side by rising place.
    fn print_answer(&self, engine: &str, asked: &Asked) -> io::Result<()> {
        let Flow { value, side } = asked.flow.unwrap_or(NO_FLOW);
        let size = side::size(side);
        print!(self.rt; " {engine} {value}, side of {size}:")?;
        for (place, site) in self.net.sites.iter().enumerate() {
            if side::contains(side, place) {
                print!(self.rt; " {site}")?;
            }
        }
        print!(self.rt; ";")
    }

    fn print_finding(&self, finding: Result<(), Unsound>) -> io::Result<()> {
        match finding {
            Ok(()) => print!(self.rt; " sides hold, routes walk"),
            Err(fault) => print!(self.rt; " {fault}"),
        }
    }

    // Both answers, and what was found of them.
    fn print_answers(&self, question: Question<'_>) -> anyhow::Result<()> {
        let shortest = question.ask::<ShortestRoute>();
        let push = question.ask::<Push>();
        self.print_answer("shortest", &shortest)?;
        self.print_answer("push", &push)?;
        self.print_finding(shortest.finding)?;
        if push.finding != shortest.finding {
            print!(self.rt; ", push:")?;
            self.print_finding(push.finding)?;
        }
        println!(self.rt)?;
        Ok(())
    }

    /// Asks for the routes from one place to another, with more room than the engines need; the other numbers are the
    /// lines held.
    pub fn print_flow(&mut self) -> anyhow::Result<()> {
        let [a, b, held @ ..] = self.numbers else {
            return Err(anyhow!("too few numbers"));
        };
        self.net.hold(held);
        let case = &*self;
        let question = Question {
            sites: case.net.sites.len(),
            lines: &case.net.lines,
            a: *a,
            b: *b,
            marks: MARKS,
            work: WORK,
        };
        print!(case.rt; " {a}-{b}:")?;
        case.print_answers(question)
    }

    /// Asks for the routes from place 0 to place 1 of so many sites, with so many marks and records of the work table.
    pub fn print_room(&self) -> anyhow::Result<()> {
        let [sites, marks, work] = self.numbers else {
            return Err(anyhow!("other than three numbers"));
        };
        let question = Question {
            sites: *sites,
            lines: &self.net.lines,
            a: 0,
            b: 1,
            marks: *marks,
            work: *work,
        };
        print!(self.rt; " of {sites} with room {marks} {work}:")?;
        self.print_answers(question)
    }
}
