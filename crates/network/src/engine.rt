ghost use Rattle.network.specs.Answers.{Answer};

use crate::line::Line;

/// What an engine notes of one site while it works: the line by which a search came to it and the layer at which it
/// was seen, or its height and surplus. A site not seen has layer 0: one test of a sum of layers passes most lines by, where
/// an `Option` would have to be looked into twice.
#[derive(Debug, Default, Clone, Copy, PartialEq, Eq)]
pub struct SiteWork {
    pub parent: u16,
    pub seen: u16,
    pub height: u16,
    pub surplus: u16,
}

/// What an engine answers: how many separate routes of free lines lead from one place to another, and a side of the first
/// that shows that there are no more.
#[derive(Debug, Clone, Copy, PartialEq, Eq)]
pub struct Flow {
    pub value: usize,
    pub side: u64,
}

/// A flow engine: the flow from place `a` to place `b`, or none where the call is no lawful one. `marks` then says which
/// lines carry a route, and in which direction.
pub trait Engine {
    fn flow(
        sites: usize,
        lines: &[Line],
        a: usize,
        b: usize,
        marks: &mut [u8],
        work: &mut [SiteWork],
    ) -> Option<Flow>
        ensures { Answer sites lines.now a b marks.old marks.new work.old work.new result };
}
