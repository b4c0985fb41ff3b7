ghost use Rattle.std.specs.Prelude.{◌≡◌, ◌<◌, ◌≢◌, length, drop, IfSome, IfNone};
ghost use Rattle.network.specs.Answers.{PartedBy, Carries};
ghost use Rattle.network.specs.Lines.{Fits};
ghost use Rattle.network.specs.Cuts.{level_of};

use crate::engine::{Engine, Flow, SiteWork};
use crate::line::Line;
use crate::network::{MOST_LINES, MOST_SITES, Network};

/// Two different places of a network: what an engine is asked about.
#[derive(Clone, Copy)]
pub struct Pair<'a> {
    pub net: Network<'a>,
    pub a: usize,
    pub b: usize,
    ghost apart: { a ≢ b },
    ghost a_within: { a < net.sites },
    ghost b_within: { b < net.sites },
}

impl<'a> Pair<'a> {
    /// Two places of the network of these lines; none where that is none, or they are not two of its places.
    pub fn new(sites: usize, lines: &'a [Line], a: usize, b: usize) -> Option<Pair<'a>>
        ensures net { IfSome result (λ p. (p.net.sites ≡ sites) × (p.net.lines.now ≡ lines.now)) }
        ensures places { IfSome result (λ p. (p.a ≡ a) × (p.b ≡ b)) }
        ensures none { IfNone result (Fits sites lines.now → a < sites → b < sites → a ≢ b → ⊥) }
    {
        // asked first, so that no line is looked at for places that are no two of the network
        if a != b && a < sites && b < sites {
            let net = Network::new(sites, lines)?;
            Some(Pair { net, a, b })
        } else {
            None
        }
    }

    /// The flow from the first place to the second, as many routes as their level; the marks say which lines carry it.
    #[tactic(auto, using(crate::proofs::Duality::level_answered))]
    pub fn flow<E: Engine>(&self, marks: &mut [u8; MOST_LINES]) -> Flow
        ensures level { result.value ≡ level_of self.now.net.sites self.now.net.lines.now self.now.a self.now.b }
        ensures parted { PartedBy self.now.net.sites self.now.net.lines.now self.now.a self.now.b result.value result.side }
        ensures carried { Carries self.now.net.lines.now marks.new self.now.a self.now.b result.value }
        ensures rest { drop (length self.now.net.lines.now) marks.new ≡ drop (length self.now.net.lines.now) marks.old }
    {
        let Pair { net, a, b } = *self;
        // fixed room, since no call of an engine, a tree or a book allocates
        let mut work = [SiteWork::default(); MOST_SITES];
        E::flow(net.sites, net.lines, a, b, marks, &mut work).unwrap()
    }
}
