ghost use Rattle.std.specs.Prelude.{◌≡◌, ◌≤◌, length, IfOk, None};
ghost use Rattle.std.specs.List.{slice_get};
ghost use Rattle.netfile.specs.Layout.{site_records, line_records};
ghost use Rattle.netfile.specs.Records.{line_from};
ghost use Rattle.netfile.specs.Search.{position_of};
ghost use Rattle.netfile.specs.Meaning.{fault_in, first_fault, sites_in, lines_in, or_zero};
ghost use Rattle.netfile.specs.Networks.{Judged};

use crate::faults::NetworkFault;
use crate::network_checks::check_network;
use crate::numbered::{Numbered, find};
use crate::parts::{Part, Parts};
use crate::records::{LINE_BYTES, LineRecord, SITE_BYTES, read_site};
use network::{Line, LineState, Site};

/// A network file that has passed all checks: the caller's bytes, lent. Nothing is copied out of them before it is
/// asked for.
#[derive(Clone, Copy)]
pub struct NetworkFile<'a> {
    bytes: &'a [u8],
    sites: Part<'a, SITE_BYTES>,
    lines: Part<'a, LINE_BYTES>,
    ghost accepted: { first_fault bytes.now ≡ None },
    ghost sites_read: { sites.records.now ≡ site_records bytes.now },
    ghost lines_read: { lines.records.now ≡ line_records bytes.now },
}

impl<'a> NetworkFile<'a> {
    /// Checks the bytes; the answer is the file, or the first fault in checking order.
    pub fn open(bytes: &'a [u8]) -> Result<NetworkFile<'a>, NetworkFault>
        ensures fault { fault_in result ≡ first_fault bytes.now }
        ensures judged { Judged bytes.now (fault_in result) }
        ensures lent { IfOk result (λ f. f.bytes.now ≡ bytes.now) }
    {
        let Parts { sites, lines, .. } = check_network(bytes)?;
        Ok(NetworkFile {
            bytes,
            sites,
            lines,
        })
    }

    #[tactic(auto, using(crate::proofs::Chunks::length_records, crate::proofs::Tables::sites_length))]
    pub fn site_count(&self) -> usize
        ensures { result ≡ length (sites_in self.now.bytes.now) }
    {
        self.sites.records.len()
    }

    #[tactic(auto, using(crate::proofs::Chunks::length_records, crate::proofs::Tables::lines_length))]
    pub fn line_count(&self) -> usize
        ensures { result ≡ length (lines_in self.now.bytes.now) }
    {
        self.lines.records.len()
    }

    /// The site at a place; none past the last.
    pub fn site(&self, place: usize) -> Option<Site>
        ensures { result ≡ slice_get (sites_in self.now.bytes.now) place }
    {
        self.sites.records.get(place).map(read_site)
    }

    /// The line at a position, with the places of its two sites; none past the last.
    pub fn line(&self, position: usize) -> Option<Line>
        ensures { result ≡ slice_get (lines_in self.now.bytes.now) position }
    {
        let record = self.lines.records.get(position)?;
        Some(line_between(&self.sites, LineRecord::read(record)))
    }
}

/// The free line that a record makes between the places of the sites that it names.
fn line_between<T: Numbered>(sites: &T, named: LineRecord) -> Line
    requires { length (T.numbers sites.now) ≤ 64 }
    ensures { result ≡ line_from (T.numbers sites.now) named }
{
    Line {
        number: named.number,
        first: place_in(sites, named.first_named),
        second: place_in(sites, named.second_named),
        state: LineState::Free,
    }
}

/// The place of the site of a number, of at most 64 places; an accepted file has it for every named site.
fn place_in<T: Numbered>(sites: &T, number: u16) -> u8
    requires { length (T.numbers sites.now) ≤ 64 }
    ensures { result ≡ or_zero (position_of (T.numbers sites.now) number) }
{
    find(sites, number)
        .and_then(|place| u8::try_from(place).ok())
        .unwrap_or(0)
}
