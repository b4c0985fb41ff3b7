ghost use Rattle.std.specs.Prelude.{◌≡◌, IfOk};
ghost use Rattle.netfile.specs.Layout.{line_count};
ghost use Rattle.netfile.specs.Search.{lowest_where};
ghost use Rattle.netfile.specs.Meaning.{fault_in, joins_two, wrong_ends, ends_fault, first_fault};

use crate::faults::NetworkFault;
use crate::numbered::{Numbered, find};
use crate::parts::Parts;
use crate::record_checks::check_records;
use crate::records::LineRecord;

/// All checks, in their order.
#[tactic(auto, unfolding(crate::specs::Meaning::first_fault))]
pub fn check_network(bytes: &[u8]) -> Result<Parts<'_>, NetworkFault>
    ensures fault { fault_in result ≡ first_fault bytes.now }
    ensures lent { IfOk result (λ p. p.bytes.now ≡ bytes.now) }
{
    let parts = check_records(bytes)?;
    check_ends(&parts)?;
    Ok(parts)
}

/// Each line joins two different sites of the file.
#[tactic(auto, using(crate::proofs::PartFaults::line_within), unfolding(crate::specs::Meaning::ends_fault))]
fn check_ends(parts: &Parts<'_>) -> Result<(), NetworkFault>
    ensures { fault_in result ≡ ends_fault parts.now.bytes.now }
{
    match first_unjoined(parts) {
        Some(j) => Err(NetworkFault::Ends(parts.lines.place_of(j))),
        None => Ok(()),
    }
}

/// The first line record that does not join two different sites of the file.
fn first_unjoined(parts: &Parts<'_>) -> Option<usize>
    ensures { result ≡ lowest_where (wrong_ends parts.now.bytes.now) (line_count parts.now.bytes.now) }
{
    parts.lines.records.iter().position(|record| !joins_two(&parts.sites, LineRecord::read(record)))
}

fn joins_two<T: Numbered>(sites: &T, line: LineRecord) -> bool
    ensures { result ≡ joins_two (T.numbers sites.now) line.first_named line.second_named }
{
    let first = line.first_named;
    let second = line.second_named;
    find(sites, first).is_some() && find(sites, second).is_some() && first != second
}
