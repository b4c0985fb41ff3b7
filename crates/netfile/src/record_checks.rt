ghost use Rattle.std.specs.Prelude.{◌≡◌, IfOk};
ghost use Rattle.netfile.specs.Layout.{numbers_of};
ghost use Rattle.netfile.specs.Meaning.{fault_in, order_fault, record_fault};

use crate::faults::RecordFault;
use crate::file_checks::check_file;
use crate::numbered::first_not_rising;
use crate::parts::{Part, Parts};

/// The checks of header and parts, and then that in the site part and in the line part each number is above the one
/// before it.
#[tactic(auto, using(crate::proofs::PartFaults::sites_order, crate::proofs::PartFaults::lines_order))]
pub fn check_records(bytes: &[u8]) -> Result<Parts<'_>, RecordFault>
    ensures fault { fault_in result ≡ record_fault bytes.now }
    ensures lent { IfOk result (λ p. p.bytes.now ≡ bytes.now) }
{
    let parts = check_file(bytes)?;
    check_order(&parts.sites)?;
    check_order(&parts.lines)?;
    Ok(parts)
}

/// The numbers of the records of one part. A `match`, as in the check of ends: the place is that of a record, which a closure
/// would have to be told.
fn check_order<const N: usize>(part: &Part<'_, N>) -> Result<(), RecordFault>
    ensures { fault_in result ≡ order_fault (numbers_of part.now.records.now) part.now.start N }
{
    match first_not_rising(part) {
        Some(i) => Err(RecordFault::NotRising(part.place_of(i))),
        None => Ok(()),
    }
}
