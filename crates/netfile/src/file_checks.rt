ghost use Rattle.std.specs.Prelude.{◌≡◌, ◌/◌, length, take, IfOk};
ghost use Rattle.netfile.specs.Headers.{header_in};
ghost use Rattle.netfile.specs.Layout.{IsRecordSize, records_from};
ghost use Rattle.netfile.specs.Search.{or_else};
ghost use Rattle.netfile.specs.Meaning.{fault_in, unless, size_fault, signature_fault};
ghost use Rattle.netfile.specs.Meaning.{bounds_fault, parts_fault, length_fault, site_length_fault, line_length_fault, file_fault};

use crate::faults::FileFault;
use crate::header::{Extent, HEADER_BYTES, Header};
use crate::parts::{Part, Parts};
use crate::records::{LINE_BYTES, SITE_BYTES};
use network::{MOST_LINES, MOST_SITES};

/// The most bytes that a file has.
const MOST_BYTES: usize = 8192;

/// The checks of header and parts, in their order. That the parts are those of these bytes is told at each step, which makes or
/// passes them anew.
#[tactic(auto, using(crate::proofs::Head::in_head), unfolding(crate::specs::Meaning::file_fault))]
pub fn check_file(bytes: &[u8]) -> Result<Parts<'_>, FileFault>
    ensures fault { fault_in result ≡ file_fault bytes.now }
    ensures lent { IfOk result (λ p. p.bytes.now ≡ bytes.now) }
{
    let first = check_size(bytes)?;
    check_signature(first)?;
    deny_unless(first[4] == 1, FileFault::Edition)?;
    deny_unless(first[5] == 2, FileFault::PairCount)?;
    let header = Header::read(first);
    let parts = check_parts(bytes, header)?;
    check_lengths(header)?;
    Ok(parts)
}

/// The bytes of the header, of a file that is neither too short nor too long.
fn check_size(bytes: &[u8]) -> Result<&[u8; HEADER_BYTES], FileFault>
    ensures fault { fault_in result ≡ size_fault bytes.now }
    ensures header { IfOk result (λ h. h.now ≡ take 14 bytes.now) }
{
    match bytes.first_chunk() {
        Some(header) if bytes.len() <= MOST_BYTES => Ok(header),
        _ => Err(FileFault::Size),
    }
}

fn check_signature(header: &[u8; HEADER_BYTES]) -> Result<(), FileFault>
    ensures { fault_in result ≡ signature_fault header.now }
{
    match header {
        [b'L', b'N', b'E', b'T', ..] => Ok(()),
        _ => Err(FileFault::Signature),
    }
}

/// Each part starts past the header and past the part before it, and ends within the file.
fn check_parts(bytes: &[u8], header: Header) -> Result<Parts<'_>, FileFault>
    requires { header ≡ header_in bytes.now }
    ensures fault { fault_in result ≡ parts_fault bytes.now }
    ensures lent { IfOk result (λ p. p.bytes.now ≡ bytes.now) }
{
    let sites = check_part::<SITE_BYTES>(bytes, 6, HEADER_BYTES, header.sites)?;
    let lines = check_part::<LINE_BYTES>(bytes, 10, header.sites.end(), header.lines)?;
    Ok(Parts {
        bytes,
        sites,
        lines,
    })
}

/// One part, whose pair stands at `place`.
fn check_part<const N: usize>(
    bytes: &[u8],
    place: usize,
    earliest: usize,
    part: Extent,
) -> Result<Part<'_, N>, FileFault>
    requires { IsRecordSize N }
    ensures fault { fault_in result ≡ bounds_fault place earliest part.start part.size (length bytes.now) }
    ensures start { IfOk result (λ p. p.start ≡ part.start) }
    ensures records { IfOk result (λ p. p.records.now ≡ records_from bytes.now part.start N (part.size / N)) }
{
    let within = earliest <= usize::from(part.start) && part.end() <= bytes.len();
    deny_unless(within, FileFault::PartBounds(place))?;
    Ok(Part::read(bytes, part))
}

/// Each part has as many whole records as it may have.
fn check_lengths(header: Header) -> Result<(), FileFault>
    ensures { fault_in result ≡ or_else (site_length_fault header.sites.size) (line_length_fault header.lines.size) }
{
    check_length::<SITE_BYTES>(8, header.sites.size, 1, MOST_SITES)?;
    check_length::<LINE_BYTES>(12, header.lines.size, 0, MOST_LINES)
}

/// The length of one part, which stands at `place`: that of `fewest` to `most` records of `N` bytes.
fn check_length<const N: usize>(
    place: usize,
    size: u16,
    fewest: usize,
    most: usize,
) -> Result<(), FileFault>
    requires { IsRecordSize N }
    ensures { fault_in result ≡ length_fault place N fewest most size }
{
    let size = usize::from(size);
    let records = size / N;
    let whole = fewest <= records && records <= most && size % N == 0;
    deny_unless(whole, FileFault::PartLength(place))
}

/// The fault, unless the test holds.
fn deny_unless(holds: bool, fault: FileFault) -> Result<(), FileFault>
    ensures { fault_in result ≡ unless holds fault }
{
    if holds { Ok(()) } else { Err(fault) }
}
