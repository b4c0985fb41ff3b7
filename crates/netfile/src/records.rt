ghost use Rattle.std.specs.Prelude.{◌≡◌, ◌+◌, ◌*◌};
ghost use Rattle.netfile.specs.Layout.{site_from};
ghost use Rattle.netfile.specs.Records.{named_from};

use network::Site;

/// The bytes of a site record.
pub const SITE_BYTES: usize = 8;

/// The bytes of a line record.
pub const LINE_BYTES: usize = 6;

/// The number in two bytes, the low one first.
pub fn number_of(low: u8, high: u8) -> u16
    ensures { result ≡ low + 256 * high }
{
    u16::from_le_bytes([low, high])
}

/// What a site record says: the site's number and its call sign of six bytes.
pub fn read_site(bytes: &[u8; SITE_BYTES]) -> Site
    ensures { result ≡ site_from bytes.now 0 }
{
    let [n0, n1, c0, c1, c2, c3, c4, c5] = *bytes;
    Site {
        number: number_of(n0, n1),
        call_sign: [c0, c1, c2, c3, c4, c5],
    }
}

/// What a line record says: the line's number and the numbers of the two sites that it names.
#[derive(Clone, Copy)]
pub struct LineRecord {
    pub number: u16,
    pub first_named: u16,
    pub second_named: u16,
}

impl LineRecord {
    pub fn read(bytes: &[u8; LINE_BYTES]) -> LineRecord
        ensures { result ≡ named_from bytes.now 0 }
    {
        let [n0, n1, f0, f1, s0, s1] = *bytes;
        LineRecord {
            number: number_of(n0, n1),
            first_named: number_of(f0, f1),
            second_named: number_of(s0, s1),
        }
    }
}
