ghost use Rattle.std.specs.Prelude.{◌≡◌, ◌+◌};
ghost use Rattle.netfile.specs.Headers.{header_in};

use crate::records::number_of;

/// The bytes of the header, before which no part starts.
pub const HEADER_BYTES: usize = 14;

/// Where a part of the file starts, and how many bytes it has.
#[derive(Clone, Copy)]
pub struct Extent {
    pub start: u16,
    pub size: u16,
}

impl Extent {
    /// The first byte past the part. The sum of two 16-bit numbers is taken in a wider type, since it can pass 65,535.
    pub fn end(self) -> usize
        ensures { result ≡ self.start + self.size }
    {
        usize::from(self.start) + usize::from(self.size)
    }
}

/// The header's two pairs.
#[derive(Clone, Copy)]
pub struct Header {
    pub sites: Extent,
    pub lines: Extent,
}

// The readers of bytes are functions and no `From`: each has a contract of its own, which a conversion would hide in a member.
impl Header {
    pub fn read(bytes: &[u8; HEADER_BYTES]) -> Header
        ensures { result ≡ header_in bytes.now }
    {
        let [_, _, _, _, _, _, a0, a1, b0, b1, c0, c1, d0, d1] = *bytes;
        Header {
            sites: Extent {
                start: number_of(a0, a1),
                size: number_of(b0, b1),
            },
            lines: Extent {
                start: number_of(c0, c1),
                size: number_of(d0, d1),
            },
        }
    }
}
