ghost use Rattle.std.specs.Prelude.{◌≡◌, ◌+◌, ◌*◌, ◌/◌, ◌^◌, ◌<◌, ◌≤◌, length};
ghost use Rattle.netfile.specs.Layout.{IsRecordSize, records_from, numbers_of, site_offset, line_offset, site_records, line_records};

use crate::header::Extent;
use crate::numbered::Numbered;
use crate::records::{LINE_BYTES, SITE_BYTES, number_of};

/// A part of the file: records of `N` bytes that follow one another, each with its number in its first two bytes.
#[derive(Clone, Copy)]
pub struct Part<'a, const N: usize> {
    pub start: usize,
    pub records: &'a [[u8; N]],
    ghost sized: { IsRecordSize N },
    ghost within: { start + N * length records.now < 2 ^ 64 },
}

impl<'a, const N: usize> Part<'a, N> {
    /// The records in an extent of the file. The size is asked for here and in two checks, where no part is made yet that says it.
    #[tactic(auto, using(crate::proofs::Chunks::records_are_chunks))]
    pub fn read(bytes: &'a [u8], extent: Extent) -> Part<'a, N>
        requires sized { IsRecordSize N }
        requires within { extent.start + extent.size ≤ length bytes.now }
        ensures start { result.start ≡ extent.start }
        ensures records { result.records.now ≡ records_from bytes.now extent.start N (extent.size / N) }
    {
        let start = usize::from(extent.start);
        let (records, _) = bytes[start..extent.end()].as_chunks();
        Part { start, records }
    }

    /// The first byte of the record at a position.
    pub fn place_of(&self, i: usize) -> usize
        requires { i < length self.now.records.now }
        ensures { result ≡ self.now.start + N * i }
    {
        self.start + N * i
    }
}

impl<const N: usize> Numbered for Part<'_, N> {
    ghost numbers = { λ p. numbers_of p.records.now };

    fn count(&self) -> usize {
        self.records.len()
    }

    fn number(&self, i: usize) -> u16 {
        // A closure for `map_or` is proved without what the part says of its records' size.
        match self.records.get(i) {
            Some(record) => number_of(record[0], record[1]),
            None => 0,
        }
    }
}

/// The two parts of a file whose header puts them within its bytes.
#[derive(Clone, Copy)]
pub struct Parts<'a> {
    pub bytes: &'a [u8],
    pub sites: Part<'a, SITE_BYTES>,
    pub lines: Part<'a, LINE_BYTES>,
    ghost sites_start: { sites.start ≡ site_offset bytes.now },
    ghost lines_start: { lines.start ≡ line_offset bytes.now },
    ghost sites_read: { sites.records.now ≡ site_records bytes.now },
    ghost lines_read: { lines.records.now ≡ line_records bytes.now },
}
