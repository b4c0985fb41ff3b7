//! Call signs in text: six bytes of any kind, blanks at the end for the most part.

ghost use Rattle.std.specs.Prelude.{◌≡◌, ℕ, ◌-◌, ◌<◌, ◌≤◌, false, ◌&&◌, length, take, ◌==◌, nat_le, nat_lt, slice_index};

use std::fmt;

/// Whether a byte is printable ASCII; the blank is.
pub(crate) fn is_printable(byte: u8) -> bool
    ensures { result ≡ (nat_le 32 byte && nat_lt byte 127) }
{
    // as its contract says it, where a range of characters would have to be turned into numbers
    32 <= byte && byte < 127
}

/// The call sign without the blanks at its end.
pub(crate) fn unpadded(sign: &[u8]) -> &[u8]
    ensures front { result.now ≡ take (length result.now) sign.now }
    ensures blanks { (i : ℕ) → length result.now ≤ i → i < length sign.now → slice_index sign.now i ≡ 32 }
    ensures last { 0 < length result.now → (slice_index sign.now (length result.now - 1) == 32) ≡ false }
{
    let size = sign
        .iter()
        .rposition(|byte| *byte != b' ')
        .map_or(0, |last| last + 1);
    &sign[..size]
}

/// A byte as it stands in a row of text: `\xNN` where it is no printable ASCII.
#[derive(Clone, Copy)]
struct Printed(u8);

impl fmt::Display for Printed {
    fn fmt<W: fmt::Write>(&self, f: &mut fmt::Formatter<W>) -> fmt::Result {
        let byte = self.0;
        if is_printable(byte) {
            // a byte is a character of its own number
            let shown = byte as char;
            write!(f, "{shown}")
        } else {
            write!(f, "\\x{byte:02X}")
        }
    }
}

/// A byte as it stands in a label between quotes, so that it is shown as in a row of text. Graphviz reads a quote, a
/// backslash and an ampersand as signs of its own.
#[derive(Clone, Copy)]
struct Quoted(u8);

impl fmt::Display for Quoted {
    fn fmt<W: fmt::Write>(&self, f: &mut fmt::Formatter<W>) -> fmt::Result {
        match self.0 {
            b'"' => write!(f, "\\\""),
            b'\\' => write!(f, "\\\\"),
            b'&' => write!(f, "&amp;"),
            byte => {
                if !is_printable(byte) {
                    write!(f, "\\")?;
                }
                let shown = Printed(byte);
                write!(f, "{shown}")
            }
        }
    }
}

/// A call sign as it stands in a row of text.
#[derive(Clone, Copy)]
pub(crate) struct CallSign<'a>(pub(crate) &'a [u8]);

impl fmt::Display for CallSign<'_> {
    fn fmt<W: fmt::Write>(&self, f: &mut fmt::Formatter<W>) -> fmt::Result {
        for byte in self.0 {
            let shown = Printed(*byte);
            write!(f, "{shown}")?;
        }
        Ok(())
    }
}

/// A call sign as it stands in a label, below the site's number and without the blanks at its end.
#[derive(Clone, Copy)]
pub(crate) struct LabelSign<'a>(pub(crate) &'a [u8]);

impl fmt::Display for LabelSign<'_> {
    fn fmt<W: fmt::Write>(&self, f: &mut fmt::Formatter<W>) -> fmt::Result {
        let sign = unpadded(self.0);
        if !sign.is_empty() {
            write!(f, "\\n")?;
        }
        for byte in sign {
            let shown = Quoted(*byte);
            write!(f, "{shown}")?;
        }
        Ok(())
    }
}
