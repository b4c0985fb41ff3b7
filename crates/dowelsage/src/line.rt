//! Lines of input.

ghost use Rattle.std.specs.Prelude.{◌≡◌, ◌<◌, true, length, ◌==◌, slice_index};
ghost use Rattle.dowelsage.specs.Words.{Silence};

use crate::command::{Command, NotUnderstood};
use std::str::from_utf8;

// No command is longer.
const LONGEST_LINE: usize = 1000;

// Whether a text is empty or begins with the sign of a remark.
fn is_remark(text: &[u8]) -> bool
    ensures alone { length text.now ≡ 0 → result ≡ true }
    ensures first { 0 < length text.now → result ≡ (slice_index text.now 0 == 35) }
{
    match text {
        [first, ..] => *first == b'#',
        [] => true,
    }
}

// Whether a line gets no reply: it is empty or a remark.
fn is_silent(line: &str) -> bool
    ensures { Silence line.now result }
{
    is_remark(line.trim_start().as_bytes())
}

/// The command on a line of input; none where the line gets no reply.
pub fn read_line(bytes: &[u8]) -> Result<Option<Command<'_>>, NotUnderstood<'_>> {
    if bytes.len() > LONGEST_LINE {
        return Err(NotUnderstood::TooLong);
    }
    let line = from_utf8(bytes).map_err(|_| NotUnderstood::NotUtf8)?;
    if is_silent(line) {
        return Ok(None);
    }
    Ok(Some(Command::try_from(line)?))
}
