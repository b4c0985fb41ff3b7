//! The lines of the input, answered one by one.

use crate::line::read_line;
use crate::session::Session;
use network::Engine;
use std::io::{BufRead, BufReader};
use std::ops::ControlFlow;

impl<E: Engine> Session<'_, E> {
    // Answers the bytes of one line; a break where the planner is done.
    fn answer_line(&mut self, bytes: &[u8]) -> anyhow::Result<ControlFlow<()>> {
        match read_line(bytes) {
            Ok(Some(command)) => return self.answer(command),
            Ok(None) => {}
            Err(reason) => println!(self.rt; "{reason}")?,
        }
        Ok(ControlFlow::Continue(()))
    }

    /// Answers each line of the input until it ends or the planner quits. All lines are read into one list: an iterator over
    /// them would ask for memory at each line, and the session could end where none is left.
    pub fn serve(&mut self) -> anyhow::Result<()> {
        let rt = self.rt;
        let mut input = BufReader::new(rt.alloc(), rt.stdin())?;
        let mut bytes = Vec::new(rt.alloc());
        for _ in 0..u64::MAX {
            bytes.clear();
            if input.read_until(b'\n', &mut bytes)? == 0 {
                break;
            }
            let line = bytes.strip_suffix(b"\n").unwrap_or(&bytes);
            if self.answer_line(line)?.is_break() {
                break;
            }
        }
        Ok(())
    }
}
