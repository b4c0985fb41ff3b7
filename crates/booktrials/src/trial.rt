//! A trial: a desk that is called, and where it is said what came of each call.

use crate::say::say;
use desk::Desk;
use network::Engine;

/// A desk that is tried, and where what came is printed. (The program's session has the same two, and prints replies.)
#[derive(Drop)]
pub struct Trial<'a, E> {
    pub rt: &'a HostRuntime,
    pub desk: &'a mut Desk<E>,
}

impl<E: Engine> Trial<'_, E> {
    /// Opens a network file, and says whether it was accepted.
    pub fn open(&mut self, call: &str, file: &[u8], mark: u32) -> anyhow::Result<()> {
        let opened = self.desk.open(file, mark);
        say(self.rt, call, opened)
    }

    /// Books k routes, and says whether they were accepted.
    pub fn book(&mut self, first: u16, second: u16, k: u32) -> anyhow::Result<()> {
        let booked = self.desk.book_routes(first, second, k);
        say(self.rt, format_args!("book {first} {second} {k}"), booked)
    }
}
