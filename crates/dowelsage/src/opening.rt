//! Network files, read and opened on the book.

use crate::session::Session;
use anyhow::anyhow;
use book::Fault;
use network::Engine;
use std::error::Error;
use std::fs::File;
use std::io::Read;
use std::{fmt, io};

// A network file has at most 8,192 bytes: one more is enough to see that a file is too long.
const READ_AT_MOST: u64 = 8193;

// A file that cannot be read, and why.
#[derive(Debug, Drop)]
struct Unreadable<'a> {
    path: &'a str,
    cause: io::Error,
}

impl fmt::Display for Unreadable<'_> {
    fn fmt<W: fmt::Write>(&self, f: &mut fmt::Formatter<W>) -> fmt::Result {
        let path = self.path;
        let cause = &self.cause;
        write!(f, "cannot read {path}: {cause}")
    }
}

impl Error for Unreadable<'_> {}

fn read_bytes(rt: &HostRuntime, path: &str) -> io::Result<Vec<u8>> {
    let mut bytes = Vec::new(rt.alloc());
    let _ = File::open(rt, path)?
        .take(READ_AT_MOST)
        .read_to_end(&mut bytes)?;
    Ok(bytes)
}

fn read_file<'a>(rt: &HostRuntime, path: &'a str) -> Result<Vec<u8>, Unreadable<'a>> {
    read_bytes(rt, path).map_err(|cause| Unreadable { path, cause })
}

impl<E> Session<'_, E> {
    // Says what the book answered to a file's bytes.
    fn reply_opened(&self, opened: Result<(), Fault>) -> anyhow::Result<()> {
        self.reply(opened, |()| {
            let sites = self.desk.book().sites().len();
            let lines = self.desk.book().lines().len();
            println!(self.rt; "opened: {sites} sites, {lines} lines")?;
            Ok(())
        })
    }
}

impl<E: Engine> Session<'_, E> {
    /// Opens the file that the command line names: without it there is nothing to do.
    pub fn open_at_start(&mut self, path: &str) -> anyhow::Result<()> {
        let bytes = read_file(self.rt, path)?;
        let opened = self.desk.open(&bytes, 0);
        self.reply_opened(opened)?;
        opened.map_err(|_| anyhow!("the network file was denied"))
    }

    /// A file that cannot be read is answered, and the program goes on.
    pub fn open_file(&mut self, path: &str, mark: u32) -> anyhow::Result<()> {
        match read_file(self.rt, path) {
            Ok(bytes) => {
                let opened = self.desk.open(&bytes, mark);
                self.reply_opened(opened)
            }
            Err(unreadable) => {
                println!(self.rt; "{unreadable}")?;
                Ok(())
            }
        }
    }
}
