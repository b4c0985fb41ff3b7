//! A session: what every command works on, from its beginning to its end.

use desk::Desk;
use network::Engine;

/// A desk, and where its replies are printed.
#[derive(Drop)]
pub struct Session<'a, E> {
    pub rt: &'a HostRuntime,
    pub desk: &'a mut Desk<E>,
}

impl<E: Engine> Session<'_, E> {
    /// Opens the file that was named, if one was, answers the input, and releases what still stands.
    pub fn work(&mut self, file: Option<&str>) -> anyhow::Result<()> {
        if let Some(path) = file {
            self.open_at_start(path)?;
        }
        self.serve()?;
        self.release_all()
    }

    // Releases what still stands, and says so.
    fn release_all(&mut self) -> anyhow::Result<()> {
        'release: while let Some(number) = self.desk.release_next() {
            println!(self.rt; "released {number}")?;
        }
        Ok(())
    }
}
