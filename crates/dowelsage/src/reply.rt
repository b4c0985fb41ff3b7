//! Replies to what may be denied.

use crate::session::Session;
use book::Fault;
use replies::Denial;

impl<E> Session<'_, E> {
    /// Prints what a call on the book answers: a reply of its own, or the denial.
    pub fn reply<T, F: FnOnce(T) -> anyhow::Result<()> + Drop>(
        &self,
        answered: Result<T, Fault>,
        print: F,
    ) -> anyhow::Result<()>
        requires { F.IsAlwaysCallable print }
    {
        match answered {
            Ok(answer) => print(answer),
            Err(fault) => {
                let denial = Denial {
                    fault,
                    sites: self.desk.book().sites(),
                };
                println!(self.rt; "{denial}")?;
                Ok(())
            }
        }
    }
}
