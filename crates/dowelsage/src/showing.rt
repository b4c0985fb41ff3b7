//! The routes of a booking, as the book shows them.

ghost use Rattle.std.specs.Prelude.{◌≡◌, ℕ, List, length};
ghost use Rattle.std.specs.Iterator.{Drains};
ghost use Rattle.replies.specs.Listed.{HoldsRoutes};

use crate::session::Session;
use network::Engine;
use replies::{RouteRow, Routes};

// How many routes an iterator gives: what the count means is proved here, and what the list holds one function further.
fn count_given(walk: Routes<'_>) -> usize
    ensures { (routes : _) × Drains ⟦<Routes<'static> as Iterator>⟧.next_gives walk.entry routes × (result ≡ length routes) }
{
    walk.count()
}

// How many routes a showing wrote.
fn count_routes(shown: &[u16]) -> usize
    ensures { (routes : List (List ℕ)) × HoldsRoutes shown.now routes × (result ≡ length routes) }
{
    count_given(Routes(shown))
}

impl<E> Session<'_, E> {
    // Prints the routes that a showing wrote.
    fn print_routes(&self, first: u16, shown: &[u16]) -> anyhow::Result<()> {
        for numbers in Routes(shown) {
            let row = RouteRow {
                first,
                numbers,
                lines: self.desk.book().lines(),
                sites: self.desk.book().sites(),
            };
            println!(self.rt; "{row}")?;
        }
        Ok(())
    }
}

impl<E: Engine> Session<'_, E> {
    /// Shows a booking of the desk, under a heading.
    pub fn show(&self, number: u16, heading: &str) -> anyhow::Result<()> {
        let Some(pass) = self.desk.pass(number) else {
            println!(self.rt; "no ticket {number}")?;
            return Ok(());
        };
        // lent to the book, whose calls allocate nothing
        let mut list = [0u16; 1024];
        let written = self.desk.book().show(&pass.ticket, &mut list);
        self.reply(written, |written| {
            let shown = list.get(..written).unwrap_or_default();
            let routes = count_routes(shown);
            println!(self.rt; "{heading} {number}: {routes} routes")?;
            self.print_routes(pass.first, shown)
        })
    }
}
