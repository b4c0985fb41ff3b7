//! Routes that are booked and released so many times.

ghost use Rattle.std.specs.Prelude.{◌≡◌};
ghost use Rattle.capi.specs.Calls.{Idle, BookedOften, level_between, bookings_level_number};
ghost use Rattle.capi.specs.Refusals.{number_told};

use crate::refusal::Refusal;
use crate::task::Task;
use desk::Desk;
use network::Engine;

/// Books `k` routes between two sites and releases them, so many times, and answers the level that the two have then. It
/// writes no list.
#[derive(Clone, Copy)]
pub struct Bookings {
    pub first: u16,
    pub second: u16,
    pub k: u32,
    pub turns: u16,
}

impl Task for Bookings {
    type Entry = u16;

    type Answer = usize;

    ghost check = { λ task ss ls _. bookings_level_number ss ls task.first task.second task.k task.turns };

    ghost done = { λ task ss ls _ _ level. level ≡ level_between ss ls task.first task.second };

    fn run<E: Engine>(&self, desk: &mut Desk<E>, _list: &mut [u16]) -> Result<usize, Refusal> {
        self.book_often(desk)?;
        let level = desk.book().level(self.first, self.second)?;
        Ok(level)
    }
}

impl Bookings {
    // Books what is wanted and releases it again, so many times or until it is denied.
    fn book_often<E: Engine>(&self, desk: &mut Desk<E>) -> Result<(), Refusal>
        requires { Idle desk.old 0 }
        ensures { BookedOften desk.old self.now.first self.now.second self.now.k self.now.turns desk.new (number_told result) }
    {
        for turn in 0..self.turns {
            desk.book_routes(self.first, self.second, self.k)?;
            desk.release_next();
        }
        Ok(())
    }
}
