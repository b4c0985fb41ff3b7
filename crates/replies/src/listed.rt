//! The routes of a booking, as the book lists them.

ghost use Rattle.std.specs.Prelude.{length, option_map};
ghost use Rattle.std.specs.Iterator.{at_most};
ghost use Rattle.replies.specs.Listed.{GivesRoute};

/// The routes of a list, each the numbers of its lines. The list has for each route the count of its lines and then their
/// numbers; from where it holds no whole route there are none.
#[derive(Drop)]
pub struct Routes<'a>(pub &'a [u16]);

impl<'a> Iterator for Routes<'a> {
    type Item = &'a [u16];

    ghost next_gives = { λ s r t. GivesRoute s.0.now (option_map (λ route. route.now) r) t.0.now };

    ghost remaining = { λ s. at_most (length s.0.now) };

    fn next(&mut self) -> Option<&'a [u16]> {
        let (count, after) = self.0.split_first()?;
        let (route, rest) = after.split_at_checked(usize::from(*count))?;
        self.0 = rest;
        Some(route)
    }
}
