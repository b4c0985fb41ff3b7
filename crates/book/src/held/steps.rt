//! The steps of the calls on a book.

ghost use Rattle.std.specs.Prelude.{◌≡◌, ◌≤◌, not, length, vec_len};
ghost use Rattle.book.specs.Calls.{k_out, Opened, Booked, Showed, GroupsListed, Started};
ghost use Rattle.book.specs.Plans.{StandsAt, Placed, Chosen, Prepared};

use super::Book;
use crate::fault::Fault;
use crate::standing::Standing;
use crate::tables::{Stretch, find_row, hold, lay, name_places, tell};
use crate::ticket::Ticket;
use crate::tree::tree_of;
use netfile::{NetworkFile, find};
use network::{Engine, MOST_LINES, Network, Pair};
use routes::{MOST_NUMBERS, Marking, take_routes};

/// How many bookings a book accepts.
const LAST_NUMBER: u16 = 65535;

/// What needs no engine.
impl<E> Book<E> {
    /// The work of a showing.
    pub(super) fn copy_out(&self, ticket: &Ticket, list: &mut [u16]) -> Result<usize, Fault>
        ensures { Showed self.now ticket.now list.old list.new result }
    {
        let stretch = self.standing_of(ticket).ok_or(Fault::NoSuchBooking)?;
        let from = stretch.from;
        let length = stretch.length;
        if list.len() < length {
            return Err(Fault::ShortList);
        }
        let end = from + length;
        list[0..length].copy_from_slice(&self.shown[from..end]);
        Ok(length)
    }

    /// The work of a group list.
    pub(super) fn list_groups(&self, k: u32, list: &mut [u16]) -> Result<usize, Fault>
        ensures { GroupsListed self.now k list.old list.new result }
    {
        if !is_level(k) {
            return Err(Fault::LevelOutOfRange);
        }
        if list.len() < self.sites.len() {
            return Err(Fault::ShortList);
        }
        let count = self.tree.groups(k, list).unwrap();
        name_places(&self.sites, list);
        Ok(count)
    }

    /// Where the booking of a ticket stands; none where the ticket is not one of this book.
    pub(super) fn standing_of(&self, ticket: &Ticket) -> Option<Stretch>
        ensures { StandsAt self.now ticket.now result }
    {
        if ticket.mark != self.mark {
            return None;
        }
        find_row(&self.standing, ticket.number)
    }

    /// The places of two different sites.
    pub(super) fn places(&self, first: u16, second: u16) -> Result<Pair<'_>, Fault>
        ensures { Placed self.now first second result }
    {
        let a = find(&self.sites, first).ok_or(Fault::NoSuchSite(first))?;
        let b = find(&self.sites, second).ok_or(Fault::NoSuchSite(second))?;
        if first == second {
            return Err(Fault::SameSite);
        }
        let net = Network {
            sites: self.sites.len(),
            lines: &self.lines,
        };
        Ok(Pair { net, a, b })
    }

    /// The ticket of a number.
    fn ticket(&self, number: u16) -> Ticket
        ensures { (result.mark ≡ self.now.mark) × (result.number ≡ number) }
    {
        Ticket {
            mark: self.mark,
            number,
        }
    }
}

/// What asks the engine.
impl<E: Engine> Book<E> {
    /// The work of an opening.
    pub(super) fn begin(&mut self, bytes: &[u8], mark: u32) -> Result<(), Fault>
        ensures { Opened self.old bytes.now mark self.new result }
    {
        if !self.sites.is_empty() {
            return Err(Fault::AlreadyOpen);
        }
        let file = NetworkFile::open(bytes)?;
        self.lay_out(&file, mark);
        Ok(())
    }

    /// Lays out the network of a file in a book that holds none.
    fn lay_out(&mut self, file: &NetworkFile<'_>, mark: u32)
        requires { vec_len self.old.sites ≡ 0 }
        ensures { Started file.now.bytes.now mark self.new }
    {
        lay(&mut self.sites, file.site_count(), |place| file.site(place));
        lay(
            &mut self.lines,
            file.line_count(),
            |position| file.line(position),
        );
        self.mark = mark;
        self.tree = tree_of::<E>(&self.sites, &self.lines);
    }

    /// The work of a booking; its three numbers are those of the public call.
    pub(super) fn enter(&mut self, first: u16, second: u16, k: u32) -> Result<Ticket, Fault>
        ensures { Booked self.old first second k self.new result }
    {
        // fixed room, since no call allocates
        let mut list = [0u16; MOST_NUMBERS];
        let length = self.plan(first, second, k, &mut list)?;
        let listed = &list[0..length];
        tell(&mut self.shown, &self.lines, listed);
        let number = self.count + 1;
        self.standing.push_reserved(Standing {
            number,
            held: length - k as usize,
            length,
        });
        self.count = number;
        hold(&mut self.lines, listed, number);
        self.tree = tree_of::<E>(&self.sites, &self.lines);
        Ok(self.ticket(number))
    }

    /// What a booking takes: its routes, written into the list as counts and positions; the three numbers are those of the call.
    fn plan(
        &self,
        first: u16,
        second: u16,
        k: u32,
        list: &mut [u16; MOST_NUMBERS],
    ) -> Result<usize, Fault>
        ensures { Prepared self.now first second k list.new result }
    {
        let pair = self.places(first, second)?;
        if !is_level(k) {
            return Err(Fault::LevelOutOfRange);
        }
        if self.count >= LAST_NUMBER {
            return Err(Fault::NumbersSpent);
        }
        choose::<E>(&pair, k as usize, list)
    }
}

/// Whether a level can be asked for.
fn is_level(k: u32) -> bool
    ensures { result ≡ not (k_out k) }
{
    (1..=512).contains(&k)
}

/// Chooses `k` separate routes between two places, or says by level and side why there are too few.
fn choose<E: Engine>(
    pair: &Pair<'_>,
    k: usize,
    list: &mut [u16; MOST_NUMBERS],
) -> Result<usize, Fault>
    requires { k ≤ 512 }
    ensures { Chosen pair.now.net.sites pair.now.net.lines.now pair.now.a pair.now.b k list.new result }
{
    // fixed room, since no call allocates
    let mut marks = [0u8; MOST_LINES];
    let flow = pair.flow::<E>(&mut marks);
    if flow.value < k {
        return Err(Fault::TooFewRoutes(flow));
    }
    let marking = Marking {
        sites: pair.net.sites,
        lines: pair.net.lines,
        marks: &marks,
        a: pair.a,
        b: pair.b,
        value: flow.value,
    };
    Ok(take_routes(&marking, k, list).unwrap())
}
