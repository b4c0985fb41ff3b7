//! The calls on a book.

ghost use Rattle.std.specs.Prelude.{◌≡◌, true, [], is_ok, IfOk};
ghost use Rattle.book.specs.Calls.{sites_of, lines_of, rows_of, shown_of, Opened, Booked, Released, Showed, LevelAsked, CutAsked, GroupsListed};
ghost use Rattle.book.specs.Ledger.{started};
ghost use Rattle.book.specs.Runs.{Lawful, BookedByLaw, ShowedByLaw, ListedByLaw};

use super::Book;
use crate::fault::{Cut, Fault};
use crate::tables::{cut_out, free_all};
use crate::ticket::{Denied, Ticket};
use crate::tree::tree_of;
use cuttree::Tree;
use network::{Engine, Line, MOST_LINES, MOST_SITES, Site};
use routes::MOST_NUMBERS;
use std::alloc::{AllocError, Global};
use std::marker::PhantomData;

/// What needs no engine.
impl<E> Book<E> {
    /// A book that holds no network yet, with all the memory that its calls will ever need.
    pub fn new(heap: Global) -> Result<Book<E>, AllocError>
        ensures { IfOk result (λ b. (sites_of b ≡ []) × (lines_of b ≡ []) × (rows_of b ≡ []) × (shown_of b ≡ []) × (b.mark ≡ 0) × (b.count ≡ 0)) }
    {
        let sites = Vec::with_capacity(heap, MOST_SITES)?;
        let lines = Vec::with_capacity(heap, MOST_LINES)?;
        let standing = Vec::with_capacity(heap, MOST_LINES)?;
        let shown = Vec::with_capacity(heap, MOST_NUMBERS)?;
        Ok(Book {
            sites,
            lines,
            standing,
            shown,
            mark: 0,
            count: 0,
            tree: Tree::empty(),
            engine: PhantomData,
        })
    }

    /// The sites of the network, by place.
    pub fn sites(&self) -> &[Site]
        ensures { result.now ≡ sites_of self.now }
    {
        &self.sites
    }

    /// The lines of the network, by position, as they are now.
    pub fn lines(&self) -> &[Line]
        ensures { result.now ≡ lines_of self.now }
    {
        &self.lines
    }

    /// Writes the routes of a booking to the front of the list, each as its count of lines and then their numbers, and
    /// answers how many numbers were written.
    pub fn show(&self, ticket: &Ticket, list: &mut [u16]) -> Result<usize, Fault>
        ensures showed { Showed self.now ticket.now list.old list.new result }
        ensures lawful { ShowedByLaw self.now ticket.now list.old list.new result }
    {
        self.copy_out(ticket, list)
    }

    /// The level of two sites, from the tree.
    pub fn level(&self, first: u16, second: u16) -> Result<usize, Fault>
        ensures { LevelAsked self.now first second result }
    {
        let pair = self.places(first, second)?;
        Ok(self.tree.level(pair.a, pair.b).unwrap())
    }

    /// Writes for each site in order the number of the first site in its group at level `k`, and answers how many
    /// groups there are.
    pub fn groups(&self, k: u32, list: &mut [u16]) -> Result<usize, Fault>
        ensures listed { GroupsListed self.now k list.old list.new result }
        ensures lawful { ListedByLaw self.now k list.old list.new result }
    {
        self.list_groups(k, list)
    }
}

/// What asks the engine.
impl<E: Engine> Book<E> {
    /// Opens the network of a file in a book that holds none, under a mark.
    pub fn open(&mut self, bytes: &[u8], mark: u32) -> Result<(), Fault>
        ensures opened { Opened self.old bytes.now mark self.new result }
        ensures lawful { is_ok result ≡ true → Lawful self.new (started bytes.now mark) }
    {
        self.begin(bytes, mark)
    }

    /// Books `k` separate routes of free lines between two sites, or none.
    pub fn book(&mut self, first: u16, second: u16, k: u32) -> Result<Ticket, Fault>
        ensures booked { Booked self.old first second k self.new result }
        ensures lawful { BookedByLaw self.old first second k result }
    {
        self.enter(first, second, k)
    }

    /// Ends the booking of a ticket; a denied release hands the ticket back.
    pub fn release(&mut self, ticket: Ticket) -> Result<(), Denied>
        ensures { Released self.old ticket self.new result }
    {
        let number = ticket.number;
        let Some(stretch) = self.standing_of(&ticket) else {
            return Err(Denied {
                fault: Fault::NoSuchBooking,
                ticket,
            });
        };
        cut_out(&mut self.shown, stretch.from, stretch.length);
        let _ = self.standing.remove(stretch.row);
        free_all(&mut self.lines, number);
        self.tree = tree_of::<E>(&self.sites, &self.lines);
        ticket.spend();
        Ok(())
    }

    /// The level of two sites, a side that shows it, and how many sites are in that side.
    pub fn cut(&self, first: u16, second: u16) -> Result<Cut, Fault>
        ensures { CutAsked self.now first second result }
    {
        let pair = self.places(first, second)?;
        // fixed room, since no call allocates
        let flow = pair.flow::<E>(&mut [0; MOST_LINES]);
        Ok(flow.into())
    }
}
