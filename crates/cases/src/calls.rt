//! Calls on the worked network. What they come to follows from the law that an opening promises, whatever engine the
//! book asks and whichever routes it chooses.

ghost use Rattle.std.specs.Prelude.{◌≡◌, IfOk, IfErr, IsOkAnd};
ghost use Rattle.book.specs.declared.fault.Fault.TheVariants.{TooFewRoutes};
ghost use Rattle.book.specs.Grounds.{too_few, ground_of};
ghost use Rattle.book.specs.Calls.{Booked};
ghost use Rattle.book.specs.Runs.{BookedByLaw};
ghost use Rattle.cases.specs.File.{worked_file};
ghost use Rattle.cases.specs.Ledgers.{at_first, Going, Holding, Returned};
ghost use Rattle.cases.specs.Outcomes.{FourDenied, Happened};
ghost use Rattle.cases.specs.declared.outcome.CallFault.TheVariants.{OutOfMemory};

use crate::outcome::{CallFault, Outcome};
use book::{Book, Fault, Ticket};
use network::{Engine, Flow};
use std::alloc::Global;

/// Opens the worked network; books three routes from 10 to 20; lists the groups at level 1; releases the three; and
/// wants four, which alone is denied.
pub fn worked_calls<E: Engine>(heap: Global) -> Result<Outcome, CallFault>
    ensures happened { IfOk result Happened }
    ensures none_denied { IfErr result (λ e. e ≡ OutOfMemory) }
{
    let mut book: Book<E> = Book::new(heap)?;
    book.open(worked_bytes(), 7)?;
    Ok(once_open(&mut book)?)
}

/// The worked network as a network file: the header, four sites and five lines.
pub fn worked_bytes() -> &'static [u8]
    ensures { result.now ≡ worked_file }
{
    b"LNET\x01\x02\x0e\0\x20\0\x2e\0\x1e\0\
      \x0a\0HILL  \x14\0BAY   \x1e\0CAPE  \x28\0ISLE  \
      \x01\0\x0a\0\x14\0\x02\0\x0a\0\x14\0\x03\0\x14\0\x1e\0\x04\0\x1e\0\x0a\0\x05\0\x1e\0\x28\0"
}

fn once_open<E: Engine>(book: &mut Book<E>) -> Result<Outcome, Fault>
    requires { Going book.old at_first }
    ensures { IsOkAnd result Happened }
{
    let ticket = want(book, 3)?;
    with_three(book, ticket)
}

fn with_three<E: Engine>(book: &mut Book<E>, ticket: Ticket) -> Result<Outcome, Fault>
    requires { Holding book.old ticket }
    ensures { IsOkAnd result Happened }
{
    let mut entries = [0u16; 4];
    // While the ticket is owned no denial may leave the function.
    let listed = book.groups(1, &mut entries);
    match book.release(ticket) {
        Ok(()) => {
            let four_denied = once_returned(book);
            listed?;
            Ok(Outcome {
                entries,
                released: true,
                four_denied,
            })
        }
        // A denial that cannot be.
        Err(_denied) => unreachable!(),
    }
}

fn once_returned<E: Engine>(book: &mut Book<E>) -> Flow
    requires { Returned book.old }
    ensures { FourDenied result }
{
    match want(book, 4) {
        // A ticket that cannot be.
        Ok(_ticket) => unreachable!(),
        Err(fault) => shown_with(fault),
    }
}

/// The level and the side that come along where there are too few routes.
fn shown_with(fault: Fault) -> Flow
    requires { ground_of fault ≡ too_few }
    ensures { fault ≡ TooFewRoutes result }
{
    let Fault::TooFewRoutes(flow) = fault else {
        unreachable!()
    };
    flow
}

/// Wants `k` routes from 10 to 20.
fn want<E: Engine>(book: &mut Book<E>, k: u32) -> Result<Ticket, Fault>
    ensures booked { Booked book.old 10 20 k book.new result }
    ensures lawful { BookedByLaw book.old 10 20 k result }
{
    book.book(10, 20, k)
}
