//! Work on the passes of a desk, lent alone.

ghost use Rattle.std.specs.Prelude.{◌≡◌, ◌<◌, ◌≤◌, [], ◌∷◌, ◌++◌, IfOk, vec_len, vec_capacity, ◌==◌, find, position};
ghost use Rattle.std.specs.Option.{option_copied};
ghost use Rattle.desk.specs.Passes.{number_of, pass_with};

use crate::pass::Pass;
use book::Ticket;
use network::MOST_LINES;
use std::alloc::{AllocError, Global};

/// Room for the passes of as many bookings as can stand: each holds a line, and a network has at most 512.
pub(crate) fn room_for_all(heap: Global) -> Result<Vec<Pass>, AllocError>
    ensures { IfOk result (λ v. (v.items ≡ []) × (512 ≤ vec_capacity v)) }
{
    Vec::with_capacity(heap, MOST_LINES)
}

/// Puts a ticket after all others.
pub(crate) fn keep(passes: &mut Vec<Pass>, ticket: Ticket, first: u16)
    requires { vec_len passes.old < vec_capacity passes.old }
    ensures items { passes.new.items ≡ passes.old.items ++ pass_with ticket first ∷ [] }
    ensures capacity { vec_capacity passes.new ≡ vec_capacity passes.old }
{
    passes.push_reserved(Pass { ticket, first });
}

// Whether the pass is that of a booking's number.
fn is_for(pass: &Pass, number: u16) -> bool
    ensures { result ≡ (number_of pass.now == number) }
{
    pass.ticket.number() == number
}

/// The place of the pass with a booking's number, by which it is moved out; it is looked at by the function below. They are gone
/// through, since nothing says here that the numbers rise.
pub(crate) fn place_of(passes: &[Pass], number: u16) -> Option<usize>
    ensures { result ≡ position (λ p. number_of p == number) passes.now }
{
    passes.iter().position(|pass| is_for(pass, number))
}

/// The pass with a booking's number.
pub(crate) fn pass_of(passes: &[Pass], number: u16) -> Option<&Pass>
    ensures { option_copied result ≡ find (λ p. number_of p == number) passes.now }
{
    passes.iter().find(|pass| is_for(pass, number))
}
