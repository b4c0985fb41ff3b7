//! A desk keeps a line book and the tickets of its bookings, so that every release that it makes is accepted.

#![tactic(auto)]

mod desk;
mod pass;
mod passes;

pub use desk::Desk;
pub use pass::Pass;
