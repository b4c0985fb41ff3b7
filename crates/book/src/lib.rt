#![tactic(auto)]

mod fault;
mod held;
mod listing;
mod standing;
mod tables;
mod ticket;
mod tree;

pub use fault::{Cut, Fault, Layer};
pub use held::Book;
pub use ticket::{Denied, Ticket};
