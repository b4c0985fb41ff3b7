//! Routes out of an engine's marks.

#![tactic(auto)]

mod arcs;
mod fitness;
mod marking;
mod taking;
mod walking;

pub use marking::Marking;
pub use taking::{MOST_NUMBERS, take_routes};
