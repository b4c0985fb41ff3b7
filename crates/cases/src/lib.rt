#![tactic(auto)]

mod calls;
mod lines;
mod outcome;
mod table;

pub use calls::{worked_bytes, worked_calls};
pub use lines::{across, crossing};
pub use outcome::{CallFault, Outcome};
pub use table::worked_lines;
