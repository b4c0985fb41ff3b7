#![tactic(auto)]

mod engine;
pub mod laws;
mod line;
mod network;
mod pair;
pub mod side;
mod site;

pub use engine::{Engine, Flow, SiteWork};
pub use line::{Line, LineState, all_join};
pub use network::{MOST_LINES, MOST_SITES, Network};
pub use pair::Pair;
pub use site::Site;
