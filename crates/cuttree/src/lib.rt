#![tactic(auto)]

mod builder;
mod groups;
pub mod laws;
mod level;
mod pending;
mod tree;

pub use builder::build;
pub use tree::{Node, Tree};
