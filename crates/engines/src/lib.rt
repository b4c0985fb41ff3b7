#![tactic(auto)]

mod hand;
mod push;
mod residual;
mod search;
mod shortest;
mod task;

pub use push::Push;
pub use shortest::ShortestRoute;
