//! How replies are written: rows of sites, lines, sides, routes and denials, the routes of a list, and the network as
//! Graphviz reads it.

#![tactic(auto)]

mod callsign;
mod graph;
mod listed;
mod rows;

pub use graph::Graph;
pub use listed::Routes;
pub use rows::{Denial, LineRow, RouteRow, SideRow, SiteRow};
