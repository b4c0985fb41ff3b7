//! Builds the tree of a network with both engines.

use crate::networks::Network;
use anyhow::Context;
use cuttree::{Tree, build};
use engines::{Push, ShortestRoute};

/// The trees of one network, built with either engine.
#[derive(Clone, Copy)]
pub struct Trees {
    pub shortest: Tree,
    pub push: Tree,
}

pub fn grow(net: &Network) -> anyhow::Result<Trees> {
    let sites = net.sites.len();
    Ok(Trees {
        shortest: build::<ShortestRoute>(sites, &net.lines).context("no tree by shortest routes")?,
        push: build::<Push>(sites, &net.lines).context("no tree by pushes")?,
    })
}
