//! Residual arcs: a search over the tight ones, a push along its tree, and the raise of potentials.
#![tactic(auto)]

pub mod arcs;
pub mod chains;
pub mod graph;
pub mod marks;
pub mod prices;
pub mod push;
pub mod search;
