// Graphs of at most 48 nodes, and whether a path leads from one node to another.
#![tactic(auto)]

pub mod graph;
pub mod reach;
