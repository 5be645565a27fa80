// The shape of a graph, and the most marked nodes on one of its paths.
#![tactic(auto)]

mod height;
pub mod laws;
mod naming;
pub mod rows;
pub mod shape;
pub mod survey;
mod views;
