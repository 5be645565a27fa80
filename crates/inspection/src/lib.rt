// The text of a table, made with nothing allocated.
#![tactic(auto)]

mod axioms;
mod lines;
pub mod report;
