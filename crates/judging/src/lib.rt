// Judging a table, over any ledger.
#![tactic(auto)]

mod finding;
mod judging;
mod line;
mod place;

pub use crate::finding::{Finding, Overfull};
pub use crate::judging::{bench, judge};
pub use crate::line::judgement;
