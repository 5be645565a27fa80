// What judging a table finds, and tables that have been judged.
#![tactic(auto)]

mod edges;
mod judged;
mod judgement;
mod laws;
mod verdict;

pub use crate::edges::read_edges;
pub use crate::judged::Judged;
pub use crate::judgement::{Judgement, OVERFULL};
pub use crate::laws::{marked_verdicts, verdict_is_one};
pub use crate::verdict::Verdict;
