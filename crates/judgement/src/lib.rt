// What becomes of the bytes of a table, and the line that says it.
#![tactic(auto)]

mod answer;
mod judgement;
mod laws;
mod short;
mod telling;
mod text;

pub use crate::answer::Answer;
pub use crate::judgement::{Found, Judgement, Unjudged};
pub use crate::laws::marked_lines;
pub use crate::telling::judge_table;
