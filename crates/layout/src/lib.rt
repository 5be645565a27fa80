// The binary layout of a table: its sizes, its lines, and what they say.
#![tactic(auto)]

pub mod axiom;
pub mod form;
pub mod limits;
pub mod line;
pub mod reading;
pub mod refusal;
pub mod sizes;
