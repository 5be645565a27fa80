// What judging a table starts from.
#![tactic(auto)]

mod adding;
mod entries;
mod listing;
mod marks;

pub use crate::entries::first_entries;
pub use crate::listing::{first_terms, last_term};
pub use crate::marks::unsafe_marks;
