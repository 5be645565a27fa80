// What a ledger is: facts about terms, held entry by entry, and a batch added to any ledger.
#![tactic(auto)]

mod batch;
mod fact;
mod laws;
mod ledger;

pub use crate::batch::add_all;
pub use crate::fact::{ASSERTION, Added, Entry, Fact, Full};
pub use crate::laws::{adding_stands, distinctness_stands, holding_stands, sameness_stands};
pub use crate::ledger::Ledger;
