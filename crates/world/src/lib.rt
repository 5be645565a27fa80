// What trials are made on.
#![tactic(auto)]

mod attempt;
mod fault;
mod world;

pub use crate::attempt::{Attempt, Triple};
pub use crate::fault::{In, Lacking, within};
pub use crate::world::World;
