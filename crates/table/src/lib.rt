// Checked tables and what is known of their roles.
#![tactic(auto)]

pub mod check;
pub mod checked;
pub mod expression;
mod inclusions;
mod lines;
mod roles;
mod stages;
mod stated;
pub mod view;
