#![tactic(auto)]

// Tests of checking, on tables that are written out.
#[cfg(test)]
mod bytes;
#[cfg(test)]
mod refusals;
#[cfg(test)]
mod roles;
