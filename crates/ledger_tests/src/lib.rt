#![tactic(auto)]

// Tests of the ledgers: lists of calls with the answers that are due, and a long run that both answer alike.
#[cfg(test)]
mod calls;
#[cfg(test)]
mod tests;
