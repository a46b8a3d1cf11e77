//! Tests of each public call of the crates below `planus`, and of the examples of `by_hand`.
#![tactic(auto)]

#[cfg(test)]
mod tests;
