//! Large tests, against plain, slow programs, and without memory.
#![tactic(auto)]

#[cfg(test)]
mod tests;
