//! Look-up by key in vectors that are sorted by it.
#![tactic(auto)]

mod checked;
mod key_of;
pub mod laws;
mod probe;
mod read_items;
mod search;
mod sorted;
#[cfg(test)]
mod tests;
mod text_key;
mod verified;

pub use key_of::KeyOf;
pub use probe::Probe;
pub use read_items::ReadItems;
pub use search::find;
pub use sorted::in_key_order;
pub use text_key::TextKey;
