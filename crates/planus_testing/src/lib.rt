//! Helpers of tests: assertions, [`in_builder`], [`exhaust`], plain programs and worked buffers.
#![tactic(auto)]

mod asserting;
mod builders;
mod memory;
pub mod plain;
pub mod worked_rows;

pub use asserting::{Test, check, check_bytes, check_eq, check_fails, check_prints, check_shows};
pub use builders::{check_distance, check_done, check_finish, in_builder};
pub use memory::{check_tried, exhaust, exhaust_all_but, without_memory};
