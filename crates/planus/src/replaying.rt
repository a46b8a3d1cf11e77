//! Replaying a list of steps into finished buffers.

mod faults;
mod finishes;
mod item_count;
mod layouts;
mod named_steps;
mod plain_items;
mod prepared_field;
mod run;
mod slots;
mod state;
mod steps;
mod struct_bytes;
mod table_body;
mod written;

pub use faults::{ReplayError, Why};
pub use finishes::{Finished, StepPlace};
pub use run::replay;
pub use steps::{Field, FieldValue, Step};
