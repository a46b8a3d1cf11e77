//! What a JSON value means by a schema: the steps by which `planus::replay` writes it. [`steps_of`]
//! returns them, [`binary`] the buffer of a text. `specs/Tables` says which steps a value means, and
//! which fault is its first.
#![tactic(auto)]

macro_rules! or_return {
    ($read:expr) => {
        match $read {
            Ok(value) => value,
            Err(error) => return Err(error),
        }
    };
}

mod defaults;
mod fields;
mod floats;
mod keys;
mod lookup;
mod numbers;
mod object;
mod pack_error;
mod pack_fault;
mod pack_options;
mod packing;
mod plain;
mod rules;
mod tables;
mod unions;
mod values;

pub use pack_error::PackError;
pub use pack_fault::PackFault;
pub use pack_options::PackOptions;
pub use packing::binary;
pub use tables::steps_of;
