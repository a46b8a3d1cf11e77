//! What can be written as a field of a table. Start with [`WriteAs`].
#![tactic(auto)]

mod default_value;
mod impls;
mod left_out;
mod plain_field;
pub mod traits;

pub use default_value::DefaultValue;
pub use left_out::LeftOut;
pub use plain_field::PlainField;
pub use traits::{
    WriteAs, WriteAsDefault, WriteAsDefaultUnionVector, WriteAsOptional, WriteAsOptionalUnion,
    WriteAsOptionalUnionVector,
};
