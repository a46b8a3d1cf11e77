//! A schema of flatbuffers as it is resolved: its declarations, with slots, distances and numbers, and
//! the rules by which these are laid out; the order of a table's fields in code, and the names that code
//! has. It stands on nothing. Start at `schema`.
#![tactic(auto)]

mod keys;
mod measure;
mod names;
mod number;
mod place;
mod plan;
mod scalar;
mod schema;
mod scope;
mod slots;
mod spelling;

pub use keys::{have_key, is_key};
pub use measure::{Measure, measure_of};
pub use names::{file_index, has_name, is_first};
pub use number::{Number, following, integer, is_hexadecimal, without_sign};
pub use place::{Layout, greater, is_alignment, next_multiple};
pub use plan::{Line, Plan, is_borrowed};
pub use scalar::Scalar;
pub use schema::{
    Base, Body, Declared, Enum, EnumValue, FieldType, Schema, Statements, Struct, StructField,
    Table, TableField, Union, UnionMember, Value,
};
pub use scope::{
    RESERVED, are_apart, are_apart_from, are_names, are_scopes, is_among, is_held, is_one_of,
    is_reserved,
};
pub use slots::{is_union, slot_of, slots_taken, width};
pub use spelling::{add, allowed, capital, capitals, last_word, snake, value_spelled};
