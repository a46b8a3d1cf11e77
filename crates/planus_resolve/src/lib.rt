//! The meaning of a flatbuffers schema: names, types, slots, layouts and defaults. Start at
//! [`resolve`].
#![tactic(auto)]

mod attribute_names;
mod attributes;
mod awaited;
mod checks;
mod defaults;
mod enums;
mod expected;
mod fault;
mod head;
mod heads;
mod integers;
mod kind;
mod lookup;
mod meaning;
mod names;
mod scalar_names;
mod scope;
mod slots;
mod statements;
mod structs;
mod tables;
mod taken;
mod unions;
mod uses;
mod waiting;
mod words;

pub use expected::Expected;
pub use fault::{Fault, FaultKind, ResolveError};
pub use head::{Head, heads as heads_of};
pub use meaning::resolve;
pub use planus_schema::{
    Base, Body, Declared, Enum, EnumValue, FieldType, Number, Scalar, Schema, Statements, Struct,
    StructField, Table, TableField, Union, UnionMember, Value, file_index,
};
