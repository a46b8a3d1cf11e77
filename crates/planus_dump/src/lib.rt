//! Prints the tables, fields and values of a buffer, line by line, by a schema that is a value.
//! Start with [`dump`] and [`Schema`]. Another printer of the same values has [`readings`].
#![tactic(auto)]

mod dumps;
mod end;
pub mod enums;
mod fixed;
pub mod floats;
pub mod laws;
mod line;
mod line_sink;
mod line_writer;
mod lines;
mod printed;
pub mod readings;
mod runs;
mod schemas;
mod sink_error;
pub mod unions;
mod validate;
pub mod values;
mod view_error;
mod views;
mod walk;
mod writing;

pub use dumps::{DumpError, dump};
pub use end::End;
pub use fixed::fixed_size;
pub use line::Bits;
pub use printed::push_hex;
pub use runs::{DumpRunError, dump_run};
pub use schemas::{
    EnumSchema, FieldSchema, Fixed, Item, Kind, Number, Schema, StructFieldSchema, StructSchema,
    TableSchema, VariantKind, VariantSchema,
};
pub use validate::{is_good_schema, is_name_byte};
pub use view_error::ViewError;
pub use views::{Seen, view};
pub use walk::{field_path, stride_of, variant_with, wrong_tag};
pub use writing::{WriteError, write_out};
