//! The types that can be written as fields.

mod apart;
mod array;
mod box_;
mod by_ref;
mod byte_list;
mod default_value;
mod offset;
mod option;
mod plain;
mod signed_list;
mod slice;
mod str;
mod string;
mod union_offset;
mod union_vector_offset;
mod unit;
mod vec;
