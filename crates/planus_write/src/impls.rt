//! The types that can be written.

mod apart;
mod array;
mod box_;
mod by_ref;
mod byte_lists;
mod offset;
mod plain;
mod slice;
mod str;
mod string;
mod union_offset;
mod union_vector_offset;
mod vec;
