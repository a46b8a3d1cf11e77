//! What can be read, type by type.

mod bool_;
mod byte_slice;
mod enums;
mod floats;
mod primitives;
mod result;
mod str;

pub use enums::known_or;
