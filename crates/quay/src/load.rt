//! Structs `Load`.

ghost use Rattle.quay.specs.Load.{load_shape};

use crate::gear::Gear;
use planus::errors::ErrorKind;
use planus::{Plain, PlainField, SliceWithStartOffset, Stride, put_fields, read_fields};

/// A struct of 16 bytes.
#[derive(Clone, Copy, Debug, PartialEq)]
pub struct Load {
    pub pulls: [f32; 3],
    pub gear: Gear,
}

impl Plain for Load {
    ghost ALIGNMENT = { 4 };

    ghost SIZE = { 16 };

    ghost shape = { load_shape };

    const ALIGNMENT: usize = 4;

    const SIZE: usize = 16;

    fn put(&self, bytes: &mut [u8]) {
        put_fields!(self, bytes; pulls: [12], gear: 1, _: 3);
    }

    fn read(buffer: SliceWithStartOffset<'_>, offset: usize) -> Result<Load, ErrorKind> {
        read_fields!(Load, buffer, offset; [pulls], gear: 12)
    }
}

impl Stride for Load {
    type Stands = Load;
}

impl PlainField for Load {}
