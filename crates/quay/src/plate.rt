//! Structs `Plate`.

ghost use Rattle.quay.specs.Plate.{plate_shape};

use planus::errors::ErrorKind;
use planus::{
    Plain, PlainField, PlainTotal, SliceWithStartOffset, Stride, put_fields, read_fields,
};

/// A struct of 5 bytes.
#[derive(Clone, Copy, Debug, PartialEq)]
pub struct Plate {
    pub letters: [u8; 4],
    pub is_lit: bool,
}

impl Plain for Plate {
    ghost ALIGNMENT = { 1 };

    ghost SIZE = { 5 };

    ghost shape = { plate_shape };

    const ALIGNMENT: usize = 1;

    const SIZE: usize = 5;

    fn put(&self, bytes: &mut [u8]) {
        put_fields!(self, bytes; letters: [4], is_lit: 1);
    }

    fn read(buffer: SliceWithStartOffset<'_>, offset: usize) -> Result<Plate, ErrorKind> {
        read_fields!(Plate, buffer, offset; [letters], is_lit: 4)
    }
}

impl Stride for Plate {
    type Stands = Plate;
}

impl PlainField for Plate {}

impl PlainTotal for Plate {
    ghost never_fails = { λ S f e broken. broken };
}
