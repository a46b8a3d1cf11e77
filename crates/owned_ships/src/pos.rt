//! Structs `Pos`.

ghost use Rattle.owned_ships.specs.Pos.{pos_shape};

use planus::errors::ErrorKind;
use planus::{
    Plain, PlainField, PlainTotal, SliceWithStartOffset, Stride, put_fields, read_fields,
};

/// Where something is.
#[derive(Clone, Copy, Debug, PartialEq)]
pub struct Pos {
    pub lat: i32,
    pub lon: i32,
}

impl Plain for Pos {
    ghost ALIGNMENT = { 4 };

    ghost SIZE = { 8 };

    ghost shape = { pos_shape };

    const ALIGNMENT: usize = 4;

    const SIZE: usize = 8;

    fn put(&self, bytes: &mut [u8]) {
        put_fields!(self, bytes; lat: 4, lon: 4);
    }

    fn read(buffer: SliceWithStartOffset<'_>, offset: usize) -> Result<Pos, ErrorKind> {
        read_fields!(Pos, buffer, offset; lat, lon: 4)
    }
}

impl Stride for Pos {
    type Stands = Pos;
}

impl PlainField for Pos {}

impl PlainTotal for Pos {
    ghost never_fails = { λ S f e broken. broken };
}
