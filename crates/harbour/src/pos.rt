//! Structs `Pos`.

ghost use Rattle.harbour.specs.Pos.{pos_shape};

use planus::errors::ErrorKind;
use planus::{
    Exact, Plain, PlainField, PlainTotal, SliceWithStartOffset, Stride, put_fields, read_fields,
};

/// Where something is.
#[derive(Clone, Copy, Debug, PartialEq)]
pub struct Pos {
    pub lat: i32,
    pub lon: i32,
    pub alt: i16,
}

impl Plain for Pos {
    ghost ALIGNMENT = { 4 };

    ghost SIZE = { 12 };

    ghost shape = { pos_shape };

    const ALIGNMENT: usize = 4;

    const SIZE: usize = 12;

    fn put(&self, bytes: &mut [u8]) {
        put_fields!(self, bytes; lat: 4, lon: 4, alt: 2, _: 2);
    }

    fn read(buffer: SliceWithStartOffset<'_>, offset: usize) -> Result<Pos, ErrorKind> {
        read_fields!(Pos, buffer, offset; lat, lon: 4, alt: 8)
    }
}

impl Stride for Pos {
    type Stands = Pos;
}

impl PlainField for Pos {}

impl PlainTotal for Pos {
    ghost never_fails = { λ S f e broken. broken };
}

impl Exact for Pos {
    fn equal_is_same(this: Pos, other: Pos) {}
}
