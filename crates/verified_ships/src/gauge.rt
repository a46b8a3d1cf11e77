//! Structs `Gauge`.

ghost use Rattle.verified_ships.specs.Gauge.{gauge_shape};

use planus::errors::ErrorKind;
use planus::{
    Plain, PlainField, PlainTotal, SliceWithStartOffset, Stride, put_fields, read_fields,
};

/// What a tide gauge shows.
#[derive(Clone, Copy, Debug, PartialEq)]
pub struct Gauge {
    pub depth: i32,
}

impl Plain for Gauge {
    ghost ALIGNMENT = { 4 };

    ghost SIZE = { 4 };

    ghost shape = { gauge_shape };

    const ALIGNMENT: usize = 4;

    const SIZE: usize = 4;

    fn put(&self, bytes: &mut [u8]) {
        put_fields!(self, bytes; depth: 4);
    }

    fn read(buffer: SliceWithStartOffset<'_>, offset: usize) -> Result<Gauge, ErrorKind> {
        read_fields!(Gauge, buffer, offset; depth)
    }
}

impl Stride for Gauge {
    type Stands = Gauge;
}

impl PlainField for Gauge {}

impl PlainTotal for Gauge {
    ghost never_fails = { λ S f e broken. broken };
}
