//! Structs `Gauge`.

ghost use Rattle.harbour.specs.Gauge.{gauge_shape};

use planus::errors::ErrorKind;
use planus::{
    Exact, Plain, PlainField, PlainTotal, SliceWithStartOffset, Stride, put_fields, read_fields,
};

/// What a tide gauge shows.
#[derive(Clone, Copy, Debug, PartialEq)]
pub struct Gauge {
    pub depth: i32,
    pub rises: bool,
}

impl Plain for Gauge {
    ghost ALIGNMENT = { 8 };

    ghost SIZE = { 8 };

    ghost shape = { gauge_shape };

    const ALIGNMENT: usize = 8;

    const SIZE: usize = 8;

    fn put(&self, bytes: &mut [u8]) {
        put_fields!(self, bytes; depth: 4, rises: 1, _: 3);
    }

    fn read(buffer: SliceWithStartOffset<'_>, offset: usize) -> Result<Gauge, ErrorKind> {
        read_fields!(Gauge, buffer, offset; depth, rises: 4)
    }
}

impl Stride for Gauge {
    type Stands = Gauge;
}

impl PlainField for Gauge {}

impl PlainTotal for Gauge {
    ghost never_fails = { λ S f e broken. broken };
}

impl Exact for Gauge {
    fn equal_is_same(this: Gauge, other: Gauge) {}
}
