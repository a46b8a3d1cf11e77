//! Structs `Mark`.

ghost use Rattle.verified_ships.specs.Mark.{mark_shape};

use crate::kind::Kind;
use planus::errors::ErrorKind;
use planus::{Plain, PlainField, SliceWithStartOffset, Stride, put_fields, read_fields};

/// What is painted on a hull.
#[derive(Clone, Copy, Debug, PartialEq)]
pub struct Mark {
    pub kind: Kind,
}

impl Plain for Mark {
    ghost ALIGNMENT = { 1 };

    ghost SIZE = { 1 };

    ghost shape = { mark_shape };

    const ALIGNMENT: usize = 1;

    const SIZE: usize = 1;

    fn put(&self, bytes: &mut [u8]) {
        put_fields!(self, bytes; kind: 1);
    }

    fn read(buffer: SliceWithStartOffset<'_>, offset: usize) -> Result<Mark, ErrorKind> {
        read_fields!(Mark, buffer, offset; kind)
    }
}

impl Stride for Mark {
    type Stands = Mark;
}

impl PlainField for Mark {}
