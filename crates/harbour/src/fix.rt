//! Structs `Fix`.

ghost use Rattle.harbour.specs.Fix.{fix_shape};

use crate::kind::Kind;
use crate::pos::Pos;
use planus::errors::ErrorKind;
use planus::{Exact, Plain, PlainField, SliceWithStartOffset, Stride, put_fields, read_fields};

/// A struct of 24 bytes.
#[derive(Clone, Copy, Debug, PartialEq)]
pub struct Fix {
    pub when: u64,
    pub at: Pos,
    pub kind: Kind,
}

impl Plain for Fix {
    ghost ALIGNMENT = { 8 };

    ghost SIZE = { 24 };

    ghost shape = { fix_shape };

    const ALIGNMENT: usize = 8;

    const SIZE: usize = 24;

    fn put(&self, bytes: &mut [u8]) {
        put_fields!(self, bytes; when: 8, at: 12, kind: 1, _: 3);
    }

    fn read(buffer: SliceWithStartOffset<'_>, offset: usize) -> Result<Fix, ErrorKind> {
        read_fields!(Fix, buffer, offset; when, at: 8, kind: 20)
    }
}

impl Stride for Fix {
    type Stands = Fix;
}

impl PlainField for Fix {}

impl Exact for Fix {
    fn equal_is_same(this: Fix, other: Fix) {
        Pos::equal_is_same(this.at, other.at);
        Kind::equal_is_same(this.kind, other.kind);
    }
}
