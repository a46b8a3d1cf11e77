//! Structs `Crane`.

ghost use Rattle.quay.specs.Crane.{crane_shape};

use crate::gear::Gear;
use crate::load::Load;
use planus::errors::ErrorKind;
use planus::{Plain, PlainField, SliceWithStartOffset, Stride, put_fields, read_fields};

/// A struct of 56 bytes.
#[derive(Clone, Copy, Debug, PartialEq)]
pub struct Crane {
    pub number: u16,
    pub loads: [Load; 2],
    pub spares: [Gear; 3],
    pub hours: [u64; 2],
}

impl Plain for Crane {
    ghost ALIGNMENT = { 8 };

    ghost SIZE = { 56 };

    ghost shape = { crane_shape };

    const ALIGNMENT: usize = 8;

    const SIZE: usize = 56;

    fn put(&self, bytes: &mut [u8]) {
        put_fields!(self, bytes; number: 2, _: 2, loads: [32], spares: [3], _: 1, hours: [16]);
    }

    fn read(buffer: SliceWithStartOffset<'_>, offset: usize) -> Result<Crane, ErrorKind> {
        read_fields!(Crane, buffer, offset; number, loads: [4], spares: [36], hours: [40])
    }
}

impl Stride for Crane {
    type Stands = Crane;
}

impl PlainField for Crane {}
