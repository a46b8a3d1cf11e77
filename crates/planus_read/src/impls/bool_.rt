//! Bools: one byte, 0 or 1; any other is true.

ghost use Rattle.planus_read.specs.Shapes.{bool_shape};

use crate::errors::ErrorKind;
use crate::plain::{Plain, PlainTotal};
use crate::slice_helpers::SliceWithStartOffset;
use crate::traits::Stride;

impl Plain for bool {
    ghost ALIGNMENT = { 1 };

    ghost SIZE = { 1 };

    ghost shape = { bool_shape };

    const ALIGNMENT: usize = 1;

    const SIZE: usize = 1;

    #[inline]
    fn put(&self, bytes: &mut [u8]) {
        bytes.copy_from_slice(&[u8::from(*self)]);
    }

    #[inline]
    fn read(buffer: SliceWithStartOffset<'_>, offset: usize) -> Result<bool, ErrorKind> {
        let [byte] = *buffer.unchecked_advance_as_array::<1>(offset).as_array();
        Ok(byte != 0)
    }
}

impl Stride for bool {
    type Stands = bool;
}

impl PlainTotal for bool {
    ghost never_fails = { λ S f e broken. broken };
}
