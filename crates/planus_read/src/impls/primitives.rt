//! Numbers.

ghost use Rattle.planus_read.specs.Shapes.{u8_shape, u16_shape, u32_shape, u64_shape};
ghost use Rattle.planus_read.specs.Shapes.{i8_shape, i16_shape, i32_shape, i64_shape};

use crate::errors::ErrorKind;
use crate::plain::{Plain, PlainTotal};
use crate::slice_helpers::SliceWithStartOffset;
use crate::traits::Stride;

impl Plain for u8 {
    ghost ALIGNMENT = { 1 };

    ghost SIZE = { 1 };

    ghost shape = { u8_shape };

    const ALIGNMENT: usize = 1;

    const SIZE: usize = 1;

    #[inline]
    fn put(&self, bytes: &mut [u8]) {
        bytes.copy_from_slice(&self.to_le_bytes());
    }

    #[inline]
    fn read(buffer: SliceWithStartOffset<'_>, offset: usize) -> Result<u8, ErrorKind> {
        let bytes = buffer.unchecked_advance_as_array::<1>(offset);
        Ok(u8::from_le_bytes(*bytes.as_array()))
    }
}

impl Stride for u8 {
    type Stands = u8;
}

impl PlainTotal for u8 {
    ghost never_fails = { λ S f e broken. broken };
}

impl Plain for u16 {
    ghost ALIGNMENT = { 2 };

    ghost SIZE = { 2 };

    ghost shape = { u16_shape };

    const ALIGNMENT: usize = 2;

    const SIZE: usize = 2;

    #[inline]
    fn put(&self, bytes: &mut [u8]) {
        bytes.copy_from_slice(&self.to_le_bytes());
    }

    #[inline]
    fn read(buffer: SliceWithStartOffset<'_>, offset: usize) -> Result<u16, ErrorKind> {
        let bytes = buffer.unchecked_advance_as_array::<2>(offset);
        Ok(u16::from_le_bytes(*bytes.as_array()))
    }
}

impl Stride for u16 {
    type Stands = u16;
}

impl PlainTotal for u16 {
    ghost never_fails = { λ S f e broken. broken };
}

impl Plain for u32 {
    ghost ALIGNMENT = { 4 };

    ghost SIZE = { 4 };

    ghost shape = { u32_shape };

    const ALIGNMENT: usize = 4;

    const SIZE: usize = 4;

    #[inline]
    fn put(&self, bytes: &mut [u8]) {
        bytes.copy_from_slice(&self.to_le_bytes());
    }

    #[inline]
    fn read(buffer: SliceWithStartOffset<'_>, offset: usize) -> Result<u32, ErrorKind> {
        let bytes = buffer.unchecked_advance_as_array::<4>(offset);
        Ok(u32::from_le_bytes(*bytes.as_array()))
    }
}

impl Stride for u32 {
    type Stands = u32;
}

impl PlainTotal for u32 {
    ghost never_fails = { λ S f e broken. broken };
}

impl Plain for u64 {
    ghost ALIGNMENT = { 8 };

    ghost SIZE = { 8 };

    ghost shape = { u64_shape };

    const ALIGNMENT: usize = 8;

    const SIZE: usize = 8;

    #[inline]
    fn put(&self, bytes: &mut [u8]) {
        bytes.copy_from_slice(&self.to_le_bytes());
    }

    #[inline]
    fn read(buffer: SliceWithStartOffset<'_>, offset: usize) -> Result<u64, ErrorKind> {
        let bytes = buffer.unchecked_advance_as_array::<8>(offset);
        Ok(u64::from_le_bytes(*bytes.as_array()))
    }
}

impl Stride for u64 {
    type Stands = u64;
}

impl PlainTotal for u64 {
    ghost never_fails = { λ S f e broken. broken };
}

impl Plain for i8 {
    ghost ALIGNMENT = { 1 };

    ghost SIZE = { 1 };

    ghost shape = { i8_shape };

    const ALIGNMENT: usize = 1;

    const SIZE: usize = 1;

    #[inline]
    fn put(&self, bytes: &mut [u8]) {
        bytes.copy_from_slice(&self.to_le_bytes());
    }

    #[inline]
    fn read(buffer: SliceWithStartOffset<'_>, offset: usize) -> Result<i8, ErrorKind> {
        let bytes = buffer.unchecked_advance_as_array::<1>(offset);
        Ok(i8::from_le_bytes(*bytes.as_array()))
    }
}

impl Stride for i8 {
    type Stands = i8;
}

impl PlainTotal for i8 {
    ghost never_fails = { λ S f e broken. broken };
}

impl Plain for i16 {
    ghost ALIGNMENT = { 2 };

    ghost SIZE = { 2 };

    ghost shape = { i16_shape };

    const ALIGNMENT: usize = 2;

    const SIZE: usize = 2;

    #[inline]
    fn put(&self, bytes: &mut [u8]) {
        bytes.copy_from_slice(&self.to_le_bytes());
    }

    #[inline]
    fn read(buffer: SliceWithStartOffset<'_>, offset: usize) -> Result<i16, ErrorKind> {
        let bytes = buffer.unchecked_advance_as_array::<2>(offset);
        Ok(i16::from_le_bytes(*bytes.as_array()))
    }
}

impl Stride for i16 {
    type Stands = i16;
}

impl PlainTotal for i16 {
    ghost never_fails = { λ S f e broken. broken };
}

impl Plain for i32 {
    ghost ALIGNMENT = { 4 };

    ghost SIZE = { 4 };

    ghost shape = { i32_shape };

    const ALIGNMENT: usize = 4;

    const SIZE: usize = 4;

    #[inline]
    fn put(&self, bytes: &mut [u8]) {
        bytes.copy_from_slice(&self.to_le_bytes());
    }

    #[inline]
    fn read(buffer: SliceWithStartOffset<'_>, offset: usize) -> Result<i32, ErrorKind> {
        let bytes = buffer.unchecked_advance_as_array::<4>(offset);
        Ok(i32::from_le_bytes(*bytes.as_array()))
    }
}

impl Stride for i32 {
    type Stands = i32;
}

impl PlainTotal for i32 {
    ghost never_fails = { λ S f e broken. broken };
}

impl Plain for i64 {
    ghost ALIGNMENT = { 8 };

    ghost SIZE = { 8 };

    ghost shape = { i64_shape };

    const ALIGNMENT: usize = 8;

    const SIZE: usize = 8;

    #[inline]
    fn put(&self, bytes: &mut [u8]) {
        bytes.copy_from_slice(&self.to_le_bytes());
    }

    #[inline]
    fn read(buffer: SliceWithStartOffset<'_>, offset: usize) -> Result<i64, ErrorKind> {
        let bytes = buffer.unchecked_advance_as_array::<8>(offset);
        Ok(i64::from_le_bytes(*bytes.as_array()))
    }
}

impl Stride for i64 {
    type Stands = i64;
}

impl PlainTotal for i64 {
    ghost never_fails = { λ S f e broken. broken };
}
