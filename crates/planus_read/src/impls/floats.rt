//! Floats, as their bits. A NaN that is read has no payload.

ghost use Rattle.std.specs.Prelude.{◌≡◌, to_bits};
ghost use lib.Ieee.{binary32, binary64};
ghost use Rattle.planus_read.specs.Floats.{FloatFits};
ghost use Rattle.planus_read.specs.Shapes.{f32_shape, f64_shape};

use crate::errors::ErrorKind;
use crate::plain::{Plain, PlainTotal};
use crate::slice_helpers::SliceWithStartOffset;
use crate::traits::Stride;
use std::num::{
    f32_from_bits_with_nan, f32_to_bits_with_nan, f64_from_bits_with_nan, f64_to_bits_with_nan,
};

#[inline]
fn f32_bits(x: f32) -> u32
    ensures bits { result ≡ to_bits binary32 x }
    ensures fits { FloatFits binary32 x }
{
    f32_to_bits_with_nan(x)
}

#[inline]
fn f64_bits(x: f64) -> u64
    ensures bits { result ≡ to_bits binary64 x }
    ensures fits { FloatFits binary64 x }
{
    f64_to_bits_with_nan(x)
}

impl Plain for f32 {
    ghost ALIGNMENT = { 4 };

    ghost SIZE = { 4 };

    ghost shape = { f32_shape };

    const ALIGNMENT: usize = 4;

    const SIZE: usize = 4;

    #[inline]
    fn put(&self, bytes: &mut [u8]) {
        f32_bits(*self).put(bytes);
    }

    #[inline]
    fn read(buffer: SliceWithStartOffset<'_>, offset: usize) -> Result<f32, ErrorKind> {
        let bits = <u32 as Plain>::read(buffer, offset)?;
        Ok(f32_from_bits_with_nan(bits))
    }
}

impl Stride for f32 {
    type Stands = f32;
}

impl PlainTotal for f32 {
    ghost never_fails = { λ S f e broken. broken };
}

impl Plain for f64 {
    ghost ALIGNMENT = { 8 };

    ghost SIZE = { 8 };

    ghost shape = { f64_shape };

    const ALIGNMENT: usize = 8;

    const SIZE: usize = 8;

    #[inline]
    fn put(&self, bytes: &mut [u8]) {
        f64_bits(*self).put(bytes);
    }

    #[inline]
    fn read(buffer: SliceWithStartOffset<'_>, offset: usize) -> Result<f64, ErrorKind> {
        let bits = <u64 as Plain>::read(buffer, offset)?;
        Ok(f64_from_bits_with_nan(bits))
    }
}

impl Stride for f64 {
    type Stands = f64;
}

impl PlainTotal for f64 {
    ghost never_fails = { λ S f e broken. broken };
}
