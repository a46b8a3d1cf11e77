//! Structs `Dive`.

ghost use Rattle.quay.specs.Dive as spec;
ghost use Rattle.std.specs.Prelude.{◌≡◌};
ghost use Rattle.quay.specs.Dive.{dive_shape};

use crate::gear::Gear;
use planus::errors::ErrorKind;
use planus::{Plain, PlainField, SliceWithStartOffset, Stride, put_fields, read_fields};

/// A struct of 56 bytes.
#[derive(Clone, Copy, Debug, PartialEq)]
pub struct Dive {
    pub day: u64,
    pub diver: u8,
    pub depths: [i16; 3],
    pub gear: Gear,
    pub seconds: u32,
    pub is_cold: bool,
    pub pull: f32,
    pub marks: [Gear; 2],
    pub place: f64,
    pub cracks: u16,
    pub left: Gear,
    pub right: Gear,
    pub tied: Gear,
    pub lent: Gear,
    pub raised: Gear,
}

impl Plain for Dive {
    ghost ALIGNMENT = { 8 };

    ghost SIZE = { 56 };

    ghost shape = { dive_shape };

    const ALIGNMENT: usize = 8;

    const SIZE: usize = 56;

    fn put(&self, bytes: &mut [u8]) {
        let (bytes_1, bytes) = bytes.split_at_mut(40);
        self.part_1().put(bytes_1);
        let (bytes_2, _) = bytes.split_at_mut(16);
        self.part_2().put(bytes_2);
    }

    fn read(buffer: SliceWithStartOffset<'_>, offset: usize) -> Result<Dive, ErrorKind> {
        let part_1 = &DivePart1::read(buffer, offset)?;
        let part_2 = &DivePart2::read(buffer, offset + 40)?;
        Ok(Dive::of_parts(part_1, part_2))
    }
}

impl Stride for Dive {
    type Stands = Dive;
}

impl PlainField for Dive {}

impl Dive {
    fn part_1(&self) -> DivePart1
        ensures { result ≡ spec.dive_part_1 self.now }
    {
        DivePart1 {
            day: self.day,
            diver: self.diver,
            depths: self.depths,
            gear: self.gear,
            seconds: self.seconds,
            is_cold: self.is_cold,
            pull: self.pull,
            marks: self.marks,
        }
    }

    fn part_2(&self) -> DivePart2
        ensures { result ≡ spec.dive_part_2 self.now }
    {
        DivePart2 {
            place: self.place,
            cracks: self.cracks,
            left: self.left,
            right: self.right,
            tied: self.tied,
            lent: self.lent,
            raised: self.raised,
        }
    }

    fn of_parts(part_1: &DivePart1, part_2: &DivePart2) -> Dive
        ensures { result ≡ spec.dive_of_parts part_1.now part_2.now }
    {
        Dive {
            day: part_1.day,
            diver: part_1.diver,
            depths: part_1.depths,
            gear: part_1.gear,
            seconds: part_1.seconds,
            is_cold: part_1.is_cold,
            pull: part_1.pull,
            marks: part_1.marks,
            place: part_2.place,
            cracks: part_2.cracks,
            left: part_2.left,
            right: part_2.right,
            tied: part_2.tied,
            lent: part_2.lent,
            raised: part_2.raised,
        }
    }
}

#[derive(Clone, Copy)]
struct DivePart1 {
    day: u64,
    diver: u8,
    depths: [i16; 3],
    gear: Gear,
    seconds: u32,
    is_cold: bool,
    pull: f32,
    marks: [Gear; 2],
}

impl Plain for DivePart1 {
    ghost ALIGNMENT = { 8 };

    ghost SIZE = { 40 };

    ghost shape = { spec.dive_part_1_shape };

    const ALIGNMENT: usize = 8;

    const SIZE: usize = 40;

    fn put(&self, bytes: &mut [u8]) {
        put_fields!(self, bytes; day: 8, diver: 1, _: 1, depths: [6], gear: 1, _: 3, seconds: 4,
            is_cold: 1, _: 3, pull: 4, marks: [2], _: 6);
    }

    fn read(buffer: SliceWithStartOffset<'_>, offset: usize) -> Result<DivePart1, ErrorKind> {
        read_fields!(DivePart1, buffer, offset; day, diver: 8, depths: [10], gear: 16, seconds: 20,
            is_cold: 24, pull: 28, marks: [32])
    }
}

#[derive(Clone, Copy)]
struct DivePart2 {
    place: f64,
    cracks: u16,
    left: Gear,
    right: Gear,
    tied: Gear,
    lent: Gear,
    raised: Gear,
}

impl Plain for DivePart2 {
    ghost ALIGNMENT = { 8 };

    ghost SIZE = { 16 };

    ghost shape = { spec.dive_part_2_shape };

    const ALIGNMENT: usize = 8;

    const SIZE: usize = 16;

    fn put(&self, bytes: &mut [u8]) {
        put_fields!(self, bytes; place: 8, cracks: 2, left: 1, right: 1, tied: 1, lent: 1,
            raised: 1, _: 1);
    }

    fn read(buffer: SliceWithStartOffset<'_>, offset: usize) -> Result<DivePart2, ErrorKind> {
        read_fields!(DivePart2, buffer, offset; place, cracks: 8, left: 10, right: 11, tied: 12,
            lent: 13, raised: 14)
    }
}
