//! Enum `Signal`.

ghost use Rattle.std.specs.Prelude.{◌≡◌};
ghost use Rattle.std.specs.Ordering.{int_eq};
ghost use Rattle.planus.specs.Printed.{variant_in};
ghost use Rattle.harbour.specs.Signal.{signal_is};
ghost use Rattle.harbour.specs.Signal as signal_numbers;
ghost use Rattle.harbour.specs.Signal.{signal_shape};

use planus::errors::{ErrorKind, UnknownEnumTagKind};
use planus::{Exact, Plain, PlainField, SliceWithStartOffset, Stride};

/// A flag of the code of signals.
#[derive(Clone, Copy, Debug, PartialEq)]
pub enum Signal {
    Alfa = 0,
    Bravo = 1,
    Charlie = 2,
    Delta = 3,
    Echo = 4,
    Foxtrot = 5,
    Golf = 6,
    Hotel = 7,
    India = 8,
    Juliett = 9,
    Kilo = 10,
    Lima = 11,
    Mike = 12,
    November = 13,
    Oscar = 14,
    Papa = 15,
    Quebec = 16,
    Romeo = 17,
    Sierra = 18,
    Tango = 19,
    Uniform = 20,
    Victor = 21,
    Whiskey = 22,
    Xray = 23,
    Yankee = 24,
    Zulu = 25,
}

impl Signal {
    /// Returns its number.
    pub fn number(self) -> i8
        ensures { result ≡ (signal_is self).number }
    {
        match self {
            Signal::Alfa => 0,
            Signal::Bravo => 1,
            Signal::Charlie => 2,
            Signal::Delta => 3,
            Signal::Echo => 4,
            Signal::Foxtrot => 5,
            Signal::Golf => 6,
            Signal::Hotel => 7,
            Signal::India => 8,
            Signal::Juliett => 9,
            Signal::Kilo => 10,
            Signal::Lima => 11,
            Signal::Mike => 12,
            Signal::November => 13,
            Signal::Oscar => 14,
            Signal::Papa => 15,
            Signal::Quebec => 16,
            Signal::Romeo => 17,
            Signal::Sierra => 18,
            Signal::Tango => 19,
            Signal::Uniform => 20,
            Signal::Victor => 21,
            Signal::Whiskey => 22,
            Signal::Xray => 23,
            Signal::Yankee => 24,
            Signal::Zulu => 25,
        }
    }
}

impl Plain for Signal {
    ghost ALIGNMENT = { 1 };

    ghost SIZE = { 1 };

    ghost shape = { signal_shape };

    const ALIGNMENT: usize = 1;

    const SIZE: usize = 1;

    fn put(&self, bytes: &mut [u8]) {
        self.number().put(bytes);
    }

    fn read(buffer: SliceWithStartOffset<'_>, offset: usize) -> Result<Signal, ErrorKind> {
        let number = <i8 as Plain>::read(buffer, offset)?;
        match from_0(number) {
            Some(this) => Ok(this),
            None => Err(ErrorKind::UnknownEnumTag {
                source: UnknownEnumTagKind {
                    tag: number as i128,
                },
            }),
        }
    }
}

impl Stride for Signal {
    type Stands = Signal;
}

impl PlainField for Signal {}

#[tactic(auto, unfolding(crate::specs::Signal::from_0_on))]
fn from_0(number: i8) -> Option<Signal>
    ensures { result ≡ variant_in int_eq signal_numbers.from_0_on number }
{
    match number {
        0 => Some(Signal::Alfa),
        1 => Some(Signal::Bravo),
        2 => Some(Signal::Charlie),
        3 => Some(Signal::Delta),
        4 => Some(Signal::Echo),
        5 => Some(Signal::Foxtrot),
        6 => Some(Signal::Golf),
        7 => Some(Signal::Hotel),
        8 => Some(Signal::India),
        9 => Some(Signal::Juliett),
        _ => from_10(number),
    }
}

#[tactic(auto, unfolding(crate::specs::Signal::from_10_on))]
fn from_10(number: i8) -> Option<Signal>
    ensures { result ≡ variant_in int_eq signal_numbers.from_10_on number }
{
    match number {
        10 => Some(Signal::Kilo),
        11 => Some(Signal::Lima),
        12 => Some(Signal::Mike),
        13 => Some(Signal::November),
        14 => Some(Signal::Oscar),
        15 => Some(Signal::Papa),
        16 => Some(Signal::Quebec),
        17 => Some(Signal::Romeo),
        18 => Some(Signal::Sierra),
        19 => Some(Signal::Tango),
        _ => from_20(number),
    }
}

#[tactic(auto, unfolding(crate::specs::Signal::from_20_on))]
fn from_20(number: i8) -> Option<Signal>
    ensures { result ≡ variant_in int_eq signal_numbers.from_20_on number }
{
    match number {
        20 => Some(Signal::Uniform),
        21 => Some(Signal::Victor),
        22 => Some(Signal::Whiskey),
        23 => Some(Signal::Xray),
        24 => Some(Signal::Yankee),
        25 => Some(Signal::Zulu),
        _ => None,
    }
}

impl Exact for Signal {
    fn equal_is_same(this: Signal, other: Signal) {}
}
