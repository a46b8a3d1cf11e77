//! What readers return, as JSON has it.
ghost use Rattle.std.specs.Prelude.{◌≡◌};
ghost use Rattle.planus_read.specs.Places.{place_bytes, place_offset};
ghost use Rattle.planus_dump.specs.Answers.{leaf_at};
ghost use Rattle.planus_dump.specs.Lines.{truth_text};
ghost use Rattle.planus_dump.specs.ReadingViews.{answer_seen};
ghost use Rattle.planus_json.specs.Trees as spec;
ghost use Rattle.planus_json.specs.inner.Scalars.{scalar_text};

use planus::Place;
use planus::errors::ErrorKind;
use planus_dump::Number;
use planus_dump::laws::readings_are_said;
use planus_dump::values::Leaf;

/// An integer.
#[derive(Clone, Copy)]
pub enum Scalar {
    Unsigned(u64),
    Signed(i64),
}

pub fn number_at(place: Place<'_>, number: Number) -> Result<Scalar, ErrorKind>
    ensures { answer_seen scalar_text result
        ≡ leaf_at (Leaf.Number number) (place_bytes place.entry) (place_offset place.entry) }
{
    match number {
        Number::U8 => Ok(Scalar::Unsigned(u64::from(place.read::<u8>()?))),
        Number::U16 => Ok(Scalar::Unsigned(u64::from(place.read::<u16>()?))),
        Number::U32 => Ok(Scalar::Unsigned(u64::from(place.read::<u32>()?))),
        Number::U64 => Ok(Scalar::Unsigned(place.read::<u64>()?)),
        Number::I8 => Ok(Scalar::Signed(i64::from(place.read::<i8>()?))),
        Number::I16 => Ok(Scalar::Signed(i64::from(place.read::<i16>()?))),
        Number::I32 => Ok(Scalar::Signed(i64::from(place.read::<i32>()?))),
        Number::I64 => Ok(Scalar::Signed(place.read::<i64>()?)),
    }
}

pub fn truth_at(place: Place<'_>) -> Result<bool, ErrorKind>
    ensures { answer_seen truth_text result
        ≡ leaf_at Leaf.Bool (place_bytes place.entry) (place_offset place.entry) }
{
    place.read::<bool>()
}

pub fn text_at<'buf>(place: Place<'buf>) -> Result<&'buf str, ErrorKind>
    ensures { answer_seen (λ text. text.now) result
        ≡ spec.text_at (place_bytes place.entry) (place_offset place.entry) }
{
    readings_are_said();
    place.read::<&'buf str>()
}

pub fn bytes_at<'buf>(place: Place<'buf>) -> Result<&'buf [u8], ErrorKind>
    ensures { answer_seen (λ content. content.now) result
        ≡ spec.bytes_at (place_bytes place.entry) (place_offset place.entry) }
{
    place.read::<&'buf [u8]>()
}
