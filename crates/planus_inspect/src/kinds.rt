//! Types as a dump reads them.
ghost use Rattle.std.specs.Prelude.{◌≡◌};
ghost use Rattle.planus_inspect.specs.Shown as spec;

use planus_dump::{Fixed, Item, Kind, Number};
use planus_schema::{Base, FieldType, Scalar};

pub(crate) fn scalar_number(scalar: Scalar) -> Number
    ensures { result ≡ spec.scalar_number scalar }
{
    match scalar {
        Scalar::Bool | Scalar::UByte => Number::U8,
        Scalar::Byte => Number::I8,
        Scalar::Short => Number::I16,
        Scalar::UShort => Number::U16,
        Scalar::Int => Number::I32,
        Scalar::UInt | Scalar::Float => Number::U32,
        Scalar::Long => Number::I64,
        Scalar::ULong | Scalar::Double => Number::U64,
    }
}

fn scalar_fixed(scalar: Scalar) -> Fixed
    ensures { result ≡ spec.scalar_fixed scalar }
{
    match scalar {
        Scalar::Bool => Fixed::Bool,
        Scalar::Float => Fixed::F32,
        Scalar::Double => Fixed::F64,
        scalar => Fixed::Number(scalar_number(scalar)),
    }
}

fn scalar_kind(scalar: Scalar) -> Kind
    ensures { result ≡ spec.scalar_kind scalar }
{
    match scalar {
        Scalar::Bool => Kind::One(Item::Bool),
        Scalar::Float => Kind::Fixed(Fixed::F32),
        Scalar::Double => Kind::Fixed(Fixed::F64),
        scalar => Kind::One(Item::Number(scalar_number(scalar))),
    }
}

fn scalar_list(scalar: Scalar) -> Kind
    ensures { result ≡ spec.scalar_list scalar }
{
    match scalar {
        Scalar::Bool => Kind::List(Item::Bool),
        Scalar::UByte => Kind::Bytes,
        Scalar::Float => Kind::FixedList(Fixed::F32),
        Scalar::Double => Kind::FixedList(Fixed::F64),
        scalar => Kind::List(Item::Number(scalar_number(scalar))),
    }
}

pub(crate) fn base_fixed(base: Base) -> Fixed
    ensures { result ≡ spec.base_fixed base }
{
    match base {
        Base::Scalar(scalar) => scalar_fixed(scalar),
        Base::Enum(index) => Fixed::Enum(index),
        Base::Struct(index) => Fixed::Struct(index),
        Base::Text | Base::Table(_) | Base::Union(_) => Fixed::Bool,
    }
}

fn one_kind(base: Base) -> Kind
    ensures { result ≡ spec.one_kind base }
{
    match base {
        Base::Scalar(scalar) => scalar_kind(scalar),
        Base::Text => Kind::One(Item::Text),
        Base::Enum(index) => Kind::Fixed(Fixed::Enum(index)),
        Base::Struct(index) => Kind::Fixed(Fixed::Struct(index)),
        Base::Table(index) => Kind::One(Item::Table(index)),
        Base::Union(index) => Kind::Union(index),
    }
}

fn list_kind(base: Base) -> Kind
    ensures { result ≡ spec.list_kind base }
{
    match base {
        Base::Scalar(scalar) => scalar_list(scalar),
        Base::Text => Kind::List(Item::Text),
        Base::Enum(index) => Kind::FixedList(Fixed::Enum(index)),
        Base::Struct(index) => Kind::FixedList(Fixed::Struct(index)),
        Base::Table(index) => Kind::List(Item::Table(index)),
        Base::Union(index) => Kind::UnionVector(index),
    }
}

/// `nested` is the index of the root's table, for a field that is a buffer.
pub(crate) fn kind_of(kind: FieldType, nested: Option<usize>) -> Kind
    ensures { result ≡ spec.kind_of kind nested }
{
    match nested {
        Some(table) => Kind::Nested(table),
        None if kind.vector => list_kind(kind.base),
        None => one_kind(kind.base),
    }
}
