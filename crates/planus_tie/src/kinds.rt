//! The kinds of fields.

ghost use Rattle.std.specs.Prelude.{◌≡◌};
ghost use Rattle.planus_schema.specs.Slots as slots_spec;
ghost use Rattle.planus_tie.specs.Wanted as spec;
ghost use Rattle.planus_tie.specs.Shapes as shapes_spec;

use planus_schema::{Base, Declared, FieldType, Scalar, TableField, Value, measure_of};

/// Returns the name of a scalar type in code.
pub fn scalar_name(scalar: Scalar) -> &'static str
    ensures { result.now ≡ spec.scalar_word scalar }
{
    match scalar {
        Scalar::Bool => "bool",
        Scalar::Byte => "i8",
        Scalar::UByte => "u8",
        Scalar::Short => "i16",
        Scalar::UShort => "u16",
        Scalar::Int => "i32",
        Scalar::UInt => "u32",
        Scalar::Long => "i64",
        Scalar::ULong => "u64",
        Scalar::Float => "f32",
        Scalar::Double => "f64",
    }
}

fn is_byte(base: Base) -> bool
    ensures { result ≡ spec.is_ubyte base }
{
    matches!(base, Base::Scalar(Scalar::UByte))
}

/// Returns whether a field holds bytes.
pub fn is_bytes(kind: FieldType) -> bool
    ensures { result ≡ spec.is_bytes kind }
{
    kind.vector && is_byte(kind.base)
}

/// Returns whether a field holds a union or several.
pub fn is_union(kind: FieldType) -> bool
    ensures { result ≡ slots_spec.is_union kind }
{
    matches!(kind.base, Base::Union(_))
}

pub(crate) fn is_reference(base: Base) -> bool
    ensures { result ≡ spec.is_reference base }
{
    matches!(base, Base::Text | Base::Table(_))
}

fn is_number(base: Base) -> bool
    ensures { result ≡ spec.is_number base }
{
    matches!(base, Base::Scalar(_) | Base::Enum(_))
}

fn is_absent(default: &Option<Value>) -> bool
    ensures { result ≡ spec.is_absent default.now }
{
    match default {
        Some(Value::Absent) => true,
        _ => false,
    }
}

/// Returns whether a field is left out where it equals its default.
pub fn has_default(field: &TableField) -> bool
    ensures { result ≡ spec.has_default field.now }
{
    is_number(field.kind.base) && !field.kind.vector && !is_absent(&field.default)
}

/// Returns the slot that a field is read by: of a union, its tag's.
pub(crate) fn read_slot(field: &TableField) -> usize
    ensures { result ≡ spec.read_slot field.now }
{
    if is_union(field.kind) {
        field.slot.saturating_sub(1)
    } else {
        field.slot
    }
}

/// Returns the first word of the name of the function that reads a field.
pub fn kind_word(kind: FieldType) -> &'static str
    ensures { result.now ≡ spec.kind_word kind }
{
    if is_bytes(kind) {
        return "bytes";
    }
    match kind.base {
        Base::Text => "text",
        Base::Table(_) => "table",
        Base::Union(_) => "union",
        _ => "plain",
    }
}

/// Returns what follows in that name.
pub fn ending(field: &TableField) -> &'static str
    ensures { result.now ≡ spec.ending field.now }
{
    if field.kind.vector && !is_bytes(field.kind) {
        if field.required {
            "_vector_required"
        } else {
            "_vector"
        }
    } else if has_default(field) {
        "_field_or"
    } else if field.required {
        "_required"
    } else {
        "_field"
    }
}

/// Returns the size of a value in bytes.
pub(crate) fn size_of(declared: &[Declared], base: Base) -> usize
    ensures { result ≡ shapes_spec.size_of declared.now base }
{
    match measure_of(declared, base) {
        Some(measure) => measure.size,
        None => 0,
    }
}
