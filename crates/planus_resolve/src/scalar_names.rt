//! The names of scalar types.

ghost use Rattle.std.specs.Prelude.{◌≡◌, ◌||◌};
ghost use Rattle.std.specs.Str.{bytes_eq};
ghost use Rattle.planus_schema.specs.Numbers as spec;

use planus_schema::Scalar;

fn is_either(name: &[u8], short: &[u8], long: &[u8]) -> bool
    ensures { result ≡ (bytes_eq name.now short.now || bytes_eq name.now long.now) }
{
    name == short || name == long
}

/// Returns the scalar type of this name; each but `bool` has two.
pub(crate) fn scalar_named(name: &[u8]) -> Option<Scalar>
    ensures { result ≡ spec.scalar_named name.now }
{
    if name == b"bool".as_slice() {
        Some(Scalar::Bool)
    } else if is_either(name, b"byte", b"int8") {
        Some(Scalar::Byte)
    } else if is_either(name, b"ubyte", b"uint8") {
        Some(Scalar::UByte)
    } else if is_either(name, b"short", b"int16") {
        Some(Scalar::Short)
    } else if is_either(name, b"ushort", b"uint16") {
        Some(Scalar::UShort)
    } else if is_either(name, b"int", b"int32") {
        Some(Scalar::Int)
    } else if is_either(name, b"uint", b"uint32") {
        Some(Scalar::UInt)
    } else if is_either(name, b"long", b"int64") {
        Some(Scalar::Long)
    } else if is_either(name, b"ulong", b"uint64") {
        Some(Scalar::ULong)
    } else if is_either(name, b"float", b"float32") {
        Some(Scalar::Float)
    } else if is_either(name, b"double", b"float64") {
        Some(Scalar::Double)
    } else {
        None
    }
}
