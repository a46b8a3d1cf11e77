//! The names of types.

ghost use Rattle.std.specs.Prelude.{◌≡◌, ◌++◌, OnOk};
ghost use Rattle.planus_dot.specs.Types as spec;

use planus_schema::{Base, Declared, FieldType, Scalar};
use std::alloc::{AllocError, Global};

pub(crate) fn scalar_name(scalar: Scalar) -> &'static str
    ensures { result.now ≡ spec.scalar_name scalar }
{
    match scalar {
        Scalar::Bool => "bool",
        Scalar::Byte => "byte",
        Scalar::UByte => "ubyte",
        Scalar::Short => "short",
        Scalar::UShort => "ushort",
        Scalar::Int => "int",
        Scalar::UInt => "uint",
        Scalar::Long => "long",
        Scalar::ULong => "ulong",
        Scalar::Float => "float",
        Scalar::Double => "double",
    }
}

/// Returns the full name of the declaration of this index, or nothing.
fn name_at(declarations: &[Declared], index: usize) -> &[u8]
    ensures { result.now ≡ spec.name_at declarations.now index }
{
    match declarations.get(index) {
        Some(declared) => &declared.name,
        None => &[],
    }
}

fn base_name(declarations: &[Declared], base: Base) -> &[u8]
    ensures { result.now ≡ spec.base_name declarations.now base }
{
    match base {
        Base::Scalar(scalar) => scalar_name(scalar).as_bytes(),
        Base::Text => b"string",
        Base::Enum(index) | Base::Struct(index) | Base::Table(index) | Base::Union(index) => {
            name_at(declarations, index)
        }
    }
}

/// Adds a colon and the number of an array's items.
fn put_count(alloc: Global, text: &mut Vec<u8>, count: Option<usize>) -> Result<(), AllocError>
    ensures { OnOk result (text.new.items ≡ text.old.items ++ spec.count_text count) }
{
    if let Some(count) = count {
        text.extend_from_slice(format!(in alloc; ":{count}")?.as_bytes())?;
    }
    Ok(())
}

/// Adds a type. `count`: how many items an array of it has.
pub(crate) fn put_type(
    alloc: Global,
    text: &mut Vec<u8>,
    declarations: &[Declared],
    kind: FieldType,
    count: Option<usize>,
) -> Result<(), AllocError>
    ensures { OnOk result
        (text.new.items ≡ text.old.items ++ spec.type_text declarations.now kind count) }
{
    let name = base_name(declarations, kind.base);
    if kind.vector || count.is_some() {
        text.push(b'[')?;
        text.extend_from_slice(name)?;
        put_count(alloc, text, count)?;
        text.push(b']')?;
    } else {
        text.extend_from_slice(name)?;
    }
    Ok(())
}
