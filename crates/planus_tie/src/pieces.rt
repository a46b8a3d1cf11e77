//! Pieces of wanted text.

ghost use Rattle.std.specs.Prelude.{◌≡◌, ◌++◌, OnOk, decimal, map};
ghost use Rattle.std.specs.Char.{to_ascii_uppercase, to_ascii_lowercase};
ghost use Rattle.planus_tie.specs.Wanted.{base_word};

use crate::kinds::scalar_name;
use crate::naming::Naming;
use planus_schema::Base;
use std::alloc::AllocError;

pub(crate) fn push_str(out: &mut Vec<u8>, text: &str) -> Result<(), AllocError>
    ensures { OnOk result (out.new.items ≡ out.old.items ++ text.now) }
{
    out.extend_from_slice(text.as_bytes())
}

pub(crate) fn push_number(out: &mut Vec<u8>, number: u64) -> Result<(), AllocError>
    ensures { OnOk result (out.new.items ≡ out.old.items ++ decimal number) }
{
    let digits = format!(in *out.allocator(); "{number}")?;
    push_str(out, digits.as_str())
}

pub(crate) fn push_capitals(out: &mut Vec<u8>, name: &[u8]) -> Result<(), AllocError>
    ensures { OnOk result (out.new.items ≡ out.old.items ++ map to_ascii_uppercase name.now) }
{
    for letter in name {
        out.push(letter.to_ascii_uppercase())?;
    }
    Ok(())
}

pub(crate) fn push_small(out: &mut Vec<u8>, name: &[u8]) -> Result<(), AllocError>
    ensures { OnOk result (out.new.items ≡ out.old.items ++ map to_ascii_lowercase name.now) }
{
    for letter in name {
        out.push(letter.to_ascii_lowercase())?;
    }
    Ok(())
}

/// Adds the name of a type.
pub(crate) fn push_base(
    out: &mut Vec<u8>,
    naming: &Naming<'_>,
    base: Base,
) -> Result<(), AllocError>
    ensures { OnOk result (out.new.items ≡ out.old.items ++ base_word naming.now base) }
{
    match base {
        Base::Scalar(scalar) => push_str(out, scalar_name(scalar)),
        Base::Text => push_str(out, "Text"),
        Base::Enum(index) | Base::Struct(index) | Base::Table(index) | Base::Union(index) => {
            out.extend_from_slice(naming.type_of(index))
        }
    }
}
