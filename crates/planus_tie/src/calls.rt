//! The calls of accessors.

ghost use Rattle.std.specs.Prelude.{◌≡◌, ◌++◌, IfOk, OnOk};
ghost use Rattle.planus_schema.specs.Plans.{line_of};
ghost use Rattle.planus_tie.specs.Wanted.{call_text, function_of, place_text, type_arguments};

use crate::defaults::push_default_argument;
use crate::kinds::{ending, is_union, kind_word, read_slot};
use crate::naming::Naming;
use crate::pieces::{push_base, push_number, push_str};
use planus_schema::{Line, TableField};
use std::alloc::{AllocError, Global};

pub(crate) fn push_function(out: &mut Vec<u8>, field: &TableField) -> Result<(), AllocError>
    ensures { OnOk result (out.new.items ≡ out.old.items ++ function_of field.now) }
{
    push_str(out, kind_word(field.kind))?;
    push_str(out, ending(field))
}

fn push_type_arguments(
    out: &mut Vec<u8>,
    naming: &Naming<'_>,
    field: &TableField,
) -> Result<(), AllocError>
    ensures { OnOk result (out.new.items ≡ out.old.items
        ++ type_arguments naming.now field.now) }
{
    if !is_union(field.kind) || field.kind.vector {
        return Ok(());
    }
    push_str(out, "::<")?;
    if !field.required {
        push_base(out, naming, field.kind.base)?;
        push_str(out, ",")?;
    }
    push_base(out, naming, field.kind.base)?;
    push_str(out, "Ref<'a>>")
}

fn push_place(out: &mut Vec<u8>, naming: &Naming<'_>, line: &Line<'_>) -> Result<(), AllocError>
    ensures { OnOk result (out.new.items ≡ out.old.items
        ++ place_text naming.now (line_of line.now)) }
{
    push_str(out, "\"")?;
    out.extend_from_slice(naming.type_of(line.table))?;
    push_str(out, "\",\"")?;
    out.extend_from_slice(&line.field.name)?;
    push_str(out, "\")}")
}

/// Returns the body of a field's accessor.
pub(crate) fn call_of(
    alloc: Global,
    naming: &Naming<'_>,
    line: &Line<'_>,
) -> Result<Vec<u8>, AllocError>
    ensures { IfOk result (λ text. text.items ≡ call_text naming.now (line_of line.now)) }
{
    let mut out = Vec::new(alloc);
    push_function(&mut out, line.field)?;
    push_type_arguments(&mut out, naming, line.field)?;
    push_str(&mut out, "(&self.0,")?;
    push_number(&mut out, read_slot(line.field) as u64)?;
    push_str(&mut out, ",")?;
    push_default_argument(&mut out, naming, line)?;
    push_place(&mut out, naming, line)?;
    Ok(out)
}
