//! The fields of a struct in its text.

ghost use Rattle.std.specs.Prelude.{◌≡◌, ◌++◌, OnOk};
ghost use Rattle.planus_tie.specs.FieldTexts as spec;

use crate::holes::{Holes, push_each, push_filled};
use crate::naming::Naming;
use std::alloc::AllocError;

/// Adds the declaration of a struct.
pub(crate) fn push_fields(
    out: &mut Vec<u8>,
    naming: &Naming<'_>,
    own: Holes,
    fields: &[Holes],
) -> Result<(), AllocError>
    ensures { OnOk result (out.new.items ≡ out.old.items
        ++ spec.fields_text naming.now own fields.now) }
{
    push_filled(out, naming, own, "pub struct $T {")?;
    push_each(out, naming, fields, "pub $n: $t,")?;
    push_filled(out, naming, own, "}")
}

/// Adds how fields are written.
pub(crate) fn push_put(
    out: &mut Vec<u8>,
    naming: &Naming<'_>,
    own: Holes,
    fields: &[Holes],
) -> Result<(), AllocError>
    ensures { OnOk result (out.new.items ≡ out.old.items
        ++ spec.put_text naming.now own fields.now) }
{
    push_filled(out, naming, own, "put_fields!(self, bytes;")?;
    push_each(out, naming, fields, "$n: $z, $x")?;
    push_filled(out, naming, own, ");")
}

/// Adds how they are read.
pub(crate) fn push_taken(
    out: &mut Vec<u8>,
    naming: &Naming<'_>,
    own: Holes,
    fields: &[Holes],
) -> Result<(), AllocError>
    ensures { OnOk result (out.new.items ≡ out.old.items
        ++ spec.taken_text naming.now own fields.now) }
{
    push_filled(out, naming, own, "read_fields!($T, buffer, offset;")?;
    push_each(out, naming, fields, "$w,")?;
    push_filled(out, naming, own, ") } }")
}
