//! Whether a text has the constants of defaults.

ghost use Rattle.std.specs.Prelude.{◌≡◌, IfOk, Some, map};
ghost use Rattle.std.specs.Option.{option_copied};
ghost use Rattle.planus_schema.specs.Plans.{line_of};
ghost use Rattle.planus_tie.specs.Bare as bare_spec;
ghost use Rattle.planus_tie.specs.Constants as spec;
ghost use Rattle.planus_tie.specs.Holes.{filled};

use crate::bare::bare;
use crate::defaults::default_number;
use crate::holes::{Holes, push_filled};
use crate::kinds::has_default;
use crate::naming::Naming;
use crate::reading::after;
use crate::views::is_constant;
use planus_schema::{Base, Line, Value};
use std::alloc::{AllocError, Global};

fn default_holes(line: &Line<'_>) -> Holes
    ensures { result ≡ spec.default_holes (line_of line.now) }
{
    Holes {
        index: line.table,
        place: line.place,
        base: line.field.kind.base,
        number: default_number(&line.field.default),
        size: 0,
        alignment: 0,
        count: None,
        padding: 0,
    }
}

fn is_float_text(default: &Option<Value>) -> bool
    ensures { result ≡ spec.is_float_text default.now }
{
    match default {
        Some(Value::Float(_)) => true,
        _ => false,
    }
}

fn is_counted(naming: &Naming<'_>, line: &Line<'_>) -> bool
    ensures { result ≡ spec.is_counted naming.now (line_of line.now) }
{
    has_default(line.field)
        && is_constant(naming, line.field.kind.base)
        && !is_float_text(&line.field.default)
}

fn constant_text(base: Base) -> &'static str
    ensures { result.now ≡ spec.constant_text base }
{
    match base {
        Base::Enum(_) => "pub const DEFAULT_$N: $b = $b { bits: $i };",
        _ => "pub const DEFAULT_$N: $b = $i.0;",
    }
}

fn constant_of(alloc: Global, naming: &Naming<'_>, line: &Line<'_>) -> Result<Vec<u8>, AllocError>
    ensures { IfOk result (λ out. out.items ≡ bare_spec.bare (filled naming.now
        (spec.default_holes (line_of line.now)) (spec.constant_text line.now.field.now.kind.base))) }
{
    let mut out = Vec::new(alloc);
    let text = constant_text(line.field.kind.base);
    push_filled(&mut out, naming, default_holes(line), text)?;
    bare(alloc, &out)
}

fn constant_after<'a>(
    alloc: Global,
    naming: &Naming<'_>,
    line: &Line<'_>,
    text: &'a [u8],
) -> Result<Option<&'a [u8]>, AllocError>
    ensures { IfOk result (λ rest. option_copied rest
        ≡ spec.constant_after naming.now (line_of line.now) text.now) }
{
    if !is_counted(naming, line) {
        return Ok(Some(text));
    }
    let wanted = constant_of(alloc, naming, line)?;
    Ok(after(&wanted, text))
}

/// Returns whether a text without layout has the constants of the defaults of these fields.
pub(crate) fn have_constants(
    alloc: Global,
    naming: &Naming<'_>,
    lines: &[Line<'_>],
    text: &[u8],
) -> Result<bool, AllocError>
    ensures { IfOk result (λ b. b
        ≡ spec.have_constants naming.now (Some text.now) (map line_of lines.now)) }
{
    let mut rest = text;
    for line in lines {
        match constant_after(alloc, naming, line, rest)? {
            Some(found) => rest = found,
            None => return Ok(false),
        }
    }
    Ok(true)
}
