//! Whether the names of fields in code are those of the schema.

ghost use Rattle.std.specs.Prelude.{◌≡◌, IfOk, map};
ghost use Rattle.std.specs.List.{list_all};
ghost use Rattle.planus_schema.specs.Plans.{line_of};
ghost use Rattle.planus_tie.specs.Wanted as spec;

use crate::naming::Naming;
use planus_schema::Line;
use std::alloc::{AllocError, Global};

fn letters_of(alloc: Global, name: &[u8]) -> Result<Vec<u8>, AllocError>
    ensures { IfOk result (λ letters. letters.items ≡ spec.letters_of name.now) }
{
    let mut letters = Vec::new(alloc);
    let mut rest = name;
    'bytes: while let Some((b, after)) = rest.split_first() {
        if *b != b'_' {
            letters.push(b.to_ascii_lowercase())?;
        }
        rest = after;
    }
    Ok(letters)
}

fn is_spelled(alloc: Global, naming: &Naming<'_>, line: &Line<'_>) -> Result<bool, AllocError>
    ensures { IfOk result (λ b. b ≡ spec.is_spelled naming.now (line_of line.now)) }
{
    let name = letters_of(alloc, naming.member_of(line.table, line.place))?;
    let wanted = letters_of(alloc, &line.field.name)?;
    Ok(name.as_slice() == wanted.as_slice())
}

/// Returns whether the name of each field is the schema's, but for case and `_`.
pub(crate) fn are_spelled(
    alloc: Global,
    naming: &Naming<'_>,
    lines: &[Line<'_>],
) -> Result<bool, AllocError>
    ensures { IfOk result (λ b. b
        ≡ list_all (spec.is_spelled naming.now) (map line_of lines.now)) }
{
    for line in lines {
        if !is_spelled(alloc, naming, line)? {
            return Ok(false);
        }
    }
    Ok(true)
}
