//! The identifier of a buffer.

ghost use Rattle.std.specs.Prelude.{◌≡◌, IfOk, OnErr};
ghost use Rattle.std.specs.Option.{option_map};
ghost use Rattle.planus_cli.specs.Buffers as spec;

use crate::shown::put_shown;
use crate::streams::{CallError, write_out};
use planus_schema::Schema;
use std::alloc::{AllocError, Global};
use std::io::Write;

/// Where the identifier begins, in bytes.
const IDENTIFIER: usize = 4;

fn has_identifier(bytes: &[u8], identifier: &[u8]) -> bool
    ensures { result ≡ spec.has_identifier identifier.now bytes.now }
{
    match bytes.get(IDENTIFIER..IDENTIFIER + 4) {
        Some(found) => found == identifier,
        None => false,
    }
}

fn other_identifier(alloc: Global, name: &str, identifier: &[u8]) -> Result<Vec<u8>, AllocError>
    ensures { IfOk result (λ text. text.items
        ≡ spec.other_identifier_text name.now identifier.now) }
{
    let mut text = Vec::from_slice(alloc, b"planus: ")?;
    put_shown(&mut text, name.as_bytes())?;
    text.extend_from_slice(b" doesn't have the identifier `")?;
    put_shown(&mut text, identifier)?;
    text.extend_from_slice(b"`\n")?;
    Ok(text)
}

/// Returns whether a buffer has the schema's identifier, or says that it doesn't.
pub(crate) fn check_identifier<X: Write>(
    alloc: Global,
    schema: &Schema,
    name: &str,
    bytes: &[u8],
    errors: &mut X,
) -> Result<bool, CallError>
    ensures told { IfOk result (λ known. spec.ChecksIdentifier
        (option_map (λ v. v.items) schema.now.statements.identifier) name.now bytes.now known
        (X.contents errors.old) (X.contents errors.new)) }
    ensures failed { OnErr result (spec.FailsIdentifier
        (option_map (λ v. v.items) schema.now.statements.identifier) name.now bytes.now
        (X.contents errors.old) (X.contents errors.new)) }
{
    match &schema.statements.identifier {
        Some(identifier) if !has_identifier(bytes, identifier) => {
            let text = other_identifier(alloc, name, identifier)?;
            write_out(errors, &text)?;
            Ok(false)
        }
        _ => Ok(true),
    }
}
