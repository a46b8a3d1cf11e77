//! The table at the root of a buffer.

ghost use Rattle.std.specs.Prelude.{◌≡◌, OnOk, OnErr, position};
ghost use Rattle.std.specs.Option.{option_map};
ghost use Rattle.std.specs.Io.KnownBytes.{Appends};
ghost use Rattle.planus_cli.specs.Buffers as spec;
ghost use Rattle.planus_dump.specs.Writing.{WritesBeginning};

use crate::streams::{CallError, say};
use planus_schema::{Body, Declared, Schema};
use std::alloc::Global;
use std::io::Write;

fn is_table_named(declared: &Declared, name: &str) -> bool
    ensures { result ≡ spec.is_table_named name.now declared.now }
{
    matches!(declared.body, Body::Table(_)) && declared.name.as_slice() == name.as_bytes()
}

fn table_named(declared: &[Declared], name: &str) -> Option<usize>
    ensures { result ≡ position (spec.is_table_named name.now) declared.now }
{
    let mut n = 0;
    'declared: while n < declared.len() && !is_table_named(&declared[n], name) {
        n += 1;
    }
    if n < declared.len() { Some(n) } else { None }
}

/// Returns the index of the named table, or else of the schema's root.
pub(crate) fn root_of(schema: &Schema, root: Option<&str>) -> Option<usize>
    ensures { result ≡ spec.root_of schema.now (option_map (λ name. name.now) root.entry) }
{
    match root {
        Some(name) => table_named(&schema.declarations, name),
        None => schema.statements.root,
    }
}

/// Says that the schema has no such table, or no root.
pub(crate) fn say_no_root<X: Write>(
    alloc: Global,
    root: Option<&str>,
    errors: &mut X,
) -> Result<(), CallError>
    ensures said { OnOk result (Appends (X.contents errors.old) (X.contents errors.new)
        (spec.no_root_text (option_map (λ name. name.now) root.entry))) }
    ensures begun { OnErr result (WritesBeginning
        (spec.no_root_text (option_map (λ name. name.now) root.entry))
        (X.contents errors.old) (X.contents errors.new)) }
{
    match root {
        Some(name) => say(alloc, errors, "the schema has no table `", name, "`"),
        None => say(alloc, errors, "the schema has no root; see --root", "", ""),
    }
}
