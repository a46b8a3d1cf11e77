//! The keys of tables.

ghost use Rattle.std.specs.Prelude.{◌≡◌};
ghost use Rattle.std.specs.List.{list_any};
ghost use Rattle.planus_schema.specs.Keys as spec;

use crate::schema::{Body, Declared, TableField};

/// Returns whether a field is a key, by which vectors of its table are sorted. Code has nothing of
/// one that is deprecated.
pub fn is_key(field: &TableField) -> bool
    ensures { result ≡ spec.is_key field.now }
{
    field.key && !field.deprecated
}

fn is_any_key(fields: &[TableField]) -> bool
    ensures { result ≡ list_any spec.is_key fields.now }
{
    fields.iter().any(|field| is_key(field))
}

fn has_key(body: &Body) -> bool
    ensures { result ≡ spec.has_key body.now }
{
    match body {
        Body::Table(one) => is_any_key(&one.fields),
        _ => false,
    }
}

/// Returns whether a table of these has a key.
pub fn have_key(declared: &[Declared]) -> bool
    ensures { result ≡ spec.have_key declared.now }
{
    declared.iter().any(|one| has_key(&one.body))
}
