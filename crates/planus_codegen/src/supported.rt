//! What the printed code of a schema can't have.

use crate::hex_floats::is_too_long;
use crate::parts::has_too_many_parts;
use crate::print_error::PrintError;
use planus_schema::{
    Body, Declared, Enum, Plan, Table, TableField, Union, Value, is_hexadecimal, without_sign,
};
use planus_tie::{are_taken, entries_of};
use std::alloc::{AllocError, Global};

const TOO_MANY_FIELDS: &str = "a table with more fields than the checker takes";

const TOO_MANY_PARTS: &str = "a struct with more fields than the checker takes";

/// The most values of an enum.
const MOST_VALUES: usize = 256;

/// The greatest number of a variant in code.
const GREATEST_NUMBER: u64 = 9_223_372_036_854_775_807;

/// The most members of a union: the borrow checker covers the first 128 variants of an enum that
/// has references, and that of a verified view has one for other tags.
const MOST_MEMBERS: usize = 127;

fn unsupported_field(field: &TableField) -> Option<&'static str> {
    match &field.default {
        Some(Value::Text(_)) => Some("a default of a string"),
        Some(Value::EmptyVector) => Some("a default of a vector"),
        Some(Value::Float(text)) if is_hexadecimal(without_sign(text)) && is_too_long(text) => {
            Some("a hexadecimal float of more than 64 bytes or an exponent above 1100")
        }
        _ => None,
    }
}

fn unsupported_table(one: &Table) -> Option<&'static str> {
    for field in &one.fields {
        if let Some(what) = unsupported_field(field) {
            return Some(what);
        }
    }
    None
}

fn has_too_many_fields(
    alloc: Global,
    declared: &[Declared],
    index: usize,
    body: &Body,
) -> Result<bool, AllocError> {
    match body {
        Body::Table(one) => {
            let plan = Plan::of(alloc, declared, index, one)?;
            Ok(!are_taken(&plan.order, &entries_of(alloc, &plan.order)?))
        }
        _ => Ok(false),
    }
}

fn unsupported_enum(one: &Enum) -> Option<&'static str> {
    if one.scalar.is_bool() {
        return Some("an enum of bool");
    }
    if one.flags {
        return None;
    }
    if one.values.len() > MOST_VALUES {
        return Some("an enum of more than 256 values");
    }
    for value in &one.values {
        if value.number.magnitude > GREATEST_NUMBER && !value.number.negative {
            return Some("an enum with a value above 9223372036854775807");
        }
    }
    None
}

fn unsupported_union(one: &Union) -> Option<&'static str> {
    if one.members.is_empty() {
        return Some("a union without members");
    }
    if one.members.len() > MOST_MEMBERS {
        return Some("a union of more than 127 members");
    }
    None
}

fn unsupported(body: &Body) -> Option<&'static str> {
    match body {
        Body::Table(one) => unsupported_table(one),
        Body::Enum(one) => unsupported_enum(one),
        Body::Union(one) => unsupported_union(one),
        Body::Struct(_) => None,
    }
}

fn refuse(alloc: Global, what: &'static str, one: &Declared) -> Result<(), PrintError> {
    let name = Vec::from_slice(alloc, &one.name)?;
    Err(PrintError::Unsupported { what, name })
}

pub(crate) fn refuse_unsupported(alloc: Global, declared: &[Declared]) -> Result<(), PrintError> {
    for (index, one) in declared.iter().enumerate() {
        if let Some(what) = unsupported(&one.body) {
            return refuse(alloc, what, one);
        }
        if has_too_many_fields(alloc, declared, index, &one.body)? {
            return refuse(alloc, TOO_MANY_FIELDS, one);
        }
        if let Body::Struct(fields) = &one.body {
            if has_too_many_parts(alloc, fields)? {
                return refuse(alloc, TOO_MANY_PARTS, one);
            }
        }
    }
    Ok(())
}
