//! The facts of a schema, as `facts.cpp` prints them: `T.x slot 3`, `T.x of [int]`, `P.x of [int:3]`,
//! `P size 12`.

use planus_resolve::{
    Base, Body, Declared, EnumValue, FieldType, Number, Scalar, Schema, StructField, TableField,
    UnionMember, Value,
};

/// A fact, as `T.x slot 3`: what it is of, a word, and what is said.
#[derive(Clone, Copy)]
struct Fact<'a> {
    of: &'a [u8],
    word: &'a str,
    said: &'a str,
}

fn fact_of(line: &str) -> Option<Fact<'_>> {
    let (of, rest) = line.split_once(' ')?;
    let (word, said) = rest.split_once(' ')?;
    Some(Fact {
        of: of.as_bytes(),
        word,
        said,
    })
}

fn is_size(size: usize, said: &str) -> bool {
    said.parse::<usize>().ok() == Some(size)
}

fn is_number(number: Number, said: &str) -> bool {
    let digits = said.strip_prefix('-').unwrap_or(said);
    number.negative == (digits.len() < said.len())
        && digits.parse::<u64>().ok() == Some(number.magnitude)
}

fn scalar_name(scalar: Scalar) -> &'static str {
    match scalar {
        Scalar::Bool => "bool",
        Scalar::Byte => "byte",
        Scalar::UByte => "ubyte",
        Scalar::Short => "short",
        Scalar::UShort => "ushort",
        Scalar::Int => "int",
        Scalar::UInt => "uint",
        Scalar::Long => "long",
        Scalar::ULong => "ulong",
        Scalar::Float => "float",
        Scalar::Double => "double",
    }
}

/// Returns whether the declaration of this index has this name.
fn is_named(schema: &Schema, index: usize, said: &[u8]) -> bool {
    match schema.declarations.get(index) {
        Some(declared) => declared.name.as_slice() == said,
        None => false,
    }
}

fn is_base(schema: &Schema, base: Base, said: &[u8]) -> bool {
    match base {
        Base::Scalar(scalar) => scalar_name(scalar).as_bytes() == said,
        Base::Text => said == b"string".as_slice(),
        Base::Enum(index) | Base::Struct(index) | Base::Table(index) | Base::Union(index) => {
            is_named(schema, index, said)
        }
    }
}

fn is_type(schema: &Schema, kind: FieldType, said: &[u8]) -> bool {
    match said {
        [b'[', item @ .., b']'] => kind.vector && is_base(schema, kind.base, item),
        _ => !kind.vector && is_base(schema, kind.base, said),
    }
}

fn is_union(kind: FieldType) -> bool {
    match kind.base {
        Base::Union(_) => true,
        _ => false,
    }
}

/// Returns the default, where it is an integer but 0.
fn integer(field: &TableField) -> Option<Number> {
    match &field.default {
        Some(Value::Integer(number)) if number.magnitude > 0 => Some(*number),
        _ => None,
    }
}

fn is_absent(field: &TableField) -> bool {
    match &field.default {
        Some(Value::Absent) => true,
        _ => false,
    }
}

fn field_has(field: &TableField, said: &str) -> bool {
    match said {
        "null" => is_absent(field),
        "required" => field.required,
        "deprecated" => field.deprecated,
        "key" => field.key,
        _ => false,
    }
}

fn field_says(schema: &Schema, field: &TableField, fact: &Fact<'_>) -> bool {
    match fact.word {
        "slot" => is_size(field.slot, fact.said),
        "of" => is_type(schema, field.kind, fact.said.as_bytes()),
        "has" => field_has(field, fact.said),
        "default" => match integer(field) {
            Some(number) => is_number(number, fact.said),
            None => false,
        },
        _ => false,
    }
}

/// Returns whether this is said of the field of a union's type.
fn type_field_says(field: &TableField, fact: &Fact<'_>) -> bool {
    match fact.word {
        "slot" => is_size(field.slot.saturating_sub(1), fact.said),
        "of" if field.kind.vector => fact.said == "[ubyte]",
        "of" => fact.said == "ubyte",
        "has" => fact.said == "deprecated" && field.deprecated,
        _ => false,
    }
}

fn table_says(schema: &Schema, field: &TableField, name: &[u8], fact: &Fact<'_>) -> bool {
    if field.name.as_slice() == name {
        return field_says(schema, field, fact);
    }
    is_union(field.kind)
        && name.strip_suffix(b"_type".as_slice()) == Some(field.name.as_slice())
        && type_field_says(field, fact)
}

/// Returns whether this is the type of a field of a struct, as `int` and `[int:3]`.
fn is_struct_type(schema: &Schema, field: &StructField, said: &str) -> bool {
    let Some(count) = field.count else {
        return is_base(schema, field.base, said.as_bytes());
    };
    let Some((item, number)) = said.split_once(':') else {
        return false;
    };
    matches!(item.as_bytes(), [b'[', item @ ..] if is_base(schema, field.base, item))
        && matches!(number.strip_suffix(']'), Some(number) if is_size(count, number))
}

fn struct_says(schema: &Schema, field: &StructField, name: &[u8], fact: &Fact<'_>) -> bool {
    field.name.as_slice() == name
        && match fact.word {
            "at" => is_size(field.distance, fact.said),
            "of" => is_struct_type(schema, field, fact.said),
            _ => false,
        }
}

fn value_says(value: &EnumValue, name: &[u8], fact: &Fact<'_>) -> bool {
    value.name.as_slice() == name && fact.word == "is" && is_number(value.number, fact.said)
}

fn member_says(schema: &Schema, member: &UnionMember, name: &[u8], fact: &Fact<'_>) -> bool {
    member.name.as_slice() == name
        && match fact.word {
            "is" => is_size(member.tag as usize, fact.said),
            "of" => is_base(schema, member.base, fact.said.as_bytes()),
            _ => false,
        }
}

/// Returns whether this is said of a part of this name.
fn part_says(schema: &Schema, body: &Body, name: &[u8], fact: &Fact<'_>) -> bool {
    match body {
        Body::Table(table) => {
            for field in &table.fields {
                if table_says(schema, field, name, fact) {
                    return true;
                }
            }
        }
        Body::Struct(body) => {
            for field in &body.fields {
                if struct_says(schema, field, name, fact) {
                    return true;
                }
            }
        }
        Body::Enum(body) => {
            for value in &body.values {
                if value_says(value, name, fact) {
                    return true;
                }
            }
        }
        Body::Union(body) => {
            for member in &body.members {
                if member_says(schema, member, name, fact) {
                    return true;
                }
            }
            return name == b"NONE".as_slice() && fact.word == "is" && fact.said == "0";
        }
    }
    false
}

/// Returns whether this is said of a declaration as a whole.
fn body_says(body: &Body, fact: &Fact<'_>) -> bool {
    match (body, fact.word) {
        (Body::Struct(body), "size") => is_size(body.size, fact.said),
        (Body::Struct(body), "align") => is_size(body.alignment, fact.said),
        (Body::Enum(body), "of") => scalar_name(body.scalar) == fact.said,
        _ => false,
    }
}

fn declared_says(schema: &Schema, declared: &Declared, fact: &Fact<'_>) -> bool {
    match fact.of.strip_prefix(declared.name.as_slice()) {
        Some([]) => body_says(&declared.body, fact),
        Some([b'.', name @ ..]) => part_says(schema, &declared.body, name, fact),
        _ => false,
    }
}

fn is_text(text: &Option<Vec<u8>>, said: &str) -> bool {
    match text {
        Some(text) => text.as_slice() == said.as_bytes(),
        None => false,
    }
}

fn schema_says(schema: &Schema, fact: &Fact<'_>) -> bool {
    match fact.word {
        "root" => match schema.statements.root {
            Some(index) => is_named(schema, index, fact.said.as_bytes()),
            None => false,
        },
        "identifier" => is_text(&schema.statements.identifier, fact.said),
        "extension" => is_text(&schema.statements.extension, fact.said),
        _ => false,
    }
}

/// Returns whether this is a fact of the schema.
fn holds(schema: &Schema, line: &str) -> bool {
    let Some(fact) = fact_of(line) else {
        return false;
    };
    if fact.of == b"schema".as_slice() {
        return schema_says(schema, &fact);
    }
    for declared in &schema.declarations {
        if declared_says(schema, declared, &fact) {
            return true;
        }
    }
    false
}

/// Returns how many of these hold.
fn holding(facts: &[bool]) -> usize {
    let mut count: usize = 0;
    for holds in facts {
        count = count.wrapping_add(*holds as usize);
    }
    count
}

/// Returns how many facts there are of a field.
fn field_count(field: &TableField) -> usize {
    let union = is_union(field.kind);
    holding(&[
        true,
        true,
        integer(field).is_some(),
        is_absent(field),
        field.required,
        field.deprecated,
        field.key,
        // The slot of a union's type, its type, and whether it is deprecated.
        union,
        union,
        union && field.deprecated,
    ])
}

/// Returns how many facts there are of a declaration.
fn body_count(body: &Body) -> usize {
    match body {
        Body::Table(table) => {
            let mut count: usize = 0;
            for field in &table.fields {
                count = count.wrapping_add(field_count(field));
            }
            count
        }
        Body::Struct(body) => body.fields.len().wrapping_mul(2).wrapping_add(2),
        Body::Enum(body) => body.values.len().wrapping_add(1),
        Body::Union(body) => body.members.len().wrapping_mul(2).wrapping_add(1),
    }
}

/// Returns how many facts there are of a schema.
fn schema_count(schema: &Schema) -> usize {
    let statements = &schema.statements;
    let mut count = holding(&[
        statements.root.is_some(),
        statements.identifier.is_some(),
        statements.extension.is_some(),
    ]);
    for declared in &schema.declarations {
        count = count.wrapping_add(body_count(&declared.body));
    }
    count
}

/// Returns whether the facts of the schema are these, with `; ` between them.
pub fn are_facts(schema: &Schema, facts: &str) -> bool {
    let mut count: usize = 0;
    for line in facts.split_terminator("; ") {
        if !holds(schema, line) {
            return false;
        }
        count = count.wrapping_add(1);
    }
    count == schema_count(schema)
}
