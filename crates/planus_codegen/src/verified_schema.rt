//! The schema as a value, by which buffers are verified.

use crate::at::At;
use crate::context::Context;
use crate::entries::Entries;
use crate::printer::Printer;
use crate::types::is_bytes;
use crate::verified_names::put_names;
use planus_schema::{Base, Body, Table, TableField, Union};
use std::alloc::AllocError;

const USES: &str = "\
ghost use Rattle.std.specs.Prelude.{◌≡◌};
ghost use Rattle.planus_views.specs.Printed.{shapes, names_of, name_texts};
ghost use Rattle.$c.specs.Verified.{verified_schema, verified_names};

use planus_views::{
    FieldKind, FieldName, FieldShape, Names, Schema, TableName, TableShape, ValueKind, Variant,
";

const KIND_OF_VARIANTS: &str = "    VariantKind,\n";

const SCHEMA: &str = "
/// Returns the schema.
pub(crate) fn schema() -> Schema<'static>
    ensures { shapes result ≡ verified_schema }
{
    Schema {
        fields: &FIELDS,
        tables: &TABLES,
        variants: &VARIANTS,
    }
}
";

const DEFINITIONS: &str = "\
-- The schema as a value, and its names.
use Rattle.std.specs.Prelude.{◌≡◌, ◌∷◌, [], ℕ, List, codes, true}
use Rattle.std.proofs.Common.{refl}
use Rattle.planus_views.specs.Printed.{Shapes, is_whole, NameTexts}
use Rattle.$c.specs.declared.verified.TheConstants.{FIELDS, TABLES, VARIANTS}

abbrev pub verified_schema : Shapes
verified_schema = record { fields = FIELDS; tables = TABLES; variants = VARIANTS }

-- its lists fit together
abbrev pub verified_whole : is_whole verified_schema ≡ true
verified_whole = refl
";

const NOT_REQUIRED: &str = "    required: false,\n";

const REQUIRED: &str = "    required: true,\n";

const VARIANT: [&str; 5] = [
    "Variant {\n",
    "    union: $a,\n",
    "    tag: $g,\n",
    "    kind: VariantKind::$l,\n",
    "}",
];

/// How a field is verified.
fn kind_of(field: &TableField) -> &'static str {
    match (field.kind.base, field.kind.vector) {
        (Base::Text, false) => "    kind: FieldKind::Value(ValueKind::Text),\n",
        (Base::Text, true) => "    kind: FieldKind::Value(ValueKind::Texts),\n",
        (Base::Table(_), false) => "    kind: FieldKind::Value(ValueKind::Table($B)),\n",
        (Base::Table(_), true) => "    kind: FieldKind::Value(ValueKind::Tables($B)),\n",
        (Base::Union(_), false) => "    kind: FieldKind::Union($B),\n",
        (Base::Union(_), true) => "    kind: FieldKind::Unions($B),\n",
        (_, true) if field.nested.is_some() => {
            "    kind: FieldKind::Value(ValueKind::Nested($B)),\n"
        }
        (_, true) if is_bytes(field.kind) => "    kind: FieldKind::Value(ValueKind::Bytes),\n",
        (_, true) => "    kind: FieldKind::Value(ValueKind::Plains($C)),\n",
        (_, false) => "    kind: FieldKind::Value(ValueKind::Plain($C)),\n",
    }
}

impl<'a> Entries<'a> {
    fn put_field(&mut self, field: &TableField, at: At) {
        let required = if field.required {
            REQUIRED
        } else {
            NOT_REQUIRED
        };
        let lines = [
            "FieldShape {\n",
            "    slot: $r,\n",
            required,
            kind_of(field),
            "}",
        ];
        self.put_entry(&lines, at);
    }

    fn put_fields(&mut self, at: At, one: &Table) -> Result<(), AllocError> {
        for place in places_by_slot(self.all.context, one)? {
            if let Some(field) = one.fields.get(place) {
                self.put_field(field, at.member(place));
            }
        }
        Ok(())
    }

    fn put_table(&mut self, first: usize, end: usize) {
        self.all.put_str("    ");
        self.all.put_range(first, end);
        self.all.put_str(",\n");
        self.last.clear();
        self.last.put_range(first, end);
        self.count = self.count.saturating_add(1);
    }

    fn put_union(&mut self, at: At, one: &Union) {
        for place in 0..one.members.len() {
            self.put_entry(&VARIANT, at.member(place));
        }
    }
}

/// The places of a table's fields that aren't deprecated, by their slots.
pub(crate) fn places_by_slot(context: &Context<'_>, one: &Table) -> Result<Vec<usize>, AllocError> {
    let mut places = Vec::new(context.alloc);
    for (place, field) in one.fields.iter().enumerate() {
        if !field.deprecated {
            places.push(place)?;
        }
    }
    places.sort_by_key(|place| match one.fields.get(*place) {
        Some(field) => field.slot,
        None => 0,
    })?;
    Ok(places)
}

impl<'a> Printer<'a> {
    // A table whose fields are in this range of all.
    fn put_range(&mut self, first: usize, end: usize) {
        let at = At::declaration(0);
        self.put("TableShape {^first: ", at);
        self.put_number(first as u64);
        self.put(",^count: ", at);
        self.put_number(end.saturating_sub(first) as u64);
        self.put("^}", at);
    }
}

/// Prints the schema as a value, with its names. Of a table it has the fields by their slots, but no
/// deprecated ones.
pub(crate) fn print_schema<'a>(context: &'a Context<'a>) -> Result<Printer<'a>, AllocError> {
    let mut fields = Entries::new(context);
    let mut tables = Entries::new(context);
    let mut variants = Entries::new(context);
    for (index, declared) in context.declared.iter().enumerate() {
        let at = At::declaration(index);
        match &declared.body {
            Body::Table(one) => {
                let first = fields.count;
                fields.put_fields(at, one)?;
                tables.put_table(first, fields.count);
            }
            Body::Union(one) => variants.put_union(at, one),
            _ => {}
        }
    }
    let mut printer = Printer::new(context);
    printer.put(USES, At::declaration(0));
    printer.put_str(if variants.count > 0 {
        KIND_OF_VARIANTS
    } else {
        ""
    });
    printer.put_str("};\n");
    printer.put_constant("FIELDS", "FieldShape", &fields);
    printer.put_constant("TABLES", "TableShape", &tables);
    printer.put_constant("VARIANTS", "Variant", &variants);
    printer.put(SCHEMA, At::declaration(0));
    put_names(&mut printer, context)?;
    Ok(printer)
}

/// Prints its definition, with that of its names.
pub(crate) fn print_schema_definition<'a>(
    context: &'a Context<'a>,
) -> Result<Printer<'a>, AllocError> {
    let mut printer = Printer::new(context);
    printer.put(DEFINITIONS, At::declaration(0));
    printer.put_name_texts()?;
    Ok(printer)
}
