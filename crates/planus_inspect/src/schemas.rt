//! A schema as a dump reads it.
ghost use Rattle.std.specs.Prelude.{◌≡◌, true, map, IfOk};
ghost use Rattle.planus_schema.specs.Layouts.{body_in};
ghost use Rattle.planus_resolve.specs.Sound.{IsSound, IsTableAt};
ghost use Rattle.planus_dump.specs.Schemas.{is_good};
ghost use Rattle.planus_inspect.specs.Shown.{Shows};

use crate::enums::enum_schema;
use crate::structs::struct_schema;
use crate::tables::table_schema;
use crate::unions::union_schema;
use planus_schema::Schema;
use std::alloc::{AllocError, Global};

/// Returns what a dump needs to read a buffer by a schema, whose root is the table of this index
/// among the declarations.
///
/// A dump's tables, unions, enums and structs are one for each declaration, with its index. For a
/// sound schema and an index of one of its tables the result is a good schema.
pub fn dump_schema(
    alloc: Global,
    schema: &Schema,
    root: usize,
) -> Result<planus_dump::Schema, AllocError>
    ensures shows { IfOk result (λ shown. Shows schema.now root shown) }
    // So a dump never fails with a bad schema.
    ensures good { IsSound schema.now → IsTableAt (map body_in schema.now.declarations.items) root
        → IfOk result (λ shown. is_good shown ≡ true) }
{
    let mut shown = planus_dump::Schema {
        tables: Vec::new(alloc),
        unions: Vec::new(alloc),
        enums: Vec::new(alloc),
        structs: Vec::new(alloc),
        root,
        tags_need_values: true,
    };
    for declared in &schema.declarations {
        shown.tables.push(table_schema(alloc, declared)?)?;
        shown.unions.push(union_schema(alloc, declared)?)?;
        shown.enums.push(enum_schema(alloc, declared)?)?;
        shown.structs.push(struct_schema(alloc, declared)?)?;
    }
    Ok(shown)
}
