ghost use Rattle.std.specs.Prelude.{◌≡◌, ◌++◌, [], ◌∷◌, map, IfOk, OnOk};
ghost use Rattle.std.specs.String.{string_bytes};
ghost use Rattle.planus_dump.specs.Shapes.{field_shape, field_of, table_shape, union_shape};
ghost use Rattle.planus_dump.specs.Shapes.{HasShape};
ghost use Rattle.planus_demo.specs.WorkedSchemas.{weapon_shape, monster_shape, worked_tables};
ghost use Rattle.planus_demo.specs.WorkedSchemas.{equipment_shape, worked_unions};
ghost use Rattle.planus_demo.specs.ModeWords.{IsMode};

use crate::modes::Mode;
use planus_dump::{
    FieldSchema, Item, Kind, Number, Schema, TableSchema, VariantKind, VariantSchema,
};
use std::alloc::{AllocError, Global};

/// Returns the mode of these arguments, or `None` for others.
pub fn mode(words: &[String]) -> Option<Mode>
    ensures { IsMode (map string_bytes words.now) result }
{
    match words {
        [] => Some(Mode::Script),
        [word] => match word.as_str() {
            "weapon" => Some(Mode::Weapon),
            "monster" => Some(Mode::Monster),
            _ => None,
        },
        _ => None,
    }
}

/// Returns a field of a schema.
pub fn field(alloc: Global, slot: usize, name: &str, kind: Kind) -> Result<FieldSchema, AllocError>
    ensures { IfOk result (λ field. field_shape field ≡ field_of slot name.now kind) }
{
    let name = String::from_str(alloc, name)?;
    Ok(FieldSchema {
        slot,
        name,
        kind,
        deprecated: false,
        required: false,
    })
}

fn push_field(
    alloc: Global,
    fields: &mut Vec<FieldSchema>,
    slot: usize,
    name: &str,
    kind: Kind,
) -> Result<(), AllocError>
    ensures { OnOk result (map field_shape fields.new.items
        ≡ map field_shape fields.old.items ++ (field_of slot name.now kind ∷ [])) }
{
    fields.push(field(alloc, slot, name, kind)?)?;
    Ok(())
}

fn push_weapon(alloc: Global, fields: &mut Vec<FieldSchema>) -> Result<(), AllocError>
    ensures { OnOk result (map field_shape fields.new.items
        ≡ map field_shape fields.old.items ++ weapon_shape.fields) }
{
    push_field(alloc, fields, 0, "name", Kind::One(Item::Text))?;
    push_field(
        alloc,
        fields,
        1,
        "damage",
        Kind::One(Item::Number(Number::I16)),
    )
}

fn weapon(alloc: Global) -> Result<TableSchema, AllocError>
    ensures { IfOk result (λ table. table_shape table ≡ weapon_shape) }
{
    let mut fields = Vec::new(alloc);
    push_weapon(alloc, &mut fields)?;
    let name = String::from_str(alloc, "Weapon")?;
    Ok(TableSchema { name, fields })
}

fn push_monster(alloc: Global, fields: &mut Vec<FieldSchema>) -> Result<(), AllocError>
    ensures { OnOk result (map field_shape fields.new.items
        ≡ map field_shape fields.old.items ++ monster_shape.fields) }
{
    push_field(alloc, fields, 0, "hp", Kind::One(Item::Number(Number::I16)))?;
    push_field(alloc, fields, 1, "name", Kind::One(Item::Text))?;
    push_field(alloc, fields, 2, "inventory", Kind::Bytes)?;
    push_field(alloc, fields, 3, "weapons", Kind::List(Item::Table(0)))?;
    push_field(alloc, fields, 4, "equipped", Kind::Union(0))?;
    push_field(alloc, fields, 6, "loot", Kind::UnionVector(0))
}

fn monster(alloc: Global) -> Result<TableSchema, AllocError>
    ensures { IfOk result (λ table. table_shape table ≡ monster_shape) }
{
    let mut fields = Vec::new(alloc);
    push_monster(alloc, &mut fields)?;
    let name = String::from_str(alloc, "Monster")?;
    Ok(TableSchema { name, fields })
}

// Its variant has no name, so that none is printed.
fn equipment(alloc: Global) -> Result<Vec<VariantSchema>, AllocError>
    ensures { IfOk result (λ variants. union_shape variants ≡ equipment_shape) }
{
    let mut variants = Vec::new(alloc);
    let name = String::new(alloc);
    variants.push(VariantSchema {
        tag: 1,
        name,
        kind: VariantKind::Table(0),
    })?;
    Ok(variants)
}

/// Returns the schema of weapons and monsters with the root 0, a weapon, or 1, a monster.
pub fn schema(alloc: Global, root: usize) -> Result<Schema, AllocError>
    ensures { IfOk result (λ schema. HasShape schema worked_tables worked_unions root) }
{
    let mut tables = Vec::new(alloc);
    tables.push(weapon(alloc)?)?;
    tables.push(monster(alloc)?)?;
    let mut unions = Vec::new(alloc);
    unions.push(equipment(alloc)?)?;
    Ok(Schema {
        tables,
        unions,
        enums: Vec::new(alloc),
        structs: Vec::new(alloc),
        root,
        tags_need_values: false,
    })
}
