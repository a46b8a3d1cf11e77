//! Laws of breaks. Each function is a theorem.

ghost use Rattle.std.specs.Prelude.{ℕ, List, Option};
ghost use Rattle.planus_schema.specs.declared.schema.Declared as declared;
ghost use Rattle.planus_conform.specs.declared.breaks.Way as ways;
ghost use Rattle.planus_conform.specs.Witnesses.{ChangesShow, TypesShow};
ghost use Rattle.planus_conform.specs.EnumWitnesses.{ValuesShow, RemovedShow, AddedShow};
ghost use Rattle.planus_conform.specs.AsRead.{TextsAreFound, TablesAreFound};
ghost use Rattle.planus_conform.specs.NoBreaks.{UnchangedBreaksNothing, AddedFieldsBreakNothing};
ghost use Rattle.planus_conform.specs.ShownAlike.{SharedFieldsShowAlike, SharedLinesAreShown};

use planus_dump::laws::readings_are_said;

/// A field that is removed, required by other code or has another default is read differently from
/// a buffer of twelve bytes, an empty table.
pub fn changes_have_witnesses()
    ensures { (way : ways.Way) (matches : List (Option ℕ)) (old new : List declared.Declared)
        → ChangesShow way matches old new }
{}

/// Each two scalar types read eight bytes differently, as the item of a vector.
pub fn types_have_witnesses()
    ensures { (way : ways.Way) (old new : List declared.Declared) → TypesShow way old new }
{}

/// Of the bytes of an enum's value that is removed or has another number old code returns the value;
/// new code fails, or returns a value of another name. A number that one schema's code alone knows is
/// not read alike.
pub fn values_have_witnesses()
    ensures values { (way : ways.Way) (old new : List declared.Declared) → ValuesShow way old new }
    ensures removed { (way : ways.Way) (old new : List declared.Declared)
        → RemovedShow way old new }
    ensures added { (way : ways.Way) (old new : List declared.Declared) → AddedShow way old new }
{}

/// The accessor of a string that may be absent returns what is said to be found.
pub fn texts_are_found()
    ensures { TextsAreFound }
{
    readings_are_said();
}

/// So does that of a table.
pub fn tables_are_found()
    ensures { TablesAreFound }
{
    readings_are_said();
}

/// Nothing breaks from a sound schema to itself, if each of its structs has a field and nothing is
/// renamed: what hasn't changed is not reported.
pub fn unchanged_schemas_conform()
    ensures { UnchangedBreaksNothing }
{}

/// Nor does anything break to a sound schema that only has more fields of tables, and more
/// declarations after the old ones.
pub fn added_fields_conform()
    ensures { AddedFieldsBreakNothing }
{}

/// Where nothing breaks from one sound schema to another, and what both have has one name and one
/// order, a dump shows the same of any bytes by both, without the fields that not both read.
pub fn shared_fields_show_alike()
    ensures { SharedFieldsShowAlike }
{}

/// A dump by all fields shows all that one without those shows, in the same order.
pub fn shared_lines_are_shown()
    ensures { SharedLinesAreShown }
{}
