//! Tables `Person`.

ghost use Rattle.std.specs.Prelude.{◌∷◌, [], codes, refl};
ghost use Rattle.planus.specs.Printed.{u8_shape, IsTextRequired, text_kind, IsPlainFieldOr};
ghost use Rattle.planus.specs.Printed.{required, number_or};
ghost use Rattle.planus_owned.specs.Printed.{IsMade};
ghost use Rattle.owned_ships.specs.Person.{person_owned};

use planus::table_reader::Table;
use planus::{
    Builder, Built, Create, Offset, OrDefault, Result, TableKind, TableView, TableWriter, Text,
    create_table, fields, plain_field_or, text_required,
};
use planus_owned::{Owned, below, own_plain_or, own_text};
use std::alloc::Global;

/// A person, and the kind of an offset to one.
#[derive(Debug, PartialEq, Drop)]
pub struct Person {
    pub name: String,
    pub age: u8,
}

/// The fields of `Person`, as [`Person::create`] takes them.
#[derive(Drop)]
pub struct PersonFields<'a> {
    pub name: &'a str,
    pub age: u8,
}

impl<'a> Create<PersonFields<'a>> for Person {
    ghost lines = { λ fields.
        required text_kind 0 fields.name ∷
        number_or u8_shape 1 18 fields.age ∷ [] };

    fn create(builder: &mut Builder, fields: PersonFields<'a>) -> Built<Person> {
        let lines = fields![
            0: Offset<Text> = fields.name,
            1: u8 = OrDefault { value: fields.age, default: 18 },
        ];
        create_table::<Person, _>(builder, lines)
    }
}

/// One in a buffer.
#[derive(Clone, Copy)]
pub struct PersonRef<'a>(pub(crate) Table<'a>);

impl<'a> PersonRef<'a> {
    /// Returns `name`.
    pub fn name(&self) -> Result<&'a str>
        ensures { IsTextRequired self.now.0 0 (codes "Person") (codes "name") result }
    {
        text_required(&self.0, 0, "Person", "name")
    }

    /// Returns `age`.
    pub fn age(&self) -> Result<u8>
        ensures { IsPlainFieldOr u8_shape 18 self.now.0 1 (codes "Person") (codes "age") result }
    {
        plain_field_or(&self.0, 1, 18, "Person", "age")
    }

    /// Makes a record of it, in which at most `depth` tables lie within each other, itself included.
    /// Fails as a field's read, or with `OwnError::TooDeep` or `OwnError::OutOfMemory`.
    pub fn to_record(&self, depth: u32, alloc: Global) -> planus_owned::Result<Person>
        ensures { IsMade (person_owned depth) self.now.0 result }
    {
        let _below = below::<Person>(depth)?;
        Ok(Person {
            name: own_text(&self.0, 0, "Person", "name", alloc)?,
            age: own_plain_or(&self.0, 1, 18, "Person", "age")?,
        })
    }
}

impl Owned for Person {
    ghost owned = { person_owned };

    ghost spent = { refl };
}

impl<'a> TableView<'a> for PersonRef<'a> {
    type Kind = Person;

    ghost table = { λ view. view.0 };

    fn of_table(read: Table<'a>) -> PersonRef<'a> {
        PersonRef(read)
    }
}

impl TableKind for Person {
    type Writer = TableWriter<8>;

    ghost name = { codes "[PersonRef]" };

    fn name() -> &'static str {
        "[PersonRef]"
    }
}
