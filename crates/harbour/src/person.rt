//! Tables `Person`.

ghost use Rattle.std.specs.Prelude.{◌≡◌, ◌∷◌, [], codes};
ghost use Rattle.planus.specs.Printed.{u8_shape, IsTextRequired, text_kind, IsPlainFieldOr};
ghost use Rattle.planus.specs.Printed.{required, number_or, gives_as};

use planus::table_reader::Table;
use planus::{
    Builder, Built, Create, Offset, OrDefault, Result, SliceWithStartOffset, Stride, TableKind,
    TableView, TableWriter, Text, create_table, fields, plain_field_or, text_required,
};

/// The kind of `Person`, and of an offset to one.
pub struct Person;

/// The fields of `Person`, as [`Person::create`] takes them.
#[derive(Drop)]
pub struct PersonFields<'a> {
    pub name: &'a str,
    pub age: u8,
}

impl Person {
    /// Returns the fields with these, which are required, and the others by default.
    pub fn fields<'a>(name: &'a str) -> PersonFields<'a>
        ensures given { (result.name ≡ name.entry) }
        ensures rest { let x = result in (x.age ≡ 18) }
    {
        PersonFields { name, age: 18 }
    }
}

impl<'a> Create<PersonFields<'a>> for Person {
    ghost lines = { λ fields.
        required text_kind 0 fields.name ∷
        number_or u8_shape 1 18 fields.age ∷ [] };

    fn create(builder: &mut Builder, fields: PersonFields<'a>) -> Built<Person> {
        let lines = fields![
            0: Offset<Text> = fields.name,
            1: u8 = OrDefault { value: fields.age, default: 18 },
        ];
        create_table::<Person, _>(builder, lines)
    }
}

/// One in a buffer.
#[derive(Clone, Copy)]
pub struct PersonRef<'a>(pub(crate) Table<'a>);

impl<'a> PersonRef<'a> {
    /// Returns `name`.
    pub fn name(&self) -> Result<&'a str>
        ensures { IsTextRequired self.now.0 0 (codes "Person") (codes "name") result }
    {
        text_required(&self.0, 0, "Person", "name")
    }

    /// Returns `age`.
    pub fn age(&self) -> Result<u8>
        ensures { IsPlainFieldOr u8_shape 18 self.now.0 1 (codes "Person") (codes "age") result }
    {
        plain_field_or(&self.0, 1, 18, "Person", "age")
    }
}

impl<'a> TableView<'a> for PersonRef<'a> {
    type Kind = Person;

    ghost table = { λ view. view.0 };

    fn of_table(read: Table<'a>) -> PersonRef<'a> {
        PersonRef(read)
    }
}

impl<'a> Stride for PersonRef<'a> {
    type Stands = u32;
}

impl<'a> planus::ReadError for PersonRef<'a> {
    type Error = planus::Error;
}

impl<'a> planus::VectorReadInner<'a> for PersonRef<'a> {
    ghost gives = { gives_as (λ view. view.0) (codes "[PersonRef]") };

    fn from_buffer(buffer: SliceWithStartOffset<'a>, offset: usize) -> Result<PersonRef<'a>> {
        planus::read_item(buffer, offset)
    }
}

impl TableKind for Person {
    type Writer = TableWriter<8>;

    ghost name = { codes "[PersonRef]" };

    fn name() -> &'static str {
        "[PersonRef]"
    }
}

impl<'a> std::fmt::Debug for PersonRef<'a> {
    fn fmt<W: std::fmt::Write>(&self, f: &mut std::fmt::Formatter<W>) -> std::fmt::Result {
        let mut shown = f.debug_struct("PersonRef");
        shown.field("name", &self.name());
        shown.field("age", &self.age());
        shown.finish()
    }
}
