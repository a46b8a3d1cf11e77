//! Tables `Boat`.

ghost use Rattle.std.specs.Prelude.{◌≡◌, ◌∷◌, [], codes};
ghost use Rattle.planus.specs.Printed.{IsTextRequired, text_kind, required, gives_as};

use planus::table_reader::Table;
use planus::{
    Builder, Built, Create, Offset, Result, SliceWithStartOffset, Stride, TableKind, TableView,
    TableWriter, Text, create_table, fields, text_required,
};

/// The kind of `Boat`, and of an offset to one.
pub struct Boat;

/// The fields of `Boat`, as [`Boat::create`] takes them.
#[derive(Drop)]
pub struct BoatFields<'a> {
    pub name: &'a str,
}

impl Boat {
    /// Returns the fields with these, which are required, and the others by default.
    pub fn fields<'a>(name: &'a str) -> BoatFields<'a>
        ensures given { (result.name ≡ name.entry) }
    {
        BoatFields { name }
    }
}

impl<'a> Create<BoatFields<'a>> for Boat {
    ghost lines = { λ fields.
        required text_kind 0 fields.name ∷ [] };

    fn create(builder: &mut Builder, fields: BoatFields<'a>) -> Built<Boat> {
        let lines = fields![
            0: Offset<Text> = fields.name,
        ];
        create_table::<Boat, _>(builder, lines)
    }
}

/// One in a buffer.
#[derive(Clone, Copy)]
pub struct BoatRef<'a>(pub(crate) Table<'a>);

impl<'a> BoatRef<'a> {
    /// Returns `name`.
    pub fn name(&self) -> Result<&'a str>
        ensures { IsTextRequired self.now.0 0 (codes "Boat") (codes "name") result }
    {
        text_required(&self.0, 0, "Boat", "name")
    }
}

impl<'a> TableView<'a> for BoatRef<'a> {
    type Kind = Boat;

    ghost table = { λ view. view.0 };

    fn of_table(read: Table<'a>) -> BoatRef<'a> {
        BoatRef(read)
    }
}

impl<'a> Stride for BoatRef<'a> {
    type Stands = u32;
}

impl<'a> planus::ReadError for BoatRef<'a> {
    type Error = planus::Error;
}

impl<'a> planus::VectorReadInner<'a> for BoatRef<'a> {
    ghost gives = { gives_as (λ view. view.0) (codes "[BoatRef]") };

    fn from_buffer(buffer: SliceWithStartOffset<'a>, offset: usize) -> Result<BoatRef<'a>> {
        planus::read_item(buffer, offset)
    }
}

impl TableKind for Boat {
    type Writer = TableWriter<6>;

    ghost name = { codes "[BoatRef]" };

    fn name() -> &'static str {
        "[BoatRef]"
    }
}

impl<'a> std::fmt::Debug for BoatRef<'a> {
    fn fmt<W: std::fmt::Write>(&self, f: &mut std::fmt::Formatter<W>) -> std::fmt::Result {
        let mut shown = f.debug_struct("BoatRef");
        shown.field("name", &self.name());
        shown.finish()
    }
}

impl<'a> planus_keys::KeyOf<BoatRef<'a>> for Boat {
    type Key = &'a str;

    type Error = planus::Error;

    ghost is_key = { λ _ view key. IsTextRequired view.0 0 (codes "Boat") (codes "name") key };

    fn key(&self, view: &BoatRef<'a>) -> Result<&'a str> {
        view.name()
    }
}
