//! Tables `Origin`.

ghost use Rattle.std.specs.Prelude.{◌∷◌, [], codes};
ghost use Rattle.planus.specs.Printed.{u16_shape, IsTextField, text_kind, IsPlainFieldOr};
ghost use Rattle.planus.specs.Printed.{optional, number_or, gives_as};

use planus::table_reader::Table;
use planus::{
    Builder, Built, Create, Offset, OrDefault, Result, SliceWithStartOffset, Stride, TableKind,
    TableView, TableWriter, Text, create_table, fields, plain_field_or, text_field,
};

/// Where a log is kept.
pub struct Origin;

/// The fields of `Origin`, as [`Origin::create`] takes them.
#[derive(Default, Drop)]
pub struct OriginFields<'a> {
    pub host: Option<&'a str>,
    pub port: u16,
}

impl<'a> Create<OriginFields<'a>> for Origin {
    ghost lines = { λ fields.
        optional text_kind 0 fields.host ∷
        number_or u16_shape 1 0 fields.port ∷ [] };

    fn create(builder: &mut Builder, fields: OriginFields<'a>) -> Built<Origin> {
        let lines = fields![
            0: Offset<Text> = fields.host,
            1: u16 = OrDefault { value: fields.port, default: 0 },
        ];
        create_table::<Origin, _>(builder, lines)
    }
}

/// One in a buffer.
#[derive(Clone, Copy)]
pub struct OriginRef<'a>(pub(crate) Table<'a>);

impl<'a> OriginRef<'a> {
    /// Returns `host`.
    pub fn host(&self) -> Result<Option<&'a str>>
        ensures { IsTextField self.now.0 0 (codes "Origin") (codes "host") result }
    {
        text_field(&self.0, 0, "Origin", "host")
    }

    /// Returns `port`.
    pub fn port(&self) -> Result<u16>
        ensures { IsPlainFieldOr u16_shape 0 self.now.0 1 (codes "Origin") (codes "port") result }
    {
        plain_field_or(&self.0, 1, 0, "Origin", "port")
    }
}

impl<'a> TableView<'a> for OriginRef<'a> {
    type Kind = Origin;

    ghost table = { λ view. view.0 };

    fn of_table(read: Table<'a>) -> OriginRef<'a> {
        OriginRef(read)
    }
}

impl<'a> Stride for OriginRef<'a> {
    type Stands = u32;
}

impl<'a> planus::ReadError for OriginRef<'a> {
    type Error = planus::Error;
}

impl<'a> planus::VectorReadInner<'a> for OriginRef<'a> {
    ghost gives = { gives_as (λ view. view.0) (codes "[OriginRef]") };

    fn from_buffer(buffer: SliceWithStartOffset<'a>, offset: usize) -> Result<OriginRef<'a>> {
        planus::read_item(buffer, offset)
    }
}

impl TableKind for Origin {
    type Writer = TableWriter<8>;

    ghost name = { codes "[OriginRef]" };

    fn name() -> &'static str {
        "[OriginRef]"
    }
}

impl<'a> std::fmt::Debug for OriginRef<'a> {
    fn fmt<W: std::fmt::Write>(&self, f: &mut std::fmt::Formatter<W>) -> std::fmt::Result {
        let mut shown = f.debug_struct("OriginRef");
        shown.field("host", &self.host());
        shown.field("port", &self.port());
        shown.finish()
    }
}
