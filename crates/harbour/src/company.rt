//! Tables `Company`.

ghost use Rattle.std.specs.Prelude.{◌∷◌, [], codes};
ghost use Rattle.planus.specs.Printed.{IsTextField, IsBytesField, text_kind, bytes_kind, optional};
ghost use Rattle.planus.specs.Printed.{gives_as};

use planus::table_reader::Table;
use planus::{
    Builder, Built, ByteList, Create, List, Offset, Result, SliceWithStartOffset, Stride,
    TableKind, TableView, TableWriter, Text, bytes_field, create_table, fields, text_field,
};

/// The kind of `Company`, and of an offset to one.
pub struct Company;

/// The fields of `Company`, as [`Company::create`] takes them.
#[derive(Default, Drop)]
pub struct CompanyFields<'a> {
    pub title: Option<&'a str>,
    pub vat: Option<ByteList<'a>>,
}

impl<'a> Create<CompanyFields<'a>> for Company {
    ghost lines = { λ fields.
        optional text_kind 0 fields.title ∷
        optional bytes_kind 1 fields.vat ∷ [] };

    fn create(builder: &mut Builder, fields: CompanyFields<'a>) -> Built<Company> {
        let lines = fields![
            0: Offset<Text> = fields.title,
            1: Offset<List<u8>> = fields.vat,
        ];
        create_table::<Company, _>(builder, lines)
    }
}

/// One in a buffer.
#[derive(Clone, Copy)]
pub struct CompanyRef<'a>(pub(crate) Table<'a>);

impl<'a> CompanyRef<'a> {
    /// Returns `title`.
    pub fn title(&self) -> Result<Option<&'a str>>
        ensures { IsTextField self.now.0 0 (codes "Company") (codes "title") result }
    {
        text_field(&self.0, 0, "Company", "title")
    }

    /// Returns `vat`.
    pub fn vat(&self) -> Result<Option<&'a [u8]>>
        ensures { IsBytesField self.now.0 1 (codes "Company") (codes "vat") result }
    {
        bytes_field(&self.0, 1, "Company", "vat")
    }
}

impl<'a> TableView<'a> for CompanyRef<'a> {
    type Kind = Company;

    ghost table = { λ view. view.0 };

    fn of_table(read: Table<'a>) -> CompanyRef<'a> {
        CompanyRef(read)
    }
}

impl<'a> Stride for CompanyRef<'a> {
    type Stands = u32;
}

impl<'a> planus::ReadError for CompanyRef<'a> {
    type Error = planus::Error;
}

impl<'a> planus::VectorReadInner<'a> for CompanyRef<'a> {
    ghost gives = { gives_as (λ view. view.0) (codes "[CompanyRef]") };

    fn from_buffer(buffer: SliceWithStartOffset<'a>, offset: usize) -> Result<CompanyRef<'a>> {
        planus::read_item(buffer, offset)
    }
}

impl TableKind for Company {
    type Writer = TableWriter<8>;

    ghost name = { codes "[CompanyRef]" };

    fn name() -> &'static str {
        "[CompanyRef]"
    }
}

impl<'a> std::fmt::Debug for CompanyRef<'a> {
    fn fmt<W: std::fmt::Write>(&self, f: &mut std::fmt::Formatter<W>) -> std::fmt::Result {
        let mut shown = f.debug_struct("CompanyRef");
        shown.field("title", &self.title());
        shown.field("vat", &self.vat());
        shown.finish()
    }
}
