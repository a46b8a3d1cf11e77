//! Tables `Entry`.

ghost use Rattle.std.specs.Prelude.{◌≡◌, ◌∷◌, [], codes, MatchOption, ⊤, None};
ghost use Rattle.planus.specs.Printed.{u64_shape, IsIn, AllIn, IsTextRequired, IsTableRequired};
ghost use Rattle.planus.specs.Printed.{IsTableVector, text_kind, table_kind, IsPlainFieldOr};
ghost use Rattle.planus.specs.Printed.{IsUnionField, ReadsVariants, tables, optional, required};
ghost use Rattle.planus.specs.Printed.{number_or, union, gives_as};
ghost use Rattle.harbour.specs.Cause.{cause_variants};
ghost use Rattle.harbour.specs.declared.cause.Cause.{Cause};
ghost use Rattle.harbour.specs.declared.entry.Entry.{Entry};
ghost use Rattle.harbour.specs.declared.origin.Origin.{Origin};
ghost use Rattle.harbour.specs.declared.origin.OriginRef.{OriginRef};

use crate::cause::{Cause, CauseRef};
use crate::origin::{Origin, OriginRef};
use planus::table_reader::Table;
use planus::{
    Builder, Built, Create, List, Offset, OrDefault, Result, SliceWithStartOffset, Stride,
    TableKind, TableView, TableWriter, Text, UnionOffset, Vector, create_table, fields,
    plain_field_or, table_required, table_vector, text_required, union_field,
};

/// An entry of a log.
pub struct Entry;

/// The fields of `Entry`, as [`Entry::create`] takes them.
#[derive(Drop)]
pub struct EntryFields<'a> {
    pub at: u64,
    pub text: &'a str,
    pub origin: Offset<Origin>,
    pub cause: Option<UnionOffset<Cause>>,
    pub parents: Option<&'a [Offset<Entry>]>,
}

impl Entry {
    /// Returns the fields with these, which are required, and the others by default.
    pub fn fields<'a>(text: &'a str, origin: Offset<Origin>) -> EntryFields<'a>
        ensures given { (result.text ≡ text.entry) × (result.origin ≡ origin) }
        ensures rest { let x = result in (x.at ≡ 0) × (x.cause ≡ None) × (x.parents ≡ None) }
    {
        EntryFields {
            at: 0,
            text,
            origin,
            cause: None,
            parents: None,
        }
    }
}

impl<'a> Create<EntryFields<'a>> for Entry {
    ghost lines = { λ fields.
        number_or u64_shape 0 0 fields.at ∷
        required text_kind 1 fields.text ∷
        required (table_kind Origin (λ (view : OriginRef). view.0)) 2 fields.origin ∷
        union cause_variants 3 fields.cause ∷
        optional (tables Entry) 5 fields.parents ∷ [] };

    ghost may = { λ fields builder. IsIn builder fields.origin ×
        MatchOption fields.cause ⊤ (λ x. IsIn builder x.offset) ×
        MatchOption fields.parents ⊤ (λ x. AllIn builder x.now) };

    fn create(builder: &mut Builder, fields: EntryFields<'a>) -> Built<Entry> {
        let lines = fields![
            0: u64 = OrDefault { value: fields.at, default: 0 },
            1: Offset<Text> = fields.text,
            2: Offset<Origin> = fields.origin,
            (3, 4): union Cause = fields.cause,
            5: Offset<List<Offset<Entry>>> = fields.parents,
        ];
        create_table::<Entry, _>(builder, lines)
    }
}

/// One in a buffer.
#[derive(Clone, Copy)]
pub struct EntryRef<'a>(pub(crate) Table<'a>);

impl<'a> EntryRef<'a> {
    /// Returns `at`.
    pub fn at(&self) -> Result<u64>
        ensures { IsPlainFieldOr u64_shape 0 self.now.0 0 (codes "Entry") (codes "at") result }
    {
        plain_field_or(&self.0, 0, 0, "Entry", "at")
    }

    /// Returns `text`.
    pub fn text(&self) -> Result<&'a str>
        ensures { IsTextRequired self.now.0 1 (codes "Entry") (codes "text") result }
    {
        text_required(&self.0, 1, "Entry", "text")
    }

    /// Returns `origin`.
    pub fn origin(&self) -> Result<OriginRef<'a>>
        ensures { IsTableRequired Origin (λ view. view.0) self.now.0 2 (codes "Entry")
            (codes "origin") result }
    {
        table_required(&self.0, 2, "Entry", "origin")
    }

    /// Returns `cause`.
    pub fn cause(&self) -> Result<Option<CauseRef<'a>>>
        ensures { IsUnionField (ReadsVariants cause_variants) self.now.0 3 (codes "Entry")
            (codes "cause") Cause result }
    {
        union_field::<Cause, CauseRef<'a>>(&self.0, 3, "Entry", "cause")
    }

    /// Returns `parents`.
    pub fn parents(&self) -> Result<Option<Vector<'a, Result<EntryRef<'a>>>>>
        ensures { IsTableVector Entry self.now.0 5 (codes "Entry") (codes "parents") result }
    {
        table_vector(&self.0, 5, "Entry", "parents")
    }
}

impl<'a> TableView<'a> for EntryRef<'a> {
    type Kind = Entry;

    ghost table = { λ view. view.0 };

    fn of_table(read: Table<'a>) -> EntryRef<'a> {
        EntryRef(read)
    }
}

impl<'a> Stride for EntryRef<'a> {
    type Stands = u32;
}

impl<'a> planus::ReadError for EntryRef<'a> {
    type Error = planus::Error;
}

impl<'a> planus::VectorReadInner<'a> for EntryRef<'a> {
    ghost gives = { gives_as (λ view. view.0) (codes "[EntryRef]") };

    fn from_buffer(buffer: SliceWithStartOffset<'a>, offset: usize) -> Result<EntryRef<'a>> {
        planus::read_item(buffer, offset)
    }
}

impl TableKind for Entry {
    type Writer = TableWriter<16>;

    ghost name = { codes "[EntryRef]" };

    fn name() -> &'static str {
        "[EntryRef]"
    }
}

impl<'a> std::fmt::Debug for EntryRef<'a> {
    fn fmt<W: std::fmt::Write>(&self, f: &mut std::fmt::Formatter<W>) -> std::fmt::Result {
        let mut shown = f.debug_struct("EntryRef");
        shown.field("at", &self.at());
        shown.field("text", &self.text());
        shown.field("origin", &self.origin());
        shown.field("cause", &planus_views::Unread::new(self.0, 4, "CauseRef"));
        shown.field(
            "parents",
            &planus_views::Unread::new(self.0, 5, "[EntryRef]"),
        );
        shown.finish()
    }
}
