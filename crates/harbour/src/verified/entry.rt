//! Verified tables `Entry`.

ghost use Rattle.planus_views.specs.Printed.{view_table};
ghost use Rattle.harbour.specs.Verified.{verified_schema};
ghost use Rattle.harbour.specs.Verified.{verified_whole};

use crate::entry::{Entry, EntryRef};
use crate::origin::Origin;
use crate::verified::cause::CauseView;
use crate::verified::origin::OriginView;
use planus::table_reader::Table;

impl planus_views::VerifiedKind for Entry {
    ghost schema = { verified_schema };

    ghost index = { 6 };

    ghost whole = { verified_whole };

    fn schema() -> planus_views::Schema<'static> {
        crate::verified::schema()
    }

    fn index() -> usize {
        6
    }
}

/// A verified one in a buffer.
#[derive(Clone, Copy)]
pub struct EntryView<'a>(planus_views::View<'a, Entry>);

impl<'a> planus_views::OfKind for EntryView<'a> {
    type Kind = Entry;
}

impl<'a> planus_views::ViewOf<'a> for EntryView<'a> {
    ghost table = { λ view. view_table view.0 };

    fn of_verified(read: Table<'a>) -> EntryView<'a> {
        EntryView(planus_views::View::new(read))
    }
}

impl planus_views::Verify for Entry {
    fn pass(table: Table<'_>, depth: u8, left: usize) -> Option<usize> {
        let fields = planus_views::Entered::<Entry>::new(table, depth)?;
        let left = fields.counted(left)?;
        let left = fields.value(0, false, planus_views::ValueKind::Plain(8), left)?;
        let left = fields.value(1, true, planus_views::ValueKind::Text, left)?;
        let left = fields.table::<Origin>(2, true, left)?;
        let left = fields.walked(3, false, planus_views::FieldKind::Union(1), left)?;
        let left = fields.walked(
            5,
            false,
            planus_views::FieldKind::Value(planus_views::ValueKind::Tables(6)),
            left,
        )?;
        Some(left)
    }
}

impl<'a> EntryView<'a> {
    ghost use Rattle.std.specs.Prelude.{◌≡◌};
    ghost use Rattle.planus.specs.Printed.{u64_shape, IsTextRequired, IsTableRequired};
    ghost use Rattle.planus.specs.Printed.{IsTableVector, IsPlainFieldOr, IsUnionField};
    ghost use Rattle.planus.specs.Printed.{ReadsVariants};
    ghost use Rattle.planus_views.specs.Printed.{view_table, checked_tables, Returns, ReturnsAs};
    ghost use Rattle.planus_views.specs.Printed.{checked_option, option_map};
    ghost use Rattle.harbour.specs.Cause.{cause_view_variants};
    ghost use Rattle.harbour.specs.Cause.{cause_checked};
    ghost use Rattle.harbour.specs.declared.cause.Cause.{Cause};
    ghost use Rattle.harbour.specs.declared.entry.Entry.{Entry};
    ghost use Rattle.harbour.specs.declared.origin.Origin.{Origin};
    ghost use Rattle.harbour.specs.declared.verified.origin.OriginView.{OriginView};

    /// Returns `at`.
    pub fn at(&self) -> u64
        ensures { Returns (IsPlainFieldOr u64_shape 0 (view_table self.now.0) 0) result }
    {
        self.0.plain_field_or(0, 0)
    }

    /// Returns `text`.
    pub fn text(&self) -> &'a str
        ensures { Returns (IsTextRequired (view_table self.now.0) 1) result }
    {
        self.0.text_required(1)
    }

    /// Returns `origin`.
    pub fn origin(&self) -> OriginView<'a>
        ensures { Returns (IsTableRequired Origin (λ (view : OriginView). view_table view.0)
            (view_table self.now.0) 2) result }
    {
        self.0.table_required(2)
    }

    /// Returns `cause`.
    pub fn cause(&self) -> Option<CauseView<'a>>
        ensures { ReturnsAs (λ type_ method. IsUnionField (ReadsVariants cause_view_variants)
            (view_table self.now.0) 3 type_ method Cause) (view_table self.now.0)
            (checked_option cause_checked result) }
    {
        self.0.union_field(3)
    }

    /// Returns `parents`.
    pub fn parents(&self) -> Option<planus_views::Tables<'a, EntryView<'a>>>
        ensures { Returns (IsTableVector Entry (view_table self.now.0) 5)
            (option_map (λ all. checked_tables all) result) }
    {
        self.0.table_vector(5)
    }

    /// Returns the view that tests what it reads.
    pub fn checked(&self) -> EntryRef<'a>
        ensures { result.0 ≡ view_table self.now.0 }
    {
        planus::TableView::of_table(self.0.table())
    }
}

impl<'a> std::fmt::Debug for EntryView<'a> {
    fn fmt<W: std::fmt::Write>(&self, f: &mut std::fmt::Formatter<W>) -> std::fmt::Result {
        let checked: EntryRef<'a> = planus::TableView::of_table(self.0.table());
        f.debug_tuple("EntryView").field(&checked).finish()
    }
}

impl<'a> EntryRef<'a> {
    ghost use Rattle.planus_views.specs.Printed.{view_table, VerifiesTable};
    ghost use Rattle.harbour.specs.Verified.{verified_schema};
    ghost use Rattle.harbour.specs.declared.verified.entry.EntryView.{EntryView};

    /// Verifies this table with all that it leads to, within limits, and returns its view, whose
    /// accessors don't fail.
    pub fn verify(&self, limits: planus_views::Limits) -> Result<EntryView<'a>, planus_views::Fault>
        ensures { VerifiesTable (λ (view : EntryView). view_table view.0) verified_schema 6 limits
            self.now.0 result }
    {
        planus_views::verify_table(self.0, limits)
    }
}
