//! Verified vectors of tables.

ghost use Rattle.std.specs.Prelude.{◌≡◌, ℕ, ◌<◌, ◌*◌, ◌+◌, Ok, Some, List, ⊤};
ghost use Rattle.planus.specs.ItemAccessors.{IsTableItem};
ghost use Rattle.planus_read.specs.Clauses.{Answer, shown};
ghost use Rattle.planus_read.specs.Reading.{vector_reading, items_at};
ghost use Rattle.planus_read.specs.Slices.{slice_bytes, slice_start};
ghost use Rattle.planus_view.specs.VectorView.{count_of, view_of, ShowsVector};
ghost use Rattle.planus_views.specs.Fields.{TableHolds, EachHolds};

use crate::of_kind::OfKind;
use crate::verified_items::{ReadVerified, VerifiedItems, VerifiedVector};
use crate::view_of::ViewOf;
use planus::table_reader::Table;
use planus::{SliceWithStartOffset, Vector};
use std::alloc::AllocError;
use std::fmt;
use std::marker::PhantomData;

/// A vector of tables, all of which are verified. Its items are printed views.
pub struct Tables<'a, V: OfKind> {
    references: Vector<'a, u32>,
    _view: PhantomData<V>,
    ghost verified: { (i : ℕ) → i < count_of references
        → ∥ ((n : ℕ) × TableHolds V.Kind.schema n V.Kind.index (view_of references).start
        (view_of references).bytes (i * 4)) ∥₁ },
}

impl<'a, V: OfKind> Clone for Tables<'a, V> {
    ghost is_clone = { λ tables copy. copy ≡ tables };

    ghost is_infallible = { λ _. ⊤ };

    #[inline]
    fn clone(&self) -> Result<Self, AllocError> {
        Ok(*self)
    }
}

impl<'a, V: OfKind> Copy for Tables<'a, V> {}

impl<'a, V: ViewOf<'a>> Tables<'a, V> {
    ghost use Rattle.planus_views.specs.CheckedVectors.{checked_tables};
    ghost use Rattle.planus_views.specs.Items.{IsOverAll};
    ghost use Rattle.planus_views.specs.Vectors.{all_ok};

    /// Returns the number of tables.
    #[inline(always)]
    pub fn len(&self) -> usize
        ensures { result ≡ count_of (checked_tables self.now) }
    {
        self.references.len()
    }

    /// Returns the view of the table at an index, or `None` out of bounds.
    #[inline(always)]
    pub fn get(&self, index: usize) -> Option<V>
        ensures { (name : List ℕ) → IsTableItem V.Kind name V.table (checked_tables self.now) index
            (all_ok result) }
    {
        if index >= self.references.len() {
            return None;
        }
        Some(self.item(index))
    }

    /// Returns an iterator over the views of the tables.
    #[inline(always)]
    pub fn iter(&self) -> VerifiedItems<Tables<'a, V>>
        ensures { IsOverAll self.now result }
    {
        VerifiedItems::new(*self)
    }
}

impl<'a, V: OfKind> VerifiedVector for Tables<'a, V> {
    ghost use Rattle.planus_views.specs.CheckedVectors.{checked_tables};

    ghost count = { λ tables. count_of (checked_tables tables) };

    #[inline(always)]
    fn len(&self) -> usize {
        self.references.len()
    }
}

impl<'a, V: ViewOf<'a>> ReadVerified for Tables<'a, V> {
    type Item = V;

    ghost use Rattle.planus_views.specs.CheckedVectors.{checked_tables};

    ghost is_item = { λ tables i view. (name : List ℕ)
        → IsTableItem V.Kind name V.table (checked_tables tables) i (Some (Ok view)) };

    #[inline(always)]
    fn item(&self, index: usize) -> V {
        let table = Table::from_buffer_unchecked(self.references.items(), index * 4);
        V::of_verified(table)
    }
}

impl<'a, V: ViewOf<'a>> IntoIterator for Tables<'a, V> {
    type Item = V;

    type IntoIter = VerifiedItems<Tables<'a, V>>;

    ghost use Rattle.planus_views.specs.Items.{IsOverAll};

    ghost into_iter_gives = { λ tables items. IsOverAll tables items };

    #[inline(always)]
    fn into_iter(self) -> VerifiedItems<Tables<'a, V>> {
        VerifiedItems::new(self)
    }
}

impl<'b, 'a, V: ViewOf<'a>> IntoIterator for &'b Tables<'a, V> {
    type Item = V;

    type IntoIter = VerifiedItems<Tables<'a, V>>;

    ghost use Rattle.planus_views.specs.Items.{IsOverAll};

    ghost into_iter_gives = { λ tables items. IsOverAll tables.now items };

    #[inline(always)]
    fn into_iter(self) -> VerifiedItems<Tables<'a, V>> {
        self.iter()
    }
}

impl<'a, V: ViewOf<'a> + fmt::Debug + Drop> fmt::Debug for Tables<'a, V> {
    fn fmt<W: fmt::Write>(&self, f: &mut fmt::Formatter<W>) -> fmt::Result {
        f.debug_list().entries(self.iter()).finish()
    }
}

/// Returns the vector of tables to which the reference at an offset leads. Requires all to be
/// verified.
#[inline(always)]
pub(crate) fn tables_unchecked<'a, V: OfKind>(
    buffer: SliceWithStartOffset<'a>,
    offset: usize,
) -> Tables<'a, V>
    requires { let S = slice_bytes buffer in let start = slice_start buffer in
        ∥ ((n : ℕ) × EachHolds (TableHolds V.Kind.schema n V.Kind.index
        (start + items_at S offset)) S offset) ∥₁ }
    ensures { let S = slice_bytes buffer.entry in let start = slice_start buffer.entry in
        Answer (shown (ShowsVector S start) (vector_reading S offset 4)) (Ok result.references) }
{
    let references: Vector<'a, u32> = Vector::from_buffer_unchecked(buffer, offset);
    Tables {
        references,
        _view: PhantomData,
    }
}
