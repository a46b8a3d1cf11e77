//! Verified vectors of unions.

ghost use Rattle.std.specs.Prelude.{◌≡◌, ℕ, ◌<◌, ◌≤◌, ◌*◌, ◌+◌, Ok, Some, length, slice_index, ⊤};
ghost use Rattle.std.specs.Option.{option_map};
ghost use Rattle.planus.specs.UnionAccessors.{IsUnionItem};
ghost use Rattle.planus_read.specs.Clauses.{Answer, shown};
ghost use Rattle.planus_read.specs.Reading.{union_vector_reading};
ghost use Rattle.planus_read.specs.Slices.{slice_bytes, slice_start};
ghost use Rattle.planus_view.specs.UnionVectorView.{count_of, view_of, ShowsUnionVector};
ghost use Rattle.planus_views.specs.Fields.{IsMember, UnionsHold};

use crate::of_union::OfUnion;
use crate::union_of::{Member, UnionOf};
use crate::verified_items::{ReadVerified, VerifiedItems, VerifiedVector};
use planus::SliceWithStartOffset;
use planus_read::array_unchecked;
use std::alloc::AllocError;
use std::fmt;
use std::marker::PhantomData;

/// A vector of unions, all of which are verified. Its items are printed unions.
pub struct Unions<'a, U: OfUnion> {
    tags: SliceWithStartOffset<'a>,
    references: SliceWithStartOffset<'a>,
    count: usize,
    _union: PhantomData<U>,
    ghost tags_inside: { count ≤ length (slice_bytes tags) },
    ghost references_inside: { count * 4 ≤ length (slice_bytes references) },
    ghost verified: { (i : ℕ) → i < count → IsMember U.Kind.schema U.Kind.union
        (slice_index (slice_bytes tags) i) (slice_start references) (slice_bytes references)
        (i * 4) },
}

impl<'a, U: OfUnion> Clone for Unions<'a, U> {
    ghost is_clone = { λ unions copy. copy ≡ unions };

    ghost is_infallible = { λ _. ⊤ };

    #[inline]
    fn clone(&self) -> Result<Self, AllocError> {
        Ok(*self)
    }
}

impl<'a, U: OfUnion> Copy for Unions<'a, U> {}

impl<'a, U: OfUnion> Unions<'a, U> {
    ghost use Rattle.planus_views.specs.CheckedVectors.{checked_unions};

    /// Returns the vector of unions to whose tags and references the references at two offsets
    /// lead. Requires all to be verified.
    #[inline(always)]
    pub(crate) fn from_buffer_unchecked(
        buffer: SliceWithStartOffset<'a>,
        tags_offset: usize,
        references_offset: usize,
    ) -> Unions<'a, U>
        requires { ∥ ((n : ℕ) × UnionsHold U.Kind.schema n U.Kind.union (slice_start buffer)
            (slice_bytes buffer) tags_offset references_offset) ∥₁ }
        ensures { let S = slice_bytes buffer.entry in let start = slice_start buffer.entry in
            Answer (shown (ShowsUnionVector S start)
            (union_vector_reading S tags_offset references_offset)) (Ok (checked_unions result)) }
    {
        let (tags, count) = array_unchecked(buffer, tags_offset);
        let (references, _) = array_unchecked(buffer, references_offset);
        Unions {
            tags,
            references,
            count,
            _union: PhantomData,
        }
    }
}

impl<'a, U: UnionOf<'a>> Unions<'a, U> {
    ghost use Rattle.planus_views.specs.CheckedVectors.{checked_unions};
    ghost use Rattle.planus_views.specs.Items.{IsOverAll};
    ghost use Rattle.planus_views.specs.Members.{ItemReturnsAs};

    /// Returns the number of unions.
    #[inline(always)]
    pub fn len(&self) -> usize
        ensures { result ≡ count_of (checked_unions self.now) }
    {
        self.count
    }

    /// Returns the union at an index, or `None` out of bounds. A tag that the schema doesn't have is
    /// a variant of its own.
    #[inline(always)]
    pub fn get(&self, index: usize) -> Option<U>
        ensures { ItemReturnsAs (λ name. IsUnionItem U.reads name (checked_unions self.now) index)
            (view_of (checked_unions self.now)).start (option_map U.checked result) }
    {
        if index >= self.count {
            return None;
        }
        Some(self.item(index))
    }

    /// Returns an iterator over the unions.
    #[inline(always)]
    pub fn iter(&self) -> VerifiedItems<Unions<'a, U>>
        ensures { IsOverAll self.now result }
    {
        VerifiedItems::new(*self)
    }
}

impl<'a, U: OfUnion> VerifiedVector for Unions<'a, U> {
    ghost use Rattle.planus_views.specs.CheckedVectors.{checked_unions};

    ghost count = { λ unions. count_of (checked_unions unions) };

    #[inline(always)]
    fn len(&self) -> usize {
        self.count
    }
}

impl<'a, U: UnionOf<'a>> ReadVerified for Unions<'a, U> {
    type Item = U;

    ghost use Rattle.planus_views.specs.CheckedVectors.{checked_unions};
    ghost use Rattle.planus_views.specs.Members.{ItemReturnsAs};

    ghost is_item = { λ unions i union.
        ItemReturnsAs (λ name. IsUnionItem U.reads name (checked_unions unions) i)
        (view_of (checked_unions unions)).start (Some (U.checked union)) };

    #[inline(always)]
    fn item(&self, index: usize) -> U {
        let tags = self.tags.as_slice();
        U::of_member(Member::new(tags[index], self.references, index * 4))
    }
}

impl<'a, U: UnionOf<'a>> IntoIterator for Unions<'a, U> {
    type Item = U;

    type IntoIter = VerifiedItems<Unions<'a, U>>;

    ghost use Rattle.planus_views.specs.Items.{IsOverAll};

    ghost into_iter_gives = { λ unions items. IsOverAll unions items };

    #[inline(always)]
    fn into_iter(self) -> VerifiedItems<Unions<'a, U>> {
        VerifiedItems::new(self)
    }
}

impl<'b, 'a, U: UnionOf<'a>> IntoIterator for &'b Unions<'a, U> {
    type Item = U;

    type IntoIter = VerifiedItems<Unions<'a, U>>;

    ghost use Rattle.planus_views.specs.Items.{IsOverAll};

    ghost into_iter_gives = { λ unions items. IsOverAll unions.now items };

    #[inline(always)]
    fn into_iter(self) -> VerifiedItems<Unions<'a, U>> {
        self.iter()
    }
}

impl<'a, U: UnionOf<'a> + fmt::Debug + Drop> fmt::Debug for Unions<'a, U> {
    fn fmt<W: fmt::Write>(&self, f: &mut fmt::Formatter<W>) -> fmt::Result {
        f.debug_list().entries(self.iter()).finish()
    }
}
