//! Union vectors in a buffer.

ghost use Rattle.std.specs.Prelude.{◌≡◌, ◌*◌, ◌≤◌, [], length};
ghost use Rattle.planus_read.specs.Items.{item_method};
ghost use Rattle.planus_read.specs.Slices.{slice_bytes};

use crate::copies::EachRead;
use crate::item_errors::{AsRead, ItemError};
use crate::vector_of::VectorOf;
use crate::view::{ReadView, View};
use planus_read::errors::ErrorKind;
use planus_read::{SliceWithStartOffset, TableReadUnionVector, VectorReadUnion, array_from_buffer};
use std::alloc::AllocError;
use std::marker::PhantomData;

/// A view of the items of a union vector, each a [`planus_read::Result`]. In the format it is a
/// vector of tags and one of references.
pub type UnionVector<'buf, T> = VectorOf<UnionSliceView<'buf, T, AsRead>>;

/// A view of unions, with tags in one slice and references in another.
pub struct UnionSliceView<'buf, T, E> {
    tags: SliceWithStartOffset<'buf>,
    values: SliceWithStartOffset<'buf>,
    count: usize,
    _marker: PhantomData<(T, E)>,
    ghost tags_inside: { count ≤ length (slice_bytes tags) },
    ghost values_inside: { count * 4 ≤ length (slice_bytes values) },
}

const REFERENCE_SIZE: usize = 4;

impl<'buf, T, E> Clone for UnionSliceView<'buf, T, E> {
    ghost use Rattle.std.specs.Prelude.{⊤};

    ghost is_clone = { λ view copy. copy ≡ view };

    ghost is_infallible = { λ _. ⊤ };

    #[inline]
    fn clone(&self) -> Result<Self, AllocError> {
        Ok(*self)
    }
}

impl<'buf, T, E> Copy for UnionSliceView<'buf, T, E> {}

impl<'buf, T, E> View for UnionSliceView<'buf, T, E> {
    ghost use Rattle.planus_view.specs.UnionSliceViews.{union_view, union_count, IsSubUnions};
    ghost use Rattle.planus_view.specs.UnionViews.{sub_view_count, sub_view_twice};

    ghost count = { union_count };

    ghost is_sub_view = { IsSubUnions };

    ghost sub_view_count = { λ v u lo hi is.
        sub_view_count (union_view v) (union_view u) lo hi is };

    ghost sub_view_twice = { λ v u w lo hi a b is also.
        sub_view_twice (union_view v) (union_view u) (union_view w) lo hi a b is also };

    #[inline]
    fn len(&self) -> usize {
        self.count
    }

    #[inline]
    fn sub_view(&self, lo: usize, hi: usize) -> UnionSliceView<'buf, T, E> {
        UnionSliceView {
            tags: self.tags.unchecked_advance(lo),
            values: self.values.unchecked_advance(lo * REFERENCE_SIZE),
            count: hi - lo,
            _marker: PhantomData,
        }
    }
}

impl<'buf, T: VectorReadUnion<'buf>, E: ItemError> ReadView for UnionSliceView<'buf, T, E> {
    type Item = Result<T, E::Error>;

    type Copied = EachRead;

    ghost use Rattle.planus_view.specs.UnionSliceViews.{IsUnionOf};

    ghost is_item = { IsUnionOf T.reads T.name item_method E.keeps };

    #[inline]
    fn item(&self, position: usize) -> Result<T, E::Error> {
        let tags = self.tags.as_slice();
        let offset = position * REFERENCE_SIZE;
        match <T as VectorReadUnion<'buf>>::from_buffer(self.values, tags[position], offset) {
            Ok(value) => Ok(value),
            Err(error) => Err(E::keep(error)),
        }
    }
}

impl<'buf, T, E> TableReadUnionVector<'buf> for VectorOf<UnionSliceView<'buf, T, E>> {
    ghost use Rattle.planus_read.specs.Clauses.{Answer, shown};
    ghost use Rattle.planus_read.specs.Reading.{union_vector_reading};
    ghost use Rattle.planus_view.specs.UnionVectorView.{ShowsUnionVector};

    ghost reads = { λ S start f g r.
        Answer (shown (ShowsUnionVector S start) (union_vector_reading S f g)) r };

    #[inline]
    fn from_buffer(
        buffer: SliceWithStartOffset<'buf>,
        tags_offset: usize,
        values_offset: usize,
    ) -> Result<VectorOf<UnionSliceView<'buf, T, E>>, ErrorKind> {
        let (tags, tags_count) = array_from_buffer(buffer, tags_offset)?;
        let (values, values_count) = array_from_buffer(buffer, values_offset)?;
        let tags_len = tags_count as usize;
        let values_len = values_count as usize;
        if tags_len > tags.len() || values_len * REFERENCE_SIZE > values.len() {
            return Err(ErrorKind::InvalidLength);
        }
        if tags_len != values_len {
            return Err(ErrorKind::UnionVectorLengthsMismatched {
                tags_len,
                values_len,
            });
        }
        let view = UnionSliceView {
            tags,
            values,
            count: tags_len,
            _marker: PhantomData,
        };
        Ok(VectorOf { view })
    }
}

impl<'buf, T, E> VectorOf<UnionSliceView<'buf, T, E>> {
    ghost use Rattle.planus_view.specs.UnionVectorView.{view_of};

    /// Returns an empty vector with start 0.
    #[inline]
    #[must_use]
    pub fn new_empty() -> VectorOf<UnionSliceView<'buf, T, E>>
        ensures { view_of result ≡ record { tags = []; references = []; start = 0; count = 0 } }
    {
        let view = UnionSliceView {
            tags: SliceWithStartOffset::new(&[], 0),
            values: SliceWithStartOffset::new(&[], 0),
            count: 0,
            _marker: PhantomData,
        };
        VectorOf { view }
    }
}
