//! Vectors in a buffer.

ghost use Rattle.std.specs.Prelude.{◌≡◌, ◌*◌, ◌≤◌, [], length, IfOk, IfErr};
ghost use Rattle.planus_read.specs.Slices.{slice_bytes};

use crate::copies::{CopyError, EachItem, EachRead, FromItem, copy_items};
use crate::vector_of::VectorOf;
use crate::view::{ReadView, View};
use planus_read::errors::ErrorKind;
use planus_read::{
    Error, SliceWithStartOffset, Stride, TableRead, VectorRead, VectorReadInner, array_from_buffer,
    array_unchecked,
};
use std::alloc::{AllocError, Global};
use std::marker::PhantomData;

/// A view of the items of a vector. In the format a vector is a count of 4 bytes, followed by its
/// items.
pub type Vector<'buf, T> = VectorOf<SliceView<'buf, T>>;

/// A view of items in a slice.
pub struct SliceView<'buf, T: Stride> {
    buffer: SliceWithStartOffset<'buf>,
    count: usize,
    _marker: PhantomData<T>,
    ghost inside: { count * T.Stands.SIZE ≤ length (slice_bytes buffer) },
}

impl<'buf, T: Stride> Clone for SliceView<'buf, T> {
    ghost use Rattle.std.specs.Prelude.{⊤};

    ghost is_clone = { λ view copy. copy ≡ view };

    ghost is_infallible = { λ _. ⊤ };

    #[inline]
    fn clone(&self) -> Result<Self, AllocError> {
        Ok(*self)
    }
}

impl<'buf, T: Stride> Copy for SliceView<'buf, T> {}

impl<'buf, T: Stride> View for SliceView<'buf, T> {
    ghost use Rattle.planus_view.specs.SliceViews.{slice_count, slice_view, IsSubSlice};
    ghost use Rattle.planus_view.specs.SubViews.{sub_view_count, sub_view_twice};

    ghost count = { slice_count };

    ghost is_sub_view = { IsSubSlice T.Stands.SIZE };

    ghost sub_view_count = { λ v u lo hi is.
        sub_view_count T.Stands.SIZE (slice_view v) (slice_view u) lo hi is };

    ghost sub_view_twice = { λ v u w lo hi a b is also.
        sub_view_twice T.Stands.SIZE (slice_view v) (slice_view u) (slice_view w) lo hi a b is
        also };

    #[inline]
    fn len(&self) -> usize {
        self.count
    }

    #[inline]
    fn sub_view(&self, lo: usize, hi: usize) -> SliceView<'buf, T> {
        SliceView {
            buffer: self.buffer.unchecked_advance(lo * T::stride()),
            count: hi - lo,
            _marker: PhantomData,
        }
    }
}

impl<'buf, T: VectorRead<'buf>> ReadView for SliceView<'buf, T> {
    type Item = T;

    type Copied = EachItem;

    ghost use Rattle.planus_view.specs.SliceViews.{IsItemOfSlice};

    ghost is_item = { IsItemOfSlice T.Stands.SIZE T.gives };

    #[inline]
    fn item(&self, position: usize) -> T {
        T::from_buffer(self.buffer, position * T::stride())
    }
}

impl<'buf, T: Stride> TableRead<'buf> for Vector<'buf, T> {
    ghost use Rattle.planus_read.specs.Clauses.{Answer, shown};
    ghost use Rattle.planus_read.specs.Reading.{vector_reading};
    ghost use Rattle.planus_view.specs.VectorView.{ShowsVector};

    ghost reads = { λ S start f r.
        Answer (shown (ShowsVector S start) (vector_reading S f T.Stands.SIZE)) r };

    #[inline]
    fn from_buffer(
        buffer: SliceWithStartOffset<'buf>,
        offset: usize,
    ) -> Result<Vector<'buf, T>, ErrorKind> {
        let (items, count) = array_from_buffer(buffer, offset)?;
        let count = count as usize;
        match count.checked_mul(T::stride()) {
            Some(size) if size <= items.len() => {
                let view = SliceView {
                    buffer: items,
                    count,
                    _marker: PhantomData,
                };
                Ok(VectorOf { view })
            }
            _ => Err(ErrorKind::InvalidLength),
        }
    }
}

impl<'buf, T: Stride> Vector<'buf, T> {
    ghost use Rattle.std.specs.Prelude.{Ok};
    ghost use Rattle.planus_read.specs.Clauses.{AllHold, Answer, shown};
    ghost use Rattle.planus_read.specs.Reading.{vector_clauses, vector_reading};
    ghost use Rattle.planus_read.specs.Slices.{slice_start};
    ghost use Rattle.planus_view.specs.VectorView.{view_of, ShowsVector};

    /// Returns the vector to which the reference at the offset leads, without tests. Requires all
    /// clauses of its reading to hold.
    #[inline(always)]
    #[must_use]
    pub fn from_buffer_unchecked(
        buffer: SliceWithStartOffset<'buf>,
        offset: usize,
    ) -> Vector<'buf, T>
        requires { AllHold (vector_clauses (slice_bytes buffer) offset T.Stands.SIZE) }
        ensures { let S = slice_bytes buffer.entry in let start = slice_start buffer.entry in
            Answer (shown (ShowsVector S start) (vector_reading S offset T.Stands.SIZE))
            (Ok result) }
    {
        let (items, count) = array_unchecked(buffer, offset);
        let view = SliceView {
            buffer: items,
            count,
            _marker: PhantomData,
        };
        VectorOf { view }
    }

    /// Returns the bytes from the first item on.
    #[inline(always)]
    #[must_use]
    pub fn items(&self) -> SliceWithStartOffset<'buf>
        ensures bytes { slice_bytes result ≡ (view_of self.now).bytes }
        ensures start { slice_start result ≡ (view_of self.now).start }
    {
        self.view.buffer
    }

    /// Returns an empty vector with start 0.
    #[inline]
    #[must_use]
    pub fn new_empty() -> Vector<'buf, T>
        ensures { view_of result ≡ record { bytes = []; start = 0; count = 0 } }
    {
        let view = SliceView {
            buffer: SliceWithStartOffset::new(&[], 0),
            count: 0,
            _marker: PhantomData,
        };
        VectorOf { view }
    }
}

impl<'buf, T: VectorReadInner<'buf> + Drop, E: From<T::Error> + Into<Error> + Drop> Vector<
    'buf,
    Result<T, E>,
> {
    ghost use Rattle.planus_read.specs.Converted.{Converted};
    ghost use Rattle.planus_view.specs.Copies.{AreAllConverted, IsRefusal, ReadConverts};
    ghost use Rattle.planus_view.specs.SliceViews.{IsSubSlice, IsItemOfSlice};
    ghost use Rattle.planus_view.specs.VectorView.{count_of};
    ghost use Rattle.planus_view.specs.Vectors.{IsSubVector, IsItemIn};

    /// Returns the values of all items, or the first error: of a conversion, [`CopyError::Read`],
    /// or [`CopyError::OutOfMemory`]. Memory is allocated once.
    pub fn to_vec_result<'n, O: FromItem<T> + Drop>(
        &self,
        alloc: Global,
    ) -> Result<Vec<O>, CopyError<'n>>
        ensures all { IfOk result (λ copies. AreAllConverted
            (IsSubVector (IsSubSlice T.Stands.SIZE))
            (IsItemIn (IsItemOfSlice T.Stands.SIZE
            (λ S start f r. Converted (T.gives S start f) E.from_gives r)))
            (ReadConverts O.converts E.converts) self.now (count_of self.now) copies.items) }
        ensures refused { IfErr result (λ e. IsRefusal (IsSubVector (IsSubSlice T.Stands.SIZE))
            (IsItemIn (IsItemOfSlice T.Stands.SIZE
            (λ S start f r. Converted (T.gives S start f) E.from_gives r)))
            (ReadConverts O.converts E.converts) self.now (count_of self.now) e) }
    {
        copy_items::<Vector<'buf, Result<T, E>>, O, EachRead>(alloc, self)
    }
}
