//! Items whose read may fail.

ghost use Rattle.planus_read.specs.Converted.{Converted};

use crate::slice_helpers::SliceWithStartOffset;
use crate::traits::{Stride, VectorRead, VectorReadInner};

impl<T: Stride, E> Stride for Result<T, E> {
    type Stands = T::Stands;
}

impl<'buf, T: VectorReadInner<'buf>, E: From<T::Error>> VectorRead<'buf> for Result<T, E> {
    ghost gives = { λ S start f r. Converted (T.gives S start f) E.from_gives r };

    #[inline]
    fn from_buffer(buffer: SliceWithStartOffset<'buf>, offset: usize) -> Result<T, E> {
        Ok(T::from_buffer(buffer, offset)?)
    }
}
