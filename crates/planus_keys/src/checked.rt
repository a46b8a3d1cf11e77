//! Vectors whose items are tested as they are read.

use crate::read_items::ReadItems;
use planus::{ReadError, Vector, VectorReadInner};
use planus_view::{ReadView, View};

impl<'a, T, E> ReadItems<E> for Vector<'a, Result<T, E>>
where
    T: VectorReadInner<'a> + ReadError<Error = E>,
{
    type Item = T;

    ghost count = { ⟦<Vector<'a, Result<T, E>> as View>⟧.count };

    ghost is_item = { ⟦<Vector<'a, Result<T, E>> as ReadView>⟧.is_item };

    #[inline]
    fn len(&self) -> usize {
        View::len(self)
    }

    #[inline]
    fn item(&self, index: usize) -> Result<T, E> {
        ReadView::item(self, index)
    }
}
