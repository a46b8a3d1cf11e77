//! Vectors of verified tables.

use crate::read_items::ReadItems;
use planus_views::{ReadVerified, Tables, VerifiedVector, ViewOf};

impl<'a, V: ViewOf<'a>, E> ReadItems<E> for Tables<'a, V> {
    type Item = V;

    ghost use Rattle.std.specs.Prelude.{IsOkAnd};

    ghost count = { ⟦<Tables<'a, V> as VerifiedVector>⟧.count };

    ghost is_item = { λ tables i r. IsOkAnd r (⟦<Tables<'a, V> as ReadVerified>⟧.is_item tables i) };

    #[inline]
    fn len(&self) -> usize {
        VerifiedVector::len(self)
    }

    #[inline]
    fn item(&self, index: usize) -> Result<V, E> {
        Ok(ReadVerified::item(self, index))
    }
}
