//! Boxed values.
ghost use Rattle.planus_write.specs.lemmas.Laws.{lawful_of};
ghost use Rattle.planus_write.specs.lemmas.UnionContentLaws.{union_item_prepared_as};

use crate::builder::Builder;
use crate::errors::BuildError;
use crate::offset::Offset;
use crate::traits::{WriteAsOffset, WriteAsUnion};
use crate::union_offset::UnionOffset;

impl<P, T: WriteAsOffset<P>> WriteAsOffset<P> for Box<T> {
    ghost may = { λ boxed old. T.may boxed.value old };

    ghost outcome = { λ boxed old answer new. T.outcome boxed.value old answer new };

    #[inline]
    fn prepare(&self, builder: &mut Builder) -> Result<Offset<P>, BuildError> {
        (**self).prepare(builder)
    }

    ghost is_lawful = { lawful_of (λ boxed. boxed.value) T.is_lawful };
}

impl<P, T: WriteAsUnion<P>> WriteAsUnion<P> for Box<T> {
    ghost may = { λ boxed old. T.may boxed.value old };

    ghost outcome = { λ boxed old answer new. T.outcome boxed.value old answer new };

    ghost content = { λ boxed. T.content boxed.value };

    #[inline]
    fn prepare(&self, builder: &mut Builder) -> Result<UnionOffset<P>, BuildError> {
        (**self).prepare(builder)
    }

    ghost is_lawful = { lawful_of (λ boxed. boxed.value) T.is_lawful };

    ghost has_content = { union_item_prepared_as (λ boxed. boxed.value) T.has_content };
}
