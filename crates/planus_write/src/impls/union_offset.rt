//! Unions that are written already.
ghost use Rattle.planus_write.specs.InBuilder.{IsIn};
ghost use Rattle.planus_write.specs.Preparing.{Answers};
ghost use Rattle.planus_write.specs.lemmas.UnionLaws.{union_offset_is_lawful};
ghost use Rattle.planus_write.specs.Contents.{written_union};
ghost use Rattle.planus_write.specs.lemmas.UnionContentLaws.{written_union_prepared};

use crate::builder::Builder;
use crate::errors::BuildError;
use crate::traits::WriteAsUnion;
use crate::union_offset::UnionOffset;

impl<T> WriteAsUnion<T> for UnionOffset<T> {
    ghost may = { λ union old. IsIn old union.offset };

    ghost outcome = { Answers };

    ghost content = { written_union };

    #[inline]
    fn prepare(&self, _builder: &mut Builder) -> Result<UnionOffset<T>, BuildError> {
        Ok(*self)
    }

    ghost is_lawful = { union_offset_is_lawful };

    ghost has_content = { written_union_prepared };
}
