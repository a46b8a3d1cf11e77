//! Union vectors that are written already.
ghost use Rattle.std.specs.Prelude.{◌≤◌, length};
ghost use Rattle.planus_write.specs.Preparing.{Answers};
ghost use Rattle.planus_write.specs.Unions.{union_vector_reach};
ghost use Rattle.planus_write.specs.lemmas.UnionLaws.{union_vector_offset_is_lawful};

use crate::builder::Builder;
use crate::errors::BuildError;
use crate::traits::WriteAsUnionVector;
use crate::union_vector_offset::UnionVectorOffset;

impl<T> WriteAsUnionVector<T> for UnionVectorOffset<T> {
    ghost may = { λ vector old. union_vector_reach vector ≤ length old.bytes };

    ghost outcome = { Answers };

    #[inline]
    fn prepare(&self, _builder: &mut Builder) -> Result<UnionVectorOffset<T>, BuildError> {
        Ok(*self)
    }

    ghost is_lawful = { union_vector_offset_is_lawful };
}
