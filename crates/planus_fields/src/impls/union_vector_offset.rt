//! Union vectors that are written already.
ghost use Rattle.std.specs.Prelude.{◌≤◌, length, Some};
ghost use Rattle.planus_write.specs.Preparing.{Answers};
ghost use Rattle.planus_write.specs.Unions.{union_vector_reach};
ghost use Rattle.planus_write.specs.lemmas.UnionLaws.{union_vector_offset_is_lawful};
ghost use Rattle.planus_fields.specs.Fields.{AlwaysWritten};
ghost use Rattle.planus_fields.specs.lemmas.FieldLaws.{left_out_is_lawful};
ghost use Rattle.planus_write.specs.Contents.{written_tags, written_values};
ghost use Rattle.planus_fields.specs.lemmas.UnionContentLaws.{union_vector_offset_prepared};

use crate::traits::{WriteAsDefaultUnionVector, WriteAsOptionalUnionVector};
use planus_write::{BuildError, Builder, UnionVectorOffset};

impl<T> WriteAsDefaultUnionVector<T> for UnionVectorOffset<T> {
    ghost may = { λ vector old. union_vector_reach vector ≤ length old.bytes };

    ghost outcome = { λ vector old answer new. AlwaysWritten (Answers vector) old answer new };

    ghost contents = { λ vector.
        Some (written_tags vector.tags.distance, written_values vector.values.distance) };

    #[inline]
    fn prepare(&self, _builder: &mut Builder) -> Result<Option<UnionVectorOffset<T>>, BuildError> {
        Ok(Some(*self))
    }

    ghost is_lawful = { left_out_is_lawful (λ vector. ⊥) union_vector_offset_is_lawful };

    ghost has_contents = { union_vector_offset_prepared };
}

impl<T> WriteAsOptionalUnionVector<T> for UnionVectorOffset<T> {
    ghost may = { λ vector old. union_vector_reach vector ≤ length old.bytes };

    ghost outcome = { λ vector old answer new. AlwaysWritten (Answers vector) old answer new };

    ghost contents = { λ vector.
        Some (written_tags vector.tags.distance, written_values vector.values.distance) };

    #[inline]
    fn prepare(&self, _builder: &mut Builder) -> Result<Option<UnionVectorOffset<T>>, BuildError> {
        Ok(Some(*self))
    }

    ghost is_lawful = { left_out_is_lawful (λ vector. ⊥) union_vector_offset_is_lawful };

    ghost has_contents = { union_vector_offset_prepared };
}
