//! Unions that are written already.
ghost use Rattle.std.specs.Prelude.{◌≤◌, length, Some};
ghost use Rattle.planus_write.specs.Preparing.{Answers};
ghost use Rattle.planus_write.specs.Unions.{union_reach};
ghost use Rattle.planus_write.specs.lemmas.UnionLaws.{union_offset_is_lawful};
ghost use Rattle.planus_fields.specs.Fields.{AlwaysWritten};
ghost use Rattle.planus_fields.specs.lemmas.FieldLaws.{left_out_is_lawful};
ghost use Rattle.planus_write.specs.Contents.{written_union};
ghost use Rattle.planus_write.specs.lemmas.UnionContentLaws.{written_union_prepared};
ghost use Rattle.planus_fields.specs.lemmas.UnionContentLaws.{always_union_prepared};

use crate::traits::WriteAsOptionalUnion;
use planus_write::{BuildError, Builder, UnionOffset};

impl<T> WriteAsOptionalUnion<T> for UnionOffset<T> {
    ghost may = { λ union old. union_reach union ≤ length old.bytes };

    ghost outcome = { λ union old answer new. AlwaysWritten (Answers union) old answer new };

    ghost content = { λ union. Some (written_union union) };

    #[inline]
    fn prepare(&self, _builder: &mut Builder) -> Result<Option<UnionOffset<T>>, BuildError> {
        Ok(Some(*self))
    }

    ghost is_lawful = { left_out_is_lawful (λ union. ⊥) union_offset_is_lawful };

    ghost has_content = { always_union_prepared written_union_prepared };
}
