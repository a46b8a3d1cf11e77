//! What can be written as a field.
//!
//! The ghost members `may`, the precondition, and `outcome` of each trait are as in
//! [`planus_write::WriteAsOffset`], and so is their law.
ghost use Rattle.std.specs.Prelude.{ℕ, Option as option, Result};
ghost use Rattle.planus_write.specs.Contents.{Content, PreparesContent};
ghost use Rattle.planus_fields.specs.Contents.{PreparesOptional};
ghost use Rattle.planus_fields.specs.Contents.{PreparesUnion, PreparesUnionVector};
ghost use Rattle.planus_write.specs.State.{State};
ghost use Rattle.planus_write.specs.Preparing.{IsLawful};
ghost use Rattle.planus_write.specs.Unions.{union_reach, union_vector_reach};
ghost use Rattle.planus_write.specs.declared.errors.BuildError.{BuildError};
ghost use Rattle.planus_write.specs.declared.union_offset.UnionOffset.{UnionOffset};
ghost use Rattle.planus_write.specs.declared.union_vector_offset.UnionVectorOffset.{};
ghost use Rattle.planus_write.specs.declared.union_vector_offset.UnionVectorOffset.{UnionVectorOffset};
ghost use Rattle.planus_fields.specs.Fields.{reach_if};

use planus_write::{
    BuildError, Builder, Primitive, UnionOffset, UnionVectorOffset, WriteAsPrimitive,
};

/// What can be written as a field that is always present.
pub trait WriteAs<P: Primitive> {
    /// What the table holds.
    type Prepared: WriteAsPrimitive<P> + Drop;

    ghost may: { Self → State → Type 0 };

    ghost outcome: { Self → State → Result Self.Prepared BuildError → State → Type 0 };

    ghost content: { Self → Content };

    /// Writes what the field refers to, unless that is written already. Fails as
    /// [`planus_write::WriteAsOffset::prepare`] does.
    fn prepare(&self, builder: &mut Builder) -> std::result::Result<Self::Prepared, BuildError>
        requires { may self.now builder.old }
        ensures { outcome self.now builder.old result builder.new };

    ghost is_lawful: { IsLawful may outcome Self.Prepared.reach };

    ghost has_content: { PreparesContent may outcome content Self.Prepared.field };
}

/// What can be written as an optional field.
pub trait WriteAsOptional<P: Primitive> {
    /// What the table holds, if the field is present.
    type Prepared: WriteAsPrimitive<P> + Drop;

    ghost may: { Self → State → Type 0 };

    ghost outcome: { Self → State → Result (option Self.Prepared) BuildError → State → Type 0 };

    ghost content: { Self → option Content };

    /// Writes what the field refers to, as [`WriteAs::prepare`] does. With `None` nothing was
    /// written.
    fn prepare(
        &self,
        builder: &mut Builder,
    ) -> std::result::Result<Option<Self::Prepared>, BuildError>
        requires { may self.now builder.old }
        ensures { outcome self.now builder.old result builder.new };

    ghost is_lawful: { IsLawful may outcome (reach_if Self.Prepared.reach) };

    ghost has_content: { PreparesOptional may outcome content Self.Prepared.field };
}

/// What can be written as a field that is left out where it has its default.
pub trait WriteAsDefault<P: Primitive, D> {
    /// What the table holds, if the field is present.
    type Prepared: WriteAsPrimitive<P> + Drop;

    ghost may: { Self → State → Type 0 };

    ghost outcome: { Self → D → State → Result (option Self.Prepared) BuildError → State → Type 0 };

    ghost content: { Self → D → option Content };

    /// Writes what the field refers to, as [`WriteAs::prepare`] does. With `None` nothing was
    /// written.
    fn prepare(
        &self,
        builder: &mut Builder,
        default: &D,
    ) -> std::result::Result<Option<Self::Prepared>, BuildError>
        requires { may self.now builder.old }
        ensures { outcome self.now default.now builder.old result builder.new };

    ghost is_lawful: { (default : D)
        → IsLawful may (λ x. outcome x default) (reach_if Self.Prepared.reach) };

    ghost has_content: { (default : D) → PreparesOptional may
        (λ value old answer new. outcome value default old answer new)
        (λ value. content value default) Self.Prepared.field };
}

/// What can be written as an optional union.
pub trait WriteAsOptionalUnion<T> {
    ghost may: { Self → State → Type 0 };

    ghost outcome: { Self → State → Result (option (UnionOffset T)) BuildError → State → Type 0 };

    ghost content: { Self → option (ℕ × Content) };

    /// Writes the union's value, as [`planus_write::WriteAsUnion::prepare`] does. With `None`
    /// nothing was written.
    fn prepare(
        &self,
        builder: &mut Builder,
    ) -> std::result::Result<Option<UnionOffset<T>>, BuildError>
        requires { may self.now builder.old }
        ensures { outcome self.now builder.old result builder.new };

    ghost is_lawful: { IsLawful may outcome (reach_if union_reach) };

    ghost has_content: { PreparesUnion may outcome content };
}

/// What can be written as a union vector that is left out where it is empty.
pub trait WriteAsDefaultUnionVector<T> {
    ghost may: { Self → State → Type 0 };

    ghost outcome: { Self → State → Result (option (UnionVectorOffset T)) BuildError → State → Type
        0 };

    ghost contents: { Self → option (Content × Content) };

    /// Writes the vector, as [`planus_write::WriteAsUnionVector::prepare`] does. With `None`
    /// nothing was written.
    fn prepare(
        &self,
        builder: &mut Builder,
    ) -> std::result::Result<Option<UnionVectorOffset<T>>, BuildError>
        requires { may self.now builder.old }
        ensures { outcome self.now builder.old result builder.new };

    ghost is_lawful: { IsLawful may outcome (reach_if union_vector_reach) };

    ghost has_contents: { PreparesUnionVector may outcome contents };
}

/// What can be written as an optional union vector.
pub trait WriteAsOptionalUnionVector<T> {
    ghost may: { Self → State → Type 0 };

    ghost outcome: { Self → State → Result (option (UnionVectorOffset T)) BuildError → State → Type
        0 };

    ghost contents: { Self → option (Content × Content) };

    /// Writes the vector, as [`planus_write::WriteAsUnionVector::prepare`] does. With `None`
    /// nothing was written.
    fn prepare(
        &self,
        builder: &mut Builder,
    ) -> std::result::Result<Option<UnionVectorOffset<T>>, BuildError>
        requires { may self.now builder.old }
        ensures { outcome self.now builder.old result builder.new };

    ghost is_lawful: { IsLawful may outcome (reach_if union_vector_reach) };

    ghost has_contents: { PreparesUnionVector may outcome contents };
}
