//! A union whose value is written with it.
ghost use Rattle.std.specs.Prelude.{Some, ◌<◌};
ghost use Rattle.planus_fields.specs.Fields.{AlwaysWritten};
ghost use Rattle.planus_fields.specs.lemmas.FieldLaws.{left_out_is_lawful};
ghost use Rattle.planus_fields.specs.lemmas.UnionContentLaws.{always_union_prepared};
ghost use Rattle.planus.specs.Variants.{WritesVariant};
ghost use Rattle.planus.specs.lemmas.VariantLaws.{variant_is_lawful, variant_prepared};

use planus_fields::{WriteAs, WriteAsOptionalUnion};
use planus_write::{BuildError, Builder, Offset, UnionOffset, WriteAsUnion};
use std::marker::PhantomData;

/// A union with the tag `TAG`, above 0, and a value encoded as a `K`, which is written with it
/// unless it was written before. [`variant`](crate::variant) creates one.
#[derive(Drop)]
#[derive_where(Debug; V)]
pub struct Variant<const TAG: u8, K, V> {
    /// The value.
    pub value: V,
    #[derive_where(skip)]
    pub _marker: PhantomData<K>,
    // Tag 0 means no union.
    ghost is_tagged: { 0 < TAG },
}

/// Creates a [`Variant`] from `TAG: KIND = VALUE`.
#[macro_export]
macro_rules! variant {
    ($tag:literal: $kind:ty = $value:expr) => {
        $crate::Variant::<$tag, $kind, _> {
            value: $value,
            _marker: std::marker::PhantomData,
        }
    };
}

impl<T, const TAG: u8, K, V: WriteAs<Offset<K>, Prepared = Offset<K>>> WriteAsUnion<T>
    for Variant<TAG, K, V> {
    ghost may = { λ variant old. V.may variant.value old };

    ghost outcome = { λ variant old answer new.
        WritesVariant TAG (V.outcome variant.value) old answer new };

    ghost content = { λ variant. (TAG, V.content variant.value) };

    #[inline]
    fn prepare(&self, builder: &mut Builder) -> Result<UnionOffset<T>, BuildError> {
        let offset = self.value.prepare(builder)?;
        Ok(UnionOffset::new(TAG, offset.downcast()))
    }

    ghost is_lawful = { variant_is_lawful TAG (λ variant. variant.value) V.is_lawful };

    ghost has_content = { variant_prepared TAG (λ variant. variant.value) V.has_content };
}

impl<T, const TAG: u8, K, V: WriteAs<Offset<K>, Prepared = Offset<K>>> WriteAsOptionalUnion<T>
    for Variant<TAG, K, V> {
    ghost may = { λ variant old. V.may variant.value old };

    ghost outcome = { λ variant old answer new.
        AlwaysWritten (WritesVariant TAG (V.outcome variant.value)) old answer new };

    ghost content = { λ variant. Some (TAG, V.content variant.value) };

    #[inline]
    fn prepare(&self, builder: &mut Builder) -> Result<Option<UnionOffset<T>>, BuildError> {
        match WriteAsUnion::prepare(self, builder) {
            Ok(union) => Ok(Some(union)),
            Err(error) => Err(error),
        }
    }

    ghost is_lawful = { left_out_is_lawful (λ variant. ⊥)
        (variant_is_lawful TAG (λ variant. variant.value) V.is_lawful) };

    ghost has_content = { always_union_prepared
        (variant_prepared TAG (λ variant. variant.value) V.has_content) };
}
