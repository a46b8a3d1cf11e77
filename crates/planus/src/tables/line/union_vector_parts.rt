//! The references to the tags and the values of a union vector.
ghost use Rattle.std.specs.Prelude.{◌≡◌};
ghost use Rattle.std.specs.Option.{option_map};
ghost use Rattle.planus_read.specs.Values.{tags, values};
ghost use Rattle.planus_write.specs.Items.{reference_item};
ghost use Rattle.planus_write.specs.lemmas.FieldItemLaws.{tags_are_item, values_are_item};

use planus_write::{List, Offset, UnionVectorOffset, WriteAsPrimitive};

/// A reference to the tags of a union vector.
#[derive(Clone, Copy)]
pub struct TagsField(Offset<List<u8>>);

impl WriteAsPrimitive<Offset<List<u8>>> for TagsField {
    ghost reach = { λ field. field.0.distance };

    ghost encoding = { λ field. reference_item field.0.distance };

    ghost field = { λ field. tags field.0.distance };

    #[inline(always)]
    fn write(&self, bytes: &mut [u8], place: u32) {
        self.0.write(bytes, place);
    }

    ghost is_item = { λ field. tags_are_item field.0.distance };
}

/// A reference to the values of a union vector.
#[derive(Clone, Copy)]
pub struct ValuesField(Offset<List<Offset<()>>>);

impl WriteAsPrimitive<Offset<List<Offset<()>>>> for ValuesField {
    ghost reach = { λ field. field.0.distance };

    ghost encoding = { λ field. reference_item field.0.distance };

    ghost field = { λ field. values field.0.distance };

    #[inline(always)]
    fn write(&self, bytes: &mut [u8], place: u32) {
        self.0.write(bytes, place);
    }

    ghost is_item = { λ field. values_are_item field.0.distance };
}

#[inline(always)]
pub(crate) fn tags_of<T>(vector: &Option<UnionVectorOffset<T>>) -> Option<TagsField>
    ensures { result ≡ option_map (λ vector. record { 0 = vector.tags }) vector.now }
{
    match vector {
        None => None,
        Some(vector) => Some(TagsField(vector.tags_offset())),
    }
}

#[inline(always)]
pub(crate) fn values_of<T>(vector: &Option<UnionVectorOffset<T>>) -> Option<ValuesField>
    ensures { result ≡ option_map (λ vector. record { 0 = vector.values }) vector.now }
{
    match vector {
        None => None,
        Some(vector) => Some(ValuesField(vector.values_offset())),
    }
}
