//! What later steps may name.
ghost use Rattle.std.specs.Prelude.{◌≡◌, map};
ghost use Rattle.std.specs.Option.{option_map};
ghost use Rattle.planus.specs.Steps.{content_of};
ghost use Rattle.planus.specs.Kinds.{a_value, a_union_vector};
ghost use Rattle.planus.specs.inner.Names.{name_of, offset_named, vector_named, written_at};
ghost use Rattle.planus.specs.inner.Names.{FindsNamed};
ghost use Rattle.planus.specs.inner.Prepared.{PreparesField, PreparesUnion};

use crate::replaying::faults::Why;
use crate::replaying::prepared_field::PreparedField;
use crate::replaying::steps::FieldValue;
use crate::replaying::struct_bytes::StructBytes;
use crate::replaying::written::Written;
use planus_write::{Offset, UnionOffset, UnionVectorOffset};

/// The steps since the last clear, which are numbered from `first` on.
#[derive(Clone, Copy)]
pub(crate) struct NamedSteps<'a> {
    pub(crate) first: usize,
    pub(crate) offsets: &'a [Option<Written>],
}

impl<'a> NamedSteps<'a> {
    pub(crate) fn value(&self, step: usize) -> Result<Offset<()>, Why>
        ensures { FindsNamed a_value offset_named self.now.first (map name_of self.now.offsets.now)
            step result }
    {
        match self.written(step) {
            None => Err(Why::NoSuchStep),
            Some(Some(Written::Value(offset))) => Ok(offset),
            Some(_) => Err(Why::WrongKind),
        }
    }

    fn unions(&self, step: usize) -> Result<UnionVectorOffset<()>, Why>
        ensures { FindsNamed a_union_vector vector_named self.now.first
            (map name_of self.now.offsets.now) step result }
    {
        match self.written(step) {
            None => Err(Why::NoSuchStep),
            Some(Some(Written::Unions(vector))) => Ok(vector),
            Some(_) => Err(Why::WrongKind),
        }
    }

    fn written(&self, step: usize) -> Option<Option<Written>>
        ensures { option_map name_of result
            ≡ written_at self.now.first (map name_of self.now.offsets.now) step }
    {
        if step < self.first {
            return None;
        }
        let offsets = self.offsets;
        offsets.get(step - self.first).copied()
    }

    pub(crate) fn union(&self, item: (u8, usize)) -> Result<UnionOffset<()>, Why>
        ensures { PreparesUnion self.now.first (map name_of self.now.offsets.now) item result }
    {
        let (tag, step) = item;
        if tag == 0 {
            return Err(Why::ZeroTag);
        }
        Ok(UnionOffset::new(tag, self.value(step)?))
    }

    pub(crate) fn prepare<'b>(&self, value: &'b FieldValue) -> Result<PreparedField<'b>, Why>
        ensures { PreparesField self.now.first (map name_of self.now.offsets.now)
            (content_of value.now) result }
    {
        match value {
            FieldValue::Number { width, value } => PreparedField::number(*width, *value),
            FieldValue::Plain { alignment, bytes } => {
                let part = StructBytes::checked(*alignment, bytes.as_slice())?;
                Ok(PreparedField::Struct(part))
            }
            FieldValue::Ref(step) => Ok(PreparedField::Reference(self.value(*step)?)),
            FieldValue::Tags(step) => {
                Ok(PreparedField::Tags(self.unions(*step)?.tags_offset().downcast()))
            }
            FieldValue::Values(step) => {
                Ok(PreparedField::Values(self.unions(*step)?.values_offset().downcast()))
            }
        }
    }
}
