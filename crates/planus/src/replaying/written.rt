//! What a step wrote.

use planus_write::{Offset, UnionVectorOffset};

/// A union vector has two offsets.
#[derive(Clone, Copy)]
pub(crate) enum Written {
    Value(Offset<()>),
    Unions(UnionVectorOffset<()>),
}

impl Written {
    ghost use Rattle.std.specs.Prelude.{◌≡◌};
    ghost use Rattle.planus.specs.inner.Names.{written_named};

    /// For a union vector, the distance of its references.
    pub(crate) fn distance(&self) -> u32
        ensures { result ≡ (written_named self.now).distance }
    {
        match self {
            Written::Value(offset) => offset.distance(),
            Written::Unions(vector) => vector.values_offset().distance(),
        }
    }

    pub(crate) fn tags(&self) -> Option<u32>
        ensures { result ≡ (written_named self.now).tags }
    {
        match self {
            Written::Value(_) => None,
            Written::Unions(vector) => Some(vector.tags_offset().distance()),
        }
    }
}
