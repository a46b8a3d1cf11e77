//! What can be written.
ghost use Rattle.std.specs.Prelude.{◌≡◌, ◌≤◌, ◌*◌, ℕ, List, length, map, Result, Ok, MatchOption};
ghost use Rattle.planus_read.specs.Values.{Field};
ghost use Rattle.planus_write.specs.Contents.{Content, PreparesUnionItem};
ghost use Rattle.planus_write.specs.FieldItems.{IsItem};
ghost use Rattle.planus_write.specs.ListContents.{ListHasContent};
ghost use Rattle.planus_write.specs.Parts.{items_bytes};
ghost use Rattle.planus_write.specs.Items.{Item};
ghost use Rattle.planus_write.specs.Placing.{Outcome};
ghost use Rattle.planus_read.specs.Plain.{IsLayout};
ghost use Rattle.planus_write.specs.Preparing.{IsLawful, AreLawful, MayStand};
ghost use Rattle.planus_write.specs.Preparing.{PreparesItems};
ghost use Rattle.planus_write.specs.State.{State};
ghost use Rattle.planus_write.specs.declared.errors.BuildError.{BuildError};
ghost use Rattle.planus_write.specs.declared.offset.Offset.{Offset};
ghost use Rattle.planus_write.specs.declared.union_offset.UnionOffset.{UnionOffset};
ghost use Rattle.planus_write.specs.declared.union_vector_offset.UnionVectorOffset.{};
ghost use Rattle.planus_write.specs.declared.union_vector_offset.UnionVectorOffset.{UnionVectorOffset};
ghost use Rattle.planus_write.specs.Unions.{union_reach, union_vector_reach};

use crate::builder::Builder;
use crate::errors::BuildError;
use crate::offset::Offset;
use crate::union_offset::UnionOffset;
use crate::union_vector_offset::UnionVectorOffset;

/// What is encoded with a fixed size in a table or a vector: a number, a bool or a reference.
pub trait Primitive: Sized {
    ghost ALIGNMENT: { ℕ };

    ghost SIZE: { ℕ };

    /// Its alignment in bytes from the start of a buffer.
    const ALIGNMENT: usize;

    /// One less than [`Primitive::ALIGNMENT`]. Nothing here reads it.
    const ALIGNMENT_MASK: usize = Self::ALIGNMENT - 1;

    /// Its size in bytes.
    const SIZE: usize;

    /// The alignment is a power of two up to 2^30, and the size a positive multiple of it.
    ghost is_layout: { IsLayout SIZE ALIGNMENT };

    ghost is_small: { ALIGNMENT ≤ 1073741824 };
}

/// A value that is written in place as a `P`.
///
/// `reach` is the distance in bytes from the end to which it refers, 0 for a number or a bool.
/// `encoding` names the bytes written, by their place.
pub trait WriteAsPrimitive<P: Primitive> {
    ghost reach: { Self → ℕ };

    ghost encoding: { Self → Item };

    ghost field: { Self → Field };

    /// Writes all `P::SIZE` bytes of `bytes`. `place` is the distance in bytes from the end of the
    /// buffer to the first; a reference leads to a later byte.
    fn write(&self, bytes: &mut [u8], place: u32)
        requires size { length bytes.old ≡ P.SIZE }
        requires reach { reach self.now ≤ place }
        ensures { bytes.new ≡ encoding self.now place };

    ghost is_item: { (value : Self)
        → IsItem P.SIZE P.ALIGNMENT (encoding value) (reach value) (field value) };
}

/// A value that a builder can write as one of kind `T`.
///
/// `may` is the precondition: every offset in the value is in the builder's bytes. `outcome` is
/// what preparing it does.
pub trait WriteAsOffset<T> {
    ghost may: { Self → State → Type 0 };

    ghost outcome: { Self → State → Result (Offset T) BuildError → State → Type 0 };

    /// Writes the value, unless it is an offset already, and returns its offset.
    ///
    /// Fails with [`BuildError::TooLarge`] if a part's place would be above 2147483647 bytes from
    /// the end, and with [`BuildError::OutOfMemory`] if an allocation fails. What was written
    /// before the failed write stays.
    fn prepare(&self, builder: &mut Builder) -> std::result::Result<Offset<T>, BuildError>
        requires { may self.now builder.old }
        ensures { outcome self.now builder.old result builder.new };

    ghost is_lawful: { IsLawful may outcome (λ offset. offset.distance) };
}

/// A value that a builder can write as a union of kind `T`. `may` and `outcome` are as in
/// [`WriteAsOffset`].
pub trait WriteAsUnion<T> {
    ghost may: { Self → State → Type 0 };

    ghost outcome: { Self → State → Result (UnionOffset T) BuildError → State → Type 0 };

    ghost content: { Self → ℕ × Content };

    /// Writes the variant's value, unless it is written already, and returns its tag and offset.
    /// Fails like [`WriteAsOffset::prepare`].
    fn prepare(&self, builder: &mut Builder) -> std::result::Result<UnionOffset<T>, BuildError>
        requires { may self.now builder.old }
        ensures { outcome self.now builder.old result builder.new };

    ghost is_lawful: { IsLawful may outcome union_reach };

    ghost has_content: { PreparesUnionItem may outcome content };
}

/// A value that a builder can write as a union vector of kind `T`. `may` and `outcome` are as in
/// [`WriteAsOffset`].
pub trait WriteAsUnionVector<T> {
    ghost may: { Self → State → Type 0 };

    ghost outcome: { Self → State → Result (UnionVectorOffset T) BuildError → State → Type 0 };

    /// Writes the references and before them the tags, unless they are written already, and returns
    /// both offsets. Fails like [`Builder::create_union_vector`].
    fn prepare(
        &self,
        builder: &mut Builder,
    ) -> std::result::Result<UnionVectorOffset<T>, BuildError>
        requires { may self.now builder.old }
        ensures { outcome self.now builder.old result builder.new };

    ghost is_lawful: { IsLawful may outcome union_vector_reach };
}

/// A value that a builder can write as an item of a vector of `P`. `may` and `outcome` are as in
/// [`WriteAsOffset`], and `all_may` and `prepares` are of all items.
pub trait VectorWrite<P: Primitive>: Sized {
    /// The prepared item, as encoded in the vector.
    type Value: WriteAsPrimitive<P> + Drop;

    ghost STRIDE: { ℕ };

    ghost may: { Self → State → Type 0 };

    ghost outcome: { Self → State → Result Self.Value BuildError → State → Type 0 };

    ghost all_may: { List Self → State → Type 0 };

    ghost prepares: { List Self → Outcome (List Self.Value) };

    ghost list: { List Self → Content };

    /// Returns the number of bytes from one item to the next.
    fn stride() -> usize
        ensures { result ≡ STRIDE };

    /// Writes what the item refers to, unless it is written already. Fails like
    /// [`WriteAsOffset::prepare`].
    fn prepare(&self, builder: &mut Builder) -> std::result::Result<Self::Value, BuildError>
        requires { may self.now builder.old }
        ensures { outcome self.now builder.old result builder.new };

    /// Returns the items themselves if they need no preparing, like numbers, bools and offsets: a
    /// vector then takes no memory for prepared ones.
    fn as_prepared(items: &[Self]) -> Option<&[Self::Value]>
        ensures { MatchOption result
            ((old new : State) (answer : Result (List Self.Value) BuildError)
            → PreparesItems outcome items.now old answer new
            → prepares items.now old answer new)
            (λ values. (old : State) → prepares items.now old (Ok values.now) old) };

    /// Writes all of `bytes`: the items one after another, [`VectorWrite::stride`] bytes each.
    /// `place` is the distance in bytes from the end of the buffer to the first.
    fn write_values(values: &[Self::Value], bytes: &mut [u8], place: u32)
        requires size { length bytes.old ≡ length values.now * STRIDE }
        requires may { MayStand Self.Value.reach STRIDE place values.now }
        ensures { bytes.new ≡ items_bytes STRIDE place (map Self.Value.encoding values.now) };

    ghost is_size: { STRIDE ≡ P.SIZE };

    ghost is_lawful: { IsLawful may outcome Self.Value.reach };

    ghost are_lawful: { AreLawful may outcome all_may prepares Self.Value.reach };

    ghost has_list: { ListHasContent all_may prepares Self.Value.encoding P.SIZE P.ALIGNMENT list };
}
