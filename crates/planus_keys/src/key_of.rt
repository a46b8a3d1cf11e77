//! Which part of an item is its key.

ghost use Rattle.std.specs.Prelude.{Result as std_result};

/// The choice of a key of items, such as one field of a table by which its vector is sorted.
pub trait KeyOf<T> {
    /// The type of the key.
    type Key;

    /// Why an item, or its key, can't be read.
    type Error;

    ghost is_key: { Self → T → std_result Self.Key Self.Error → Type 0 };

    /// Returns the key of an item. Fails as its read.
    fn key(&self, item: &T) -> Result<Self::Key, Self::Error>
        ensures { is_key self.now item.now result };
}
