//! Vectors that can be searched.

ghost use Rattle.std.specs.Prelude.{◌≡◌, ℕ, ◌<◌, Result as std_result};

/// A vector of items, which are read by index, perhaps with an error of type `E`.
pub trait ReadItems<E> {
    /// What an item is read as.
    type Item;

    ghost count: { Self → ℕ };

    ghost is_item: { Self → ℕ → std_result Self.Item E → Type 0 };

    /// Returns the number of items.
    fn len(&self) -> usize
        ensures { result ≡ count self.now };

    /// Returns the item at an index in bounds. Fails as its read.
    fn item(&self, index: usize) -> Result<Self::Item, E>
        requires { index < Self.count self.now }
        ensures { is_item self.now index result };
}
