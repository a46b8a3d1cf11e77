//! Views of items.

ghost use Rattle.std.specs.Prelude.{◌≡◌, ℕ, ◌+◌, ◌-◌, ◌<◌, ◌≤◌};

/// A view of items at positions from 0 on; every range is a view too.
pub trait View: Copy {
    ghost count: { Self → ℕ };

    ghost is_sub_view: { Self → ℕ → ℕ → Self → Type 0 };

    /// Returns the number of items.
    fn len(&self) -> usize
        ensures { result ≡ count self.now };

    /// Returns the sub-view from `lo` up to `hi`.
    fn sub_view(&self, lo: usize, hi: usize) -> Self
        requires order { lo ≤ hi }
        requires inside { hi ≤ count self.now }
        ensures { is_sub_view self.now lo hi result };

    ghost sub_view_count: { (v u : Self) (lo hi : ℕ) → is_sub_view v lo hi u → count u ≡ hi - lo };

    ghost sub_view_twice: { (v u w : Self) (i j a b : ℕ) → is_sub_view v i j u → is_sub_view u a b w
        → is_sub_view v (i + a) (i + b) w };
}

/// A view whose items can be read.
pub trait ReadView: View {
    /// What an item is read as.
    type Item;

    /// How items are converted when copied.
    type Copied;

    ghost is_item: { Self → ℕ → Self.Item → Type 0 };

    /// Returns the item at the position.
    fn item(&self, position: usize) -> Self::Item
        requires { position < Self.count self.now }
        ensures { is_item self.now position result };
}
