//! Laws of look-up by key. Each function is a theorem.

ghost use Rattle.planus_keys.specs.Finds.{RisingKeysPartition, SortedKeysRise};

/// Where keys rise, those below a key come first, and those above it last: numbers, and strings by
/// their bytes.
pub fn rising_keys_partition<K: Ord>()
    ensures { RisingKeysPartition K.cmp }
{}

/// The keys rise of what [`in_key_order`](crate::in_key_order) leaves sorted.
pub fn sorted_keys_rise<K: Ord, X>()
    ensures { SortedKeysRise X K.cmp }
{}
