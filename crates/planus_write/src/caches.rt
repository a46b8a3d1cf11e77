//! Which contents a builder writes once.
ghost use Rattle.std.specs.Prelude.{◌≡◌, ◌-◌, ◌^◌, true};

/// Which contents a builder writes once, found by the hash of their bytes.
///
/// The hash has no secret: untrusted contents can be made to collide, which makes lookups slow.
/// Turn the cache off for them.
#[derive(Clone, Copy, Debug, PartialEq, Eq)]
pub struct Caches {
    /// Equal vtables.
    pub vtables: bool,
    /// Equal strings.
    pub texts: bool,
    /// Equal byte vectors, of `u8` or of `i8`.
    pub bytes: bool,
    /// The bits of a hash that are used. With 0 all hashes are equal, which only costs time.
    pub hash_mask: u64,
}

impl Caches {
    /// Returns settings with every cache on, using all bits of the hashes.
    pub const fn all() -> Caches
        ensures vtables { result.vtables ≡ true }
        ensures texts { result.texts ≡ true }
        ensures bytes { result.bytes ≡ true }
        ensures hash_mask { result.hash_mask ≡ 2 ^ 64 - 1 }
    {
        Caches {
            vtables: true,
            texts: true,
            bytes: true,
            hash_mask: u64::MAX,
        }
    }
}

impl Default for Caches {
    ghost is_default = { λ caches. caches
        ≡ record { vtables = true; texts = true; bytes = true; hash_mask = 2 ^ 64 - 1 } };

    #[inline]
    fn default() -> Caches {
        Caches::all()
    }
}
