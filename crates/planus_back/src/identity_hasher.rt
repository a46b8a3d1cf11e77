//! The identity hasher, for a map whose keys are hashes already.

use std::hash::{BuildHasher, Hasher};

#[derive(Clone, Copy)]
pub struct IdentityHasher {
    number: u64,
}

impl IdentityHasher {
    pub(crate) fn new() -> IdentityHasher {
        IdentityHasher { number: 0 }
    }
}

impl Hasher for IdentityHasher {
    ghost use Rattle.planus_back.specs.inner.IdentityHashes.{after_write};

    ghost write = { after_write };

    ghost finish = { λ state. state.number };

    #[inline]
    fn finish(&self) -> u64 {
        self.number
    }

    #[inline]
    fn write(&mut self, bytes: &[u8]) {
        if let Some(word) = bytes.first_chunk::<8>() {
            self.number = u64::from_le_bytes(*word);
        }
    }
}

impl BuildHasher for IdentityHasher {
    type Hasher = IdentityHasher;

    ghost build_hasher = { λ state. state };

    #[inline]
    fn build_hasher(&self) -> IdentityHasher {
        *self
    }
}
