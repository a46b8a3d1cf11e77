use planus::Caches;

#[derive(Clone, Copy, PartialEq, Eq)]
pub enum Kind {
    Vtable,
    Text,
    Bytes,
}

#[derive(Clone, Copy, Debug)]
pub struct CacheSettings {
    vtables: bool,
    texts: bool,
    bytes: bool,
}

impl CacheSettings {
    pub fn of(number: u8) -> CacheSettings {
        CacheSettings {
            vtables: number & 1 != 0,
            texts: number & 2 != 0,
            bytes: number & 4 != 0,
        }
    }

    pub fn is_on(&self, kind: Kind) -> bool {
        match kind {
            Kind::Vtable => self.vtables,
            Kind::Text => self.texts,
            Kind::Bytes => self.bytes,
        }
    }

    pub fn caches(&self, hash_mask: u64) -> Caches {
        Caches {
            vtables: self.vtables,
            texts: self.texts,
            bytes: self.bytes,
            hash_mask,
        }
    }
}
