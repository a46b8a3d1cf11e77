//! Contents of growing bytes, by their hash.
ghost use Rattle.std.specs.Prelude.{◌≡◌, OnOk, OnErr, IfOk, nat_eq, option_to_list};
ghost use Rattle.std.specs.Map.{lookup};
ghost use Rattle.planus_back.specs.Buckets.{lists_of, listed_at, distances_at, AddsAt, AreKeys};
ghost use Rattle.planus_back.specs.Buckets.{FoundAmong};
ghost use Rattle.planus_back.specs.Caches.{Fits, IsEmpty, IsBucketOf, IsFound, Adds};
ghost use Rattle.planus_back.specs.Caches.{FitsWhereKeyStands, FitsWhereItsKeyStands};

use crate::bucket::Bucket;
use crate::byte::Byte;
use crate::cache_keys::GetCacheKey;
use crate::hash::hash_of;
use crate::identity_hasher::IdentityHasher;
use std::alloc::{AllocError, Global};
use std::collections::HashMap;
use std::collections::hash_map::Entry;
use std::marker::{Model, PhantomData};

/// The distances of keys in some bytes. The cache fits bytes that have a key at each of them, also
/// if others are prepended. No result depends on the hash.
#[derive(Drop)]
pub struct Cache<C> {
    // The last distance of a key, by the key's masked hash.
    last: HashMap<u64, u32, IdentityHasher>,
    // Mostly there are none before the last, and then they take no memory.
    earlier: HashMap<u64, Vec<u32>, IdentityHasher>,
    hash_mask: u64,
    alloc: Global,
    _marker: PhantomData<C>,
}

impl<C> Model for Cache<C> {
    ghost use Rattle.planus_back.specs.Buckets.{lists_of};
    ghost use Rattle.planus_back.specs.Caches.{CacheView};

    ghost Value = { CacheView };

    ghost view = { λ a. record {
      choice = a.hash_mask;
      last = a.last.entries;
      earlier = lists_of a.earlier.entries;
    } };
}

/// Returns the first of some distances where a key is in the bytes, or `None`. Some key must be at
/// each.
#[inline]
pub fn find_key<C: GetCacheKey, T: Byte>(
    distances: &[u32],
    serialized: &[u8],
    key: &[T],
) -> Option<u32>
    requires { AreKeys C.key_in distances.now serialized.now }
    ensures { FoundAmong C.key_in distances.now serialized.now (T.bytes_of key.now) result }
{
    for distance in distances {
        if T::are(key, C::key_there(serialized, *distance)) {
            return Some(*distance);
        }
    }
    None
}

fn put_aside(
    earlier: &mut HashMap<u64, Vec<u32>, IdentityHasher>,
    alloc: Global,
    hash: u64,
    distance: u32,
) -> Result<(), AllocError>
    ensures ok { OnOk result (AddsAt (listed_at (lists_of earlier.old.entries)) hash distance
        (listed_at (lists_of earlier.new.entries))) }
    ensures err { OnErr result (lists_of earlier.new.entries ≡ lists_of earlier.old.entries) }
{
    match earlier.entry(hash) {
        Ok(Entry::Occupied(mut entry)) => entry.get_mut().push(distance)?,
        Ok(Entry::Vacant(entry)) => {
            let mut distances = Vec::new(alloc);
            distances.push(distance)?;
            entry.insert(distances);
        }
        Err(_) => return Err(AllocError),
    }
    Ok(())
}

#[cold]
#[inline(never)]
fn replace_last(
    last: &mut u32,
    earlier: &mut HashMap<u64, Vec<u32>, IdentityHasher>,
    alloc: Global,
    hash: u64,
    distance: u32,
) -> Result<(), AllocError>
    ensures replaced { OnOk result (last.new ≡ distance) }
    ensures ok { OnOk result (AddsAt (listed_at (lists_of earlier.old.entries)) hash last.old
        (listed_at (lists_of earlier.new.entries))) }
    ensures last { OnErr result (last.new ≡ last.old) }
    ensures earlier { OnErr result
        (lists_of earlier.new.entries ≡ lists_of earlier.old.entries) }
{
    put_aside(earlier, alloc, hash, *last)?;
    *last = distance;
    Ok(())
}

/// Changes nothing on failure. A call would take a tenth of a write's time.
#[inline(always)]
fn add(
    last: &mut HashMap<u64, u32, IdentityHasher>,
    earlier: &mut HashMap<u64, Vec<u32>, IdentityHasher>,
    alloc: Global,
    hash: u64,
    distance: u32,
) -> Result<(), AllocError>
    ensures ok { OnOk result (AddsAt
        (distances_at last.old.entries (lists_of earlier.old.entries)) hash distance
        (distances_at last.new.entries (lists_of earlier.new.entries))) }
    ensures last { OnErr result (last.new.entries ≡ last.old.entries) }
    ensures earlier { OnErr result
        (lists_of earlier.new.entries ≡ lists_of earlier.old.entries) }
{
    match last.entry(hash) {
        Ok(Entry::Occupied(mut entry)) => {
            replace_last(entry.get_mut(), earlier, alloc, hash, distance)
        }
        Ok(Entry::Vacant(entry)) => {
            entry.insert(distance);
            Ok(())
        }
        Err(_) => Err(AllocError),
    }
}

impl<C: GetCacheKey> Cache<C> {
    /// Creates an empty cache that uses the bits of a hash set in `hash_mask`.
    pub fn new(alloc: Global, hash_mask: u64) -> Result<Cache<C>, AllocError>
        ensures { IfOk result IsEmpty }
    {
        Ok(Cache {
            last: HashMap::with_hasher(alloc, IdentityHasher::new()),
            earlier: HashMap::with_hasher(alloc, IdentityHasher::new()),
            hash_mask,
            alloc,
            _marker: PhantomData,
        })
    }

    /// Removes all distances.
    #[inline]
    pub fn clear(&mut self)
        ensures { IsEmpty self.new }
    {
        if self.last.is_empty() && self.earlier.is_empty() {
            return;
        }
        self.clear_all();
    }

    #[cold]
    #[inline(never)]
    fn clear_all(&mut self)
        ensures { IsEmpty self.new }
    {
        self.earlier = HashMap::with_hasher(self.alloc, IdentityHasher::new());
        // A clear of a map takes time by its capacity, however few entries it has.
        if self.last.len() < self.last.capacity() / 32 {
            self.last = HashMap::with_hasher(self.alloc, IdentityHasher::new());
        } else {
            self.last.clear();
        }
    }

    #[inline(always)]
    fn last_in<T: Byte>(&self, bucket: Bucket, serialized: &[u8], key: &[T]) -> Option<u32>
        requires { Fits C.key_in self.now serialized.now }
        ensures { FoundAmong C.key_in
            (option_to_list (lookup (nat_eq bucket.number) self.now.last)) serialized.now
            (T.bytes_of key.now) result }
    {
        match self.last.get(&bucket.number) {
            Some(last) => find_key::<C, T>(&[*last], serialized, key),
            None => None,
        }
    }

    #[cold]
    #[inline(never)]
    fn earlier_in<T: Byte>(&self, bucket: Bucket, serialized: &[u8], key: &[T]) -> Option<u32>
        requires { Fits C.key_in self.now serialized.now }
        ensures { FoundAmong C.key_in (listed_at self.now.earlier bucket.number) serialized.now
            (T.bytes_of key.now) result }
    {
        match self.earlier.get(&bucket.number) {
            Some(earlier) => find_key::<C, T>(earlier.as_slice(), serialized, key),
            None => None,
        }
    }

    /// Returns a distance where the key is in the bytes, which the cache must fit, or `None`.
    pub fn get(&self, serialized: &[u8], key: &[u8]) -> Option<u32>
        requires { Fits C.key_in self.now serialized.now }
        ensures { IsFound C.key_in self.now serialized.now key.now result }
    {
        self.get_in(self.bucket_of(key), serialized, key)
    }

    /// Adds the distance where the key is, or is about to be. Unchanged on failure.
    pub fn insert(&mut self, key: &[u8], distance: u32) -> Result<(), AllocError>
        ensures ok { OnOk result (Adds self.old distance self.new) }
        ensures fits { OnOk result
            (FitsWhereKeyStands C.key_in self.old key.now distance self.new) }
        ensures err { OnErr result (self.new ≡ self.old) }
    {
        let bucket = self.bucket_of(key);
        self.insert_in(bucket, distance)
    }

    /// Returns the bucket of a key, which reads each byte of the key: once for a lookup and an
    /// insertion.
    #[tactic(auto, unfolding(crate::specs::Caches::IsBucketOf, crate::specs::Numbers::number_of))]
    pub fn bucket_of<T: Byte>(&self, key: &[T]) -> Bucket
        ensures { IsBucketOf self.now (T.bytes_of key.now) result }
    {
        Bucket {
            number: hash_of(key) & self.hash_mask,
        }
    }

    /// [`Cache::get`] of a key whose bucket is known.
    #[inline(always)]
    pub fn get_in<T: Byte>(&self, bucket: Bucket, serialized: &[u8], key: &[T]) -> Option<u32>
        requires fits { Fits C.key_in self.now serialized.now }
        requires bucket { IsBucketOf self.now (T.bytes_of key.now) bucket }
        ensures { IsFound C.key_in self.now serialized.now (T.bytes_of key.now) result }
    {
        match self.last_in(bucket, serialized, key) {
            Some(last) => Some(last),
            None if self.earlier.is_empty() => None,
            None => self.earlier_in(bucket, serialized, key),
        }
    }

    /// [`Cache::insert`] given only the key's bucket.
    #[inline(always)]
    pub fn insert_in(&mut self, bucket: Bucket, distance: u32) -> Result<(), AllocError>
        ensures ok { OnOk result (Adds self.old distance self.new) }
        ensures fits { OnOk result
            (FitsWhereItsKeyStands C.key_in self.old bucket distance self.new) }
        ensures err { OnErr result (self.new ≡ self.old) }
    {
        add(
            &mut self.last,
            &mut self.earlier,
            self.alloc,
            bucket.number,
            distance,
        )
    }
}
