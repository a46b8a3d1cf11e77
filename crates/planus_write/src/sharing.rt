//! Contents of one kind that are written once.
ghost use Rattle.std.specs.Prelude.{◌≡◌, ◌+◌, ◌≤◌, ◌^◌, true, false, IfOk, OnOk, OnErr};
ghost use Rattle.planus_back.specs.Caches.{IsEmpty};
ghost use Rattle.planus_back.specs.Promises.{IsPowerOfTwo};
ghost use Rattle.planus_write.specs.Holding.{few, many, HoldingFits, HoldsNothing, FindsHeld};
ghost use Rattle.planus_write.specs.inner.Sharing.{LooksIn, LooksIf, KeepsIf, PlansShared};
ghost use Rattle.planus_write.specs.inner.Sharing.{FindsOrPlans};

use crate::backing::{Backing, Plan};
use crate::errors::BuildError;
use crate::first_distances::FirstDistances;
use planus_back::{Bucket, Byte, Cache, GetCacheKey, find_key};
use std::alloc::{AllocError, Global};
use std::fmt;
use std::marker::Model;

pub(crate) enum Lookup {
    Found(u32),
    Planned(Plan),
}

#[derive(Drop)]
pub(crate) struct Sharing<C> {
    on: bool,
    first: FirstDistances,
    // Whether the cache has all contents. It is empty before.
    is_many: bool,
    cache: Cache<C>,
}

impl<C> Model for Sharing<C> {
    ghost use Rattle.std.specs.Prelude.{◌≡◌, cond, false};
    ghost use Rattle.planus_back.specs.Caches.{IsEmpty};
    ghost use Rattle.planus_write.specs.Holding.{few, many};
    ghost use Rattle.planus_write.specs.inner.Sharing.{Shares};

    ghost Value = { Shares };

    ghost view = { λ a. record {
      on = a.on;
      holding = cond a.is_many (many a.cache) (few a.first);
    } };

    ghost invariant = { λ a. a.is_many ≡ false → IsEmpty a.cache };
}

impl<C: GetCacheKey> Sharing<C> {
    pub(crate) fn new(alloc: Global, on: bool, hash_mask: u64) -> Result<Sharing<C>, AllocError>
        ensures on { IfOk result (λ sharing. sharing.on ≡ on) }
        ensures empty { IfOk result (λ sharing. HoldsNothing sharing.holding) }
    {
        Ok(Sharing {
            on,
            first: FirstDistances::new(),
            is_many: false,
            cache: Cache::new(alloc, hash_mask)?,
        })
    }

    #[inline]
    pub(crate) fn is_on(&self) -> bool
        ensures { result ≡ self.now.on }
    {
        self.on
    }

    #[inline(always)]
    pub(crate) fn bucket_of<B: Byte>(&self, contents: &[B]) -> Option<Bucket>
        ensures { LooksIn self.now.holding (B.bytes_of contents.now) result }
    {
        if self.is_many {
            return Some(self.cache.bucket_of(contents));
        }
        None
    }

    #[inline(always)]
    pub(crate) fn find_in<B: Byte>(
        &self,
        bucket: Option<Bucket>,
        serialized: &[u8],
        contents: &[B],
    ) -> Option<u32>
        requires fits { HoldingFits C.key_in self.now.holding serialized.now }
        requires bucket { LooksIn self.now.holding (B.bytes_of contents.now) bucket }
        ensures { FindsHeld C.key_in self.now.holding serialized.now
            (B.bytes_of contents.now) result }
    {
        match bucket {
            Some(bucket) => self.cache.get_in(bucket, serialized, contents),
            None => find_key::<C, B>(self.first.as_slice(), serialized, contents),
        }
    }

    // Changes nothing on failure.
    #[inline(always)]
    fn keep_in<B: Byte>(
        &mut self,
        bucket: Option<Bucket>,
        serialized: &[u8],
        contents: &[B],
        distance: u32,
    ) -> Result<(), AllocError>
        requires fits { HoldingFits C.key_in self.old.holding serialized.now }
        requires bucket { LooksIn self.old.holding (B.bytes_of contents.now) bucket }
        ensures on { self.new.on ≡ self.old.on }
        ensures ok { OnOk result (KeepsIf true C.key_in serialized.now (B.bytes_of contents.now)
            distance self.old.holding self.new.holding) }
        ensures err { OnErr result (self.new ≡ self.old) }
    {
        if let Some(bucket) = bucket {
            return self.cache.insert_in(bucket, distance);
        }
        if self.first.push(distance) {
            return Ok(());
        }
        spill(
            &mut self.cache,
            self.first.as_slice(),
            serialized,
            contents,
            distance,
        )?;
        self.first.clear();
        self.is_many = true;
        Ok(())
    }

    #[inline]
    pub(crate) fn clear(&mut self)
        ensures on { self.new.on ≡ self.old.on }
        ensures empty { HoldsNothing self.new.holding }
    {
        self.first.clear();
        self.is_many = false;
        self.cache.clear();
    }
}

// The cache stays empty on failure.
#[cold]
#[inline(never)]
fn spill<C: GetCacheKey, B: Byte>(
    cache: &mut Cache<C>,
    first: &[u32],
    serialized: &[u8],
    contents: &[B],
    distance: u32,
) -> Result<(), AllocError>
    requires empty { IsEmpty cache.old }
    requires fits { HoldingFits C.key_in (few first.now) serialized.now }
    ensures ok { OnOk result (KeepsIf true C.key_in serialized.now (B.bytes_of contents.now)
        distance (few first.now) (many cache.new)) }
    ensures err { OnErr result (IsEmpty cache.new) }
{
    let filled = fill(cache, first, serialized, contents, distance);
    if filled.is_err() {
        cache.clear();
    }
    filled
}

// Some of the distances stay on failure.
fn fill<C: GetCacheKey, B: Byte>(
    cache: &mut Cache<C>,
    first: &[u32],
    serialized: &[u8],
    contents: &[B],
    distance: u32,
) -> Result<(), AllocError>
    requires empty { IsEmpty cache.old }
    requires fits { HoldingFits C.key_in (few first.now) serialized.now }
    ensures { OnOk result (KeepsIf true C.key_in serialized.now (B.bytes_of contents.now)
        distance (few first.now) (many cache.new)) }
{
    for at in first {
        cache.insert(C::key_there(serialized, *at), *at)?;
    }
    cache.insert_in(cache.bucket_of(contents), distance)
}

// Fails in this order: too large, memory for padding and part, memory for the cache.
#[inline(always)]
pub(crate) fn plan_if<C: GetCacheKey, B: Byte>(
    shared: bool,
    backing: &mut Backing,
    sharing: &mut Sharing<C>,
    bucket: Option<Bucket>,
    contents: &[B],
    size: usize,
    mask: usize,
) -> Result<Plan, BuildError>
    requires power { IsPowerOfTwo (mask + 1) }
    requires bound { mask + 1 ≤ 2 ^ 30 }
    requires on { sharing.old.on ≡ shared }
    requires fits { HoldingFits C.key_in sharing.old.holding backing.old.bytes }
    requires bucket { LooksIf shared sharing.old.holding (B.bytes_of contents.now) bucket }
    ensures { PlansShared C.key_in (B.bytes_of contents.now) size (mask + 1)
        backing.old sharing.old result backing.new sharing.new }
{
    let plan = backing.plan_room(size, mask)?;
    if shared {
        sharing.keep_in(bucket, backing.as_slice(), contents, plan.place)?;
    }
    Ok(plan)
}

#[inline(always)]
pub(crate) fn find_or_plan<C: GetCacheKey, B: Byte>(
    shared: bool,
    backing: &mut Backing,
    sharing: &mut Sharing<C>,
    contents: &[B],
    size: usize,
    mask: usize,
) -> Result<Lookup, BuildError>
    requires power { IsPowerOfTwo (mask + 1) }
    requires bound { mask + 1 ≤ 2 ^ 30 }
    requires on { sharing.old.on ≡ shared }
    requires fits { HoldingFits C.key_in sharing.old.holding backing.old.bytes }
    ensures { FindsOrPlans C.key_in (B.bytes_of contents.now) size (mask + 1)
        backing.old sharing.old result backing.new sharing.new }
{
    if !shared {
        return Ok(Lookup::Planned(backing.plan_room(size, mask)?));
    }
    let bucket = sharing.bucket_of(contents);
    if let Some(distance) = sharing.find_in(bucket, backing.as_slice(), contents) {
        return Ok(Lookup::Found(distance));
    }
    let plan = plan_if(true, backing, sharing, bucket, contents, size, mask)?;
    Ok(Lookup::Planned(plan))
}

impl<C> fmt::Debug for Sharing<C> {
    ghost use Rattle.std.specs.Prelude.{Some, if◌then◌else◌};
    ghost use lib.Chars.{codes};

    ghost debug_output = { λ sharing. Some (if sharing.on then codes "true" else codes "false") };

    fn fmt<W: fmt::Write>(&self, f: &mut fmt::Formatter<W>) -> fmt::Result {
        fmt::Debug::fmt(&self.on, f)
    }
}
