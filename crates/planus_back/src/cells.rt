//! The memory of a vector. All code that touches a pointer is here.
ghost use Rattle.std.specs.Prelude.{◌≡◌, ◌+◌, ◌≤◌, ℕ, IfOk, take, drop};
ghost use Rattle.std.specs.Borrow.{sem};
ghost use Rattle.std.specs.Vec.Ownership.{FitsInBlock};
ghost use Rattle.core.specs.Mem.Slots.Ownership.{leased, Filled};
ghost use Rattle.core.specs.Mem.Slots.{slots_items, slots_filled, slots_ptr, slots_len};
ghost use base.Fml.{ftrue};
ghost use Rattle.planus_back.specs.inner.Cells.{lends_run};
ghost use denote.RawPtr.{Ptr, InBlock};

use core::slots::Slots;
use std::alloc::{AllocError, Allocator};
use std::marker::{Model, PhantomData};
use std::mem::{align_of, size_of};
use std::slice;

/// The right to free the block of `len` places at `at` by `alloc`. It takes no space.
pub struct Deed<T, A: Allocator> {
    mark: PhantomData<*const (T, A)>,
    ghost at: { Ptr },
    ghost len: { ℕ },
    ghost alloc: { A },
}

impl<T, A: Allocator> Model for Deed<T, A> {
    ghost also_owns = { λ d. leased (A.dealloc_token d.alloc) T.row d.at d.len };

    ghost also_shares = { λ _ _ _. ftrue };
}

#[inline]
pub(crate) fn lend<'a, T>(slots: &'a Slots<T>, base: *mut T, from: usize, len: usize) -> &'a [T]
    requires { InBlock base × (base ≡ slots_ptr slots.now) × (from + len ≤ slots_len slots.now) ×
        Filled (slots_filled slots.now) from (from + len) }
    ensures { result.now ≡ take len (drop from (slots_items slots.now)) }
{
    unsafe { slice::from_raw_parts(base.add(from), len) }
}

#[inline]
pub(crate) fn lend_mut<'a, T>(
    slots: &'a mut Slots<T>,
    base: *mut T,
    from: usize,
    len: usize,
) -> &'a mut [T]
    requires { (base ≡ slots_ptr slots.old) × (from + len ≤ slots_len slots.old) × Filled
        (slots_filled slots.old) from (from + len) }
    ensures* writes_back { sem 𝓛 (lends_run T.row slots.entry from len result) }
    ensures value { result.now ≡ take len (drop from (slots_items slots.old)) }
{
    unsafe { slice::from_raw_parts_mut(base.add(from), len) }
}

pub(crate) fn allocate<T, A: Allocator>(
    alloc: &A,
    len: usize,
) -> Result<(*mut T, Slots<T>, Deed<T, A>), AllocError>
    requires { FitsInBlock T.row len × T }
    ensures { IfOk result (λ r. InBlock r.0 × (r.0 ≡ slots_ptr r.1) × (slots_len r.1 ≡ len) ×
        (r.2.at ≡ r.0) × (r.2.len ≡ len) × (r.2.alloc ≡ alloc.now)) }
{
    match alloc.allocate(len * size_of::<T>(), align_of::<T>()) {
        Ok(block) => {
            let base = block as *mut T;
            let slots = unsafe { Slots::from_raw_parts(base, len) };
            Ok((base, slots, Deed { mark: PhantomData }))
        }
        Err(refused) => Err(refused),
    }
}

pub(crate) fn deallocate<T, A: Allocator>(alloc: &A, slots: Slots<T>, deed: Deed<T, A>)
    requires { (deed.at ≡ slots_ptr slots) × (deed.len ≡ slots_len slots)
        × (deed.alloc ≡ alloc.now) }
{
    let Deed { mark: _ } = deed;
    unsafe {
        let (base, len) = slots.into_raw_parts();
        alloc.deallocate(base as *mut u8, len * size_of::<T>(), align_of::<T>());
    }
}
