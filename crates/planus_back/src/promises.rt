//! The alignment constraints of the parts placed so far.
ghost use Rattle.std.specs.Prelude.{◌≡◌, ℕ, ◌+◌, ◌^◌, ◌<◌, ◌≤◌, max, List, [], ◌∷◌, IfOk};
ghost use Rattle.std.specs.Prelude.{IfErr};
ghost use Rattle.planus_back.specs.Promises.{Promise, IsPowerOfTwo, Keep, greatest_alignment};
ghost use Rattle.planus_back.specs.Padding.{greatest_place, promise_of, IsLeast, IsLeastPadding};
ghost use Rattle.planus_back.specs.Requests.{LeavesSome, DescribesThose, DescribesAll};
ghost use Rattle.planus_back.specs.Requests.{PassesGreatestPlace};

use std::error::Error;
use std::fmt;
use std::marker::Model;

/// The greatest signed number of 4 bytes.
const GREATEST_PLACE: usize = 2147483647;

/// A part's place would be above 2147483647.
#[derive(Clone, Copy, Debug, PartialEq, Eq)]
pub struct TooLarge;

impl fmt::Display for TooLarge {
    ghost use Rattle.planus_back.specs.Texts.{too_large_text};
    ghost use Rattle.std.specs.Prelude.{Some};

    ghost output = { λ _. Some too_large_text };

    fn fmt<W: fmt::Write>(&self, f: &mut fmt::Formatter<W>) -> fmt::Result {
        write!(f, "too large")
    }
}

impl Error for TooLarge {}

/// The finished lengths that align every part placed so far: `len + delayed() + k * (mask() + 1)`
/// for every k, where `len` is the number of bytes so far.
#[derive(Clone, Copy, Debug, PartialEq, Eq)]
pub struct Promises {
    delayed: usize,
    mask: usize,
}

impl Model for Promises {
    ghost use Rattle.planus_back.specs.Requests.{Delay};
    ghost use Rattle.planus_back.specs.inner.Sound.{IsSound};

    ghost Value = { Delay };

    ghost view = { λ a. record { delayed = a.delayed; mask = a.mask } };

    ghost inverse = { λ v. record { delayed = v.delayed; mask = v.mask } };

    ghost invariant = { λ a. IsSound (record { delayed = a.delayed; mask = a.mask }) };
}

impl Promises {
    /// Creates the value without constraints.
    pub const fn new() -> Promises
        ensures delayed { result.delayed ≡ 0 }
        ensures mask { result.mask ≡ 0 }
        ensures described { DescribesAll result 0 [] }
    {
        Promises {
            delayed: 0,
            mask: 0,
        }
    }

    /// Returns the least number of bytes to be added to keep every constraint.
    #[inline]
    pub fn delayed(&self) -> usize
        ensures { result ≡ self.now.delayed }
    {
        self.delayed
    }

    /// Returns one less than the greatest alignment so far, or 0.
    #[inline]
    pub fn mask(&self) -> usize
        ensures mask { result ≡ self.now.mask }
        ensures power { IsPowerOfTwo (result + 1) }
        ensures bound { result + 1 ≤ 2 ^ 30 }
        ensures greatest { (len : ℕ) (promises : List Promise) → DescribesAll self.now len promises
            → greatest_alignment 1 promises ≡ result + 1 }
        ensures greatest_from { (len least : ℕ) (promises : List Promise)
            → DescribesAll self.now len promises → 1 ≤ least
            → greatest_alignment least promises ≡ max (result + 1) least }
    {
        self.mask
    }

    /// Returns the least padding in bytes for a part of `size` bytes before the `len` bytes so far,
    /// such that every constraint and the part's own alignment `mask + 1`, a power of two up to
    /// 2^30, can be kept; and the constraints with the part's.
    ///
    /// Fails with [`TooLarge`] if `len`, the padding and `size` together are above 2147483647.
    /// `len` itself must not be. If no alignment so far is greater than the part's, the length with
    /// the part keeps every constraint.
    #[inline]
    pub fn request(
        self,
        len: usize,
        size: usize,
        mask: usize,
    ) -> Result<(Promises, usize), TooLarge>
        requires power { IsPowerOfTwo (mask + 1) }
        requires bound { mask + 1 ≤ 2 ^ 30 }
        requires placed { len ≤ greatest_place }
        ensures fits { IfOk result (λ r. len + r.1 + size ≤ greatest_place) }
        ensures below { IfOk result (λ r. r.1 ≤ mask) }
        ensures least { IfOk result (λ r. IsLeast (LeavesSome self len size (mask + 1)) r.1) }
        ensures those { IfOk result (λ r. DescribesThose self len r.0 (len + r.1 + size)
            (mask + 1)) }
        ensures least_padding { IfOk result (λ r. (promises : List Promise)
            → DescribesAll self len promises → IsLeastPadding len promises size (mask + 1) r.1) }
        ensures described { IfOk result (λ r. (promises : List Promise)
            → DescribesAll self len promises
            → DescribesAll r.0 (len + r.1 + size)
            (promise_of (len + r.1 + size) (mask + 1) ∷ promises)) }
        ensures kept { IfOk result (λ r. (promises : List Promise) → DescribesAll self len promises
            → greatest_alignment 1 promises ≤ mask + 1
            → Keep (promise_of (len + r.1 + size) (mask + 1) ∷ promises) (len + r.1 + size)) }
        ensures too_large { IfErr result
            (λ _. PassesGreatestPlace (IsLeast (LeavesSome self len size (mask + 1))) len size) }
        ensures too_large_padding { IfErr result (λ _. (promises : List Promise)
            → DescribesAll self len promises
            → PassesGreatestPlace (IsLeastPadding len promises size (mask + 1)) len size) }
    {
        let ahead = self.delayed.wrapping_sub(size) & self.mask;
        let padding = ahead & mask;
        // The size is compared first, so that the sum can't overflow.
        if size > GREATEST_PLACE || len + padding + size > GREATEST_PLACE {
            return Err(TooLarge);
        }
        let next = Promises {
            // By a mask, so that it doesn't wait for the padding.
            delayed: ahead & !mask,
            // The greater one, since each is one less than a power of two.
            mask: self.mask | mask,
        };
        Ok((next, padding))
    }
}

impl Default for Promises {
    ghost is_default = { λ promises. (promises.delayed ≡ 0) × (promises.mask ≡ 0)
        × DescribesAll promises 0 [] };

    #[inline]
    fn default() -> Promises {
        Promises::new()
    }
}
