//! Laws of alignment constraints, padding and places, each stated by a contract.
ghost use Rattle.std.specs.Prelude.{◌≡◌, ℕ, ◌+◌, ◌<◌, ◌≤◌, List, [], ◌∷◌, ◌++◌};
ghost use Rattle.std.specs.List.{AllByRecursion};
ghost use Rattle.planus_back.specs.Caches.{CacheView, Fits, EmptyFits};
ghost use Rattle.planus_back.specs.Promises.{Promise, IsPowerOfTwo, Keep, greatest_alignment};
ghost use Rattle.planus_back.specs.Padding.{promise_of, IsLeastPadding};
ghost use Rattle.planus_back.specs.Parts.{Part};
ghost use Rattle.planus_back.specs.Placings.{IsPlacing, PlacedInTurn, NoneIsGreater};
ghost use Rattle.planus_back.specs.Descriptions.{Describes};

use crate::cache_keys::GetCacheKey;

/// An empty cache fits all bytes.
pub fn empty_caches_fit<C: GetCacheKey>()
    ensures { EmptyFits C.key_in }
{}

/// Prepended bytes keep the fit of a cache.
pub fn fit_is_kept<C: GetCacheKey>()
    ensures { (held : CacheView) (front bytes : List ℕ) → Fits C.key_in held bytes
        → Fits C.key_in held (front ++ bytes) }
{}

/// The padding of one write is below its alignment.
pub fn padding_is_below_alignment()
    ensures { (length : ℕ) (promises : List Promise) (size alignment padding : ℕ) → 0 < alignment
        → IsLeastPadding length promises size alignment padding → padding < alignment }
{}

/// There is a least padding before every part, if the constraints so far are described.
pub fn least_padding_exists()
    ensures { (length delayed mask : ℕ) (promises : List Promise) (size alignment : ℕ)
        → Describes length delayed mask promises
        → IsPowerOfTwo alignment → (padding : ℕ)
        × IsLeastPadding length promises size alignment padding }
{}

/// There is one least padding.
pub fn least_padding_is_unique()
    ensures { (length : ℕ) (promises : List Promise) (size alignment a b : ℕ)
        → IsLeastPadding length promises size alignment a
        → IsLeastPadding length promises size alignment b → a ≡ b }
{}

/// A part with the greatest alignment of all, such as a finish, ends at a length that keeps every
/// constraint.
pub fn greatest_alignment_keeps_every_promise()
    ensures { (length : ℕ) (promises : List Promise) (size alignment padding : ℕ)
        → AllByRecursion (λ (p : Promise). IsPowerOfTwo p.alignment) promises
        → AllByRecursion (λ (p : Promise). p.distance ≤ length) promises
        → IsPowerOfTwo alignment → greatest_alignment 1 promises ≤ alignment
        → IsLeastPadding length promises size alignment padding
        → Keep (promise_of (length + padding + size) alignment ∷ promises)
        (length + padding + size) }
{}

/// The least padding gives every part the least place of any placing in the same order.
pub fn least_padding_gives_the_least_places()
    ensures { (parts : List Part) (places others : List ℕ)
        → AllByRecursion (λ (part : Part). IsPowerOfTwo part.alignment) parts
        → PlacedInTurn 0 [] parts places → IsPlacing parts others → NoneIsGreater places others }
{}
