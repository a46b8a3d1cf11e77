//! The least padding by trial: plain and slow, to compare with.
ghost use Rattle.std.specs.Prelude.{◌≡◌, ℕ, ◌+◌, ◌*◌, ◌^◌, ◌<◌, ◌↔◌, ◌∷◌, IsTrue, MatchOption};
ghost use Rattle.planus_back.specs.Promises.{Keeps, Keep, CanBeKept};
ghost use Rattle.planus_back.specs.Padding.{promise_of, CanPad, IsLeastPadding};
ghost use Rattle.planus_bench.specs.Pairs.{promises_of, period, AlignmentsAboveZero};
ghost use Rattle.planus_bench.specs.Pairs.{DistancesWithin};

fn keeps_one(length: usize, distance: usize, alignment: usize) -> bool
    requires { 0 < alignment }
    ensures { IsTrue result ↔ Keeps length (promise_of distance alignment) }
{
    if length < distance {
        return false;
    }
    (length - distance) % alignment == 0
}

fn keeps(length: usize, promises: &[(usize, usize)]) -> bool
    requires { AlignmentsAboveZero promises.now }
    ensures { IsTrue result ↔ Keep (promises_of promises.now) length }
{
    match promises {
        [] => true,
        [first, rest @ ..] => {
            let first_is_kept = keeps_one(length, first.0, first.1);
            first_is_kept && keeps(length, rest)
        }
    }
}

fn period(promises: &[(usize, usize)]) -> usize
    requires positive { AlignmentsAboveZero promises.now }
    requires small { period promises.now < 2 ^ 32 }
    ensures { result ≡ period promises.now }
{
    match promises {
        [] => 1,
        [first, rest @ ..] => first.1 * period(rest),
    }
}

fn can_stand(place: usize, alignment: usize, promises: &[(usize, usize)], tries: usize) -> bool
    requires above_zero { 0 < alignment }
    requires positive { AlignmentsAboveZero promises.now }
    requires within { DistancesWithin place promises.now }
    requires all { tries ≡ alignment * period promises.now }
    requires small { place + tries < 2 ^ 32 }
    ensures { IsTrue result ↔ CanBeKept (promise_of place alignment ∷ promises_of promises.now) }
{
    for length in place..place + tries {
        if keeps_one(length, place, alignment) && keeps(length, promises) {
            return true;
        }
    }
    false
}

/// Returns the least padding in bytes for a part of `size` bytes with this alignment, before `len`
/// bytes with these constraints, each a distance from the end and an alignment; or `None` if there
/// is none.
///
/// The alignments need not be powers of two. All numbers must be small, since every length up to
/// the product of the alignments is tried.
pub fn least_padding(
    len: usize,
    promises: &[(usize, usize)],
    size: usize,
    alignment: usize,
) -> Option<usize>
    requires above_zero { 0 < alignment }
    requires positive { AlignmentsAboveZero promises.now }
    requires within { DistancesWithin len promises.now }
    requires small { len + alignment + size + alignment * period promises.now < 2 ^ 32 }
    ensures { MatchOption result ((padding : ℕ)
        → ¬ CanPad len (promises_of promises.now) size alignment padding)
        (λ padding. IsLeastPadding len (promises_of promises.now) size alignment padding) }
{
    let tries = alignment * period(promises);
    for padding in 0..alignment {
        if can_stand(len + padding + size, alignment, promises, tries) {
            return Some(padding);
        }
    }
    None
}
