//! Ways to cut positions into ranges.

ghost use Rattle.std.specs.Prelude.{◌≡◌, ℕ, ◌+◌, ◌<◌, ◌≤◌, List, length, slice_get, Some};
ghost use Rattle.planus_view.specs.Ranges.{chunks, rchunks, chunks_exact, rchunks_exact, windows};
ghost use Rattle.planus_view.specs.Ranges.{apart, side_by_side};

/// A way to cut positions into ranges.
pub trait Cut {
    ghost ranges: { ℕ → ℕ → List (ℕ × ℕ) };

    ghost rest: { ℕ → ℕ → ℕ → ℕ };

    /// Returns the number of ranges of `len` positions.
    fn count(len: usize, size: usize) -> usize
        requires { 0 < size }
        ensures { result ≡ length (ranges len size) };

    /// Returns how many of `len` positions the first `i` ranges leave.
    fn rest_behind(len: usize, size: usize, i: usize) -> usize
        requires positive { 0 < size }
        requires inside { i ≤ length (ranges len size) }
        ensures { result ≡ rest len size i };

    /// Returns how many positions are left after range `i`, by how many are left before it.
    fn rest_after(len: usize, size: usize, i: usize, left: usize) -> usize
        requires positive { 0 < size }
        requires inside { i < length (ranges len size) }
        requires left { left ≡ rest len size i }
        ensures { result ≡ rest len size (i + 1) };

    /// Returns range `i` of `len` positions, by how many the ranges before it leave.
    fn range(len: usize, size: usize, i: usize, left: usize) -> (usize, usize)
        requires positive { 0 < size }
        requires inside { i < length (ranges len size) }
        requires left { left ≡ rest len size i }
        ensures range { slice_get (ranges len size) i ≡ Some result }
        ensures order { result.0 ≤ result.1 }
        ensures end { result.1 ≤ len };
}

/// Ranges from the front; the last may be shorter.
#[derive(Debug)]
pub struct ByChunks;

/// Ranges from the back; the last, at the front, may be shorter.
#[derive(Debug)]
pub struct ByRChunks;

/// Ranges of exactly a size from the front.
#[derive(Debug)]
pub struct ByChunksExact;

/// Ranges of exactly a size from the back.
#[derive(Debug)]
pub struct ByRChunksExact;

/// All ranges of exactly a size, which overlap.
#[derive(Debug)]
pub struct ByWindows;

impl Cut for ByChunks {
    ghost ranges = { chunks };

    ghost rest = { side_by_side };

    #[inline]
    #[tactic(auto, using(crate::proofs::RangeLists::chunks_count))]
    fn count(len: usize, size: usize) -> usize {
        len.div_ceil(size)
    }

    #[inline]
    fn rest_behind(len: usize, size: usize, i: usize) -> usize {
        len.saturating_sub(i.saturating_mul(size))
    }

    #[inline]
    #[tactic(auto, using(crate::proofs::RangeLists::suc_times))]
    fn rest_after(_len: usize, size: usize, _i: usize, left: usize) -> usize {
        left - size.min(left)
    }

    #[inline]
    fn range(len: usize, size: usize, _i: usize, left: usize) -> (usize, usize) {
        let begin = len - left;
        (begin, begin + size.min(left))
    }
}

impl Cut for ByRChunks {
    ghost ranges = { rchunks };

    ghost rest = { side_by_side };

    #[inline]
    #[tactic(auto, using(crate::proofs::RangeLists::rchunks_count))]
    fn count(len: usize, size: usize) -> usize {
        len.div_ceil(size)
    }

    #[inline]
    fn rest_behind(len: usize, size: usize, i: usize) -> usize {
        len.saturating_sub(i.saturating_mul(size))
    }

    #[inline]
    #[tactic(auto, using(crate::proofs::RangeLists::suc_times))]
    fn rest_after(_len: usize, size: usize, _i: usize, left: usize) -> usize {
        left.saturating_sub(size)
    }

    #[inline]
    fn range(_len: usize, size: usize, _i: usize, left: usize) -> (usize, usize) {
        (left.saturating_sub(size), left)
    }
}

impl Cut for ByChunksExact {
    ghost ranges = { chunks_exact };

    ghost rest = { side_by_side };

    #[inline]
    #[tactic(auto, using(crate::proofs::RangeLists::chunks_exact_count))]
    fn count(len: usize, size: usize) -> usize {
        len / size
    }

    #[inline]
    #[tactic(auto, using(crate::proofs::RangeLists::exact_most))]
    fn rest_behind(len: usize, size: usize, i: usize) -> usize {
        len - i * size
    }

    #[inline]
    #[tactic(auto, using(crate::proofs::RangeLists::suc_times))]
    fn rest_after(_len: usize, size: usize, _i: usize, left: usize) -> usize {
        left - size
    }

    #[inline]
    fn range(len: usize, size: usize, _i: usize, left: usize) -> (usize, usize) {
        let begin = len - left;
        (begin, begin + size)
    }
}

impl Cut for ByRChunksExact {
    ghost ranges = { rchunks_exact };

    ghost rest = { side_by_side };

    #[inline]
    #[tactic(auto, using(crate::proofs::RangeLists::rchunks_exact_count))]
    fn count(len: usize, size: usize) -> usize {
        len / size
    }

    #[inline]
    #[tactic(auto, using(crate::proofs::RangeLists::rexact_most))]
    fn rest_behind(len: usize, size: usize, i: usize) -> usize {
        len - i * size
    }

    #[inline]
    #[tactic(auto, using(crate::proofs::RangeLists::suc_times))]
    fn rest_after(_len: usize, size: usize, _i: usize, left: usize) -> usize {
        left - size
    }

    #[inline]
    fn range(_len: usize, size: usize, _i: usize, left: usize) -> (usize, usize) {
        (left - size, left)
    }
}

impl Cut for ByWindows {
    ghost ranges = { windows };

    ghost rest = { apart };

    #[inline]
    #[tactic(auto, using(crate::proofs::RangeLists::windows_count))]
    fn count(len: usize, size: usize) -> usize {
        if size > len {
            return 0;
        }
        len - size + 1
    }

    #[inline]
    fn rest_behind(len: usize, _size: usize, i: usize) -> usize {
        len - i
    }

    #[inline]
    fn rest_after(_len: usize, _size: usize, _i: usize, left: usize) -> usize {
        left - 1
    }

    #[inline]
    fn range(len: usize, size: usize, _i: usize, left: usize) -> (usize, usize) {
        let begin = len - left;
        (begin, begin + size)
    }
}
