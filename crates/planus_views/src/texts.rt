//! Verified vectors of strings.

ghost use Rattle.std.specs.Prelude.{◌≡◌, ℕ, ◌<◌, ◌*◌, Ok, Some};
ghost use Rattle.planus.specs.ItemAccessors.{IsTextItem};
ghost use Rattle.planus_view.specs.VectorView.{count_of, view_of};
ghost use Rattle.planus_views.specs.Fields.{TextHolds, EachHolds};
ghost use Rattle.planus_read.specs.Clauses.{Answer, shown};
ghost use Rattle.planus_read.specs.Reading.{vector_reading};
ghost use Rattle.planus_read.specs.Slices.{slice_bytes, slice_start};
ghost use Rattle.planus_view.specs.VectorView.{ShowsVector};

use crate::verified_items::{ReadVerified, VerifiedItems, VerifiedVector};
use planus::{SliceWithStartOffset, Vector};
use planus_read::text_unchecked;
use std::fmt;

/// A vector of strings, all of which are there.
#[derive(Clone, Copy)]
pub struct Texts<'a> {
    references: Vector<'a, u32>,
    ghost verified: { (i : ℕ) → i < count_of references
        → ∥ TextHolds (view_of references).bytes (i * 4) ∥₁ },
}

impl<'a> Texts<'a> {
    ghost use Rattle.planus_views.specs.CheckedVectors.{checked_texts};
    ghost use Rattle.planus_views.specs.Items.{IsOverAll};
    ghost use Rattle.planus_views.specs.Vectors.{all_ok};

    /// Returns the number of strings.
    #[inline(always)]
    pub fn len(&self) -> usize
        ensures { result ≡ count_of (checked_texts self.now) }
    {
        self.references.len()
    }

    /// Returns the string at an index, or `None` out of bounds.
    #[inline(always)]
    pub fn get(&self, index: usize) -> Option<&'a str>
        ensures { IsTextItem (checked_texts self.now) index (all_ok result) }
    {
        if index >= self.references.len() {
            return None;
        }
        Some(self.item(index))
    }

    /// Returns an iterator over the strings.
    #[inline(always)]
    pub fn iter(&self) -> VerifiedItems<Texts<'a>>
        ensures { IsOverAll self.now result }
    {
        VerifiedItems::new(*self)
    }
}

impl<'a> VerifiedVector for Texts<'a> {
    ghost use Rattle.planus_views.specs.CheckedVectors.{checked_texts};

    ghost count = { λ texts. count_of (checked_texts texts) };

    #[inline(always)]
    fn len(&self) -> usize {
        self.references.len()
    }
}

impl<'a> ReadVerified for Texts<'a> {
    type Item = &'a str;

    ghost use Rattle.planus_views.specs.CheckedVectors.{checked_texts};

    ghost is_item = { λ texts i text. IsTextItem (checked_texts texts) i (Some (Ok text)) };

    #[inline(always)]
    fn item(&self, index: usize) -> &'a str {
        text_unchecked(self.references.items(), index * 4)
    }
}

impl<'a> IntoIterator for Texts<'a> {
    type Item = &'a str;

    type IntoIter = VerifiedItems<Texts<'a>>;

    ghost use Rattle.planus_views.specs.Items.{IsOverAll};

    ghost into_iter_gives = { λ texts items. IsOverAll texts items };

    #[inline(always)]
    fn into_iter(self) -> VerifiedItems<Texts<'a>> {
        VerifiedItems::new(self)
    }
}

impl<'b, 'a> IntoIterator for &'b Texts<'a> {
    type Item = &'a str;

    type IntoIter = VerifiedItems<Texts<'a>>;

    ghost use Rattle.planus_views.specs.Items.{IsOverAll};

    ghost into_iter_gives = { λ texts items. IsOverAll texts.now items };

    #[inline(always)]
    fn into_iter(self) -> VerifiedItems<Texts<'a>> {
        self.iter()
    }
}

impl<'a> fmt::Debug for Texts<'a> {
    fn fmt<W: fmt::Write>(&self, f: &mut fmt::Formatter<W>) -> fmt::Result {
        f.debug_list().entries(self.iter()).finish()
    }
}

/// Returns the vector of strings to which the reference at an offset leads. Requires all to be there.
#[inline(always)]
pub(crate) fn texts_unchecked<'a>(buffer: SliceWithStartOffset<'a>, offset: usize) -> Texts<'a>
    requires { ∥ EachHolds TextHolds (slice_bytes buffer) offset ∥₁ }
    ensures { let S = slice_bytes buffer.entry in let start = slice_start buffer.entry in
        Answer (shown (ShowsVector S start) (vector_reading S offset 4)) (Ok result.references) }
{
    let references: Vector<'a, u32> = Vector::from_buffer_unchecked(buffer, offset);
    Texts { references }
}
