//! Printed unions.

ghost use Rattle.std.specs.Prelude.{◌≡◌, ℕ, List, Result as std_result, Ok, Some};
ghost use Rattle.planus.specs.Views.{reads_as};
ghost use Rattle.planus_read.specs.declared.errors.ErrorKind.{ErrorKind};
ghost use Rattle.planus_read.specs.Slices.{slice_bytes, slice_start};
ghost use Rattle.planus_verify.specs.Schemas.{variant_in};
ghost use Rattle.planus_views.specs.Fields.{IsMember};

use crate::of_union::OfUnion;
use crate::view_of::ViewOf;
use planus::SliceWithStartOffset;
use planus::table_reader::Table;
use planus_read::{Plain, text_unchecked};
use planus_verify::UnionKind;
use planus_view::PlainRef;

/// A union of a verified table: a tag, and where its reference is encoded.
#[derive(Clone, Copy)]
pub struct Member<'a> {
    tag: u8,
    buffer: SliceWithStartOffset<'a>,
    offset: usize,
}

impl<'a> Member<'a> {
    ghost use Rattle.planus_views.specs.Members.{member_tag, member_bytes, member_start};
    ghost use Rattle.planus_views.specs.Members.{member_offset};
    ghost use Rattle.planus.specs.ReadKinds.{reads_text};
    ghost use Rattle.planus_view.specs.PlainRefs.{plain_slice, reads_plain_ref};
    ghost use Rattle.planus_verify.specs.declared.schema.VariantKind.TheVariants as kind;

    /// Returns the union's tag.
    #[inline(always)]
    pub fn tag(&self) -> u8
        ensures { result ≡ member_tag self.now }
    {
        self.tag
    }

    /// Returns the view of the table that the tag names in the schema.
    #[inline(always)]
    pub fn table<O: UnionKind, V: ViewOf<'a>>(&self, tag: u8) -> V
        requires same { V.Kind.schema ≡ O.schema }
        requires tag { member_tag self.now ≡ tag }
        requires variant { variant_in O.schema.variants O.union tag ≡ Some (kind.Table V.Kind.index) }
        requires verified { IsMember O.schema O.union (member_tag self.now) (member_start self.now)
            (member_bytes self.now) (member_offset self.now) }
        ensures { reads_as V.table (member_bytes self.now) (member_start self.now)
            (member_offset self.now) (Ok result) }
    {
        let table = Table::from_buffer_unchecked(self.buffer, self.offset);
        V::of_verified(table)
    }

    /// Returns the string, where the tag names strings in the schema.
    #[inline(always)]
    pub fn text<O: UnionKind>(&self, tag: u8) -> &'a str
        requires tag { member_tag self.now ≡ tag }
        requires variant { variant_in O.schema.variants O.union tag ≡ Some kind.Text }
        requires verified { IsMember O.schema O.union (member_tag self.now) (member_start self.now)
            (member_bytes self.now) (member_offset self.now) }
        ensures { reads_text (member_bytes self.now) (member_start self.now)
            (member_offset self.now) (Ok result) }
    {
        text_unchecked(self.buffer, self.offset)
    }

    /// Returns the view of the struct, where the tag names those of its size in the schema.
    #[inline(always)]
    pub fn plain<O: UnionKind, T: Plain>(&self, tag: u8) -> PlainRef<'a, T>
        requires tag { member_tag self.now ≡ tag }
        requires variant { variant_in O.schema.variants O.union tag ≡ Some (kind.Struct T.SIZE) }
        requires verified { IsMember O.schema O.union (member_tag self.now) (member_start self.now)
            (member_bytes self.now) (member_offset self.now) }
        ensures { reads_plain_ref plain_slice T.SIZE (member_bytes self.now)
            (member_start self.now) (member_offset self.now) (Ok result) }
    {
        PlainRef::from_buffer_unchecked(self.buffer, self.offset)
    }

    /// Creates the member of this tag, whose reference is at the offset in bytes.
    #[inline(always)]
    pub fn new(tag: u8, buffer: SliceWithStartOffset<'a>, offset: usize) -> Member<'a>
        ensures tag { member_tag result ≡ tag }
        ensures bytes { member_bytes result ≡ slice_bytes buffer.entry }
        ensures begin { member_start result ≡ slice_start buffer.entry }
        ensures offset { member_offset result ≡ offset }
    {
        Member {
            tag,
            buffer,
            offset,
        }
    }
}

/// A printed enum of a union's variants, with one for tags that its schema doesn't have.
pub trait UnionOf<'a>: Sized + OfUnion {
    ghost reads: { List ℕ → ℕ → ℕ → ℕ → std_result Self ErrorKind → Type 0 };

    // what the checked reader returns
    ghost checked: { Self → std_result Self ErrorKind };

    ghost use Rattle.planus_views.specs.Members.{member_tag, member_bytes, member_start};
    ghost use Rattle.planus_views.specs.Members.{member_offset};

    /// Returns the union of a verified member.
    fn of_member(member: Member<'a>) -> Self
        requires { IsMember Self.Kind.schema Self.Kind.union (member_tag member)
            (member_start member) (member_bytes member) (member_offset member) }
        ensures { reads (member_bytes member.entry) (member_start member.entry)
            (member_tag member.entry) (member_offset member.entry) (checked result) };
}
