//! Views.

ghost use Rattle.std.specs.Prelude.{◌≡◌, ◌+◌, IfSome, IfNone, ⊤};
ghost use Rattle.planus.specs.Accessors.{IsTextField, IsTextRequired, IsBytesField};
ghost use Rattle.planus.specs.Accessors.{IsPlainVector, IsTableField, IsTextVector, IsTableVector};
ghost use Rattle.std.specs.Option.{option_map};
ghost use Rattle.planus.specs.ReadPlain.{IsPlainField, IsPlainFieldOr};
ghost use Rattle.planus_read.specs.Slices.{slice_bytes, slice_start};
ghost use Rattle.planus.specs.Accessors.{IsPlainRequired, IsBytesRequired, IsTextVectorRequired};
ghost use Rattle.planus.specs.Accessors.{IsTableRequired, IsTableVectorRequired};
ghost use Rattle.planus.specs.Accessors.{IsPlainVectorRequired};
ghost use Rattle.planus.specs.UnionAccessors.{IsUnionField, IsUnionRequired};
ghost use Rattle.planus.specs.UnionAccessors.{IsUnionVector, IsUnionVectorRequired};
ghost use Rattle.planus_read.specs.Tables.{slot_of, table_object, table_start};
ghost use Rattle.planus_read.specs.Tables.{UnionThere, UnionAbsent};
ghost use Rattle.planus_views.specs.Fields.{Unbroken};
ghost use Rattle.planus_views.specs.Fields.{Has, MayHave, MustHave, optional, required};
ghost use Rattle.planus_views.specs.Fields.{MayHaveBytes, MustHaveBytes};
ghost use Rattle.planus_verify.specs.Verified.{IsVerified};
ghost use Rattle.planus_views.specs.Fields.{IsPlace};

use crate::members::{union_unchecked, union_vector_slots};
use crate::root::root_unchecked;
use crate::table_vectors::{Tables, tables_unchecked};
use crate::texts::{Texts, texts_unchecked};
use crate::union_of::{Member, UnionOf};
use crate::unions::Unions;
use crate::view_of::ViewOf;
use planus::errors::ErrorKind;
use planus::table_reader::Table;
use planus::{Plain, PlainTotal, SliceWithStartOffset, Stride, Vector, VectorRead};
use planus_read::{bytes_unchecked, text_unchecked};
use planus_verify::{FieldKind, ValueKind, VerifiedKind};
use std::alloc::AllocError;
use std::marker::PhantomData;

/// A table all of whose accessors succeed, and those of all tables that it leads to; numbers of enums
/// and tags of unions may be of a newer schema.
pub struct View<'a, K: VerifiedKind> {
    table: Table<'a>,
    _kind: PhantomData<K>,
    ghost verified: { IsVerified K.schema K.index table },
}

impl<'a, K: VerifiedKind> Clone for View<'a, K> {
    ghost is_clone = { λ view copy. copy ≡ view };

    ghost is_infallible = { λ _. ⊤ };

    #[inline]
    fn clone(&self) -> Result<Self, AllocError> {
        Ok(*self)
    }
}

impl<'a, K: VerifiedKind> Copy for View<'a, K> {}

impl<'a, K: VerifiedKind> View<'a, K> {
    ghost use Rattle.planus_views.specs.Views.{view_table};
    ghost use Rattle.planus_views.specs.Nested.{IsNestedField, IsNestedRequired};
    ghost use Rattle.planus_views.specs.Vectors.{Returns};
    ghost use Rattle.planus_views.specs.CheckedVectors.{checked_tables, checked_texts};
    ghost use Rattle.planus_views.specs.CheckedVectors.{checked_unions};
    ghost use Rattle.planus_views.specs.Members.{member_tag, member_bytes, member_start};
    ghost use Rattle.planus_views.specs.Members.{member_offset, checked_option, ReturnsAs};

    /// Returns the table, which is verified.
    #[inline(always)]
    pub fn table(&self) -> Table<'a>
        ensures table { result ≡ view_table self.now }
        ensures verified { IsVerified K.schema K.index result }
    {
        self.table
    }

    #[inline(always)]
    fn place(&self, slot: usize) -> Option<(SliceWithStartOffset<'a>, usize)>
        ensures some { IfSome result (λ found. IsPlace (view_table self.now) slot
            (slice_bytes found.0) (slice_start found.0) found.1) }
        ensures none { IfNone result (slot_of (view_table self.now) slot ≡ 0) }
    {
        let offset = self.table.slot_offset(slot);
        if offset == 0 {
            return None;
        }
        Some((self.table.object(), offset))
    }

    /// Returns the string in a slot, or `None` if absent.
    #[inline(always)]
    pub fn text_field(&self, slot: usize) -> Option<&'a str>
        requires { MayHave K.schema K.index slot ValueKind.Text }
        ensures { Returns (IsTextField (view_table self.now) slot) result }
    {
        match self.place(slot) {
            None => None,
            Some((buffer, offset)) => Some(text_unchecked(buffer, offset)),
        }
    }

    /// Returns the string in a slot.
    #[inline(always)]
    pub fn text_required(&self, slot: usize) -> &'a str
        requires { MustHave K.schema K.index slot ValueKind.Text }
        ensures { Returns (IsTextRequired (view_table self.now) slot) result }
    {
        match self.place(slot) {
            Some((buffer, offset)) => text_unchecked(buffer, offset),
            None => unreachable!(),
        }
    }

    /// Returns the byte vector in a slot, also one that is a buffer, or `None` if absent.
    #[inline(always)]
    pub fn bytes_field(&self, slot: usize) -> Option<&'a [u8]>
        requires { MayHaveBytes K.schema K.index slot }
        ensures { Returns (IsBytesField (view_table self.now) slot) result }
    {
        match self.place(slot) {
            None => None,
            Some((buffer, offset)) => Some(bytes_unchecked(buffer, offset)),
        }
    }

    /// Returns the view of the root of the buffer in a slot, or `None` if absent.
    #[inline(always)]
    pub fn nested_field<V: ViewOf<'a>>(&self, slot: usize) -> Option<V>
        requires same { V.Kind.schema ≡ K.schema }
        requires has { MayHave K.schema K.index slot (ValueKind.Nested V.Kind.index) }
        ensures { IsNestedField V.Kind V.table (view_table self.now) slot result }
    {
        match self.bytes_field(slot) {
            None => None,
            Some(bytes) => Some(root_unchecked(bytes)),
        }
    }

    /// Returns the view of the root of the buffer in a slot.
    #[inline(always)]
    pub fn nested_required<V: ViewOf<'a>>(&self, slot: usize) -> V
        requires same { V.Kind.schema ≡ K.schema }
        requires has { MustHave K.schema K.index slot (ValueKind.Nested V.Kind.index) }
        ensures { IsNestedRequired V.Kind V.table (view_table self.now) slot result }
    {
        root_unchecked(self.bytes_required(slot))
    }

    /// Returns the field of a fixed layout in a slot, or `None` if absent.
    #[inline(always)]
    pub fn plain_field<T: PlainTotal>(&self, slot: usize) -> Option<T>
        requires { MayHave K.schema K.index slot (ValueKind.Plain T.SIZE) }
        ensures { Returns (IsPlainField T.shape (view_table self.now) slot) result }
    {
        match self.place(slot) {
            None => None,
            Some((buffer, offset)) => Some(<T as VectorRead<'a>>::from_buffer(buffer, offset)),
        }
    }

    /// Returns the field of a fixed layout in a slot, or the default if absent.
    #[inline(always)]
    pub fn plain_field_or<T: PlainTotal>(&self, slot: usize, default: T) -> T
        requires { MayHave K.schema K.index slot (ValueKind.Plain T.SIZE) }
        ensures { Returns (IsPlainFieldOr T.shape default (view_table self.now) slot) result }
    {
        match self.place(slot) {
            None => default,
            Some((buffer, offset)) => <T as VectorRead<'a>>::from_buffer(buffer, offset),
        }
    }

    /// Returns the field of a fixed layout in a slot, or `None` if absent. Fails as `T`'s read, an
    /// enum's by a number that it doesn't have.
    #[inline(always)]
    pub fn judged_field<T: Plain>(&self, slot: usize) -> Result<Option<T>, ErrorKind>
        requires { MayHave K.schema K.index slot (ValueKind.Plain T.SIZE) }
        ensures { ReturnsAs (IsPlainField T.shape (view_table self.now) slot) (view_table self.now)
            result }
    {
        match self.place(slot) {
            None => Ok(None),
            Some((buffer, offset)) => match T::read(buffer, offset) {
                Ok(value) => Ok(Some(value)),
                Err(kind) => Err(kind),
            },
        }
    }

    /// Returns the field of a fixed layout in a slot, or the default if absent. Fails as `T`'s read.
    #[inline(always)]
    pub fn judged_field_or<T: Plain>(&self, slot: usize, default: T) -> Result<T, ErrorKind>
        requires { MayHave K.schema K.index slot (ValueKind.Plain T.SIZE) }
        ensures { ReturnsAs (IsPlainFieldOr T.shape default (view_table self.now) slot)
            (view_table self.now) result }
    {
        match self.place(slot) {
            None => Ok(default),
            Some((buffer, offset)) => T::read(buffer, offset),
        }
    }

    /// Returns the vector of values of a fixed layout in a slot, or `None` if absent. `T` is such a
    /// value, or a `Result` of one whose read may fail.
    #[inline(always)]
    pub fn plain_vector<T: Stride + 'a>(&self, slot: usize) -> Option<Vector<'a, T>>
        requires { MayHave K.schema K.index slot (ValueKind.Plains T.Stands.SIZE) }
        ensures { Returns (IsPlainVector (view_table self.now) slot) result }
    {
        match self.place(slot) {
            None => None,
            Some((buffer, offset)) => Some(Vector::from_buffer_unchecked(buffer, offset)),
        }
    }

    /// Returns the view of the table in a slot, or `None` if absent.
    #[inline(always)]
    pub fn table_field<V: ViewOf<'a>>(&self, slot: usize) -> Option<V>
        requires same { V.Kind.schema ≡ K.schema }
        requires has { MayHave K.schema K.index slot (ValueKind.Table V.Kind.index) }
        ensures { Returns (IsTableField V.Kind V.table (view_table self.now) slot) result }
    {
        match self.place(slot) {
            None => None,
            Some((buffer, offset)) => {
                let table = Table::from_buffer_unchecked(buffer, offset);
                Some(V::of_verified(table))
            }
        }
    }

    /// Returns the vector of strings in a slot, or `None` if absent.
    #[inline(always)]
    pub fn text_vector(&self, slot: usize) -> Option<Texts<'a>>
        requires { MayHave K.schema K.index slot ValueKind.Texts }
        ensures { Returns (IsTextVector (view_table self.now) slot)
            (option_map (λ texts. checked_texts texts) result) }
    {
        match self.place(slot) {
            None => None,
            Some((buffer, offset)) => Some(texts_unchecked(buffer, offset)),
        }
    }

    /// Returns the vector of tables in a slot, or `None` if absent.
    #[inline(always)]
    pub fn table_vector<V: ViewOf<'a>>(&self, slot: usize) -> Option<Tables<'a, V>>
        requires same { V.Kind.schema ≡ K.schema }
        requires has { MayHave K.schema K.index slot (ValueKind.Tables V.Kind.index) }
        ensures { Returns (IsTableVector V.Kind (view_table self.now) slot)
            (option_map (λ tables. checked_tables tables) result) }
    {
        match self.place(slot) {
            None => None,
            Some((buffer, offset)) => Some(tables_unchecked(buffer, offset)),
        }
    }

    /// Returns the byte vector in a slot, also one that is a buffer.
    #[inline(always)]
    pub fn bytes_required(&self, slot: usize) -> &'a [u8]
        requires { MustHaveBytes K.schema K.index slot }
        ensures { Returns (IsBytesRequired (view_table self.now) slot) result }
    {
        match self.place(slot) {
            Some((buffer, offset)) => bytes_unchecked(buffer, offset),
            None => unreachable!(),
        }
    }

    /// Returns the vector of values of a fixed layout in a slot.
    #[inline(always)]
    pub fn plain_vector_required<T: Stride + 'a>(&self, slot: usize) -> Vector<'a, T>
        requires { MustHave K.schema K.index slot (ValueKind.Plains T.Stands.SIZE) }
        ensures { Returns (IsPlainVectorRequired (view_table self.now) slot) result }
    {
        match self.place(slot) {
            Some((buffer, offset)) => Vector::from_buffer_unchecked(buffer, offset),
            None => unreachable!(),
        }
    }

    /// Returns the vector of strings in a slot.
    #[inline(always)]
    pub fn text_vector_required(&self, slot: usize) -> Texts<'a>
        requires { MustHave K.schema K.index slot ValueKind.Texts }
        ensures { Returns (IsTextVectorRequired (view_table self.now) slot)
            (checked_texts result) }
    {
        match self.place(slot) {
            Some((buffer, offset)) => texts_unchecked(buffer, offset),
            None => unreachable!(),
        }
    }

    /// Returns the view of the table in a slot.
    #[inline(always)]
    pub fn table_required<V: ViewOf<'a>>(&self, slot: usize) -> V
        requires same { V.Kind.schema ≡ K.schema }
        requires has { MustHave K.schema K.index slot (ValueKind.Table V.Kind.index) }
        ensures { Returns (IsTableRequired V.Kind V.table (view_table self.now) slot) result }
    {
        match self.place(slot) {
            Some((buffer, offset)) => {
                let table = Table::from_buffer_unchecked(buffer, offset);
                V::of_verified(table)
            }
            None => unreachable!(),
        }
    }

    /// Returns the vector of tables in a slot.
    #[inline(always)]
    pub fn table_vector_required<V: ViewOf<'a>>(&self, slot: usize) -> Tables<'a, V>
        requires same { V.Kind.schema ≡ K.schema }
        requires has { MustHave K.schema K.index slot (ValueKind.Tables V.Kind.index) }
        ensures { Returns (IsTableVectorRequired V.Kind (view_table self.now) slot)
            (checked_tables result) }
    {
        match self.place(slot) {
            Some((buffer, offset)) => tables_unchecked(buffer, offset),
            None => unreachable!(),
        }
    }

    /// Returns the field of a fixed layout in a slot.
    #[inline(always)]
    pub fn plain_required<T: PlainTotal>(&self, slot: usize) -> T
        requires { MustHave K.schema K.index slot (ValueKind.Plain T.SIZE) }
        ensures { Returns (IsPlainRequired T.shape (view_table self.now) slot) result }
    {
        match self.place(slot) {
            Some((buffer, offset)) => <T as VectorRead<'a>>::from_buffer(buffer, offset),
            None => unreachable!(),
        }
    }

    /// Returns the field of a fixed layout in a slot. Fails as `T`'s read.
    #[inline(always)]
    pub fn judged_required<T: Plain>(&self, slot: usize) -> Result<T, ErrorKind>
        requires { MustHave K.schema K.index slot (ValueKind.Plain T.SIZE) }
        ensures { ReturnsAs (IsPlainRequired T.shape (view_table self.now) slot)
            (view_table self.now) result }
    {
        match self.place(slot) {
            Some((buffer, offset)) => T::read(buffer, offset),
            None => unreachable!(),
        }
    }

    #[inline(always)]
    fn member(&self, slot: usize) -> Option<Member<'a>>
        requires { Unbroken (view_table self.now) slot }
        ensures some { IfSome result (λ found.
            UnionThere (view_table self.now) slot (member_tag found)) }
        ensures bytes { IfSome result (λ found.
            member_bytes found ≡ table_object (view_table self.now)) }
        ensures begin { IfSome result (λ found.
            member_start found ≡ table_start (view_table self.now)) }
        ensures offset { IfSome result (λ found.
            member_offset found ≡ slot_of (view_table self.now) (slot + 1)) }
        ensures none { IfNone result (UnionAbsent (view_table self.now) slot) }
    {
        match union_unchecked(&self.table, slot) {
            None => None,
            Some((tag, offset)) => Some(Member::new(tag, self.table.object(), offset)),
        }
    }

    /// Returns the union of a slot and the next, or `None` if absent. A tag that the schema doesn't
    /// have is a variant of its own.
    #[inline(always)]
    pub fn union_field<U: UnionOf<'a>>(&self, slot: usize) -> Option<U>
        requires same { U.Kind.schema ≡ K.schema }
        requires has { Has K.schema K.index slot (optional slot (FieldKind.Union U.Kind.union)) }
        ensures { ReturnsAs (λ type_ method. IsUnionField U.reads (view_table self.now) slot type_
            method U.Kind) (view_table self.now) (checked_option U.checked result) }
    {
        match self.member(slot) {
            None => None,
            Some(member) => Some(U::of_member(member)),
        }
    }

    /// Returns the union of a slot and the next.
    #[inline(always)]
    pub fn union_required<U: UnionOf<'a>>(&self, slot: usize) -> U
        requires same { U.Kind.schema ≡ K.schema }
        requires has { Has K.schema K.index slot (required slot (FieldKind.Union U.Kind.union)) }
        ensures { ReturnsAs (λ type_ method. IsUnionRequired U.reads (view_table self.now) slot
            type_ method) (view_table self.now) (U.checked result) }
    {
        match self.member(slot) {
            Some(member) => U::of_member(member),
            None => unreachable!(),
        }
    }

    /// Returns the vector of unions of a slot and the next, or `None` if absent.
    #[inline(always)]
    pub fn union_vector<U: UnionOf<'a>>(&self, slot: usize) -> Option<Unions<'a, U>>
        requires same { U.Kind.schema ≡ K.schema }
        requires has { Has K.schema K.index slot (optional slot (FieldKind.Unions U.Kind.union)) }
        ensures { Returns (IsUnionVector (view_table self.now) slot)
            (option_map (λ unions. checked_unions unions) result) }
    {
        match union_vector_slots(&self.table, slot) {
            None => None,
            Some((tags, references)) => {
                Some(Unions::from_buffer_unchecked(self.table.object(), tags, references))
            }
        }
    }

    /// Returns the vector of unions of a slot and the next.
    #[inline(always)]
    pub fn union_vector_required<U: UnionOf<'a>>(&self, slot: usize) -> Unions<'a, U>
        requires same { U.Kind.schema ≡ K.schema }
        requires has { Has K.schema K.index slot (required slot (FieldKind.Unions U.Kind.union)) }
        ensures { Returns (IsUnionVectorRequired (view_table self.now) slot)
            (checked_unions result) }
    {
        match union_vector_slots(&self.table, slot) {
            Some((tags, references)) => {
                Unions::from_buffer_unchecked(self.table.object(), tags, references)
            }
            None => unreachable!(),
        }
    }

    /// Creates the view of a verified table.
    #[inline(always)]
    pub fn new(table: Table<'a>) -> View<'a, K>
        requires { IsVerified K.schema K.index table }
        ensures { view_table result ≡ table.entry }
    {
        View {
            table,
            _kind: PhantomData,
        }
    }
}
