//! The module for Rust, over the calls for C.

use crate::at::At;
use crate::context::Context;
use crate::foreign_caller::Caller;
use crate::foreign_forms::{FieldForms, Forms};
use crate::foreign_words::Language;
use crate::holes::base;
use crate::printer::Printer;
use planus_schema::{Base, Body, Enum, FieldType, Scalar, Table, Union};

const HEAD: &str = "\
//! Reading of buffers of `$c`, by the calls of §.h. Over std alone, for Rust of 1.82 and later.
//!
//! A table is that of [`table_at`], and its methods read its fields. No byte and no position does
//! harm. Link the library of the calls: `-l static=NAME`, after `-L FOLDER`.
#![allow(dead_code, non_camel_case_types, non_snake_case, non_upper_case_globals)]
";

const TYPES: &str = r#"
use std::fmt;

/// Why nothing is read.
#[derive(Clone, Copy, Debug, PartialEq, Eq)]
pub struct ¤ {
    pub status: u32,
}

impl fmt::Display for ¤ {
    fn fmt(&self, f: &mut fmt::Formatter<'_>) -> fmt::Result {
        f.write_str(match self.status {
            2 => "an offset leads out of the buffer",
            3 => "a length leads out of the buffer",
            4 => "the vectors of a union have different lengths",
            5 => "an enum has no such value",
            6 => "a union has no such tag",
            7 => "a vtable has a wrong length",
            8 => "a string isn't UTF-8",
            9 => "a required field is missing",
            10 => "a string doesn't end in a zero byte",
            11 => "tables lead to tables beyond the limit",
            12 => "more tables are reached than the limit",
            _ => "no status",
        })
    }
}

impl std::error::Error for ¤ {}

const INVALID_LENGTH: ¤ = ¤ { status: 3 };

const INVALID_UTF8: ¤ = ¤ { status: 8 };

const MISSING_REQUIRED: ¤ = ¤ { status: 9 };

/// A position in a buffer.
#[derive(Clone, Copy)]
pub struct BufferRef<'a> {
    buffer: &'a [u8],
    at: usize,
}

impl fmt::Debug for BufferRef<'_> {
    fn fmt(&self, f: &mut fmt::Formatter<'_>) -> fmt::Result {
        write!(f, "at {} of {} bytes", self.at, self.buffer.len())
    }
}

/// What a call stores of a vector or a string.
#[repr(C)]
#[derive(Clone, Copy)]
pub struct SpanRef {
    at: usize,
    len: usize,
}

/// What a call stores of a union.
#[repr(C)]
#[derive(Clone, Copy)]
pub struct MemberRef {
    at: usize,
    tag: u8,
}

type CallRef<T> = unsafe extern "C" fn(*const u8, usize, usize, *mut T) -> u32;

type ItemCallRef = unsafe extern "C" fn(*const u8, usize, usize, usize, *mut MemberRef) -> u32;

/// What is read of a field, or of an item of so many bytes.
pub trait TableRead<'a>: std::marker::Sized {
    /// What the call stores.
    type Plain: Copy;
    const SIZE: usize;
    fn of(place: BufferRef<'a>, out: Self::Plain) -> Result<Self, ¤>;
    fn at(place: BufferRef<'a>) -> Result<Self, ¤>;
}

// Each call is one that is declared below for what is stored.
fn call<T: Copy>(place: BufferRef<'_>, call: CallRef<T>) -> Result<Option<T>, ¤> {
    let mut out = std::mem::MaybeUninit::<T>::zeroed();
    let (buffer, len) = (place.buffer.as_ptr(), place.buffer.len());
    match unsafe { call(buffer, len, place.at, out.as_mut_ptr()) } {
        0 => Ok(Some(unsafe { out.assume_init() })),
        1 => Ok(None),
        status => Err(¤ { status }),
    }
}

fn maybe<'a, T: TableRead<'a>>(
    place: BufferRef<'a>,
    name: CallRef<T::Plain>,
) -> Result<Option<T>, ¤> {
    match call(place, name)? {
        Some(out) => Ok(Some(T::of(place, out)?)),
        None => Ok(None),
    }
}

fn surely<'a, T: TableRead<'a>>(
    place: BufferRef<'a>,
    name: CallRef<T::Plain>,
) -> Result<T, ¤> {
    maybe(place, name)?.ok_or(MISSING_REQUIRED)
}

fn bytes_of(place: BufferRef<'_>, span: SpanRef, size: usize) -> Result<&[u8], ¤> {
    let len = span.len.checked_mul(size).ok_or(INVALID_LENGTH)?;
    let end = span.at.checked_add(len).ok_or(INVALID_LENGTH)?;
    place.buffer.get(span.at..end).ok_or(INVALID_LENGTH)
}

fn bytes_at<const N: usize>(place: BufferRef<'_>) -> Result<[u8; N], ¤> {
    let rest = place.buffer.get(place.at..).ok_or(INVALID_LENGTH)?;
    rest.first_chunk::<N>().copied().ok_or(INVALID_LENGTH)
}

macro_rules! numbers {
    ($$($$number:ident)*) => {$$(
        impl<'a> TableRead<'a> for $$number {
            type Plain = $$number;
            const SIZE: usize = size_of::<$$number>();
            fn of(_: BufferRef<'a>, out: $$number) -> Result<$$number, ¤> {
                Ok(out)
            }
            fn at(place: BufferRef<'a>) -> Result<$$number, ¤> {
                Ok($$number::from_le_bytes(bytes_at(place)?))
            }
        }
    )*};
}

numbers!(u8 u16 u32 u64 i8 i16 i32 i64 f32 f64);

impl<'a> TableRead<'a> for bool {
    type Plain = u8;
    const SIZE: usize = 1;
    fn of(_: BufferRef<'a>, out: u8) -> Result<bool, ¤> {
        Ok(out != 0)
    }
    fn at(place: BufferRef<'a>) -> Result<bool, ¤> {
        Ok(u8::at(place)? != 0)
    }
}

impl<'a> TableRead<'a> for &'a str {
    type Plain = SpanRef;
    const SIZE: usize = 4;
    fn of(place: BufferRef<'a>, out: SpanRef) -> Result<&'a str, ¤> {
        std::str::from_utf8(bytes_of(place, out, 1)?).map_err(|_| INVALID_UTF8)
    }
    fn at(place: BufferRef<'a>) -> Result<&'a str, ¤> {
        surely(place, §_string_at)
    }
}

impl<'a> TableRead<'a> for &'a [u8] {
    type Plain = SpanRef;
    const SIZE: usize = 4;
    fn of(place: BufferRef<'a>, out: SpanRef) -> Result<&'a [u8], ¤> {
        bytes_of(place, out, 1)
    }
    fn at(place: BufferRef<'a>) -> Result<&'a [u8], ¤> {
        Ok(<&str>::at(place)?.as_bytes())
    }
}

/// Items that are read when they are asked for.
pub struct Vector<'a, T> {
    place: BufferRef<'a>,
    span: SpanRef,
    items: std::marker::PhantomData<T>,
}

impl<T> Clone for Vector<'_, T> {
    fn clone(&self) -> Self {
        *self
    }
}

impl<T> Copy for Vector<'_, T> {}

impl<T> fmt::Debug for Vector<'_, T> {
    fn fmt(&self, f: &mut fmt::Formatter<'_>) -> fmt::Result {
        write!(f, "{} items", self.span.len)
    }
}

impl<'a, T: TableRead<'a>> Vector<'a, T> {
    pub fn len(&self) -> usize {
        self.span.len
    }

    pub fn is_empty(&self) -> bool {
        self.span.len == 0
    }

    /// The bytes of all items.
    pub fn as_bytes(&self) -> Result<&'a [u8], ¤> {
        bytes_of(self.place, self.span, T::SIZE)
    }

    /// The item at an index, if there is one.
    pub fn get(&self, index: usize) -> Option<Result<T, ¤>> {
        if index >= self.span.len {
            return None;
        }
        Some(T::at(BufferRef {
            buffer: self.place.buffer,
            at: self.span.at.wrapping_add(index.wrapping_mul(T::SIZE)),
        }))
    }

    pub fn iter(&self) -> VectorView<'a, T> {
        self.into_iter()
    }
}

impl<'a, T: TableRead<'a>> TableRead<'a> for Vector<'a, T> {
    type Plain = SpanRef;
    const SIZE: usize = 4;
    fn of(place: BufferRef<'a>, out: SpanRef) -> Result<Self, ¤> {
        let items = std::marker::PhantomData;
        Ok(Vector { place, span: out, items })
    }
    fn at(_: BufferRef<'a>) -> Result<Self, ¤> {
        Err(INVALID_LENGTH)
    }
}

impl<'a, T: TableRead<'a>> std::iter::IntoIterator for Vector<'a, T> {
    type Item = Result<T, ¤>;
    type IntoIter = VectorView<'a, T>;
    fn into_iter(self) -> VectorView<'a, T> {
        VectorView { list: self, index: 0 }
    }
}

/// The items of a vector, one after another.
#[derive(Clone, Debug)]
pub struct VectorView<'a, T> {
    list: Vector<'a, T>,
    index: usize,
}

impl<'a, T: TableRead<'a>> std::iter::Iterator for VectorView<'a, T> {
    type Item = Result<T, ¤>;
    fn next(&mut self) -> Option<Result<T, ¤>> {
        let item = self.list.get(self.index)?;
        self.index += 1;
        Some(item)
    }
}

/// The same of unions.
pub struct UnionVector<'a, T> {
    place: BufferRef<'a>,
    call: ItemCallRef,
    count: usize,
    items: std::marker::PhantomData<T>,
}

impl<T> Clone for UnionVector<'_, T> {
    fn clone(&self) -> Self {
        *self
    }
}

impl<T> Copy for UnionVector<'_, T> {}

impl<T> fmt::Debug for UnionVector<'_, T> {
    fn fmt(&self, f: &mut fmt::Formatter<'_>) -> fmt::Result {
        write!(f, "{} unions", self.count)
    }
}

fn member_at(
    place: BufferRef<'_>,
    call: ItemCallRef,
    index: usize,
) -> Result<Option<MemberRef>, ¤> {
    let mut out = MemberRef { at: 0, tag: 0 };
    let (buffer, len) = (place.buffer.as_ptr(), place.buffer.len());
    match unsafe { call(buffer, len, place.at, index, &mut out) } {
        0 => Ok(Some(out)),
        1 => Ok(None),
        status => Err(¤ { status }),
    }
}

fn unions<'a, T>(place: BufferRef<'a>, call: ItemCallRef) -> Result<UnionVector<'a, T>, ¤> {
    let (mut count, mut end) = (0, usize::MAX);
    member_at(place, call, end)?;
    while count < end {
        let middle = count + (end - count) / 2;
        match member_at(place, call, middle) {
            Ok(None) => end = middle,
            _ => count = middle + 1,
        }
    }
    let items = std::marker::PhantomData;
    Ok(UnionVector { place, call, count, items })
}

impl<'a, T: TableRead<'a, Plain = MemberRef>> UnionVector<'a, T> {
    pub fn len(&self) -> usize {
        self.count
    }

    pub fn is_empty(&self) -> bool {
        self.count == 0
    }

    /// The union at an index, if there is one.
    pub fn get(&self, index: usize) -> Option<Result<T, ¤>> {
        match member_at(self.place, self.call, index) {
            Ok(Some(out)) => Some(T::of(self.place, out)),
            Ok(None) => None,
            Err(error) => Some(Err(error)),
        }
    }

    pub fn iter(&self) -> UnionVectorView<'a, T> {
        self.into_iter()
    }
}

impl<'a, T: TableRead<'a, Plain = MemberRef>> std::iter::IntoIterator for UnionVector<'a, T> {
    type Item = Result<T, ¤>;
    type IntoIter = UnionVectorView<'a, T>;
    fn into_iter(self) -> UnionVectorView<'a, T> {
        UnionVectorView { list: self, index: 0 }
    }
}

/// The unions of a vector, one after another.
#[derive(Clone, Debug)]
pub struct UnionVectorView<'a, T> {
    list: UnionVector<'a, T>,
    index: usize,
}

impl<'a, T: TableRead<'a, Plain = MemberRef>> std::iter::Iterator for UnionVectorView<'a, T> {
    type Item = Result<T, ¤>;
    fn next(&mut self) -> Option<Result<T, ¤>> {
        let item = self.list.get(self.index)?;
        self.index += 1;
        Some(item)
    }
}

/// A table.
pub trait TableKind<'a> {
    fn in_buffer(place: BufferRef<'a>) -> Self;
}

/// The table to which the reference at a position of a buffer leads. The root is at 0.
pub fn table_at<'a, T: TableKind<'a>>(buffer: &'a [u8], at: usize) -> T {
    T::in_buffer(BufferRef { buffer, at })
}

/// The first of these size-prefixed buffers, after its size.
pub fn sized(buffer: &[u8]) -> Result<&[u8], ¤> {
    let mut out = SpanRef { at: 0, len: 0 };
    match unsafe { §_sized(buffer.as_ptr(), buffer.len(), &mut out) } {
        0 => bytes_of(BufferRef { buffer, at: 0 }, out, 1),
        status => Err(¤ { status }),
    }
}
"#;

const IDENTIFIED: &str = r#"
/// Whether a buffer has the file identifier of the schema.
pub fn has_identifier(buffer: &[u8]) -> bool {
    unsafe { §_has_identifier(buffer.as_ptr(), buffer.len()) }
}
"#;

const ROOT: &str = "
/// The table at the root of a buffer.
pub fn root(buffer: &[u8]) -> ¥<'_> {
    table_at(buffer, 0)
}
";

const VERIFY: &str = r#"
/// Tests all that the root leads to: after it no method fails, but of a number that its enum doesn't
/// have. No more than `depth` tables may stand one in the other, and no more than `most_tables` be
/// reached, each as often as it is; flatc's own verifiers have 64 and 1000000.
pub fn verify(buffer: &[u8], depth: u8, most_tables: usize) -> Result<(), ¤> {
    let mut place = [0; 4];
    match unsafe { §_verify(buffer.as_ptr(), buffer.len(), depth, most_tables, &mut place) } {
        0 => Ok(()),
        status => Err(¤ { status }),
    }
}
"#;

const VERIFY_CALL: &str =
    "    fn §_verify(buffer: *const u8, len: usize, depth: u8, most_tables: usize, \
     place: *mut [usize; 4]) -> u32;\n";

const ENUM: &str = "
#[repr(transparent)]
#[derive(Clone, Copy, Debug, PartialEq, Eq, PartialOrd, Ord, Hash)]
pub struct ¥(pub $b);

impl ¥ {
";

const FLAGS: &str = "
impl std::ops::BitOr for ¥ {
    type Output = ¥;
    fn bitor(self, other: ¥) -> ¥ {
        ¥(self.0 | other.0)
    }
}

impl std::ops::BitAnd for ¥ {
    type Output = ¥;
    fn bitand(self, other: ¥) -> ¥ {
        ¥(self.0 & other.0)
    }
}
";

const STRUCT: &str = "
#[repr(C)]
#[derive(Clone, Copy, Debug, PartialEq)]
pub struct ¥ {
";

const VALUE_READ: &str = "
const _: () = assert!(size_of::<¥>() == $S);

impl<'a> TableRead<'a> for ¥ {
    type Plain = ¥;
    const SIZE: usize = $S;
    fn of(_: BufferRef<'a>, out: ¥) -> Result<¥, ¤> {
        Ok(out)
    }
    fn at(place: BufferRef<'a>) -> Result<¥, ¤> {
        surely(place, §_$M_at)
    }
}
";

const TABLE: &str = "
/// Tables `$T`.
#[derive(Clone, Copy, Debug)]
pub struct ¥<'a> {
    place: BufferRef<'a>,
}

impl<'a> TableKind<'a> for ¥<'a> {
    fn in_buffer(place: BufferRef<'a>) -> ¥<'a> {
        ¥ { place }
    }
}

impl<'a> TableRead<'a> for ¥<'a> {
    type Plain = usize;
    const SIZE: usize = 4;
    fn of(place: BufferRef<'a>, at: usize) -> Result<¥<'a>, ¤> {
        Ok(table_at(place.buffer, at))
    }
    fn at(place: BufferRef<'a>) -> Result<¥<'a>, ¤> {
        Ok(¥ { place })
    }
}

impl<'a> ¥<'a> {
";

const UNION: &str = "
/// A union's value, by its tag.
#[derive(Clone, Copy, Debug)]
pub enum ¥<'a> {
";

const UNION_READ: &str = "    /// A tag that the schema doesn't have, and where the value is.
    $Z(u8, BufferRef<'a>),
}

impl<'a> TableRead<'a> for ¥<'a> {
    type Plain = MemberRef;
    const SIZE: usize = 4;
    fn of(place: BufferRef<'a>, out: MemberRef) -> Result<¥<'a>, ¤> {
        let (buffer, at) = (place.buffer, out.at);
        let place = BufferRef { buffer, at };
        match out.tag {
";

const UNION_END: &str = "            tag => Ok(¥::$Z(tag, place)),
        }
    }
    fn at(_: BufferRef<'a>) -> Result<¥<'a>, ¤> {
        Err(INVALID_LENGTH)
    }
}
";

/// The fields of a table.
const FIELDS: FieldForms = FieldForms {
    one: "    pub fn ¢(&self) -> Result<£, ¤> {\n        surely",
    one_if: "    pub fn ¢(&self) -> Result<Option<£>, ¤> {\n        maybe",
    vector: "    pub fn ¢(&self) -> Result<Vector<'a, £>, ¤> {\n        surely",
    vector_if: "    pub fn ¢(&self) -> Result<Option<Vector<'a, £>>, ¤> {\n        maybe",
    bytes: "    pub fn ¢(&self) -> Result<&'a [u8], ¤> {\n        surely",
    bytes_if: "    pub fn ¢(&self) -> Result<Option<&'a [u8]>, ¤> {\n        maybe",
    unions: "    pub fn ¢(&self) -> Result<UnionVector<'a, £>, ¤> {\n        unions",
};

const CALLS: &str = "
unsafe extern \"C\" {
    fn §_string_at(buffer: *const u8, len: usize, at: usize, out: *mut SpanRef) -> u32;
    fn §_sized(buffer: *const u8, len: usize, out: *mut SpanRef) -> u32;
";

const IDENTIFIED_CALL: &str = "    fn §_has_identifier(buffer: *const u8, len: usize) -> bool;\n";

/// What declares the calls of a declaration.
const VALUE_CALLS: Forms = Forms {
    of_enum: "    fn §_$M_at(buffer: *const u8, len: usize, at: usize, out: *mut ¥) -> u32;\n",
    of_struct: "    fn §_$M_at(buffer: *const u8, len: usize, at: usize, out: *mut ¥) -> u32;
    fn §_$M_behind(buffer: *const u8, len: usize, at: usize, out: *mut ¥) -> u32;\n",
    of_table: "",
    of_union: "",
};

const FIELD_CALL: &str = "    fn §_$M_$n(buffer: *const u8, len: usize, at: usize, ";

/// What a call stores of a field.
fn stored(kind: FieldType) -> &'static str {
    match kind.base {
        Base::Union(_) if kind.vector => "index: usize, out: *mut MemberRef",
        Base::Union(_) => "out: *mut MemberRef",
        Base::Text => "out: *mut SpanRef",
        _ if kind.vector => "out: *mut SpanRef",
        Base::Table(_) => "out: *mut usize",
        Base::Scalar(Scalar::Bool) => "out: *mut u8",
        _ => "out: *mut £",
    }
}

fn member_arm(base: Base) -> &'static str {
    match base {
        Base::Struct(_) => "            $g => Ok(¥::¢(surely(place, §_$h_behind)?)),\n",
        _ => "            $g => Ok(¥::¢(TableRead::at(place)?)),\n",
    }
}

impl<'a> Printer<'a> {
    fn put_rust_enum(&mut self, one: &Enum, rust: Caller<'_>, at: At) {
        self.put_caller(ENUM, rust, at);
        self.put_member_forms("    pub const ¢: ¥ = ¥($i);\n", rust, at);
        self.put_str("}\n");
        self.put_caller(if one.flags { FLAGS } else { "" }, rust, at);
        self.put_caller(VALUE_READ, rust, at);
    }

    fn put_rust_struct(&mut self, rust: Caller<'_>, at: At) {
        self.put_caller(STRUCT, rust, at);
        let padding = ("    padding_$p: [u8; ", "],\n");
        self.put_struct_forms("    pub ¢: ¶,\n", padding, rust, at);
        self.put_str("}\n");
        self.put_caller(VALUE_READ, rust, at);
    }

    fn put_rust_table(&mut self, one: &Table, rust: Caller<'_>, at: At) {
        self.put_caller(TABLE, rust, at);
        for (place, field) in one.fields.iter().enumerate() {
            if !field.deprecated {
                let at = at.member(place);
                self.put_caller(FIELDS.of(field), rust, at);
                self.put_caller("(self.place, §_$M_$n)\n    }\n", rust, at);
            }
        }
        self.put_str("}\n");
    }

    fn put_rust_union(&mut self, one: &Union, rust: Caller<'_>, at: At) {
        self.put_caller(UNION, rust, at);
        self.put_member_forms("    ¢(£),\n", rust, at);
        self.put_caller(UNION_READ, rust, at);
        for place in 0..one.members.len() {
            let at = at.member(place);
            self.put_caller(member_arm(base(self.context, at)), rust, at);
        }
        self.put_caller(UNION_END, rust, at);
    }

    fn put_rust_declared(&mut self, body: &Body, rust: Caller<'_>, at: At) {
        match body {
            Body::Enum(one) => self.put_rust_enum(one, rust, at),
            Body::Struct(_) => self.put_rust_struct(rust, at),
            Body::Table(one) => self.put_rust_table(one, rust, at),
            Body::Union(one) => self.put_rust_union(one, rust, at),
        }
    }

    // What declares the calls of a table.
    fn put_rust_calls(&mut self, body: &Body, rust: Caller<'_>, at: At) {
        if let Body::Table(one) = body {
            for (place, field) in one.fields.iter().enumerate() {
                if !field.deprecated {
                    let at = at.member(place);
                    self.put_caller(FIELD_CALL, rust, at);
                    self.put_caller(stored(field.kind), rust, at);
                    self.put_str(") -> u32;\n");
                }
            }
        }
    }
}

/// Returns the module for Rust.
pub(crate) fn print_rust<'a>(context: &'a Context<'a>, prefix: &str) -> Printer<'a> {
    let rust = Caller {
        language: Language::Rust,
        prefix,
    };
    let first = At::declaration(0);
    let identified = context.root.is_some() && context.identifier.is_some();
    let mut text = Printer::new(context);
    text.put_caller(HEAD, rust, first);
    text.put_caller(TYPES, rust, first);
    text.put_caller(if identified { IDENTIFIED } else { "" }, rust, first);
    if let Some(root) = context.root {
        text.put_caller(ROOT, rust, At::declaration(root));
    }
    let verified = context.root.is_some() && context.verified;
    text.put_caller(if verified { VERIFY } else { "" }, rust, first);
    for (index, one) in context.declared.iter().enumerate() {
        text.put_rust_declared(&one.body, rust, At::declaration(index));
    }
    text.put_caller(CALLS, rust, first);
    text.put_caller(if identified { IDENTIFIED_CALL } else { "" }, rust, first);
    text.put_caller(if verified { VERIFY_CALL } else { "" }, rust, first);
    text.put_forms(VALUE_CALLS, rust);
    for (index, one) in context.declared.iter().enumerate() {
        text.put_rust_calls(&one.body, rust, At::declaration(index));
    }
    text.put_str("}\n");
    text
}
