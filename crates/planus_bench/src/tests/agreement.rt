use super::found::Found;
use super::kinds::{Held, Pair, Row, position};
use super::plain_reader::{
    Answer, PlainList, byte_list, number, signed, table, text, union_vector, unsigned, vector,
};
use planus::located::Error as Located;
use planus::table_reader::Table;
use planus::{
    Error, Place, SignedBytes, TaggedPlace, UnionVector, Vector, VectorRead, VectorReadUnion,
};
use planus_read::errors::ErrorKind;
use planus_view::{Items, ReadView, VectorOf};

// A position in a slice of a buffer, and the slice's offset.
#[derive(Clone, Copy)]
pub struct Spot<'a> {
    pub bytes: &'a [u8],
    pub start: i128,
    pub from: i128,
    pub at: i128,
}

impl<'a> Spot<'a> {
    fn at(&self, at: i128) -> Spot<'a> {
        Spot { at, ..*self }
    }

    fn of(&self, from: i128, at: i128) -> Spot<'a> {
        Spot { from, at, ..*self }
    }

    fn place(&self) -> i128 {
        self.start.wrapping_add(self.at)
    }

    pub fn is_error(&self, error: Located<'_>, kind: ErrorKind, names: (&str, &str)) -> bool {
        let location = error.source_location;
        same_kind(error.error_kind, kind)
            && (location.type_, location.method) == names
            && location.byte_offset as i128 == self.start.wrapping_add(self.from)
    }
}

pub fn same_kind(read: ErrorKind, plain: ErrorKind) -> bool {
    match (read, plain) {
        (ErrorKind::InvalidOffset, ErrorKind::InvalidOffset)
        | (ErrorKind::InvalidLength, ErrorKind::InvalidLength)
        | (ErrorKind::InvalidUtf8 { .. }, ErrorKind::InvalidUtf8 { .. })
        | (ErrorKind::MissingRequired, ErrorKind::MissingRequired)
        | (ErrorKind::MissingNullTerminator, ErrorKind::MissingNullTerminator) => true,
        (
            ErrorKind::InvalidVtableLength { length },
            ErrorKind::InvalidVtableLength { length: plain },
        ) => length == plain,
        (ErrorKind::UnknownUnionTag { tag }, ErrorKind::UnknownUnionTag { tag: plain }) => {
            tag == plain
        }
        (
            ErrorKind::UnionVectorLengthsMismatched {
                tags_len,
                values_len,
            },
            ErrorKind::UnionVectorLengthsMismatched {
                tags_len: tags,
                values_len: values,
            },
        ) => (tags_len, values_len) == (tags, values),
        _ => false,
    }
}

pub fn same<T: PartialEq + Copy>(read: Answer<T>, plain: Answer<T>) -> bool {
    match (read, plain) {
        (Ok(value), Ok(plain)) => value == plain,
        (Err(kind), Err(plain)) => same_kind(kind, plain),
        _ => false,
    }
}

pub fn same_number<T: Into<i128>>(read: Answer<T>, plain: Option<i128>) -> bool {
    match read {
        Ok(value) => plain == Some(value.into()),
        Err(kind) => plain.is_none() && matches!(kind, ErrorKind::InvalidOffset),
    }
}

pub trait Field: Copy {
    fn agrees(read: Answer<Self>, spot: Spot<'_>) -> bool;
}

impl Field for u8 {
    fn agrees(read: Answer<u8>, spot: Spot<'_>) -> bool {
        same_number(read, unsigned(spot.bytes, spot.at, 1))
    }
}

impl Field for i16 {
    fn agrees(read: Answer<i16>, spot: Spot<'_>) -> bool {
        same_number(read, signed(spot.bytes, spot.at, 2))
    }
}

impl<'a> Field for &'a str {
    fn agrees(read: Answer<&'a str>, spot: Spot<'_>) -> bool {
        same(read, text(spot.bytes, spot.at))
    }
}

impl<'a> Field for &'a [u8] {
    fn agrees(read: Answer<&'a [u8]>, spot: Spot<'_>) -> bool {
        same(read, byte_list(spot.bytes, spot.at))
    }
}

impl<'a> Field for SignedBytes<'a> {
    fn agrees(read: Answer<SignedBytes<'a>>, spot: Spot<'_>) -> bool {
        same(
            read.map(|read| read.as_bytes()),
            byte_list(spot.bytes, spot.at),
        )
    }
}

impl<'a> Field for Place<'a> {
    fn agrees(read: Answer<Place<'a>>, spot: Spot<'_>) -> bool {
        match read {
            Ok(place) => {
                position(place) as i128 == spot.place()
                    && <&str>::agrees(place.read::<&str>(), spot)
                    && Table::agrees(place.read::<Table<'_>>(), spot)
            }
            Err(_) => false,
        }
    }
}

// The first two slots of the table are compared.
impl<'a> Field for Table<'a> {
    fn agrees(read: Answer<Table<'a>>, spot: Spot<'_>) -> bool {
        match (read, table(spot.bytes, spot.from, spot.at)) {
            (Ok(table), Ok(plain)) => {
                let found = Found {
                    table,
                    plain,
                    start: spot.start,
                };
                found.values_agree(0) && found.values_agree(1)
            }
            (Err(kind), Err(plain)) => same_kind(kind, plain),
            _ => false,
        }
    }
}

impl<'a, T: VectorRead<'a> + Item> Field for Vector<'a, T> {
    fn agrees(read: Answer<Vector<'a, T>>, spot: Spot<'_>) -> bool {
        match (read, vector(spot.bytes, spot.at, T::stride() as i128)) {
            (Ok(vector), Ok(list)) => items_agree(
                vector,
                PlainItems {
                    tags: 0,
                    list,
                    stride: T::stride() as i128,
                    spot,
                },
            ),
            (Err(kind), Err(plain)) => same_kind(kind, plain),
            _ => false,
        }
    }
}

pub trait Item: Copy {
    fn is_at(&self, tag: i128, spot: Spot<'_>) -> bool;
}

impl Item for u16 {
    fn is_at(&self, _tag: i128, spot: Spot<'_>) -> bool {
        unsigned(spot.bytes, spot.at, 2) == Some(*self as i128)
    }
}

impl Item for i64 {
    fn is_at(&self, _tag: i128, spot: Spot<'_>) -> bool {
        signed(spot.bytes, spot.at, 8) == Some(*self as i128)
    }
}

impl Item for bool {
    fn is_at(&self, _tag: i128, spot: Spot<'_>) -> bool {
        match number(spot.bytes, spot.at, 1) {
            Some(number) => *self == (number != 0),
            None => false,
        }
    }
}

impl<'a> Item for Place<'a> {
    fn is_at(&self, _tag: i128, spot: Spot<'_>) -> bool {
        Place::agrees(Ok(*self), spot)
    }
}

impl<'a> Item for Result<&'a str, Error> {
    fn is_at(&self, _tag: i128, spot: Spot<'_>) -> bool {
        match (*self, text(spot.bytes, spot.at)) {
            (Ok(text), Ok(plain)) => text == plain,
            (Err(error), Err(plain)) => spot.is_error(error, plain, ("[str]", "get")),
            _ => false,
        }
    }
}

impl<'a> Item for Result<Row<'a>, Error> {
    fn is_at(&self, _tag: i128, spot: Spot<'_>) -> bool {
        match (*self, table(spot.bytes, spot.from, spot.at)) {
            (Ok(row), Ok(_)) => Table::agrees(Ok(row.0), spot),
            (Err(error), Err(plain)) => spot.is_error(error, plain, ("[Row]", "get")),
            _ => false,
        }
    }
}

impl<'a> Item for Result<TaggedPlace<'a>, Error> {
    fn is_at(&self, tag: i128, spot: Spot<'_>) -> bool {
        union_is(*self, tag, spot)
    }
}

impl<'a> Item for Result<Held<'a>, Error> {
    fn is_at(&self, tag: i128, spot: Spot<'_>) -> bool {
        union_is(*self, tag, spot)
    }
}

// The tags of unions are elsewhere.
#[derive(Clone, Copy)]
struct PlainItems<'a> {
    tags: i128,
    list: PlainList,
    stride: i128,
    spot: Spot<'a>,
}

impl<'a> PlainItems<'a> {
    fn position(&self, i: usize) -> i128 {
        let before = (i as i128).wrapping_mul(self.stride);
        self.list.items.wrapping_add(before)
    }

    fn has<T: Item>(&self, item: Option<T>, i: usize, from: i128) -> bool {
        let tag = self.tags.wrapping_add(i as i128);
        match item {
            Some(item) => item.is_at(tag, self.spot.of(from, self.position(i))),
            None => false,
        }
    }
}

// An item from the front is read in the slice that begins with it.
fn three_agree<V: ReadView>(
    vector: VectorOf<V>,
    front: &mut Items<VectorOf<V>>,
    back: &mut Items<VectorOf<V>>,
    plain: PlainItems<'_>,
    (i, behind): (usize, usize),
) -> bool
where
    V::Item: Item,
{
    plain.has(vector.get(i), i, plain.list.items)
        && plain.has(front.next(), i, plain.position(i))
        && plain.has(back.next_back(), behind, plain.list.items)
}

fn all_agree<V: ReadView>(
    vector: VectorOf<V>,
    front: &mut Items<VectorOf<V>>,
    back: &mut Items<VectorOf<V>>,
    plain: PlainItems<'_>,
) -> bool
where
    V::Item: Item,
{
    let len = vector.len();
    for i in 0..len {
        if !three_agree(vector, front, back, plain, (i, len - i - 1)) {
            return false;
        }
    }
    len as u64 == plain.list.count && vector.get(len).is_none()
}

fn items_agree<V: ReadView>(vector: VectorOf<V>, plain: PlainItems<'_>) -> bool
where
    V::Item: Item,
{
    let mut front = vector.iter();
    let mut back = vector.iter();
    all_agree(vector, &mut front, &mut back, plain)
        && front.next().is_none()
        && back.next_back().is_none()
}

pub trait Union: Copy {
    fn agrees(read: Answer<Self>, tag: u8, spot: Spot<'_>) -> bool;

    fn vector() -> &'static str;
}

impl<'a> Union for TaggedPlace<'a> {
    fn agrees(read: Answer<TaggedPlace<'a>>, tag: u8, spot: Spot<'_>) -> bool {
        match read {
            Ok(union) => union.tag() == tag && Place::agrees(Ok(union.place()), spot),
            Err(_) => false,
        }
    }

    fn vector() -> &'static str {
        "[union]"
    }
}

impl<'a> Union for Held<'a> {
    fn agrees(read: Answer<Held<'a>>, tag: u8, spot: Spot<'_>) -> bool {
        match (tag, read) {
            (1, Ok(Held::Table(table))) => Table::agrees(Ok(table), spot),
            (2, Ok(Held::Text(text))) => <&str>::agrees(Ok(text), spot),
            (1, Err(kind)) => Table::agrees(Err(kind), spot),
            (2, Err(kind)) => <&str>::agrees(Err(kind), spot),
            (_, Err(ErrorKind::UnknownUnionTag { tag: unknown })) => tag == unknown,
            _ => false,
        }
    }

    fn vector() -> &'static str {
        "[Held]"
    }
}

fn union_is<T: Union>(item: Result<T, Error>, tag: i128, spot: Spot<'_>) -> bool {
    let tag = (number(spot.bytes, tag, 1).unwrap_or(0) % 256) as u8;
    match item {
        Ok(union) => T::agrees(Ok(union), tag, spot),
        Err(error) => {
            spot.is_error(error, error.error_kind, (T::vector(), "get"))
                && T::agrees(Err(error.error_kind), tag, spot)
        }
    }
}

pub trait UnionField: Copy {
    fn agrees(read: Answer<Self>, tags: i128, spot: Spot<'_>) -> bool;
}

impl<'a> UnionField for Pair<'a> {
    fn agrees(read: Answer<Pair<'a>>, tags: i128, spot: Spot<'_>) -> bool {
        match read {
            Ok(pair) => {
                position(pair.tags) as i128 == spot.at(tags).place()
                    && position(pair.values) as i128 == spot.place()
            }
            Err(_) => false,
        }
    }
}

impl<'a, T: VectorReadUnion<'a> + Union> UnionField for UnionVector<'a, T>
where
    Result<T, Error>: Item,
{
    fn agrees(read: Answer<UnionVector<'a, T>>, tags: i128, spot: Spot<'_>) -> bool {
        match (read, union_vector(spot.bytes, tags, spot.at)) {
            (Ok(vector), Ok((tags, list))) => items_agree(
                vector,
                PlainItems {
                    tags: tags.items,
                    list,
                    stride: 4,
                    spot,
                },
            ),
            (Err(kind), Err(plain)) => same_kind(kind, plain),
            _ => false,
        }
    }
}
