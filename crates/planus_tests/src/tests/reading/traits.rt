use super::UNIONS;
use super::tables::Heads;
use planus_read::errors::{Error, ErrorKind};
use planus_read::table_reader::Table;
use planus_read::{
    Place, ReadAsRoot, SignedBytes, SliceWithStartOffset, Stride, TableRead, TableReadUnion,
    TableReadUnionVector, TaggedPlace, VectorRead, VectorReadInner, VectorReadUnion, located,
};
use planus_testing::{Test, check, check_bytes, check_eq, check_fails};
use std::fmt::Debug;
use std::test::Fail;

const BYTES: [u8; 16] = [
    0xff, 0xfe, 0xfd, 0xfc, 0xfb, 0xfa, 0xf9, 0xf8, 1, 0, 2, 0, 3, 0, 0, 0,
];

pub fn field<'buf, T: TableRead<'buf>>(bytes: &'buf [u8], offset: usize) -> Result<T, ErrorKind> {
    T::from_buffer(SliceWithStartOffset::new(bytes, 0), offset)
}

fn item<'buf, T: VectorRead<'buf>>(bytes: &'buf [u8], offset: usize) -> Option<T> {
    let stride = T::stride();
    if offset > bytes.len() || bytes.len() - offset < stride {
        return None;
    }
    Some(T::from_buffer(SliceWithStartOffset::new(bytes, 0), offset))
}

fn inner_item<'buf, T: VectorReadInner<'buf>>(
    bytes: &'buf [u8],
    offset: usize,
) -> Option<Result<T, T::Error>> {
    let stride = T::stride();
    if offset > bytes.len() || bytes.len() - offset < stride {
        return None;
    }
    Some(T::from_buffer(SliceWithStartOffset::new(bytes, 0), offset))
}

fn union_field<'buf, T: TableReadUnion<'buf>>(
    bytes: &'buf [u8],
    tag: u8,
    offset: usize,
) -> Result<T, ErrorKind> {
    T::from_buffer(SliceWithStartOffset::new(bytes, 0), tag, offset)
}

fn union_vector_field<'buf, T: TableReadUnionVector<'buf>>(
    bytes: &'buf [u8],
    tags: usize,
    values: usize,
) -> Result<T, ErrorKind> {
    T::from_buffer(SliceWithStartOffset::new(bytes, 0), tags, values)
}

// At an offset of bytes that start at 1000.
fn union_item<'buf, 'n, T: VectorReadUnion<'buf>>(
    bytes: &'buf [u8],
    tag: u8,
    offset: usize,
) -> Result<T, located::Error<'n>> {
    let slice = SliceWithStartOffset::new(bytes, 1000);
    <T as VectorReadUnion<'buf>>::from_buffer(slice, tag, offset)
}

fn read_root<'a, 'n, T: ReadAsRoot<'a>>(bytes: &'a [u8]) -> Result<T, located::Error<'n>> {
    T::read_as_root(bytes)
}

// As a field, and as an item of a vector.
fn check_read<'buf, T: TableRead<'buf> + VectorRead<'buf> + PartialEq + Debug + Copy + Drop>(
    test: &Test<'_>,
    bytes: &'buf [u8],
    offset: usize,
    want: T,
    row: &str,
) {
    check_eq(test, &field::<T>(bytes, offset), &Ok(want), row);
    check_eq(test, &item::<T>(bytes, offset), &Some(want), row);
}

pub fn check_numbers(test: &Test<'_>) {
    check_read::<u8>(test, &BYTES, 1, 0xfe, "u8");
    check_read::<u16>(test, &BYTES, 0, 0xfeff, "u16");
    check_read::<u32>(test, &BYTES, 0, 0xfcfd_feff, "u32");
    check_read::<u64>(test, &BYTES, 0, 0xf8f9_fafb_fcfd_feff, "u64");
    check_read::<i8>(test, &BYTES, 1, -2, "i8");
    check_read::<i16>(test, &BYTES, 0, -257, "i16");
    check_read::<i32>(test, &BYTES, 0, -50_462_977, "i32");
    check_read::<i64>(test, &BYTES, 8, 0x3_0002_0001, "i64");
    check_read::<bool>(test, &BYTES, 8, true, "true");
    check_read::<bool>(test, &BYTES, 9, false, "false");
    let outside = field::<u64>(&BYTES, 9);
    check_eq(
        test,
        &outside,
        &Err(ErrorKind::InvalidOffset),
        "u64 past the end",
    );
}

// 1.5 and a NaN with a payload as floats of 4 bytes, and -0.125 as one of 8, in IEEE 754.
const FLOATS: [u8; 16] = [
    0, 0, 0xc0, 0x3f, 1, 0, 0x80, 0x7f, 0, 0, 0, 0, 0, 0, 0xc0, 0xbf,
];

pub fn check_floats(test: &Test<'_>) {
    check_read::<f32>(test, &FLOATS, 0, 1.5, "f32");
    check_read::<f64>(test, &FLOATS, 8, -0.125, "f64");
    let is_nan = matches!(field::<f32>(&FLOATS, 4), Ok(read) if read.is_nan());
    check(test, is_nan, "a NaN");
    let inner = inner_item::<f64>(&FLOATS, 8);
    check(
        test,
        matches!(inner, Some(Ok(read)) if read == -0.125),
        "an inner item",
    );
    let outside = field::<f64>(&FLOATS, 9);
    check_eq(
        test,
        &outside,
        &Err(ErrorKind::InvalidOffset),
        "f64 past the end",
    );
}

// A reference to the string `Hi` at 0, and one to damage at 4.
const TEXTS: [u8; 16] = [8, 0, 0, 0, 99, 0, 0, 0, 2, 0, 0, 0, 72, 105, 0, 0];

const ONE_BYTE: [u8; 9] = [4, 0, 0, 0, 1, 0, 0, 0, 0xff];

fn check_minus_one(test: &Test<'_>, list: SignedBytes<'_>) {
    check_eq(test, &list.len(), &1, "the length of one byte");
    check(test, !list.is_empty(), "one byte isn't none");
    check_bytes(test, list.as_bytes(), &[0xff], "one byte");
    check_eq(test, &list.get(0), &Some(-1), "one number");
    check_eq(test, &list.get(1), &None, "no second number");
}

const THREE_BYTES: [u8; 11] = [4, 0, 0, 0, 3, 0, 0, 0, 0xff, 2, 0x80];

fn seen(list: SignedBytes<'_>) -> usize {
    let mut seen: usize = 0;
    for number in &list {
        if list.get(seen) == Some(number) {
            seen = seen.saturating_add(1);
        }
    }
    seen
}

fn check_three(test: &Test<'_>, list: SignedBytes<'_>) {
    let mut ends = list.into_iter();
    check_eq(test, &seen(list), &3, "the numbers that are seen");
    check(test, list.iter().eq([-1i8, 2, -128]), "three numbers");
    check_eq(test, &ends.next_back(), &Some(-128), "the last number");
    check_eq(test, &ends.next(), &Some(-1), "the first number");
    check_eq(test, &ends.len(), &1, "the numbers that are left");
}

fn check_signed(test: &Test<'_>) {
    match field::<SignedBytes<'_>>(&ONE_BYTE, 0) {
        Ok(list) => check_minus_one(test, list),
        Err(_) => check(test, false, "one byte"),
    }
    match field::<SignedBytes<'_>>(&THREE_BYTES, 0) {
        Ok(list) => check_three(test, list),
        Err(_) => check(test, false, "three bytes"),
    }
}

pub fn check_lists(test: &Test<'_>) {
    let (text, damaged) = (field::<&str>(&TEXTS, 0), field::<&str>(&TEXTS, 4));
    let table = field::<Table<'_>>(&TEXTS, 4);
    check_eq(test, &text, &Ok("Hi"), "a string");
    check_eq(
        test,
        &damaged,
        &Err(ErrorKind::InvalidOffset),
        "a damaged string",
    );
    check_eq(
        test,
        &field::<&[u8]>(&TEXTS, 0),
        &Ok(b"Hi".as_slice()),
        "bytes",
    );
    check_eq(
        test,
        &table.err(),
        &Some(ErrorKind::InvalidOffset),
        "a damaged table",
    );
    check_signed(test);
}

fn check_hi(test: &Test<'_>, place: Place<'_>, row: &str) {
    check_eq(test, &place.read::<&str>(), &Ok("Hi"), row);
}

fn check_places(test: &Test<'_>) {
    let number = item::<Place<'_>>(&TEXTS, 0).map(|place| place.read::<u32>());
    let outside = field::<Place<'_>>(&TEXTS, 99).map(|place| place.read::<u8>());
    check_eq(test, &number, &Some(Ok(8)), "a number at a place");
    check_eq(
        test,
        &outside,
        &Ok(Err(ErrorKind::InvalidOffset)),
        "a place past the end",
    );
    match field::<Place<'_>>(&TEXTS, 0) {
        Ok(place) => check_hi(test, place, "a string at a place"),
        Err(_) => check(test, false, "a string at a place"),
    }
}

pub fn check_texts(test: &Test<'_>) {
    let item = item::<Result<&str, Error>>(&TEXTS, 0);
    check_eq(
        test,
        &<&str as Stride>::stride(),
        &4,
        "the stride of strings",
    );
    check(
        test,
        matches!(inner_item::<&str>(&TEXTS, 0), Some(Ok("Hi"))),
        "an inner item",
    );
    check_eq(test, &item, &Some(Ok("Hi")), "an item");
    check_places(test);
}

#[derive(Clone, Copy)]
struct OneText<'a>(&'a str);

impl<'buf> TableReadUnion<'buf> for OneText<'buf> {
    ghost use Rattle.std.specs.Prelude.{⊤};

    ghost reads = { λ S start tag f r. ⊤ };

    fn from_buffer(
        buffer: SliceWithStartOffset<'buf>,
        tag: u8,
        offset: usize,
    ) -> Result<OneText<'buf>, ErrorKind> {
        match tag {
            1 => Ok(OneText(<&str as TableRead<'_>>::from_buffer(buffer, offset)?)),
            _ => Err(ErrorKind::UnknownUnionTag { tag }),
        }
    }
}

impl<'buf> VectorReadUnion<'buf> for OneText<'buf> {
    ghost use Rattle.std.specs.Prelude.{◌≡◌, codes};

    ghost name = { codes "[OneText]" };

    fn vector_name() -> &'static str
        ensures { result.now ≡ codes "[OneText]" }
    {
        "[OneText]"
    }
}

fn check_heads(test: &Test<'_>) {
    match union_vector_field::<Heads<'_>>(&UNIONS, 12, 16) {
        Ok(heads) => {
            check_eq(test, &heads.tags.1, &2, "the count of tags");
            check_eq(test, &heads.values.1, &2, "the count of values");
        }
        Err(_) => check(test, false, "a vector of unions"),
    }
    let outside = union_vector_field::<Heads<'_>>(&UNIONS, 12, 77);
    check_eq(
        test,
        &outside.err(),
        &Some(ErrorKind::InvalidOffset),
        "values past the end",
    );
}

fn check_tagged(test: &Test<'_>, union: Option<TaggedPlace<'_>>, tag: u8, row: &str) {
    match union {
        Some(union) => {
            check_eq(test, &union.tag(), &tag, row);
            check_hi(test, union.place(), row);
        }
        None => check(test, false, row),
    }
}

pub fn check_unions(test: &Test<'_>) {
    let name = <TaggedPlace<'_> as VectorReadUnion<'_>>::vector_name();
    check_eq(test, &name, &"[union]", "the name of vectors of unions");
    check_tagged(test, union_field(&TEXTS, 7, 0).ok(), 7, "a union");
    check_tagged(test, union_item(&TEXTS, 3, 0).ok(), 3, "an item");
    let text = union_item::<OneText<'_>>(&TEXTS, 1, 0);
    check(
        test,
        matches!(text, Ok(OneText("Hi"))),
        "a union of strings",
    );
    check_heads(test);
}

#[derive(Clone, Copy)]
struct Root<'a>(Table<'a>);

impl<'a> ReadAsRoot<'a> for Root<'a> {
    ghost use Rattle.std.specs.Prelude.{⊤};

    ghost reads_root = { λ S r. ⊤ };

    fn read_as_root(slice: &'a [u8]) -> planus_read::Result<Root<'a>> {
        match Table::from_buffer(SliceWithStartOffset::new(slice, 0), 0) {
            Ok(table) => Ok(Root(table)),
            Err(kind) => Err(kind.with_error_location("[Root]", "read_as_root", 0)),
        }
    }
}

const ROOT: [u8; 16] = [4, 0, 0, 0, 0xfa, 0xff, 0xff, 0xff, 24, 0, 6, 0, 6, 0, 4, 0];

pub fn check_roots(test: &Test<'_>) {
    match read_root::<Root<'_>>(&ROOT) {
        Ok(Root(root)) => {
            check_eq(
                test,
                &root.access::<u16>(0, "Root", "n"),
                &Ok(Some(24)),
                "a root's number",
            );
        }
        Err(_) => check(test, false, "a root"),
    }
    match field::<Table<'_>>(&ROOT, 0) {
        Ok(nested) => {
            check_eq(
                test,
                &nested.access_required::<u8>(0, "Root", "n"),
                &Ok(24),
                "a table's",
            );
        }
        Err(_) => check(test, false, "a table"),
    }
}

fn check_bad_union(test: &Test<'_>, tag: u8, offset: usize, text: &str) {
    check_fails(test, union_item::<OneText<'_>>(&TEXTS, tag, offset), text);
}

fn check_bad_item(test: &Test<'_>, text: &str) {
    match item::<Result<&str, Error>>(&TEXTS, 4) {
        Some(item) => check_fails(test, item, text),
        None => check(test, false, text),
    }
}

#[test]
fn errors_of_traits(rt: HostRuntime) -> Result<(), Fail> {
    let test = Test::new(&rt);
    check_bad_item(&test, "In <[str]@0>::get(): Invalid offset");
    check_bad_union(
        &test,
        9,
        0,
        "In <[OneText]@3e8>::get(): Unknown union (tag = 9)",
    );
    check_bad_union(&test, 1, 4, "In <[OneText]@3e8>::get(): Invalid offset");
    let root = read_root::<Root<'_>>(&[]);
    check_fails(&test, root, "In <[Root]@0>::read_as_root(): Invalid offset");
    test.end()
}
