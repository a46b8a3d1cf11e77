ghost use Rattle.std.specs.Prelude.{◌≡◌, ◌≤◌, ◌+◌, map, OnOk};
ghost use Rattle.std.specs.Int.{w8, cast_unsigned};
ghost use Rattle.planus_back.specs.CacheKeys.{bytes_in};
ghost use Rattle.planus_back.specs.Caches.{Fits, IsFound};

mod random;

use crate::tests::writing::PlaceWord;
use planus_back::{BackVec, ByteVec, Cache, GetCacheKey, Promises, TooLarge, VTable, Zeroed, laws};
use planus_testing::{Test, check, check_bytes, check_eq, check_shows};
use std::alloc::{AllocError, Global};
use std::test::Fail;

// A part after 2147483640 bytes: the padding that it takes.
fn check_padding(test: &Test<'_>, size: usize, want: Result<usize, TooLarge>, row: &str) {
    let got = match Promises::new().request(2147483640, size, 0) {
        Ok((_, padding)) => Ok(padding),
        Err(TooLarge) => Err(TooLarge),
    };
    check_eq(test, &got, &want, row);
}

#[test]
fn promises(rt: HostRuntime) -> Result<(), Fail> {
    let test = Test::new(&rt);
    check_padding(&test, 7, Ok(0), "to the greatest place");
    check_padding(&test, 8, Err(TooLarge), "past it");
    check_padding(&test, usize::MAX, Err(TooLarge), "the greatest size");
    let none = Promises::default();
    check_eq(&test, &none, &Promises::new(), "none by default");
    check_eq(&test, &none.mask(), &0, "their mask");
    check_eq(&test, &none.delayed(), &0, "what they delay");
    test.end()
}

fn check_vector(test: &Test<'_>, vector: &BackVec, bytes: &[u8], room: usize, row: &str) {
    check_bytes(test, vector.as_slice(), bytes, row);
    check_eq(test, &vector.len(), &bytes.len(), row);
    check_eq(test, &vector.room(), &room, row);
}

fn check_each_call(test: &Test<'_>, bytes: &mut BackVec) -> Result<(), AllocError> {
    check_vector(test, bytes, b"", 16, "an empty vector");
    bytes.extend_from_slice(b"end")?;
    bytes.extend_with_zeros(2)?;
    bytes.extend_write(0x4030201, 4, &PlaceWord)?;
    check_vector(test, bytes, b"\x01\x02\x03\x04\0\0end", 7, "in its room");
    bytes.extend_from_slice(b"0123456789x")?;
    check_vector(
        test,
        bytes,
        b"0123456789x\x01\x02\x03\x04\0\0end",
        12,
        "in more room",
    );
    Ok(())
}

fn check_after_clear(test: &Test<'_>, bytes: &mut BackVec) -> Result<(), AllocError> {
    bytes.clear();
    check_vector(test, bytes, b"", 32, "after a clear");
    bytes.extend_with_zeros(2)?;
    check_shows(test, bytes, "[0, 0]");
    bytes.reserve(100)?;
    check_vector(test, bytes, b"\0\0", 100, "with room that was reserved");
    Ok(())
}

fn check_growing(test: &Test<'_>, bytes: &mut BackVec) -> Result<(), AllocError> {
    check_each_call(test, bytes)?;
    check_after_clear(test, bytes)
}

// The vector is lent, since a function that owns one is slow to prove.
fn in_vector<F: FnOnce(&Test<'_>, &mut BackVec) -> Result<(), AllocError>>(
    test: &Test<'_>,
    room: usize,
    calls: F,
)
    requires { F.IsAlwaysCallable calls }
{
    let answer = match BackVec::with_capacity(test.alloc(), room) {
        Ok(mut bytes) => calls(test, &mut bytes),
        Err(error) => Err(error),
    };
    check(test, answer.is_ok(), "memory for a vector");
}

#[test]
fn grows_at_its_front(rt: HostRuntime) -> Result<(), Fail> {
    let test = Test::new(&rt);
    in_vector(&test, 0, check_growing);
    test.end()
}

// Prepends 21 bytes by each call.
fn put_each(bytes: &mut BackVec)
    requires { 21 ≤ bytes.old.room }
    ensures { bytes.new.room + 21 ≡ bytes.old.room }
{
    bytes.put_slice(b"end");
    bytes.put_three_padded(0, b"<", b"body", b">>");
    bytes.put_zeros(0);
    bytes.put_zeros(3);
    bytes.put_overwritten(0x4030201, 4, &Zeroed(&PlaceWord));
    bytes.put_overwritten(0x8070605, 4, &PlaceWord);
}

fn check_puts(test: &Test<'_>, bytes: &mut BackVec) -> Result<(), AllocError> {
    if bytes.room() != 46 {
        check_eq(test, &bytes.room(), &46, "the room for puts");
        return Ok(());
    }
    put_each(bytes);
    let put = b"\x05\x06\x07\x08\x01\x02\x03\x04\0\0\0<body>>end";
    check_vector(test, bytes, put, 25, "each put");
    bytes.put_zeros(9);
    bytes.put_zeros(16);
    check_eq(test, &bytes.room(), &0, "no room");
    check_eq(test, &bytes.len(), &46, "46 bytes");
    check(
        test,
        bytes.as_slice().starts_with(&[0; 25]),
        "25 zero bytes",
    );
    Ok(())
}

#[test]
fn puts_into_its_room(rt: HostRuntime) -> Result<(), Fail> {
    let test = Test::new(&rt);
    in_vector(&test, 46, check_puts);
    test.end()
}

fn check_refusals(test: &Test<'_>, bytes: &mut BackVec) -> Result<(), AllocError> {
    bytes.extend_from_slice(b"end")?;
    check(test, bytes.reserve(1 << 62).is_err(), "too much room");
    check(
        test,
        bytes.extend_with_zeros(usize::MAX).is_err(),
        "too many zeros",
    );
    check_vector(test, bytes, b"end", 17, "as before the refusals");
    Ok(())
}

fn is_refused(alloc: Global, room: usize) -> bool {
    BackVec::with_capacity(alloc, room).is_err()
}

#[test]
fn a_refusal_changes_nothing(rt: HostRuntime) -> Result<(), Fail> {
    let test = Test::new(&rt);
    check(
        &test,
        is_refused(rt.alloc(), 1 << 62),
        "a vector with too much room",
    );
    in_vector(&test, 20, check_refusals);
    test.end()
}

fn check_key<K: GetCacheKey>(
    test: &Test<'_>,
    bytes: &[u8],
    distance: u32,
    want: Option<&[u8]>,
    row: &str,
) {
    check_eq(test, &K::key_at(bytes, distance), &want, row);
}

const KEYS: &[u8] = b"\x09\0\x02\0\0\0Hi\x06\0\x04\0\x01\0";

const VTABLE: &[u8] = b"\x06\0\x04\0\x01\0";

fn check_lists(test: &Test<'_>) {
    check_key::<ByteVec>(test, KEYS, 12, Some(b"Hi"), "Hi");
    check_key::<ByteVec>(test, KEYS, 14, None, "a count past the end");
    check_key::<ByteVec>(test, KEYS, 15, None, "a list before the front");
    check_key::<ByteVec>(test, KEYS, 3, None, "a list in three bytes");
    check_key::<ByteVec>(test, KEYS, 0, None, "a list at the end");
    check_key::<ByteVec>(test, b"\0\0\0\0", 4, Some(b""), "an empty list");
}

fn check_vtables(test: &Test<'_>) {
    check_key::<VTable>(test, KEYS, 6, Some(VTABLE), "a vtable");
    check_key::<VTable>(test, VTABLE, 4, Some(b"\x04\0\x01\0"), "the end of one");
    check_key::<VTable>(test, b"\x07\0\x04\0\x01\0", 6, None, "one past the end");
    check_key::<VTable>(test, KEYS, 1, None, "a vtable in one byte");
    check_key::<VTable>(test, KEYS, 15, None, "a vtable before the front");
}

#[test]
fn keys_lie_wholly_in_the_bytes(rt: HostRuntime) -> Result<(), Fail> {
    let test = Test::new(&rt);
    check_lists(&test);
    check_vtables(&test);
    test.end()
}

// Returns `Err`, too, where the key isn't there.
fn add(
    test: &Test<'_>,
    cache: &mut Cache<ByteVec>,
    bytes: &[u8],
    key: &[u8],
    distance: u32,
) -> Result<(), AllocError>
    requires { Fits bytes_in cache.old bytes.now }
    ensures { OnOk result (Fits bytes_in cache.new bytes.now) }
{
    match ByteVec::key_at(bytes, distance) {
        Some(found) if found == key => cache.insert(key, distance),
        found => {
            check_eq(test, &found, &Some(key), "a key to add");
            Err(AllocError)
        }
    }
}

// The key `H\xfe`.
const SIGNED: [i8; 2] = [72, -2];

fn add_signed(
    test: &Test<'_>,
    cache: &mut Cache<ByteVec>,
    bytes: &[u8],
    distance: u32,
) -> Result<(), AllocError>
    requires { Fits bytes_in cache.old bytes.now }
    ensures { OnOk result (Fits bytes_in cache.new bytes.now) }
{
    match ByteVec::key_at(bytes, distance) {
        Some(b"H\xfe") => cache.insert_in(cache.bucket_of(&SIGNED), distance),
        found => {
            check_eq(
                test,
                &found,
                &Some(b"H\xfe".as_slice()),
                "a signed key to add",
            );
            Err(AllocError)
        }
    }
}

fn get_signed(cache: &Cache<ByteVec>, bytes: &[u8], key: &[i8]) -> Option<u32>
    requires { Fits bytes_in cache.now bytes.now }
    ensures { IsFound bytes_in cache.now bytes.now (map (λ number. cast_unsigned w8 number) key.now)
        result }
{
    cache.get_in(cache.bucket_of(key), bytes, key)
}

fn check_found(
    test: &Test<'_>,
    cache: &Cache<ByteVec>,
    bytes: &[u8],
    key: &[u8],
    want: Option<u32>,
    row: &str,
)
    requires { Fits bytes_in cache.now bytes.now }
{
    check_eq(test, &cache.get(bytes, key), &want, row);
}

fn check_signed_found(
    test: &Test<'_>,
    cache: &Cache<ByteVec>,
    bytes: &[u8],
    key: &[i8],
    want: Option<u32>,
    row: &str,
)
    requires { Fits bytes_in cache.now bytes.now }
{
    check_eq(test, &get_signed(cache, bytes, key), &want, row);
}

const TWO_KEYS: &[u8] = b"\x02\0\0\0H\xfe\x02\0\0\0Hi";

fn check_one_key(test: &Test<'_>, cache: &Cache<ByteVec>, bytes: &[u8])
    requires { Fits bytes_in cache.now bytes.now }
{
    check_found(test, cache, bytes, b"Hi", Some(6), "Hi");
    check_signed_found(test, cache, bytes, &[72, 105], Some(6), "Hi, signed");
    check_signed_found(
        test,
        cache,
        bytes,
        &SIGNED,
        None,
        "a key that isn't there yet",
    );
}

fn check_two_keys(test: &Test<'_>, cache: &Cache<ByteVec>, bytes: &[u8])
    requires { Fits bytes_in cache.now bytes.now }
{
    check_found(test, cache, bytes, b"Hi", Some(6), "the first of two keys");
    check_found(test, cache, bytes, b"H\xfe", Some(12), "the second");
    check_signed_found(test, cache, bytes, &SIGNED, Some(12), "the second, signed");
    check_found(test, cache, bytes, b"H", None, "a shorter key");
}

fn check_keys(test: &Test<'_>, cache: &mut Cache<ByteVec>, bytes: &[u8]) -> Result<(), AllocError>
    requires { Fits bytes_in cache.old bytes.now }
{
    check_found(test, cache, bytes, b"Hi", None, "no keys");
    add(test, cache, bytes, b"Hi", 6)?;
    check_one_key(test, cache, bytes);
    add_signed(test, cache, bytes, 12)?;
    check_two_keys(test, cache, bytes);
    Ok(())
}

fn check_cache(test: &Test<'_>, mask: u64) -> Result<(), AllocError> {
    laws::empty_caches_fit::<ByteVec>();
    let mut cache: Cache<ByteVec> = Cache::new(test.alloc(), mask)?;
    check_keys(test, &mut cache, TWO_KEYS)?;
    cache.clear();
    check_eq(test, &cache.get(TWO_KEYS, b"Hi"), &None, "after a clear");
    Ok(())
}

#[test]
fn caches_find_equal_keys(rt: HostRuntime) -> Result<(), Fail> {
    let test = Test::new(&rt);
    for mask in [u64::MAX, 1, 0] {
        check(
            &test,
            check_cache(&test, mask).is_ok(),
            "memory for a cache",
        );
    }
    test.end()
}
