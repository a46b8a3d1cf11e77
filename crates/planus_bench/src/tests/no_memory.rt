use super::caches::text_at;
use super::parts::{FOUR_WRITES, check_last, put_four};
use super::runs::{add, add_finish, word};
use super::settings::CacheSettings;
use planus::{BuildError, Builder, Caches, Offset, ReplayError, Step, Text, replay};
use planus_back::{ByteVec, Cache};
use planus_testing::{Test, check, check_bytes, check_done, check_eq, check_tried, exhaust};
use std::alloc::{AllocError, Global};
use std::test::Fail;

// Too long for the room that four writes leave of 64 bytes.
const TEXT: &str = "sixty-three bytes, which are more than are left of a room of 64";

fn new_is_refused(alloc: Global) -> bool {
    matches!(Builder::new(alloc), Err(BuildError::OutOfMemory))
}

fn list_is_at(builder: &mut Builder) -> Result<u32, BuildError> {
    match builder.create_vector::<Offset<Text>, &[&str]>(&["B"]) {
        Ok(list) => Ok(list.distance()),
        Err(error) => Err(error),
    }
}

fn check_its_room(test: &Test<'_>, builder: &mut Builder) -> Result<(), BuildError> {
    put_four(builder)?;
    check_last(test, builder, FOUR_WRITES, "four parts in its room");
    check_eq(test, &builder.room(), &37, "the room that is left");
    builder.finish("Axe", None)?;
    Ok(())
}

const REFUSED: Result<u32, BuildError> = Err(BuildError::OutOfMemory);

// A vector that fits the room fails too, since its prepared items need memory.
fn check_refusals(test: &Test<'_>, builder: &mut Builder) {
    let all = b"\x04\0\0\0\x03\0\0\0Axe\0\x05\0\0\0\x000123456ABCDEFGHIJKLMNO";
    check(test, new_is_refused(test.alloc()), "a new builder");
    check_done(test, check_its_room(test, builder), "in its room");
    check_eq(
        test,
        &text_at(builder, TEXT),
        &REFUSED,
        "a string past its room",
    );
    check_eq(test, &list_is_at(builder), &REFUSED, "a vector");
    check_bytes(test, builder.as_slice(), all, "its bytes after refusals");
    check_eq(test, &builder.room(), &25, "its room after refusals");
}

// Returns whether all memory was taken.
fn check_without_memory(test: &Test<'_>, builder: &mut Builder) -> Result<bool, AllocError> {
    let mut held: Vec<Vec<u8>> = Vec::with_capacity(test.alloc(), 262144)?;
    let exhausted = exhaust(test.alloc(), &mut held)?;
    if exhausted {
        check_refusals(test, builder);
    }
    drop(held);
    Ok(exhausted)
}

fn check_builder(test: &Test<'_>, builder: &mut Builder) -> Result<(), AllocError> {
    if check_without_memory(test, builder)? {
        check_eq(test, &text_at(builder, TEXT), &Ok(107), "the string again");
        check_eq(test, &list_is_at(builder), &Ok(123), "the vector again");
    } else {
        check_tried(test, None, "a builder");
    }
    Ok(())
}

fn check_in_64_bytes(test: &Test<'_>, caches: Caches) -> Result<(), BuildError> {
    let mut builder = Builder::with_caches(test.alloc(), 64, caches)?;
    check_builder(test, &mut builder)?;
    Ok(())
}

#[test]
fn a_builder_with_refused_memory(rt: HostRuntime) -> Result<(), Fail> {
    let test = Test::new(&rt);
    let done = check_in_64_bytes(&test, CacheSettings::of(0).caches(0));
    check_done(&test, done, "a builder of 64 bytes");
    test.end()
}

fn push_text(alloc: Global, steps: &mut Vec<Step>) -> Result<(), AllocError> {
    add(steps, word(alloc, "Axe"))?;
    add_finish(steps, 0)
}

fn refusal(alloc: Global, steps: &[Step]) -> Option<ReplayError> {
    replay(alloc, Caches::all(), steps).err()
}

// `None` where memory was left.
fn refusal_without_memory(
    alloc: Global,
    steps: &[Step],
) -> Result<Option<Option<ReplayError>>, AllocError> {
    let mut held: Vec<Vec<u8>> = Vec::with_capacity(alloc, 262144)?;
    let exhausted = exhaust(alloc, &mut held)?;
    let refusal = refusal(alloc, steps);
    drop(held);
    Ok(if exhausted { Some(refusal) } else { None })
}

fn check_replay(test: &Test<'_>) -> Result<(), AllocError> {
    let mut steps = Vec::new(test.alloc());
    push_text(test.alloc(), &mut steps)?;
    match refusal_without_memory(test.alloc(), steps.as_slice())? {
        Some(refused) => {
            check_eq(test, &refused, &Some(ReplayError::OutOfMemory), "a replay");
            check_eq(
                test,
                &refusal(test.alloc(), steps.as_slice()),
                &None,
                "a replay again",
            );
        }
        None => check_tried(test, None, "a replay"),
    }
    Ok(())
}

#[test]
fn a_replay_with_refused_memory(rt: HostRuntime) -> Result<(), Fail> {
    let test = Test::new(&rt);
    check(&test, check_replay(&test).is_ok(), "memory for steps");
    test.end()
}

fn entry_without_memory(
    alloc: Global,
    cache: &mut Cache<ByteVec>,
) -> Result<Option<bool>, AllocError> {
    let mut held: Vec<Vec<u8>> = Vec::with_capacity(alloc, 262144)?;
    let exhausted = exhaust(alloc, &mut held)?;
    let refused = cache.insert(b"Hi", 6).is_err();
    drop(held);
    Ok(if exhausted { Some(refused) } else { None })
}

fn check_cache(test: &Test<'_>) -> Result<(), AllocError> {
    let mut cache: Cache<ByteVec> = Cache::new(test.alloc(), u64::MAX)?;
    let refused = entry_without_memory(test.alloc(), &mut cache)?;
    check_tried(test, refused, "an entry is refused");
    if refused.is_some() {
        check(test, cache.insert(b"Hi", 6).is_ok(), "an entry again");
    }
    Ok(())
}

#[test]
fn an_entry_of_a_cache_with_refused_memory(rt: HostRuntime) -> Result<(), Fail> {
    let test = Test::new(&rt);
    check(&test, check_cache(&test).is_ok(), "memory for a cache");
    test.end()
}
