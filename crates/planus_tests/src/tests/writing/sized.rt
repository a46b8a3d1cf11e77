use planus_testing::{Test, check, check_bytes, check_done, check_finish, in_builder};
use planus_write::{BuildError, Builder, Caches, Offset};
use std::test::Fail;

const AXE: &[u8] = b"\x0c\0\0\0\x04\0\0\0\x03\0\0\0Axe\0";

const NAMED: &[u8] = b"\x10\0\0\0\x08\0\0\0TEST\x03\0\0\0Axe\0";

const U64: &[u8] = b"\x1b\0\0\0\x08\0\0\0\0\0\0\0\x01\0\0\0\x01\0\0\0\0\0\0\0\x02\0\0\0Hi\0";

const AGAIN: &[u8] = b"\x0c\0\0\0\x0c\0\0\0\x04\0\0\0\x03\0\0\0Axe\0";

fn check_sized<T>(
    test: &Test<'_>,
    builder: &mut Builder,
    root: Offset<T>,
    identifier: Option<[u8; 4]>,
    want: &[u8],
    row: &str,
) {
    if root.distance() as usize > builder.len() {
        return check(test, false, row);
    }
    match builder.finish_size_prefixed(root, identifier) {
        Ok(bytes) => check_bytes(test, bytes, want, row),
        Err(error) => check_done(test, Err(error), row),
    }
}

fn check_a_text(test: &Test<'_>, builder: &mut Builder) -> Result<(), BuildError> {
    check_bytes(
        test,
        builder.finish_size_prefixed("Axe", None)?,
        AXE,
        "a text alone",
    );
    Ok(())
}

// A size-prefixed finish, and then a plain one before it.
fn check_texts(test: &Test<'_>, builder: &mut Builder) -> Result<(), BuildError> {
    let text = builder.create_string("Axe")?;
    check_sized(test, builder, text, None, AXE, "a text");
    check_finish(test, builder, text, None, AGAIN);
    builder.clear();
    let text = builder.create_string("Axe")?;
    check_sized(
        test,
        builder,
        text,
        Some(*b"TEST"),
        NAMED,
        "with an identifier",
    );
    Ok(())
}

// The number of 8 bytes is at a multiple of 8 from the size on.
fn check_a_list(test: &Test<'_>, builder: &mut Builder) -> Result<(), BuildError> {
    builder.create_string("Hi")?;
    let list = builder.create_vector::<u64, [u64; 1]>([1])?;
    check_sized(test, builder, list, None, U64, "a list");
    Ok(())
}

#[test]
fn sizes_in_front(rt: HostRuntime) -> Result<(), Fail> {
    let test = Test::new(&rt);
    in_builder(&test, Caches::all(), check_a_text);
    in_builder(&test, Caches::all(), check_texts);
    in_builder(&test, Caches::all(), check_a_list);
    test.end()
}
