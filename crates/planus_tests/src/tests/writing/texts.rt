use super::{NO_CACHES, check_prepared};
use planus_testing::{Test, check_bytes, check_eq, check_finish, in_builder};
use planus_write::{BuildError, Builder, ByRef, Caches, Text};
use std::alloc::{AllocError, Global};
use std::test::Fail;

const AXE: &[u8] = b"\x04\0\0\0\x03\0\0\0Axe\0";

const NAMED: &[u8] = b"\x08\0\0\0TEST\x03\0\0\0Axe\0";

type Done = Result<(), BuildError>;

const AGAIN: &[u8] = b"\x08\0\0\0\x04\0\0\0\x03\0\0\0Axe\0";

fn check_a_text(test: &Test<'_>, builder: &mut Builder) -> Done {
    check_bytes(test, builder.finish("Axe", None)?, AXE, "a text alone");
    Ok(())
}

fn check_texts(test: &Test<'_>, builder: &mut Builder) -> Done {
    let text = builder.create_string("Axe")?;
    check_finish(test, builder, text, None, AXE);
    check_finish(test, builder, text, None, AGAIN);
    builder.clear();
    let text = builder.create_string("Axe")?;
    check_finish(test, builder, text, Some(*b"TEST"), NAMED);
    Ok(())
}

// A box is prepared in `without_memory`.
fn check_wrapped_texts(test: &Test<'_>, builder: &mut Builder) -> Done {
    let owned = String::from_str(test.alloc(), "Ha")?;
    check_prepared::<Text, ByRef<'_, &str>>(test, builder, &ByRef(&"Ho"), 7, "by reference");
    check_prepared::<Text, String>(test, builder, &owned, 15, "owned");
    Ok(())
}

fn letters(alloc: Global, times: usize) -> Result<String, AllocError> {
    let mut text = String::new(alloc);
    for _ in 0..times {
        text.push_str("abcdefghijklmnop")?;
    }
    Ok(text)
}

// After the string `Hi`.
fn one_mebibyte(alloc: Global, text: &str) -> Result<Vec<u8>, AllocError> {
    let mut bytes: Vec<u8> = Vec::new(alloc);
    bytes.extend_from_slice(b"\x0c\0\0\0\x02\0\0\0Hi\0\0\0\0\x10\0")?;
    bytes.extend_from_slice(text.as_bytes())?;
    bytes.push(0)?;
    Ok(bytes)
}

fn check_long_text(test: &Test<'_>, builder: &mut Builder, text: &str, want: &[u8]) -> Done {
    let root = builder.create_string(text)?;
    builder.create_string("Hi")?;
    check_finish(test, builder, root, None, want);
    Ok(())
}

fn check_one_mebibyte(test: &Test<'_>, builder: &mut Builder) -> Done {
    let text = letters(test.alloc(), 65536)?;
    let want = one_mebibyte(test.alloc(), text.as_str())?;
    check_eq(
        test,
        &want.len(),
        &1048593,
        "the bytes of a mebibyte's finish",
    );
    check_long_text(test, builder, text.as_str(), want.as_slice())
}

fn write_each(builder: &mut Builder, text: &str, count: usize) -> Done {
    for _ in 0..count {
        builder.create_string(text)?;
    }
    Ok(())
}

// A string of 524336 bytes takes 524341, and after the first three more for its alignment.
fn check_64_mebibytes(test: &Test<'_>, builder: &mut Builder) -> Done {
    let text = letters(test.alloc(), 32771)?;
    write_each(builder, text.as_str(), 131)?;
    check_eq(test, &text.len(), &524336, "the bytes of a text");
    check_eq(
        test,
        &builder.len(),
        &68689061,
        "texts of more than 64 mebibytes",
    );
    Ok(())
}

#[test]
fn texts(rt: HostRuntime) -> Result<(), Fail> {
    let test = Test::new(&rt);
    in_builder(&test, Caches::all(), check_a_text);
    in_builder(&test, Caches::all(), check_texts);
    in_builder(&test, Caches::all(), check_wrapped_texts);
    in_builder(&test, Caches::all(), check_one_mebibyte);
    in_builder(&test, NO_CACHES, check_64_mebibytes);
    test.end()
}
