use super::caches::text_at;
use super::parts::{Repeated, finish_last};
use planus::{BuildError, Builder};
use planus_testing::{Test, check, check_done, check_eq};
use std::test::Fail;

const GREATEST: usize = 2147483647;

fn fill(builder: &mut Builder) -> Result<(), BuildError> {
    builder.write_with(GREATEST - 4, 0, &Repeated { byte: 7 })?;
    finish_last(builder)?;
    Ok(())
}

fn check_full(test: &Test<'_>, builder: &Builder, row: &str) {
    let bytes = builder.as_slice();
    check_eq(test, &bytes.len(), &GREATEST, row);
    check_eq(test, &builder.room(), &0, row);
    check(test, bytes.starts_with(b"\x04\0\0\0\x07\x07"), row);
    check(test, bytes.ends_with(b"\x07\x07\x07\x07"), row);
}

fn finish_again(builder: &mut Builder) -> Result<usize, BuildError> {
    Ok(finish_last(builder)?.len())
}

fn check_no_more(test: &Test<'_>, builder: &mut Builder) {
    let one = builder.write_with(1, 0, &Repeated { byte: 8 });
    let none = builder.write_with(0, 0, &Repeated { byte: 8 });
    check_eq(test, &one, &Err(BuildError::TooLarge), "one byte more");
    check_eq(
        test,
        &text_at(builder, ""),
        &Err(BuildError::TooLarge),
        "a string more",
    );
    check_eq(
        test,
        &finish_again(builder),
        &Err(BuildError::TooLarge),
        "a finish more",
    );
    check_eq(test, &none, &Ok(()), "no byte more");
    check_full(test, builder, "full as before");
}

fn check_filled(test: &Test<'_>, builder: &mut Builder) -> Result<(), BuildError> {
    fill(builder)?;
    check_full(test, builder, "full");
    check_no_more(test, builder);
    builder.clear();
    check_eq(test, &text_at(builder, "Axe"), &Ok(8), "after a clear");
    check_eq(
        test,
        &builder.room(),
        &(GREATEST - 8),
        "the room after a clear",
    );
    Ok(())
}

#[test]
fn the_greatest_number_of_bytes(rt: HostRuntime) -> Result<(), Fail> {
    let test = Test::new(&rt);
    match Builder::with_capacity(rt.alloc(), GREATEST) {
        Ok(mut builder) => check_done(&test, check_filled(&test, &mut builder), "a builder"),
        Err(_) => {
            let _ = println!(rt; "there is no memory for it: this test does not apply");
        }
    }
    test.end()
}
