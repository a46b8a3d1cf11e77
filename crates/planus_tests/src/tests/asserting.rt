use planus_testing::{
    Test, check, check_bytes, check_distance, check_done, check_eq, check_fails, check_prints,
    check_shows,
};
use planus_write::{BuildError, Builder};
use std::test::Fail;

// Whether the row is counted as wrong.
fn fails<F: FnOnce(&Test<'_>)>(rt: &HostRuntime, wrong_row: F) -> bool
    requires { F.IsAlwaysCallable wrong_row }
{
    let test = Test::new(rt);
    wrong_row(&test);
    test.wrong_rows() == 1
}

fn place_a_text_wrongly(test: &Test<'_>) {
    if let Ok(mut builder) = Builder::new(test.alloc())
        && let Ok(text) = builder.create_string("Hi")
    {
        check_distance(test, text, 6, "wrong on purpose");
    }
}

#[test]
fn a_wrong_row_fails_its_test(rt: HostRuntime) -> Result<(), Fail> {
    let fail = [
        fails(&rt, |test| check(test, false, "wrong on purpose")),
        fails(&rt, |test| check_eq(test, &1, &2, "wrong on purpose")),
        fails(
            &rt,
            |test| check_bytes(test, b"a", b"b", "wrong on purpose"),
        ),
        fails(&rt, |test| check_prints(test, &1, "2 (wrong on purpose)")),
        fails(&rt, |test| check_shows(test, &"a", "a (wrong on purpose)")),
        fails(
            &rt,
            |test| check_fails::<(), BuildError>(test, Ok(()), "an error (wrong on purpose)"),
        ),
        fails(
            &rt,
            |test| check_done(test, Err(BuildError::TooLarge), "wrong on purpose"),
        ),
        fails(&rt, place_a_text_wrongly),
    ];
    for is_failed in fail {
        if !is_failed {
            return Err(Fail::new("a wrong row let its test pass"));
        }
    }
    Ok(())
}
