use crate::asserting::{Test, check, check_bytes, check_eq};
use planus_write::{BuildError, Builder, Caches, Offset};

/// Checks that the calls succeed with a new builder, which is lent, since a function that owns one
/// is slow to prove.
pub fn in_builder<F: FnOnce(&Test<'_>, &mut Builder) -> Result<(), BuildError>>(
    test: &Test<'_>,
    caches: Caches,
    calls: F,
)
    requires { F.IsAlwaysCallable calls }
{
    let answer = match Builder::with_caches(test.alloc(), 0, caches) {
        Ok(mut builder) => calls(test, &mut builder),
        Err(error) => Err(error),
    };
    check_done(test, answer, "the calls of a builder");
}

/// Checks that this succeeded.
pub fn check_done(test: &Test<'_>, answer: Result<(), BuildError>, row: &str) {
    check_eq(test, &answer, &Ok(()), row);
}

/// Checks the distance of what was written.
pub fn check_distance<T>(test: &Test<'_>, got: Offset<T>, want: u32, row: &str) {
    check_eq(test, &got.distance(), &want, row);
}

/// Checks that a finish succeeds, and its bytes.
pub fn check_finish<T>(
    test: &Test<'_>,
    builder: &mut Builder,
    root: Offset<T>,
    identifier: Option<[u8; 4]>,
    want: &[u8],
) {
    if root.distance() as usize > builder.len() {
        return check(test, false, "a root that isn't of this builder");
    }
    match builder.finish(root, identifier) {
        Ok(bytes) => check_bytes(test, bytes, want, "a finish"),
        Err(error) => check_done(test, Err(error), "a finish"),
    }
}
