//! All calls without memory, and copies, which take some.

use super::unions::calls::check_union_calls;
use super::vectors::calls::check_vector_calls;
use super::vectors::copies::{check_copy, refusal_of_copy};
use planus_testing::{Test, check_eq, without_memory};
use planus_view::CopyError;
use std::test::Fail;

fn check_calls(test: &Test<'_>) -> Option<CopyError> {
    check_vector_calls(test);
    check_union_calls(test);
    refusal_of_copy(test.alloc())
}

#[test]
fn only_copies_ask_for_memory(rt: HostRuntime) -> Result<(), Fail> {
    let test = Test::new(&rt);
    if let Some(refusal) = without_memory(&test, check_calls) {
        check_eq(
            &test,
            &refusal,
            &Some(CopyError::OutOfMemory),
            "a copy with no memory",
        );
    }
    check_copy(&test);
    test.end()
}
