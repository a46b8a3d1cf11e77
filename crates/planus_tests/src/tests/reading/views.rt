mod calls;
mod no_memory;
mod unions;
mod vectors;

use planus_testing::{Test, check};
use planus_view::{ReadView, VectorOf};
use std::alloc::AllocError;
use std::fmt::Debug;

fn check_shown<T: Debug>(test: &Test<'_>, parts: &T) {
    match format!(in test.alloc(); "{parts:?}") {
        Ok(text) => {
            let shown = text.as_str();
            check(test, shown.starts_with("SubViews { whole: "), shown);
        }
        Err(_) => check(test, false, "memory for a text"),
    }
}

fn check_parts_shown<V: ReadView>(test: &Test<'_>, whole: VectorOf<V>)
where
    V::Item: Debug + Drop,
{
    check_shown(test, &whole.chunks(2));
    check_shown(test, &whole.rchunks(2));
    check_shown(test, &whole.chunks_exact(2));
    check_shown(test, &whole.rchunks_exact(2));
    check_shown(test, &whole.windows(2));
}

fn push_numbers(bytes: &mut Vec<u8>, behind: &[u8]) -> Result<(), AllocError> {
    for number in 0..5003u16 {
        bytes.extend_from_slice(&number.to_le_bytes())?;
        bytes.extend_from_slice(behind)?;
    }
    Ok(())
}
