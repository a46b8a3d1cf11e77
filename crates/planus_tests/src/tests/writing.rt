ghost use Rattle.std.specs.Prelude.{◌≡◌};
ghost use Rattle.std.specs.Int.{w32, to_le_bytes};

mod back;
mod caches;
mod fields;
mod lines;
mod lists;
mod primitives;
mod sized;
mod tables;
mod texts;
mod unions;
mod without_memory;
mod writes;

use planus_back::{Fill, Overwrite};
use planus_testing::{Test, check_distance, check_done};
use planus_write::{BuildError, Builder, Caches, Offset, WriteAsOffset};

fn prepared<T, X: WriteAsOffset<T>>(
    builder: &mut Builder,
    value: &X,
) -> Result<Offset<T>, BuildError>
    requires { X.may value.now builder.old }
{
    value.prepare(builder)
}

fn check_prepared<T, X: WriteAsOffset<T>>(
    test: &Test<'_>,
    builder: &mut Builder,
    value: &X,
    distance: u32,
    row: &str,
)
    requires { X.may value.now builder.old }
{
    match value.prepare(builder) {
        Ok(offset) => check_distance(test, offset, distance, row),
        Err(error) => check_done(test, Err(error), row),
    }
}

struct PlaceWord;

impl Fill for PlaceWord {
    ghost fits = { λ _ place n. n ≡ 4 };

    ghost encoding = { λ _ place n. to_le_bytes w32 place };

    fn fill(&self, place: u32, bytes: &mut [u8]) {
        bytes.copy_from_slice(&place.to_le_bytes());
    }
}

impl Overwrite for PlaceWord {
    ghost fits = { λ _ place n. n ≡ 4 };

    ghost encoding = { λ _ place n. to_le_bytes w32 place };

    fn overwrite(&self, place: u32, bytes: &mut [u8]) {
        bytes.copy_from_slice(&place.to_le_bytes());
    }
}

const NO_CACHES: Caches = Caches {
    vtables: false,
    texts: false,
    bytes: false,
    hash_mask: 0,
};
