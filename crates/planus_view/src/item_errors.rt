//! The errors of items.

ghost use Rattle.std.specs.Prelude.{◌≡◌};
ghost use Rattle.planus_read.specs.declared.located.Error.{Error as ReadError};

use planus_read::Error;

pub trait ItemError {
    type Error;

    ghost keeps: { ReadError → Self.Error → Type 0 };

    fn keep(error: Error) -> Self::Error
        ensures { keeps error.entry result };
}

pub struct AsRead;

impl ItemError for AsRead {
    type Error = Error;

    ghost keeps = { λ error kept. kept ≡ error };

    #[inline]
    fn keep(error: Error) -> Error {
        error
    }
}
