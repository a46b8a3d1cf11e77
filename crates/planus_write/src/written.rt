//! Where something was written.
ghost use Rattle.std.specs.Prelude.{◌≡◌, Ok, Err, IfOk, IfErr};
ghost use Rattle.planus_write.specs.inner.Written.{place_of};

use crate::errors::BuildError;
use crate::offset::Offset;

/// Unlike a [`Result`] of both, it is returned in registers.
pub(crate) enum Written {
    At(u32),
    LacksMemory,
    PassesLimit,
}

impl From<Result<u32, BuildError>> for Written {
    ghost from_gives = { λ place written. place_of written ≡ place };

    #[inline(always)]
    fn from(place: Result<u32, BuildError>) -> Written {
        match place {
            Ok(distance) => Written::At(distance),
            Err(BuildError::OutOfMemory) => Written::LacksMemory,
            Err(BuildError::TooLarge) => Written::PassesLimit,
        }
    }
}

impl Written {
    #[inline(always)]
    pub(crate) fn place(self) -> Result<u32, BuildError>
        ensures { result ≡ place_of self }
    {
        match self {
            Written::At(distance) => Ok(distance),
            Written::LacksMemory => Err(BuildError::OutOfMemory),
            Written::PassesLimit => Err(BuildError::TooLarge),
        }
    }

    #[inline(always)]
    pub(crate) fn offset<T>(self) -> Result<Offset<T>, BuildError>
        ensures ok { IfOk result (λ offset. place_of self ≡ Ok offset.distance) }
        ensures err { IfErr result (λ error. place_of self ≡ Err error) }
    {
        let distance = self.place()?;
        Ok(Offset::at(distance))
    }
}
