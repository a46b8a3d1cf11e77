//! A value of a fixed layout that is written by itself.

ghost use Rattle.std.specs.Prelude.{◌≡◌};

use planus_back::Overwrite;
use planus_read::Plain;

/// Is written by itself, not in a table or a vector: as the struct of a union is.
#[derive_where(Debug; T)]
#[derive(Drop)]
pub struct Apart<'a, T>(pub &'a T);

impl<'a, T: Plain> Overwrite for Apart<'a, T> {
    ghost fits = { λ apart place n. n ≡ T.SIZE };

    ghost encoding = { λ apart place n. (T.shape).encoded apart.0.now };

    #[inline]
    fn overwrite(&self, _place: u32, bytes: &mut [u8]) {
        self.0.put(bytes);
    }
}
