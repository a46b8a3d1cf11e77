//! Bytes of a part, written in place.
ghost use Rattle.std.specs.Prelude.{◌≡◌, ℕ, List, length, replicate};

/// Writes the bytes of one part. `fits` is the precondition, and `encoding` the bytes written.
pub trait Fill {
    ghost fits: { Self → ℕ → ℕ → Type 0 };

    ghost encoding: { Self → ℕ → ℕ → List ℕ };

    /// Writes the part's bytes over zeros. `place` is the distance in bytes from the end of the
    /// buffer to the part's first byte.
    fn fill(&self, place: u32, bytes: &mut [u8])
        requires may { fits self.now place (length bytes.old) }
        requires zeroed { bytes.old ≡ replicate (length bytes.old) 0 }
        ensures { bytes.new ≡ encoding self.now place (length bytes.old) };
}

/// Writes all bytes of one part, whatever was there before; see [`Fill`].
pub trait Overwrite {
    ghost fits: { Self → ℕ → ℕ → Type 0 };

    ghost encoding: { Self → ℕ → ℕ → List ℕ };

    /// Writes the part's bytes. `place` is as in [`Fill::fill`].
    fn overwrite(&self, place: u32, bytes: &mut [u8])
        requires { fits self.now place (length bytes.old) }
        ensures { bytes.new ≡ encoding self.now place (length bytes.old) };
}

/// Overwrites as the filler fills: with zeros first.
#[derive(Drop)]
pub struct Zeroed<'a, F: Fill>(pub &'a F);

impl<'a, F: Fill> Overwrite for Zeroed<'a, F> {
    ghost fits = { λ zeroed place n. F.fits zeroed.0.now place n };

    ghost encoding = { λ zeroed place n. F.encoding zeroed.0.now place n };

    #[inline]
    fn overwrite(&self, place: u32, bytes: &mut [u8]) {
        let filler = self.0;
        bytes.fill(0);
        filler.fill(place, bytes);
    }
}
