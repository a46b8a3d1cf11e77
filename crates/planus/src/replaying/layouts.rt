//! The alignments and sizes of structs and of values of vectors.
ghost use Rattle.std.specs.Prelude.{◌≡◌, ◌<◌};
ghost use Rattle.planus.specs.Runs as spec;
ghost use Rattle.planus.specs.inner.Structs.{KnowsAlignment};

pub(crate) fn known_alignment(alignment: u8) -> Option<usize>
    ensures { KnowsAlignment alignment result }
{
    match alignment {
        1 => Some(1),
        2 => Some(2),
        4 => Some(4),
        8 => Some(8),
        16 => Some(16),
        _ => None,
    }
}

pub(crate) fn fits_size(alignment: usize, size: usize) -> bool
    requires { 0 < alignment }
    ensures { result ≡ spec.fits_size alignment size }
{
    size != 0 && size % alignment == 0
}
