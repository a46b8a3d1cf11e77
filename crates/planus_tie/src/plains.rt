//! What the code of an enum, of flags or of a struct says of its layout.

ghost use Rattle.std.specs.Prelude.{◌≡◌, ◌++◌, OnOk};
ghost use Rattle.planus_tie.specs.Plains.{layout_text, read_text};

use crate::holes::{Holes, push_filled};
use crate::naming::Naming;
use std::alloc::AllocError;

const LAYOUT: &str = "impl Plain for $T { ghost ALIGNMENT = { $A }; ghost SIZE = { $S }; \
     ghost shape = { $M_shape }; const ALIGNMENT: usize = $A; \
     const SIZE: usize = $S; fn put(&self, bytes: &mut [u8]) {";

const READING: &str = "} fn read(buffer: SliceWithStartOffset<'_>, offset: usize) \
     -> Result<$T, ErrorKind> {";

/// Adds the layout of a type, up to the body of `put`.
pub(crate) fn push_layout(
    out: &mut Vec<u8>,
    naming: &Naming<'_>,
    own: Holes,
) -> Result<(), AllocError>
    ensures { OnOk result (out.new.items ≡ out.old.items ++ layout_text naming.now own) }
{
    push_filled(out, naming, own, LAYOUT)
}

/// Adds what stands between the bodies of `put` and `read`.
pub(crate) fn push_read(
    out: &mut Vec<u8>,
    naming: &Naming<'_>,
    own: Holes,
) -> Result<(), AllocError>
    ensures { OnOk result (out.new.items ≡ out.old.items ++ read_text naming.now own) }
{
    push_filled(out, naming, own, READING)
}
