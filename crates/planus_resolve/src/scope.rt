//! Where names are looked up.

use crate::heads::Heads;
use planus_schema::Scalar;
use planus_syntax::Path;
use std::alloc::Global;

/// The declarations that names refer to, and the place where they are looked up.
#[derive(Clone, Copy)]
pub(crate) struct Scope<'a, 'h, 's> {
    pub(crate) alloc: Global,
    pub(crate) heads: &'a Heads<'h>,
    /// The integer types of the declarations, where they are known.
    pub(crate) integers: &'a [Option<Scalar>],
    pub(crate) space: Option<&'s Path>,
    /// How many declarations begin before the name, with that in which it stands.
    pub(crate) begun: usize,
}
