//! Kinds of unions.

use planus_verify::UnionKind;

/// A printed union of one kind. It names no lifetime, so that [`crate::Unions`] may.
pub trait OfUnion {
    type Kind: UnionKind;
}
