//! Kinds of views.

use planus_verify::Verify;

/// A view of tables of one kind. It names no lifetime, so that [`crate::Tables`] may.
pub trait OfKind {
    type Kind: Verify;
}
