//! Union vectors in a buffer, under their names in planus, and a law over what is read from them.
#![tactic(auto)]

pub mod laws;

pub use planus_view::{UnionVector, ViewIndex as UnionVectorIndex, union_vectors};
