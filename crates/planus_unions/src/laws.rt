//! A law over union vectors. The function is a theorem.

ghost use Rattle.planus_unions.specs.ReadBack.{UnionVectorsReadBack};

/// A union vector to which two references lead is returned with the tags and references of its
/// items.
pub fn union_vectors_read_back<T, E>()
    ensures { UnionVectorsReadBack T E }
{}
