//! Laws of calls. Each function is a theorem.

ghost use Rattle.planus.specs.Accessors.{plains_kind, texts_kind, tables_kind};
ghost use Rattle.planus_foreign.specs.Inside.{StringsLieInside, StringsThereLieInside};
ghost use Rattle.planus_foreign.specs.Inside.{VectorsLieInside};

use planus::Stride;

/// The span of a string that a call stored lies in the buffer.
pub fn strings_lie_inside()
    ensures fields { StringsLieInside }
    ensures there { StringsThereLieInside }
{}

/// All items of a vector whose span a call stored lie in the buffer, of one of values, of strings
/// and of tables.
pub fn vectors_lie_inside<T: Stride, K>()
    ensures values { VectorsLieInside (plains_kind {T = T} {kind = T.Stands.Plain}) }
    ensures strings { VectorsLieInside (texts_kind {T = T} {kind = T.Stands.Plain}) }
    ensures tables { VectorsLieInside (tables_kind {T = T} {kind = T.Stands.Plain} K) }
{}
