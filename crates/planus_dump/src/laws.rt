//! Laws over dumps. Each function is a theorem.

ghost use Rattle.std.specs.Prelude.{List, ℕ};
ghost use Rattle.planus_read.specs.declared.table_reader.Table as reader;
ghost use Rattle.planus_dump.specs.AsRead.{ReadingsAreSaid, UnionsAreSaid, UnionVectorsAreSaid};
ghost use Rattle.planus_dump.specs.AsRead.{FloatsAreSaid, EnumsAreSaid, StructsAreSaid};
ghost use Rattle.planus_dump.specs.AsRead.{LedStructsAreSaid, BuffersAreSaid, FlagsAreSaid};
ghost use Rattle.planus_dump.specs.Laws.{FinishesHaveNoFault};

/// What a run finished dumps without a line that states an error, if the schema fits what its root's step wrote;
/// for a size-prefixed finish, the bytes after the size.
pub fn finishes_have_no_fault()
    ensures { FinishesHaveNoFault }
{}

/// A dump prints what the readers of `planus_read` return: the value, or else the message of the
/// first clause that fails.
pub fn readings_are_said()
    ensures values { (S : List ℕ) (f : ℕ) → ReadingsAreSaid S f }
    ensures floats { (S : List ℕ) (f : ℕ) → FloatsAreSaid S f }
    ensures structs { (S : List ℕ) (f : ℕ) → StructsAreSaid S f }
    ensures led { (S : List ℕ) (f : ℕ) → LedStructsAreSaid S f }
    ensures buffers { (S : List ℕ) (f : ℕ) → BuffersAreSaid S f }
{}

/// The same for enums, where `E` is a type of an enum's variants.
pub fn enums_are_said<E>()
    ensures { (S : List ℕ) (f : ℕ) → EnumsAreSaid E S f }
{}

/// The same for an enum with `bit_flags`: its number, and the names of exactly the flags that it has.
pub fn flags_are_said()
    ensures { (S : List ℕ) (f : ℕ) → FlagsAreSaid S f }
{}

/// The same for unions and union vectors of any table.
pub fn unions_are_said()
    ensures unions { (table : reader.Table) (i : ℕ) → UnionsAreSaid table i }
    ensures vectors { (table : reader.Table) (i : ℕ) → UnionVectorsAreSaid table i }
{}
