//! Tables that are created of a struct of their fields.

ghost use Rattle.std.specs.Prelude.{◌≡◌, ◌≤◌, List, length, Err, IfOk, IfErr, IsOkAnd, IsTrue, ⊤};
ghost use Rattle.planus.specs.Contents.{WritesContents};
ghost use Rattle.planus.specs.Creating.{CreatesTable, CreatesRoot};
ghost use Rattle.planus.specs.ReadBack.{are_apart};
ghost use Rattle.planus_write.specs.State.{State, Grows};
ghost use Rattle.planus.specs.FieldLines.{FieldLine, LinesReadBack, contents_of};

use crate::printed::finished::finish_and_read;
use crate::tables::{TableKind, TableView};
use planus_read::located::Error;
use planus_write::{BuildError, Builder, Offset};

/// The offset of a table that was written, or the error of its write.
pub type Built<K> = Result<Offset<K>, BuildError>;

/// A table that is created of a struct of its fields `F`.
///
/// The ghost member `lines` has a line for each field, in the order in which they are written: its
/// kind and slot, and what was given. `may` is the precondition: what the fields refer to is in the
/// builder.
pub trait Create<F>: TableKind {
    ghost lines: { F → List FieldLine };

    ghost may: { F → State → Type 0 } = { λ fields builder. ⊤ };

    /// Writes a table with these fields, and what they hold that isn't written yet, in the order of
    /// the lines. A field that equals its default is left out.
    ///
    /// The error is that of the first field that fails, or else that of the table:
    /// [`BuildError::TooLarge`] and [`BuildError::OutOfMemory`] as of [`Builder::create_vector`]. What
    /// was written before it stays.
    fn create(builder: &mut Builder, fields: F) -> Built<Self>
        requires may { may fields builder.old }
        ensures written { CreatesTable (lines fields) builder.old result builder.new }
        ensures kept { IfOk result (λ offset.
            WritesContents (contents_of (lines fields)) builder.old offset.distance builder.new) }
        ensures reached { IfOk result (λ offset. offset.distance ≤ length builder.new.bytes) }
        ensures grows { Grows builder.old builder.new }
        ensures apart { IsTrue (are_apart (contents_of (lines fields))) };

    /// Writes a table with these fields, finishes it as the root of a buffer, and reads it. The
    /// read never fails, and each result that a clause of a field's kind allows for its slot is
    /// what was given.
    ///
    /// An error is that of `create`, or else of [`Builder::finish`]. No clause says how the builder is
    /// left: a program that writes on calls these, and [`read_root`](crate::read_root).
    final fn read_back<'b, 'n, V: TableView<'b, Kind = Self>>(
        builder: &'b mut Builder,
        fields: F,
    ) -> Result<Result<V, Error<'n>>, BuildError>
        requires may { may fields builder.old }
        ensures read { IfOk result (λ read. IsOkAnd read (λ view.
            LinesReadBack builder.old (lines fields) (V.table view))) }
        ensures error { IfErr result (λ error. (new : State)
            × CreatesRoot Self (lines fields) builder.old (Err error) new) }
    {
        builder.has_a_history();
        let root = Self::create(builder, fields)?;
        finish_and_read(builder, root, None)
    }
}
