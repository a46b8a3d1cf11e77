//! A finish that is read at once.

ghost use Rattle.std.specs.Prelude.{Err, IfOk, IfErr};
ghost use Rattle.planus_write.specs.Finishing.{FinishDoes};
ghost use Rattle.planus_write.specs.InBuilder.{IsIn};
ghost use Rattle.planus_write.specs.Preparing.{IsPrepared};
ghost use Rattle.planus_write.specs.State.{State};
ghost use Rattle.planus.specs.FieldLines.{RootIsRead};

use crate::laws;
use crate::tables::{TableView, read_root};
use planus_read::located::Error;
use planus_write::{BuildError, Builder, Offset};

/// Finishes a buffer with this root, and reads the root. The read never fails: the view has all
/// contents with which its table was written, and all tables that the builder had before, and all
/// values of [`create_plain`](crate::create_plain), are in the buffer.
///
/// An error is that of [`Builder::finish`]. No clause says how the builder is left: a program that
/// writes on calls that and [`read_root`].
pub fn finish_and_read<'b, 'n, V: TableView<'b>>(
    builder: &'b mut Builder,
    root: Offset<V::Kind>,
    identifier: Option<[u8; 4]>,
) -> Result<Result<V, Error<'n>>, BuildError>
    requires { IsIn builder.old root }
    ensures read { IfOk result (RootIsRead V.table root identifier builder.old) }
    ensures error { IfErr result (λ error. (new : State)
        × FinishDoes (IsPrepared root) identifier builder.old (Err error) new) }
{
    laws::kept_tables_stay();
    laws::finishes_keep_tables::<V::Kind, Offset<V::Kind>>();
    let bytes = builder.finish(root, identifier)?;
    Ok(read_root(bytes))
}
