//! How many tables may lie within each other.

ghost use Rattle.std.specs.Prelude.{◌≡◌, ℕ, suc, IfOk, IfErr, IsErrAnd, Ok, Err};
ghost use Rattle.std.specs.Prelude.{Result as std_result};
ghost use Rattle.planus_read.specs.declared.table_reader.Table.{Table};
ghost use Rattle.planus_owned.specs.declared.errors.OwnError.{OwnError as own_error};
ghost use Rattle.planus_owned.specs.Records.{IsMade};
ghost use Rattle.planus_owned.specs.Shown.{ShownOfRecord, ShownOfError};

use crate::errors::OwnError;
use crate::owned::Owned;

/// Returns how many tables may lie within the fields of a table, where so many may lie within each
/// other with the table itself. Fails with [`OwnError::TooDeep`] if `depth` is 0.
///
/// By its contract a record that is made at `depth` needs no proof: what its fields are made of is
/// enough.
pub fn below<'n, R: Owned>(depth: u32) -> Result<u32, OwnError<'n>>
    ensures less { IfOk result (λ n. depth ≡ suc n) }
    ensures made { IfOk result (λ n. (table : Table) (x : R)
        → ShownOfRecord (R.owned (suc n)) table x (IsMade (R.owned depth) table (Ok x))) }
    ensures fails { IfOk result (λ n. (table : Table) (r : std_result R own_error)
        (error : own_error) → IsErrAnd r (λ e. e ≡ error)
        → ShownOfError (R.owned (suc n)) table error (IsMade (R.owned depth) table r)) }
    ensures spent { IfErr result (λ error. (table : Table)
        → IsMade (R.owned depth) table (Err error)) }
{
    if depth == 0 {
        return Err(OwnError::TooDeep);
    }
    Ok(depth - 1)
}
