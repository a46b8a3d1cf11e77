//! Trails from a buffer's root to a field.

ghost use Rattle.std.specs.Prelude.{List, IfOk, IfErr, IfSome, IfNone, ◌<◌, ◌⊎◌};
ghost use Rattle.planus_verify.specs.Schemas.{shapes};
ghost use Rattle.planus_verify.specs.Soughts.{ends_of};
ghost use Rattle.planus_verify.specs.Trails.{IsTrail, NoTrail, root_tables};
ghost use Rattle.planus_verify.specs.declared.fault.FieldPlace.{FieldPlace};

use crate::fault::FieldPlace;
use crate::limits::Limits;
use crate::schema::Schema;
use crate::search::{Search, search_table};
use crate::search_end::SearchEnd;
use crate::sought::Sought;
use planus_read::table_reader::Table;
use planus_read::{SliceWithStartOffset, TableRead};
use std::alloc::{AllocError, Global};

/// Returns fields that lead from a buffer's root to what is sought, the last of them: each is a field,
/// or an item of its vector, that refers to the table of the next. The root is the table at an index
/// of the schema. A field is sought of a table that is reached, as [`crate::verify`] names it in a
/// fault; its slot and item are returned as they are. Fields and items that can't be read are passed
/// over, and their faults aren't returned. Of several tables that fit, as one in a nested buffer,
/// which begins at a distance from that buffer's first byte, it takes the first in the order of
/// verification. `None` if no table fits that is reached within the depth, or if more tables are
/// reached before it than the limit. Fails only if there is no memory for what it returns.
pub fn trail(
    schema: &Schema<'_>,
    index: usize,
    bytes: &[u8],
    limits: Limits,
    sought: Sought,
    alloc: Global,
) -> Result<Option<Vec<FieldPlace>>, AllocError>
    ensures found { IfOk result (λ answer. IfSome answer (λ steps.
        IsTrail (shapes schema.now) index limits.depth (ends_of (shapes schema.now) sought) bytes.now
        steps.items)) }
    ensures none { IfOk result (λ answer. IfNone answer
        (NoTrail (shapes schema.now) index limits.depth (ends_of (shapes schema.now) sought)
        bytes.now
        ⊎ (limits.tables < root_tables (shapes schema.now) index limits.depth bytes.now))) }
    ensures memory { IfErr result (λ _. (steps : List FieldPlace)
        × IsTrail (shapes schema.now) index limits.depth (ends_of (shapes schema.now)
        sought) bytes.now steps) }
{
    let buffer = SliceWithStartOffset::new(bytes, 0);
    let table = match Table::from_buffer(buffer, 0) {
        Ok(table) => table,
        Err(_) => return Ok(None),
    };
    let search = Search {
        schema: *schema,
        sought,
        alloc,
    };
    match search_table(&search, index, table, limits.depth, limits.tables) {
        Ok(_) => Ok(None),
        Err(SearchEnd::TooMany) => Ok(None),
        Err(SearchEnd::NoMemory) => Err(AllocError),
        Err(SearchEnd::Found(mut trail)) => {
            trail.reverse();
            Ok(Some(trail))
        }
    }
}
