//! The body of a table of a step.
ghost use Rattle.std.specs.Prelude.{◌≡◌, map, None};
ghost use Rattle.planus.specs.Steps.{bare_field};
ghost use Rattle.planus.specs.TableChecks.{table_fault};
ghost use Rattle.planus.specs.inner.Names.{name_of, fault_since};

use crate::replaying::named_steps::NamedSteps;
use crate::replaying::steps::Field;
use planus_write::{ObjectFill, ObjectWriter};

#[derive(Drop)]
pub(crate) struct TableBody<'a, 'b> {
    pub(crate) earlier: NamedSteps<'a>,
    pub(crate) fields: &'b [Field],
    ghost good: { table_fault (fault_since earlier.first (map name_of earlier.offsets.now))
        (map bare_field fields.now) ≡ None },
}

impl<'a, 'b> ObjectFill for TableBody<'a, 'b> {
    ghost use Rattle.planus_write.specs.Tables.{body_size, body_bytes};
    ghost use Rattle.planus.specs.inner.Filling.{fields_in, fields_reach};

    ghost size = { λ body. body_size (fields_in body) };

    ghost reach = { λ body. fields_reach (fields_in body) };

    ghost encoding = { λ body place. body_bytes place (fields_in body) };

    fn fill(&self, writer: &mut ObjectWriter<'_>) {
        for field in self.fields {
            match self.earlier.prepare(&field.value) {
                Ok(prepared) => prepared.write(writer),
                Err(_) => unreachable!(),
            }
        }
    }
}
