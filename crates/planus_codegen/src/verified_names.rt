//! The names of the schema's tables and fields.

use crate::at::At;
use crate::context::Context;
use crate::entries::Entries;
use crate::printer::Printer;
use crate::verified_schema::places_by_slot;
use planus_schema::{Body, Table};
use std::alloc::AllocError;

const TABLE_NAME: [&str; 4] = [
    "TableName {\n",
    "    index: $a,\n",
    "    table: \"$T\",\n",
    "}",
];

const FIELD_NAME: [&str; 5] = [
    "FieldName {\n",
    "    table: $a,\n",
    "    slot: $r,\n",
    "    field: \"$s\",\n",
    "}",
];

const NAMES: &str = "
/// Returns the names of the schema's tables and fields.
pub(crate) fn names() -> Names<'static>
    ensures { name_texts (names_of result) ≡ verified_names }
{
    Names {
        tables: &TABLE_NAMES,
        fields: &FIELD_NAMES,
    }
}
";

const TABLE_TEXTS: &str = "
-- the tables' names by their indices
abbrev pub table_names : List (ℕ × List ℕ)
table_names =";

const FIELD_TEXTS: &str = "~[]

-- the fields' names by the indices of their tables and by their slots
abbrev pub field_names : List (ℕ × ℕ × List ℕ)
field_names =";

const TEXTS: &str = "~[]

-- the names of both
abbrev pub verified_names : NameTexts
verified_names = record { tables = table_names; fields = field_names }
";

impl<'a> Entries<'a> {
    fn put_field_names(&mut self, at: At, one: &Table) -> Result<(), AllocError> {
        for place in places_by_slot(self.all.context, one)? {
            self.put_entry(&FIELD_NAME, at.member(place));
        }
        Ok(())
    }
}

/// Adds the names in the order of the schema's lists.
pub(crate) fn put_names<'a>(
    printer: &mut Printer<'a>,
    context: &'a Context<'a>,
) -> Result<(), AllocError> {
    let mut tables = Entries::new(context);
    let mut fields = Entries::new(context);
    for (index, declared) in context.declared.iter().enumerate() {
        if let Body::Table(one) = &declared.body {
            let at = At::declaration(index);
            tables.put_entry(&TABLE_NAME, at);
            fields.put_field_names(at, one)?;
        }
    }
    printer.put_constant("TABLE_NAMES", "TableName<'static>", &tables);
    printer.put_constant("FIELD_NAMES", "FieldName<'static>", &fields);
    printer.put_str(NAMES);
    Ok(())
}

impl<'a> Printer<'a> {
    fn put_field_texts(&mut self, at: At, one: &Table) -> Result<(), AllocError> {
        for place in places_by_slot(self.context, one)? {
            self.put("~($a, $r, codes \"$s\") ∷", at.member(place));
        }
        Ok(())
    }

    /// Adds the definition of the names, in the same order.
    pub(crate) fn put_name_texts(&mut self) -> Result<(), AllocError> {
        let context = self.context;
        let mut fields = Printer::new(context);
        self.put_str(TABLE_TEXTS);
        for (index, declared) in context.declared.iter().enumerate() {
            if let Body::Table(one) = &declared.body {
                let at = At::declaration(index);
                self.put("~($a, codes \"$T\") ∷", at);
                fields.put_field_texts(at, one)?;
            }
        }
        self.put(FIELD_TEXTS, At::declaration(0));
        self.join(&fields);
        self.put(TEXTS, At::declaration(0));
        Ok(())
    }
}
