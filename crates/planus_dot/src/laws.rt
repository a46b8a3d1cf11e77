//! Laws. The functions do nothing: each states a law by its contract.

ghost use Rattle.std.specs.Prelude.{◌≡◌, true};
ghost use Rattle.std.specs.List.{list_all};
ghost use Rattle.planus_dot.specs.Reading.{has_plain_names, IsRead};
ghost use Rattle.planus_schema.specs.declared.schema.Schema as schema;

/// In the text of a graph, read line by line, stand a node for each declaration of the schema and an
/// edge for each reference, each once and in order, and nothing else; where no name has a quote or
/// a line feed, as in the texts of schemas.
pub fn graph_is_read()
    ensures { (schema : schema.Schema) → list_all has_plain_names schema.declarations.items ≡ true
        → IsRead schema }
{}
