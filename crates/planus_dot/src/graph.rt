//! The text of a graph.

ghost use Rattle.std.specs.Prelude.{◌≡◌, IfOk};
ghost use Rattle.planus_dot.specs.Graphs as spec;

use crate::edges::put_edges;
use crate::nodes::put_nodes;
use planus_schema::Schema;
use std::alloc::{AllocError, Global};

/// Returns the graph of a schema, as Graphviz reads it: a node for each declaration, with its rows,
/// and an edge for each field or member that refers to a declaration.
#[tactic(auto, unfolding(crate::specs::Graphs::graph_text))]
pub fn graph_text(alloc: Global, schema: &Schema) -> Result<Vec<u8>, AllocError>
    ensures { IfOk result (λ text. text.items ≡ spec.graph_text schema.now) }
{
    let mut text = Vec::from_slice(
        alloc,
        b"digraph schema {\n  rankdir=LR;\n  node [shape=record];\n",
    )?;
    put_nodes(alloc, &mut text, &schema.declarations)?;
    put_edges(alloc, &mut text, &schema.declarations)?;
    text.extend_from_slice(b"}\n")?;
    Ok(text)
}
