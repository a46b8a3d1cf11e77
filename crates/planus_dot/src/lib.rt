//! The graph of a schema, as Graphviz reads it. Start at [`graph_text`].
#![tactic(auto)]

mod edges;
mod graph;
pub mod laws;
mod nodes;
mod row;
mod rows;
mod types;

pub use graph::graph_text;
