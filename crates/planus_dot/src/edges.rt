//! The edges: a reference from a row of a declaration to another.

ghost use Rattle.std.specs.Prelude.{◌≡◌, ◌++◌, ◌∷◌, [], map, OnOk};
ghost use Rattle.planus_dot.specs.Rows as spec;
ghost use Rattle.std.specs.Option.{option_map};
ghost use Rattle.planus_dot.specs.Edges.{edge_line, edges_text, edge_of, row_edges, rows_edges, body_edges};
ghost use Rattle.planus_dot.specs.Edges.{all_edges};

use crate::row::Row;
use crate::rows::rows_of;
use planus_schema::Declared;
use std::alloc::{AllocError, Global};

fn declared_at(declarations: &[Declared], target: Option<usize>) -> Option<&Declared>
    ensures { option_map (λ d. d.now) result ≡ spec.declared_at declarations.now target }
{
    match target {
        Some(index) => declarations.get(index),
        None => None,
    }
}

/// Adds the line of an edge.
#[tactic(auto, unfolding(crate::specs::Edges::edge_line))]
fn put_edge(text: &mut Vec<u8>, from: &[u8], to: &[u8], label: &[u8]) -> Result<(), AllocError>
    ensures { OnOk result (text.new.items
        ≡ text.old.items ++ (edge_line (edge_of from.now label.now to.now) ++ 10 ∷ [])) }
{
    text.extend_from_slice(b"  \"")?;
    text.extend_from_slice(from)?;
    text.extend_from_slice(b"\" -> \"")?;
    text.extend_from_slice(to)?;
    text.extend_from_slice(b"\" [label=\"")?;
    text.extend_from_slice(label)?;
    text.extend_from_slice(b"\"];\n")?;
    Ok(())
}

/// Adds the edge of a row that refers to a declaration.
fn put_row_edge(
    text: &mut Vec<u8>,
    declarations: &[Declared],
    from: &[u8],
    row: &Row<'_>,
) -> Result<(), AllocError>
    ensures { OnOk result (text.new.items ≡ text.old.items
        ++ edges_text (row_edges declarations.now from.now (spec.row_view row.now))) }
{
    match declared_at(declarations, row.target) {
        Some(to) => put_edge(text, from, &to.name, row.name),
        None => Ok(()),
    }
}

/// Adds the edges of a declaration.
fn put_edges_of(
    alloc: Global,
    text: &mut Vec<u8>,
    declarations: &[Declared],
    declared: &Declared,
) -> Result<(), AllocError>
    ensures { OnOk result (text.new.items ≡ text.old.items
        ++ edges_text (body_edges declarations.now declared.now)) }
{
    let rows = rows_of(alloc, &declared.body)?;
    put_rows_edges(text, declarations, &declared.name, &rows)
}

fn put_rows_edges(
    text: &mut Vec<u8>,
    declarations: &[Declared],
    from: &[u8],
    rows: &[Row<'_>],
) -> Result<(), AllocError>
    ensures { OnOk result (text.new.items ≡ text.old.items
        ++ edges_text (rows_edges declarations.now from.now (map spec.row_view rows.now))) }
{
    'rows: for row in rows {
        put_row_edge(text, declarations, from, row)?;
    }
    Ok(())
}

/// Adds the lines of all edges.
pub(crate) fn put_edges(
    alloc: Global,
    text: &mut Vec<u8>,
    declarations: &[Declared],
) -> Result<(), AllocError>
    ensures { OnOk result (text.new.items
        ≡ text.old.items ++ edges_text (all_edges declarations.now)) }
{
    'declarations: for declared in declarations {
        put_edges_of(alloc, text, declarations, declared)?;
    }
    Ok(())
}
