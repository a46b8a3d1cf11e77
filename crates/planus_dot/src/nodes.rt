//! The nodes: a declaration with its rows.

ghost use Rattle.std.specs.Prelude.{◌≡◌, ◌++◌, ◌∷◌, [], map, OnOk};
ghost use Rattle.planus_dot.specs.Rows.{row_view};
ghost use Rattle.planus_dot.specs.Nodes as spec;
ghost use Rattle.planus_dot.specs.Nodes.{label_text, node_line};

use crate::row::Row;
use crate::rows::rows_of;
use crate::types::{put_type, scalar_name};
use planus_schema::{Body, Declared};
use std::alloc::{AllocError, Global};

/// Returns the word that declares it.
fn word_of(body: &Body) -> &'static str
    ensures { result.now ≡ spec.word_of body.now }
{
    match body {
        Body::Table(_) => "table ",
        Body::Struct(_) => "struct ",
        Body::Enum(_) => "enum ",
        Body::Union(_) => "union ",
    }
}

/// Adds the integer type of an enum.
fn put_integer(text: &mut Vec<u8>, body: &Body) -> Result<(), AllocError>
    ensures { OnOk result (text.new.items ≡ text.old.items ++ spec.integer_of body.now) }
{
    if let Body::Enum(body) = body {
        text.extend_from_slice(b": ")?;
        text.extend_from_slice(scalar_name(body.scalar).as_bytes())?;
    }
    Ok(())
}

fn put_kind(
    alloc: Global,
    text: &mut Vec<u8>,
    declarations: &[Declared],
    row: &Row<'_>,
) -> Result<(), AllocError>
    ensures { OnOk result (text.new.items
        ≡ text.old.items ++ spec.kind_text declarations.now row.now.kind row.now.count) }
{
    if let Some(kind) = row.kind {
        text.extend_from_slice(b": ")?;
        put_type(alloc, text, declarations, kind, row.count)?;
    }
    Ok(())
}

/// Adds a row, which ends at the left.
fn put_row(
    alloc: Global,
    text: &mut Vec<u8>,
    declarations: &[Declared],
    row: &Row<'_>,
) -> Result<(), AllocError>
    ensures { OnOk result (text.new.items
        ≡ text.old.items ++ spec.row_text declarations.now (row_view row.now)) }
{
    text.extend_from_slice(row.name)?;
    put_kind(alloc, text, declarations, row)?;
    text.extend_from_slice(b"\\l")?;
    Ok(())
}

fn put_rows(
    alloc: Global,
    text: &mut Vec<u8>,
    declarations: &[Declared],
    rows: &[Row<'_>],
) -> Result<(), AllocError>
    ensures { OnOk result (text.new.items
        ≡ text.old.items ++ spec.rows_text declarations.now (map row_view rows.now)) }
{
    'rows: for row in rows {
        put_row(alloc, text, declarations, row)?;
    }
    Ok(())
}

fn put_title(text: &mut Vec<u8>, declared: &Declared) -> Result<(), AllocError>
    ensures { OnOk result (text.new.items ≡ text.old.items ++ spec.title_text declared.now) }
{
    text.extend_from_slice(word_of(&declared.body).as_bytes())?;
    text.extend_from_slice(&declared.name)?;
    put_integer(text, &declared.body)
}

/// Adds the label of a node.
#[tactic(auto, unfolding(crate::specs::Nodes::label_text))]
fn put_label(
    alloc: Global,
    text: &mut Vec<u8>,
    declarations: &[Declared],
    declared: &Declared,
) -> Result<(), AllocError>
    ensures { OnOk result (text.new.items
        ≡ text.old.items ++ label_text declarations.now declared.now) }
{
    let rows = rows_of(alloc, &declared.body)?;
    put_title(text, declared)?;
    text.push(b'|')?;
    put_rows(alloc, text, declarations, &rows)
}

/// Adds the line of a node.
#[tactic(auto, unfolding(crate::specs::Nodes::node_line))]
fn put_node(
    alloc: Global,
    text: &mut Vec<u8>,
    declarations: &[Declared],
    declared: &Declared,
) -> Result<(), AllocError>
    ensures { OnOk result (text.new.items
        ≡ text.old.items ++ (node_line declarations.now declared.now ++ 10 ∷ [])) }
{
    text.extend_from_slice(b"  \"")?;
    text.extend_from_slice(&declared.name)?;
    text.extend_from_slice(b"\" [label=\"")?;
    put_label(alloc, text, declarations, declared)?;
    text.extend_from_slice(b"\"];\n")?;
    Ok(())
}

/// Adds the lines of all nodes.
pub(crate) fn put_nodes(
    alloc: Global,
    text: &mut Vec<u8>,
    declarations: &[Declared],
) -> Result<(), AllocError>
    ensures { OnOk result (text.new.items ≡ text.old.items ++ spec.nodes_text declarations.now) }
{
    'declarations: for declared in declarations {
        put_node(alloc, text, declarations, declared)?;
    }
    Ok(())
}
