//! The nodes of selections.
ghost use Rattle.std.specs.Prelude.{◌≡◌, ◌++◌, OnOk, map};
ghost use Rattle.hq_gql_tree.specs.Selections.{field as field_tree, inline as inline_tree, selection_view, field_view, inline_view, selections_of};
ghost use Rattle.hq_schema.specs.Schema.{schema_view};
ghost use Rattle.hq_gql_nodes.specs.Nodes.{node_view, condition_nodes, field_head_nodes, inline_head_nodes, below_inline, selection_nodes, selections_nodes};

use crate::known::{args_of_field, below_field, object_named};
use crate::values::{add_arguments, add_directives};
use crate::{Location, Node};
use hq_base::Memory;
use hq_gql_tree::{Field, Inline, Selection, TypeCond};
use hq_schema::Schema;

/// The object type below an inline fragment.
pub fn below_inline(schema: &Schema, parent: Option<usize>, inline: &Inline) -> Option<usize>
    ensures { result ≡ below_inline (schema_view schema.now) parent (inline_view inline.now).0.cond }
{
    match &inline.cond {
        Some(cond) => object_named(schema, &cond.name),
        None => parent,
    }
}

// Adds the arguments and the directives of a field.
fn add_field_head<'a>(
    nodes: &mut Vec<Node<'a>>,
    schema: &'a Schema,
    field: &'a Field,
    parent: Option<usize>,
) -> Result<(), Memory>
    ensures { OnOk result (map node_view nodes.new.items ≡ map node_view nodes.old.items ++ field_head_nodes (schema_view schema.now) parent (field_view field.now).0) }
{
    let args = args_of_field(schema, parent, &field.name);
    add_arguments(&mut *nodes, schema, &field.args, args)?;
    add_directives(&mut *nodes, schema, &field.directives, Location::Field)
}

// Adds a type condition, if there is one.
fn add_condition<'a>(nodes: &mut Vec<Node<'a>>, cond: &'a Option<TypeCond>) -> Result<(), Memory>
    ensures { OnOk result (map node_view nodes.new.items ≡ map node_view nodes.old.items ++ condition_nodes cond.now) }
{
    if let Some(cond) = cond {
        nodes.push(Node::Condition(cond))?;
    }
    Ok(())
}

// Adds the type condition and the directives of an inline fragment.
fn add_inline_head<'a>(
    nodes: &mut Vec<Node<'a>>,
    schema: &'a Schema,
    inline: &'a Inline,
) -> Result<(), Memory>
    ensures { OnOk result (map node_view nodes.new.items ≡ map node_view nodes.old.items ++ inline_head_nodes (schema_view schema.now) (inline_view inline.now).0) }
{
    add_condition(&mut *nodes, &inline.cond)?;
    add_directives(
        &mut *nodes,
        schema,
        &inline.directives,
        Location::InlineFragment,
    )
}

#[cycle(selections)]
fn add_field<'a>(
    nodes: &mut Vec<Node<'a>>,
    schema: &'a Schema,
    field: &'a Field,
    parent: Option<usize>,
) -> Result<(), Memory>
    ensures { OnOk result
        (map node_view nodes.new.items
        ≡ map node_view nodes.old.items
        ++ selection_nodes (schema_view schema.now) parent (field_tree (field_view field.now).0 (field_view field.now).1)) }
{
    nodes.push(Node::Field(field, parent))?;
    add_field_head(&mut *nodes, schema, field, parent)?;
    let below = below_field(schema, parent, &field.name);
    add_selections(&mut *nodes, schema, &field.selections, below)
}

#[cycle(selections)]
fn add_inline<'a>(
    nodes: &mut Vec<Node<'a>>,
    schema: &'a Schema,
    inline: &'a Inline,
    parent: Option<usize>,
) -> Result<(), Memory>
    ensures { OnOk result
        (map node_view nodes.new.items
        ≡ map node_view nodes.old.items
        ++ selection_nodes (schema_view schema.now) parent (inline_tree (inline_view inline.now).0 (inline_view inline.now).1)) }
{
    nodes.push(Node::Inline(inline, parent))?;
    add_inline_head(&mut *nodes, schema, inline)?;
    let below = below_inline(schema, parent, inline);
    add_selections(&mut *nodes, schema, &inline.selections, below)
}

#[cycle(selections)]
fn add_selection<'a>(
    nodes: &mut Vec<Node<'a>>,
    schema: &'a Schema,
    selection: &'a Selection,
    parent: Option<usize>,
) -> Result<(), Memory>
    ensures { OnOk result (map node_view nodes.new.items ≡ map node_view nodes.old.items ++ selection_nodes (schema_view schema.now) parent (selection_view selection.now)) }
{
    match selection {
        Selection::Field(field) => add_field(&mut *nodes, schema, field, parent),
        Selection::Spread(spread) => {
            nodes.push(Node::Spread(spread, parent))?;
            add_directives(
                &mut *nodes,
                schema,
                &spread.directives,
                Location::FragmentSpread,
            )
        }
        Selection::Inline(inline) => add_inline(&mut *nodes, schema, inline, parent),
    }
}

/// Adds selections that stand in an object type, where that is known.
#[cycle(selections)]
pub fn add_selections<'a>(
    nodes: &mut Vec<Node<'a>>,
    schema: &'a Schema,
    selections: &'a Vec<Selection>,
    parent: Option<usize>,
) -> Result<(), Memory>
    ensures { OnOk result
        (map node_view nodes.new.items
        ≡ map node_view nodes.old.items
        ++ selections_nodes (schema_view schema.now) parent (selections_of (map selection_view selections.now.items))) }
{
    for selection in selections {
        add_selection(&mut *nodes, schema, selection, parent)?;
    }
    Ok(())
}
