//! The fields of a row: their values, and the lateral joins that give them.
ghost use Rattle.std.specs.Prelude.{◌≡◌, ◌+◌, ◌++◌, ◌∷◌, [], IfOk, OnOk, map};
ghost use Rattle.hq_model.specs.Schema.{table};
ghost use Rattle.hq_request_tree.specs.Arguments.{arguments_view};
ghost use Rattle.hq_request_tree.specs.Fields.{field_view, part_view, keyed_field_view, keyed_part_view, object, list, by_key, aggregate, summary};
ghost use Rattle.hq_request_tree.specs.Root.{is_table_field, table_fields};
ghost use Rattle.hq_sql_tree.specs.Tree as tree;
ghost use Rattle.hq_sql_tree.specs.View.{expr_view, pair_view, join_view, pred_view};
ghost use Rattle.hq_translation.specs.Conditions.{where_of};
ghost use Rattle.hq_translation.specs.Fields.{fields_numbers, field_numbers, parts_numbers, part_numbers, field_value, fields_values, part_value, parts_values, empty_select, fields_joins, field_joins, parts_joins, part_joins};
ghost use Rattle.hq_translation.specs.Looks.{own_look};
ghost use Rattle.hq_translation.specs.Masks.{value_output};
ghost use Rattle.hq_translation.specs.Names.{join_alias};
ghost use Rattle.hq_compile_tables.specs.Contexts.{context_schema, context_granted};
ghost use Rattle.hq_compile_tables.specs.Selects.{first_row};
ghost use Rattle.hq_compile_tables.specs.Shown.{look_in};
ghost use Rattle.hq_compile_lists.specs.Starts.{start_origin, start_table};
ghost use Rattle.hq_compile.specs.Fields.{fields_view, parts_view};

use crate::used::{fields_used, key_used};
use hq_base::{Memory, Txt, Val};
use hq_compile_lists::{
    ListStart, Row, empty_row, key_row, list_body, list_select, list_table, list_used, no_row,
    object, one_row, summary_select,
};
use hq_compile_masks::{FirstRow, remote_row};
use hq_compile_tables::{
    Context, MaskPlace, first_select, one_join, table_shown_column, take_number, value_column,
};
use hq_model::{RelId, TableId};
use hq_request_tree::{
    AggFields, AggPart, AggParts, AskField, AskFields, KeyedAggPart, KeyedAskField,
};
use hq_sql_tree::{Expr, ExprPair, ExprPairList, Join, JoinList};
use std::alloc::Global;

// The value of a field at a row of table t at the alias of number p, behind the joins of masks; n is the number of its join.
fn field_value(
    alloc: Global,
    context: &Context,
    t: TableId,
    p: u64,
    places: &[MaskPlace],
    n: u64,
    field: &AskField,
) -> Result<Expr, Memory>
    ensures { let columns = (table (context_schema context.now) t).columns in
        IfOk result (λ e. expr_view e ≡ field_value (field_view field.now) columns (look_in places.now columns p) n) }
{
    match field {
        AskField::Column { col } => table_shown_column(alloc, context, t, p, places, *col),
        AskField::Typename { name } => Ok(Expr::Text(name.copy(alloc)?)),
        _ => value_column(alloc, n),
    }
}

// One more value under its key.
fn push_pair(alloc: Global, pairs: &mut ExprPairList, key: &Txt, value: Expr) -> Result<(), Memory>
    ensures { OnOk result (map pair_view pairs.new.items ≡ map pair_view pairs.old.items ++ record { name = key.now; value = expr_view value } ∷ []) }
{
    let name = key.copy(alloc)?;
    pairs.push(ExprPair { name, value })?;
    Ok(())
}

// One more join.
fn push_join(joins: &mut JoinList, join: Join) -> Result<(), Memory>
    ensures { OnOk result (map join_view joins.new.items ≡ map join_view joins.old.items ++ join_view join ∷ []) }
{
    joins.push(join)?;
    Ok(())
}

// The join of a field that no table answers.
fn empty_join(alloc: Global, next: &mut u64) -> Result<Join, Memory>
    ensures join { IfOk result (λ join. join_view join ≡ record { select = empty_select next.old; alias = join_alias next.old }) }
    ensures numbers { OnOk result (next.new ≡ next.old + 1) }
{
    let n = take_number(next)?;
    let select = no_row(alloc, n)?;
    one_join(alloc, select, n)
}

// The values and the joins of fields at a row of table t at the alias of number p, behind the joins of masks.
#[cycle(fields)]
fn push_fields(
    alloc: Global,
    context: &Context,
    t: TableId,
    p: u64,
    places: &[MaskPlace],
    fields: &AskFields,
    next: &mut u64,
    row: &mut Row,
) -> Result<(), Memory>
    ensures pairs { let s = context_schema context.now in let look = look_in places.now (table s t).columns p in
        OnOk result (map pair_view row.new.pairs.items ≡ map pair_view row.old.pairs.items
        ++ fields_values (fields_view fields.now.items) s (context_granted context.now) look t next.old) }
    ensures joins { let s = context_schema context.now in let g = context_granted context.now in
        OnOk result (map join_view row.new.joins.items ≡ map join_view row.old.joins.items ++ fields_joins (fields_view fields.now.items) s g t p next.old) }
    ensures numbers { let s = context_schema context.now in let g = context_granted context.now in
        OnOk result (next.new ≡ next.old + fields_numbers (fields_view fields.now.items) s g t) }
{
    for keyed in fields {
        push_field(alloc, context, t, p, places, keyed, next, row)?;
    }
    Ok(())
}

#[cycle(fields)]
fn push_field(
    alloc: Global,
    context: &Context,
    t: TableId,
    p: u64,
    places: &[MaskPlace],
    keyed: &KeyedAskField,
    next: &mut u64,
    row: &mut Row,
) -> Result<(), Memory>
    ensures pairs { let columns = (table (context_schema context.now) t).columns in let look = look_in places.now columns p in let f = keyed_field_view keyed.now in
        OnOk result (map pair_view row.new.pairs.items ≡ map pair_view row.old.pairs.items ++ record { name = f.0; value = field_value f.1 columns look next.old } ∷ []) }
    ensures joins { let s = context_schema context.now in let g = context_granted context.now in
        OnOk result (map join_view row.new.joins.items ≡ map join_view row.old.joins.items ++ field_joins (keyed_field_view keyed.now).1 s g t p next.old) }
    ensures numbers { OnOk result (next.new ≡ next.old + field_numbers (keyed_field_view keyed.now).1 (context_schema context.now) (context_granted context.now) t) }
{
    let value = field_value(alloc, context, t, p, places, *next, &keyed.field)?;
    push_pair(alloc, &mut row.pairs, &keyed.key, value)?;
    push_joins(alloc, context, t, p, &keyed.field, next, &mut row.joins)
}

// The joins of a field at a row of table t at the alias of number p.
#[cycle(fields)]
fn push_joins(
    alloc: Global,
    context: &Context,
    t: TableId,
    p: u64,
    field: &AskField,
    next: &mut u64,
    joins: &mut JoinList,
) -> Result<(), Memory>
    ensures joins { let s = context_schema context.now in let g = context_granted context.now in
        OnOk result (map join_view joins.new.items ≡ map join_view joins.old.items ++ field_joins (field_view field.now) s g t p next.old) }
    ensures numbers { OnOk result (next.new ≡ next.old + field_numbers (field_view field.now) (context_schema context.now) (context_granted context.now) t) }
{
    match field {
        AskField::Column { .. } | AskField::Typename { .. } => Ok(()),
        AskField::NoQueries | AskField::Introspect { .. } => {
            let join = empty_join(alloc, next)?;
            push_join(joins, join)
        }
        AskField::Object { rel, fields } => {
            let join = object_join(alloc, context, t, p, *rel, fields, next)?;
            push_join(joins, join)
        }
        AskField::ByPk { table, key, fields } => {
            let join = key_join(alloc, context, *table, key.as_slice(), fields, next)?;
            push_join(joins, join)
        }
        AskField::List {
            table,
            rel,
            args,
            fields,
        } => {
            let start = ListStart {
                row_table: t,
                row_number: p,
                table: *table,
                rel: *rel,
                args,
            };
            let join = list_join(alloc, context, &start, fields, next)?;
            push_join(joins, join)
        }
        AskField::Aggregate {
            table,
            rel,
            args,
            parts,
        } => {
            let start = ListStart {
                row_table: t,
                row_number: p,
                table: *table,
                rel: *rel,
                args,
            };
            let join = parts_join(alloc, context, &start, parts, next)?;
            push_join(joins, join)
        }
    }
}

// The join of an object behind relationship r of table t, whose row stands at the alias of number p.
#[cycle(fields)]
fn object_join(
    alloc: Global,
    context: &Context,
    t: TableId,
    p: u64,
    r: RelId,
    fields: &AskFields,
    next: &mut u64,
) -> Result<Join, Memory>
    ensures join { let s = context_schema context.now in let g = context_granted context.now in
        IfOk result (λ join. join_view join ∷ [] ≡ field_joins (object r (fields_view fields.now.items)) s g t p next.old) }
    ensures numbers { let s = context_schema context.now in let g = context_granted context.now in
        OnOk result (next.new ≡ next.old + field_numbers (object r (fields_view fields.now.items)) s g t) }
{
    let used = fields_used(alloc, fields)?;
    let first = remote_row(alloc, context, t, p, r, used.as_slice(), next)?;
    first_join(alloc, context, first, fields, next)
}

// The join of a look-up by key.
#[cycle(fields)]
fn key_join(
    alloc: Global,
    context: &Context,
    table: TableId,
    key: &[Val],
    fields: &AskFields,
    next: &mut u64,
) -> Result<Join, Memory>
    ensures join { let s = context_schema context.now in let g = context_granted context.now in
        IfOk result (λ join. join_view join ∷ [] ≡ field_joins (by_key table key.now (fields_view fields.now.items)) s g 0 0 next.old) }
    ensures numbers { let s = context_schema context.now in let g = context_granted context.now in
        OnOk result (next.new ≡ next.old + field_numbers (by_key table key.now (fields_view fields.now.items)) s g 0) }
{
    let used = key_used(alloc, context, table, fields)?;
    let first = key_row(alloc, context, table, key, used.as_slice(), next)?;
    first_join(alloc, context, first, fields, next)
}

// The join of the object at a first row.
#[cycle(fields)]
fn first_join(
    alloc: Global,
    context: &Context,
    first: FirstRow,
    fields: &AskFields,
    next: &mut u64,
) -> Result<Join, Memory>
    ensures join { let s = context_schema context.now in let g = context_granted context.now in
        let fs = fields_view fields.now.items in let u = first.table in let n = first.number in
        let value = tree.object (tree.pairs_of (fields_values fs s g (look_in first.masks.places (table s u).columns n) u next.old)) in
        let joins = map join_view first.masks.joins.items ++ fields_joins fs s g u n next.old in
        let select = first_row s u n (value_output value) joins (where_of (map pred_view first.members.items)) in
        IfOk result (λ join. join_view join ≡ record { select = select; alias = join_alias n }) }
    ensures numbers { let s = context_schema context.now in let g = context_granted context.now in
        OnOk result (next.new ≡ next.old + fields_numbers (fields_view fields.now.items) s g first.table) }
{
    let FirstRow {
        table,
        number,
        masks,
        members,
    } = first;
    let mut row = Row {
        pairs: Vec::new(alloc),
        joins: masks.joins,
    };
    let places = masks.places.as_slice();
    push_fields(
        alloc, context, table, number, places, fields, next, &mut row,
    )?;
    let value = object(row.pairs);
    let select = first_select(alloc, context, table, number, members, value, row.joins)?;
    one_join(alloc, select, number)
}

// The join of a list.
#[cycle(fields)]
fn list_join(
    alloc: Global,
    context: &Context,
    start: &ListStart,
    fields: &AskFields,
    next: &mut u64,
) -> Result<Join, Memory>
    ensures join { let f = list (start_origin start.now) (arguments_view start.now.args.now) (fields_view fields.now.items) in
        IfOk result (λ join. join_view join ∷ [] ≡ field_joins f (context_schema context.now) (context_granted context.now) start.now.row_table start.now.row_number next.old) }
    ensures numbers { let f = list (start_origin start.now) (arguments_view start.now.args.now) (fields_view fields.now.items) in
        OnOk result (next.new ≡ next.old + field_numbers f (context_schema context.now) (context_granted context.now) start.now.row_table) }
{
    let n = take_number(next)?;
    let table = list_table(context, start);
    let outs = fields_used(alloc, fields)?;
    let used = list_used(alloc, context, table, start.args, outs.as_slice())?;
    let body = list_body(alloc, context, start, table, n, used.as_slice(), next)?;
    let places = body.masks.places.as_slice();
    let mut row = empty_row(alloc);
    push_fields(alloc, context, table, n, places, fields, next, &mut row)?;
    let select = list_select(alloc, context, table, n, start.args, body, row)?;
    one_join(alloc, select, n)
}

// The join of an aggregate over a list.
#[cycle(fields)]
fn parts_join(
    alloc: Global,
    context: &Context,
    start: &ListStart,
    parts: &AggParts,
    next: &mut u64,
) -> Result<Join, Memory>
    ensures join { let f = aggregate (start_origin start.now) (arguments_view start.now.args.now) (parts_view parts.now.items) in
        IfOk result (λ join. join_view join ∷ [] ≡ field_joins f (context_schema context.now) (context_granted context.now) start.now.row_table start.now.row_number next.old) }
    ensures numbers { let f = aggregate (start_origin start.now) (arguments_view start.now.args.now) (parts_view parts.now.items) in
        OnOk result (next.new ≡ next.old + field_numbers f (context_schema context.now) (context_granted context.now) start.now.row_table) }
{
    let n = take_number(next)?;
    let mut row = empty_row(alloc);
    push_parts(alloc, context, start, parts, next, &mut row)?;
    let select = one_row(alloc, n, object(row.pairs), row.joins)?;
    one_join(alloc, select, n)
}

// The values and the joins of an aggregate's parts.
#[cycle(fields)]
fn push_parts(
    alloc: Global,
    context: &Context,
    start: &ListStart,
    parts: &AggParts,
    next: &mut u64,
    row: &mut Row,
) -> Result<(), Memory>
    ensures pairs { let s = context_schema context.now in let g = context_granted context.now in let a = arguments_view start.now.args.now in
        OnOk result (map pair_view row.new.pairs.items ≡ map pair_view row.old.pairs.items ++ parts_values (parts_view parts.now.items) s g (start_table s start.now) a next.old) }
    ensures joins { let s = context_schema context.now in let g = context_granted context.now in let l = start.now in
        OnOk result (map join_view row.new.joins.items ≡ map join_view row.old.joins.items
        ++ parts_joins (parts_view parts.now.items) s g (start_origin l) l.row_table l.row_number (arguments_view l.args.now) next.old) }
    ensures numbers { let s = context_schema context.now in let g = context_granted context.now in let a = arguments_view start.now.args.now in
        OnOk result (next.new ≡ next.old + parts_numbers (parts_view parts.now.items) s g (start_table s start.now) a) }
{
    for keyed in parts {
        push_part(alloc, context, start, keyed, next, row)?;
    }
    Ok(())
}

#[cycle(fields)]
fn push_part(
    alloc: Global,
    context: &Context,
    start: &ListStart,
    keyed: &KeyedAggPart,
    next: &mut u64,
    row: &mut Row,
) -> Result<(), Memory>
    ensures pairs { let f = keyed_part_view keyed.now in
        OnOk result (map pair_view row.new.pairs.items ≡ map pair_view row.old.pairs.items ++ record { name = f.0; value = part_value f.1 next.old } ∷ []) }
    ensures joins { let s = context_schema context.now in let g = context_granted context.now in let l = start.now in
        OnOk result (map join_view row.new.joins.items ≡ map join_view row.old.joins.items
        ++ part_joins (keyed_part_view keyed.now).1 s g (start_origin l) l.row_table l.row_number (arguments_view l.args.now) next.old) }
    ensures numbers { let s = context_schema context.now in let g = context_granted context.now in let a = arguments_view start.now.args.now in
        OnOk result (next.new ≡ next.old + part_numbers (keyed_part_view keyed.now).1 s g (start_table s start.now) a) }
{
    let value = part_value(alloc, *next, &keyed.part)?;
    push_pair(alloc, &mut row.pairs, &keyed.key, value)?;
    push_part_joins(alloc, context, start, &keyed.part, next, &mut row.joins)
}

// The joins of a part.
#[cycle(fields)]
fn push_part_joins(
    alloc: Global,
    context: &Context,
    start: &ListStart,
    part: &AggPart,
    next: &mut u64,
    joins: &mut JoinList,
) -> Result<(), Memory>
    ensures joins { let s = context_schema context.now in let g = context_granted context.now in let l = start.now in
        OnOk result (map join_view joins.new.items ≡ map join_view joins.old.items
        ++ part_joins (part_view part.now) s g (start_origin l) l.row_table l.row_number (arguments_view l.args.now) next.old) }
    ensures numbers { let s = context_schema context.now in let g = context_granted context.now in let a = arguments_view start.now.args.now in
        OnOk result (next.new ≡ next.old + part_numbers (part_view part.now) s g (start_table s start.now) a) }
{
    match part {
        AggPart::Typename { .. } => Ok(()),
        AggPart::Fields(fields) => {
            let join = summary_join(alloc, context, start, fields, next)?;
            push_join(joins, join)
        }
        AggPart::Nodes(fields) => {
            let join = list_join(alloc, context, start, fields, next)?;
            push_join(joins, join)
        }
    }
}

// The value of a part; n is the number of its join.
fn part_value(alloc: Global, n: u64, part: &AggPart) -> Result<Expr, Memory>
    ensures { IfOk result (λ e. expr_view e ≡ part_value (part_view part.now) n) }
{
    match part {
        AggPart::Typename { name } => Ok(Expr::Text(name.copy(alloc)?)),
        _ => value_column(alloc, n),
    }
}

// The join of `aggregate`.
fn summary_join(
    alloc: Global,
    context: &Context,
    start: &ListStart,
    fields: &AggFields,
    next: &mut u64,
) -> Result<Join, Memory>
    ensures join { let s = context_schema context.now in let g = context_granted context.now in let l = start.now in
        IfOk result (λ join. join_view join ∷ [] ≡ part_joins (summary fields.now) s g (start_origin l) l.row_table l.row_number (arguments_view l.args.now) next.old) }
    ensures numbers { let s = context_schema context.now in let g = context_granted context.now in let a = arguments_view start.now.args.now in
        OnOk result (next.new ≡ next.old + part_numbers (summary fields.now) s g (start_table s start.now) a) }
{
    let n = take_number(next)?;
    let table = list_table(context, start);
    let fields = fields.as_slice();
    let select = summary_select(alloc, context, start, table, n, fields, next)?;
    one_join(alloc, select, n)
}

/// The values and the joins of the root fields that start at a table.
pub(crate) fn root_row(
    alloc: Global,
    context: &Context,
    root: TableId,
    fields: &AskFields,
    next: &mut u64,
) -> Result<Row, Memory>
    ensures pairs { let s = context_schema context.now in let g = context_granted context.now in
        IfOk result (λ row. map pair_view row.pairs.items ≡ fields_values (table_fields (fields_view fields.now.items)) s g (own_look (table s root).columns 0) root next.old) }
    ensures joins { let s = context_schema context.now in let g = context_granted context.now in
        IfOk result (λ row. map join_view row.joins.items ≡ fields_joins (table_fields (fields_view fields.now.items)) s g root 0 next.old) }
    ensures numbers { let s = context_schema context.now in let g = context_granted context.now in
        OnOk result (next.new ≡ next.old + fields_numbers (table_fields (fields_view fields.now.items)) s g root) }
{
    let mut row = empty_row(alloc);
    for keyed in fields {
        push_root(alloc, context, root, keyed, next, &mut row)?;
    }
    Ok(row)
}

// A root field, where it starts at a table.
fn push_root(
    alloc: Global,
    context: &Context,
    root: TableId,
    keyed: &KeyedAskField,
    next: &mut u64,
    row: &mut Row,
) -> Result<(), Memory>
    ensures pairs { let s = context_schema context.now in let g = context_granted context.now in
        OnOk result (map pair_view row.new.pairs.items ≡ map pair_view row.old.pairs.items
        ++ fields_values (table_fields (fields_view (keyed.now ∷ []))) s g (own_look (table s root).columns 0) root next.old) }
    ensures joins { let s = context_schema context.now in let g = context_granted context.now in
        OnOk result (map join_view row.new.joins.items ≡ map join_view row.old.joins.items ++ fields_joins (table_fields (fields_view (keyed.now ∷ []))) s g root 0 next.old) }
    ensures numbers { let s = context_schema context.now in let g = context_granted context.now in
        OnOk result (next.new ≡ next.old + fields_numbers (table_fields (fields_view (keyed.now ∷ []))) s g root) }
{
    if is_table_field(&keyed.field) {
        push_field(alloc, context, root, 0, &[], keyed, next, row)
    } else {
        Ok(())
    }
}

// Whether a root field starts at a table.
fn is_table_field(field: &AskField) -> bool
    ensures { result ≡ is_table_field (field_view field.now) }
{
    match field {
        AskField::List { .. } | AskField::ByPk { .. } | AskField::Aggregate { .. } => true,
        _ => false,
    }
}
