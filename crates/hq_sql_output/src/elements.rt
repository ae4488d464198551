//! What is written at each row of a FROM: an expression, or an object with columns of its table. These columns are found once and
//! read by their numbers; constants are spelled once; and where nothing else stands in the object, it is written without a scope.
ghost use Rattle.std.specs.Prelude.{◌≡◌, ◌≤◌, ◌++◌, ◌∷◌, [], ℕ, false, map, IfOk, IfSome};
ghost use Rattle.hq_base.specs.Cells.{json_of};
ghost use Rattle.hq_base.specs.Compact.{compact, quoted};
ghost use Rattle.hq_sql_cells.specs.View.{cell_view};
ghost use Rattle.hq_sql_conjuncts.specs.Weight.{total, expr_weight, pair_weight};
ghost use Rattle.hq_sql_tree.specs.Meaning.{Scope as Names};
ghost use Rattle.hq_sql_tree.specs.View.{expr_view, pair_view};
ghost use Rattle.hq_sql_output.specs.Elements.{AreMembers, AreSteady, IsContent, IsObject, IsSteady, content_weight, element_text, element_weight, member_weight, object_weight, row_text};

use crate::listed::pairs_in;
use crate::parts::put_cell;
use crate::places::Placed;
use crate::table_rows::{TableRows, table_rows};
use hq_base::{Bytes, Memory, Txt, put_quoted};
use hq_model::{ColId, Column};
use hq_sql_access::equations::is_joined;
use hq_sql_cells::Cell;
use hq_sql_constants::constant;
use hq_sql_scans::links::{own_column, own_name};
use hq_sql_tree::{Expr, ExprPairList};
use std::alloc::Global;

/// The value of a member at each row.
#[derive(Drop)]
pub enum Content<'d> {
    /// The cell in this column.
    Column(ColId),
    /// This text, whichever row it is.
    Constant(Bytes),
    /// That of an expression in the scope of the row.
    Other(&'d Expr),
}

/// A member of an object: its name in quotes with a colon, and its value.
#[derive(Drop)]
pub struct Member<'d> {
    pub head: Bytes,
    pub content: Content<'d>,
}

/// An object at the rows of a table.
#[derive(Drop)]
pub struct TableObject<'d> {
    pub table: TableRows<'d>,
    pub members: Vec<Member<'d>>,
}

/// What is written at each row.
#[derive(Clone, Copy)]
pub enum Element<'s, 'd> {
    /// An expression.
    Whole(&'d Expr),
    /// An object of columns and constants, which needs no scope.
    Plain(&'s TableObject<'d>),
    /// An object with other members too.
    Object(&'s TableObject<'d>),
}

// A member's name in quotes with a colon.
fn head_of(alloc: Global, name: &Txt) -> Result<Bytes, Memory>
    ensures { IfOk result (λ head. head ≡ quoted name.now ++ 58 ∷ []) }
{
    let mut head = Bytes::new(alloc);
    put_quoted(&mut head, name)?;
    head.push(b':')?;
    Ok(head)
}

// The JSON of a cell.
fn spelled(alloc: Global, cell: &Cell<'_>) -> Result<Bytes, Memory>
    ensures { IfOk result (λ text. text ≡ compact (json_of (cell_view cell.now))) }
{
    let mut text = Bytes::new(alloc);
    put_cell(alloc, &mut text, cell)?;
    Ok(text)
}

// The value of a member.
#[tactic(auto, using(crate::proofs::ElementTexts::column_is, crate::proofs::ElementTexts::constant_is))]
fn content_of<'d>(
    alloc: Global,
    expr: &'d Expr,
    alias: &Txt,
    columns: &[Column],
) -> Result<Content<'d>, Memory>
    ensures text { IfOk result (IsContent columns.now alias.now (expr_view expr.now)) }
    ensures weight { IfOk result (λ c. content_weight c ≤ expr_weight expr.now) }
{
    if let Some(column) = own_column(expr, columns, alias) {
        return Ok(Content::Column(column));
    }
    match constant(expr) {
        Some(cell) => Ok(Content::Constant(spelled(alloc, &cell)?)),
        None => Ok(Content::Other(expr)),
    }
}

// The members of an object at the rows of an alias.
#[tactic(auto, using(crate::proofs::ElementTexts::no_members, crate::proofs::ElementTexts::more_members, crate::proofs::ElementTexts::more_weight))]
fn members_of<'d>(
    alloc: Global,
    pairs: &'d ExprPairList,
    alias: &Txt,
    columns: &[Column],
) -> Result<Vec<Member<'d>>, Memory>
    ensures texts { IfOk result (λ ms. AreMembers columns.now alias.now (map pair_view pairs.now.items) ms.items) }
    ensures weight { IfOk result (λ ms. total (map member_weight ms.items) ≤ total (map pair_weight pairs.now.items)) }
{
    let mut members = Vec::with_capacity(alloc, pairs.len())?;
    for pair in pairs {
        let head = head_of(alloc, &pair.name)?;
        let content = content_of(alloc, &pair.value, alias, columns)?;
        members.push(Member { head, content })?;
    }
    Ok(members)
}

// Whether a member is a column of an alias.
fn has_column(pairs: &ExprPairList, alias: &Txt) -> bool {
    for pair in pairs {
        if own_name(&pair.value, alias).is_some() {
            return true;
        }
    }
    false
}

// The columns of fewer rows are found at each of them.
const FEW: usize = 3;

/// An expression at so many rows, where it is an object with a column of the table that they stand in, and they are not few. A join
/// of the table's alias would hide its columns.
pub fn table_object<'d>(
    alloc: Global,
    expr: &'d Expr,
    placed: &Placed<'_, 'd>,
    number: usize,
) -> Result<Option<TableObject<'d>>, Memory>
    ensures text { IfOk result (λ found. IfSome found (IsObject (expr_view expr.now) placed.now)) }
    ensures weight { IfOk result (λ found. IfSome found (λ o. object_weight o ≤ expr_weight expr.now)) }
{
    if number < FEW || is_joined(placed.joins, placed.alias) {
        return Ok(None);
    }
    let Some(pairs) = pairs_in(expr) else {
        return Ok(None);
    };
    let Some(table) = table_rows(placed.source) else {
        return Ok(None);
    };
    if !has_column(pairs, placed.alias) {
        return Ok(None);
    }
    let members = members_of(alloc, pairs, placed.alias, table.columns)?;
    Ok(Some(TableObject { table, members }))
}

// Whether a member's value needs a scope.
fn is_other(content: &Content<'_>) -> bool
    ensures { result ≡ false → IsSteady content.now }
{
    match content {
        Content::Column(_) | Content::Constant(_) => false,
        Content::Other(_) => true,
    }
}

// Whether that of one of the members does.
#[tactic(auto, using(crate::proofs::ElementTexts::more_steady))]
fn has_other(members: &[Member<'_>]) -> bool
    ensures { result ≡ false → AreSteady members.now }
{
    for member in members {
        if is_other(&member.content) {
            return true;
        }
    }
    false
}

/// What is written of an object.
pub fn element_of<'s, 'd>(object: &'s TableObject<'d>) -> Element<'s, 'd>
    ensures text { (position : ℕ) (names : Names) → element_text result position names ≡ row_text object.now position names }
    ensures weight { element_weight result ≡ object_weight object.now }
{
    if has_other(object.members.as_slice()) {
        Element::Object(object)
    } else {
        Element::Plain(object)
    }
}
