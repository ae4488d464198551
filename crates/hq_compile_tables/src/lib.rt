//! Columns, conditions on them, and the selects of one table's rows in a compiled statement.
#![tactic(auto)]

mod columns;
mod condition;
mod context;
mod limit;
mod names;
mod shown;
mod table;

pub use columns::{
    add_new, column_at, compared_form, each_once, is_used, own_column, shown_form, type_in,
    value_at, value_column,
};
pub use condition::{
    column_test, columns_test, comparison, first_member, joined_by_and, joined_by_or, literal,
    negation, where_of, with_member,
};
pub use context::{Context, Granted, GrantedList};
pub use limit::{RowUse, row_limit, wide};
pub use names::{
    fold_alias, join_alias, key_name, needed_name, table_alias, take_number, unit_name, value_name,
};
pub use shown::{
    MaskPlace, MaskPlaceList, Shown, compared_shown, shown_column, shown_in, table_column,
    table_shown, table_shown_column,
};
pub use table::{
    both_joins, exists_where, first_row, first_select, from_table, key_orders, link, one_join,
    value_output,
};
