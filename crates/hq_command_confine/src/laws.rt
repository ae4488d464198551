//! Laws, each the contract of a function that does nothing.
ghost use Rattle.std.specs.Prelude.{ℕ, List as Items};
ghost use Rattle.hq_io.specs.declared.files.File.{File};
ghost use Rattle.hq_session.specs.declared.header.Header.{Header};
ghost use Rattle.hq_model.specs.Meta.{MetaTree};
ghost use Rattle.hq_model.specs.declared.session.Session.{Session as Caller};
ghost use Rattle.hq_model.specs.declared.table.Table.{Table};
ghost use Rattle.hq_command_confine.specs.Laws.{OneLine, OwnConfined};

use hq_sql_text::one_tree;

/// The law: no two lines are due for a text.
pub fn one_line_is_due()
    ensures { (tables : Items Table) (meta : MetaTree) (session : Caller) (text : Items ℕ) → OneLine tables meta session text }
{
    one_tree();
}

/// The law: where `sql` answers a request by a statement, `confine` says yes to what it writes, for the same caller.
pub fn own_statements_are_confined()
    ensures { (dir : Items ℕ) (headers : Items Header) (files : Items File) (text : Items ℕ) → OwnConfined dir headers files text }
{}
