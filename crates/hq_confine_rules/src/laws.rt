ghost use Rattle.std.specs.Prelude.{ℕ, List as Items};
ghost use Rattle.hq_model.specs.Database.{Row};
ghost use Rattle.hq_model.specs.Grants.{Grants};
ghost use Rattle.hq_model.specs.Meta.{MetaTree};
ghost use Rattle.hq_model.specs.Schema.{Schema};
ghost use Rattle.hq_model.specs.declared.table.Table.{Table};
ghost use Rattle.hq_request_tree.specs.Fields.{FieldTrees};
ghost use Rattle.hq_sql_tree.specs.Tree.{FilterTree};
ghost use Rattle.hq_confine_rules.specs.Laws.{AsksConfined, KeepsPermitted};

/// The law: a scan whose conjuncts contain those of its table's filter keeps permitted rows alone, whoever wrote it.
pub fn scans_keep_permitted_rows()
    ensures { (tables : Items Table) (meta : MetaTree) (grants : Grants) (database : Items (Items Row)) (table : ℕ) (alias : Items ℕ)
        (condition : FilterTree)
        → KeepsPermitted tables meta grants database table alias condition }
{}

/// The law: the statement of fields that ask for what is granted is confined for who asks.
pub fn statements_are_confined()
    ensures { (fields : FieldTrees) (schema : Schema) (grants : Grants) → AsksConfined fields schema grants }
{}
