ghost use Rattle.std.specs.Prelude.{ℕ, List as Items};
ghost use Rattle.hq_model.specs.Database.{Row};
ghost use Rattle.hq_model.specs.Grants.{Grants};
ghost use Rattle.hq_model.specs.Meta.{MetaTree};
ghost use Rattle.hq_model.specs.declared.table.Table.{Table};
ghost use Rattle.hq_request_tree.specs.Fields.{FieldTrees};
ghost use Rattle.hq_translation.specs.Correct.{AliasesDiffer, IsGrammatical, MeansResolved};
ghost use Rattle.hq_translation.specs.Fine.{IsTyped};
ghost use Rattle.hq_translation.specs.GrantedTables.{GrantedTables};
ghost use Rattle.hq_translation.specs.Shallow.{IsShallow};
ghost use Rattle.hq_translation.specs.WellFormed.{IsWellFormed};
ghost use Rattle.hq_model.specs.Schema.{Schema};

/// The law: over every database of its catalog, the statement of a typed request means what nested resolvers give over the
/// permitted rows, whatever is granted.
pub fn statements_mean_resolved()
    ensures { (fields : FieldTrees) (tables : Items Table) (meta : MetaTree) (grants : Grants) (database : Items (Items Row)) → MeansResolved fields tables meta grants database }
{}

/// The law: no two tables, groups and joins of the statement have the same alias, at whatever depth they stand.
pub fn aliases_differ()
    ensures { (fields : FieldTrees) (schema : Schema) (granted : GrantedTables) → AliasesDiffer fields schema granted }
{}

/// The law: the statement is a tree of SQL's grammar, where each list is one of a table that has a key.
pub fn statement_is_grammatical()
    ensures { (fields : FieldTrees) (schema : Schema) (granted : GrantedTables) → IsGrammatical fields schema granted }
{}

/// The law: the statement opens few parentheses at once.
pub fn statement_is_shallow()
    ensures { (fields : FieldTrees) (schema : Schema) (granted : GrantedTables) (filters conditions chains : ℕ) → IsShallow fields schema granted filters conditions chains }
{}

/// The law: each part of the statement has its type in scope.
pub fn statement_is_typed()
    ensures { (fields : FieldTrees) (tables : Items Table) (meta : MetaTree) (granted : GrantedTables) → IsTyped fields tables meta granted }
{}

/// The law: the statement is well-formed for the catalog, where its fields are of the catalog and nested few enough, and a tree
/// can hold its texts and numbers.
pub fn statement_is_well_formed()
    ensures { (fields : FieldTrees) (tables : Items Table) (meta : MetaTree) (granted : GrantedTables) (filters conditions chains : ℕ)
        → IsWellFormed fields tables meta granted filters conditions chains }
{}
