//! The law of the checker of statements from other hands: one without faults means the same over all databases that agree.
ghost use Rattle.std.specs.Prelude.{List as Items};
ghost use Rattle.hq_model.specs.Database.{Row};
ghost use Rattle.hq_model.specs.Grants.{Grants};
ghost use Rattle.hq_model.specs.Meta.{MetaTree};
ghost use Rattle.hq_model.specs.declared.table.Table.{Table};
ghost use Rattle.hq_sql_tree.specs.Tree.{SelectTree};
ghost use Rattle.hq_laws_confine.specs.Meaning.Laws.{MeansTheSame};

/// The law: a statement that is confined for a session, whoever wrote it, means the same over all databases that agree for it.
pub fn confined_statements_mean_the_same()
    ensures { (tables : Items Table) (meta : MetaTree) (grants : Grants) (one other : Items (Items Row)) (statement : SelectTree) → MeansTheSame tables meta grants one other statement }
{}
