//! Laws of copies, each the contract of a function that does nothing.
ghost use Rattle.std.specs.Prelude.{List as Items};
ghost use Rattle.hq_copy_definition.specs.Copied.{Copied};
ghost use Rattle.hq_laws_copy.specs.Views.Laws.{CopiesAgree, CopyAnswers, NumbersDiffer};
ghost use Rattle.hq_request_tree.specs.Request.{AskTree};
ghost use Rattle.hq_model.specs.Database.{Row};
ghost use Rattle.hq_model.specs.Meta.{MetaTree};
ghost use Rattle.hq_model.specs.Schema.{Schema};
ghost use Rattle.hq_model.specs.declared.role.Role.{Role as Asking};
ghost use Rattle.hq_model.specs.declared.session.Session.{Session as Caller};
ghost use Rattle.hq_model.specs.declared.table.Table.{Table as CatalogTable};

use hq_laws_isolation::resolves_alike;
use hq_laws_renumbered::copies_answer_alike;

/// Nested resolvers give over a copy, as its reader, what they give over the database for the session: for each well-formed request
/// of the session, in the numbers of the copy.
pub fn copies_answer()
    ensures { (tables : Items CatalogTable) (m : MetaTree) (session : Caller) (d : Items (Items Row)) (a : AskTree) (c : Copied) → CopyAnswers tables m session d a c }
{
    resolves_alike();
    copies_answer_alike();
}

/// Databases that a session cannot tell apart have one copy: it is made of the view.
pub fn copies_agree()
    ensures { (tables : Items CatalogTable) (m : MetaTree) (session : Caller) (d e : Items (Items Row)) → CopiesAgree tables m session d e }
{}

/// Tables, columns and relationships that a role may use have different numbers in its copy.
pub fn numbers_differ()
    ensures { (role : Asking) (m : MetaTree) (s : Schema) → NumbersDiffer role m s }
{}
