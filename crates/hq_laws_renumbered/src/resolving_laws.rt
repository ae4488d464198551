//! The law of requests in other numbers, the contract of a function that does nothing.
ghost use Rattle.std.specs.Prelude.{ℕ, List as Items, Option as Maybe};
ghost use Rattle.hq_model.specs.Database.{Row};
ghost use Rattle.hq_model.specs.Grants.{Grants};
ghost use Rattle.hq_model.specs.Schema.{Schema};
ghost use Rattle.hq_model.specs.View.{View};
ghost use Rattle.hq_request_tree.specs.Allowed.{Allowed};
ghost use Rattle.hq_request_tree.specs.Fields.{FieldTrees};
ghost use Rattle.hq_laws_renumbered.specs.Resolving.Copies.{AnsweredAlike};
ghost use Rattle.hq_laws_renumbered.specs.Resolving.Renumbering.{Renumbering};

/// What nested resolvers give over a view, they give over a copy of it, which has another schema, for the request in the numbers of
/// that schema.
pub fn copies_answer_alike()
    ensures { (fs : FieldTrees) (s z : Schema) (n : Renumbering) (v : View) (ok : Allowed) (k : ℕ → Maybe ℕ) (g : Grants) (d : Items (Items Row)) → AnsweredAlike fs s z n v ok k g d }
{}
