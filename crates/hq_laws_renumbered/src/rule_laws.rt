//! The laws, the contracts of functions that do nothing.
ghost use Rattle.std.specs.Prelude.{◌≡◌, ℕ, Option as Maybe};
ghost use Rattle.hq_base.specs.Json.{JsonTree};
ghost use Rattle.hq_request_tree.specs.Introspection.{IntrospectionTree};
ghost use Rattle.hq_schema.specs.Schema.{SchemaTree};
ghost use Rattle.hq_gql_tree.specs.Documents.{DocumentTree};
ghost use Rattle.hq_rules_doc.specs.First.{first_doc_fault};
ghost use Rattle.hq_rules_fields.specs.First.{first_field_fault};
ghost use Rattle.hq_request_coerce.specs.Due.{variables_due};
ghost use Rattle.hq_request_introspect.specs.Answers.{answered};
ghost use Rattle.hq_laws_renumbered.specs.Schemas.Blank.{blank};

/// The first rule that a document violates, and its place, are the same in a schema without origins.
pub fn origins_change_no_fault()
    ensures documents { (s : SchemaTree) (d : DocumentTree) → first_doc_fault (blank s) d ≡ first_doc_fault s d }
    ensures fields { (s : SchemaTree) (d : DocumentTree) → first_field_fault (blank s) d ≡ first_field_fault s d }
{}

/// The coerced variables of an operation, or the fault of one, are the same in a schema without origins.
pub fn origins_change_no_variable()
    ensures { (s : SchemaTree) (d : DocumentTree) (operation : ℕ) (given : Maybe JsonTree) → variables_due (blank s) d operation given ≡ variables_due s d operation given }
{}

/// What a field of introspection answers is the same in a schema without origins.
pub fn origins_change_no_introspection()
    ensures { (s : SchemaTree) (field : IntrospectionTree) → answered (blank s) field ≡ answered s field }
{}
