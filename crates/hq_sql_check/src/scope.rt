//! The aliases in scope, and the kinds of their columns.
ghost use Rattle.std.specs.Prelude.{◌≡◌, ◌∷◌, [], IfOk, MatchOption, map, option_map};
ghost use Rattle.hq_sql_tree.specs.WellFormed.{kind_named, kind_at, Aliases};
ghost use Rattle.hq_sql_check.specs.Scopes.{kind_view, name_view, alias_view, stacked, scope_view};

use hq_base::{Memory, Txt};
use std::alloc::Global;

/// What an expression's values are: whole numbers, perhaps those of a table's column, texts, uuids, truth values, JSON, or values
/// of another type of PostgreSQL.
#[derive(Clone, Copy, PartialEq, Eq)]
pub(crate) enum Kind {
    Whole { of_column: bool },
    Text,
    Uuid,
    Truth,
    Json,
    Opaque,
}

/// The name of a column or of an output, and the kind of its values, where it has one.
#[derive(Clone, Copy)]
pub(crate) struct Name<'d> {
    pub name: &'d str,
    pub kind: Option<Kind>,
}

/// An alias with its columns.
#[derive(Drop)]
pub(crate) struct Alias<'d> {
    pub alias: &'d str,
    pub names: Vec<Name<'d>>,
}

/// The aliases in scope: those of a FROM as far as it is read, the latest at the end, and what is in scope around it.
#[derive(Clone, Copy)]
pub(crate) enum Scope<'s, 'd> {
    Nothing,
    Level {
        aliases: &'s [Alias<'d>],
        outer: &'s Scope<'s, 'd>,
    },
}

/// One name alone.
pub(crate) fn only_name<'d>(alloc: Global, name: Name<'d>) -> Result<Vec<Name<'d>>, Memory>
    ensures { IfOk result (λ names. map name_view names.items ≡ name_view name.entry ∷ []) }
{
    let mut names = Vec::new(alloc);
    names.push(name)?;
    Ok(names)
}

// The kind of the column of this name.
fn kind_named(names: &[Name<'_>], name: &str) -> Option<Kind>
    ensures { option_map kind_view result ≡ kind_named (map name_view names.now) name.now }
{
    for known in names {
        if known.name == name {
            return known.kind;
        }
    }
    None
}

// The kind of a column of the latest alias of this name, where there is one.
fn kind_among(aliases: &[Alias<'_>], alias: &str, name: &str) -> Option<Option<Kind>>
    ensures { MatchOption result
        ((outer : Aliases) → kind_at (stacked (map alias_view aliases.now) outer) alias.now name.now ≡ kind_at outer alias.now name.now)
        (λ kind. (outer : Aliases) → kind_at (stacked (map alias_view aliases.now) outer) alias.now name.now ≡ option_map kind_view kind) }
{
    let mut i = aliases.len();
    while i > 0 {
        i -= 1;
        let last = &aliases[i];
        if last.alias == alias {
            return Some(kind_named(&last.names, name));
        }
    }
    None
}

/// The kind of a column of an alias; none where the alias is not in scope or has no such column.
pub(crate) fn kind_at(scope: Scope<'_, '_>, alias: &Txt, name: &Txt) -> Option<Kind>
    ensures { option_map kind_view result ≡ kind_at (scope_view scope.entry) alias.now name.now }
{
    match scope {
        Scope::Nothing => None,
        Scope::Level { aliases, outer } => {
            match kind_among(aliases, alias.as_str(), name.as_str()) {
                Some(kind) => kind,
                None => kind_at(*outer, alias, name),
            }
        }
    }
}
