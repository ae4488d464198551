//! What is in scope: aliases, each with what it shows.
ghost use Rattle.std.specs.Prelude.{◌≡◌, ◌++◌, ◌∷◌, [], MatchOption, OnOk, map};
ghost use Rattle.hq_confine_rules.specs.Origins.{Shapes as Scopes, outputs, shape_at};
ghost use Rattle.hq_confine_uses.specs.Views.{alias_view, output_view, shape_view, shapes_view, stacked};

use hq_base::{Memory, Txt};

/// The cell of a column that an output passes on: its table by its place, the path of aliases to the scan, the nearest first, and the
/// column by its place.
#[derive(Drop)]
pub struct Passed<'d> {
    pub table: usize,
    pub path: Vec<&'d Txt>,
    pub column: usize,
}

/// An output: its name, and the cell that it passes on, where it makes no value of its own.
#[derive(Drop)]
pub struct Output<'d> {
    pub name: &'d Txt,
    pub origin: Option<Passed<'d>>,
}

/// What an alias shows: the rows of a table by its place, or outputs.
#[derive(Drop)]
pub enum Shape<'d> {
    Scan(usize),
    Outputs(Vec<Output<'d>>),
}

/// An alias with what it shows.
#[derive(Drop)]
pub struct Alias<'d> {
    pub alias: &'d Txt,
    pub shape: Shape<'d>,
}

/// The aliases in scope: those of a FROM as far as it is read, the latest at the end, and what is in scope around it.
#[derive(Clone, Copy)]
pub enum Shapes<'s, 'd> {
    Nothing,
    Level {
        aliases: &'s [Alias<'d>],
        outer: &'s Shapes<'s, 'd>,
    },
}

// What the latest alias of this name shows, where there is one.
fn shape_among<'s, 'd>(aliases: &'s [Alias<'d>], alias: &Txt) -> Option<&'s Shape<'d>>
    ensures { MatchOption result
        ((outer : Scopes) → shape_at (stacked (map alias_view aliases.now) outer) alias.now ≡ shape_at outer alias.now)
        (λ shape. (outer : Scopes) → shape_at (stacked (map alias_view aliases.now) outer) alias.now ≡ shape_view shape.now) }
{
    let mut i = aliases.len();
    while i > 0 {
        i -= 1;
        let last = &aliases[i];
        if *last.alias == *alias {
            return Some(&last.shape);
        }
    }
    None
}

/// What an alias shows, where it is in scope.
pub fn shape_at<'s, 'd>(scope: Shapes<'s, 'd>, alias: &Txt) -> Option<&'s Shape<'d>>
    ensures { MatchOption result
        (shape_at (shapes_view scope.entry) alias.now ≡ outputs [])
        (λ shape. shape_at (shapes_view scope.entry) alias.now ≡ shape_view shape.now) }
{
    match scope {
        Shapes::Nothing => None,
        Shapes::Level { aliases, outer } => match shape_among(aliases, alias) {
            Some(shape) => Some(shape),
            None => shape_at(*outer, alias),
        },
    }
}

/// Adds an alias that shows outputs.
#[inline(never)]
pub fn push_outputs<'d>(
    aliases: &mut Vec<Alias<'d>>,
    alias: &'d Txt,
    passed: Vec<Output<'d>>,
) -> Result<(), Memory>
    ensures { OnOk result (map alias_view aliases.new.items ≡ map alias_view aliases.old.items ++ (alias.now, outputs (map output_view passed.entry.items)) ∷ []) }
{
    aliases.push(Alias {
        alias,
        shape: Shape::Outputs(passed),
    })?;
    Ok(())
}
