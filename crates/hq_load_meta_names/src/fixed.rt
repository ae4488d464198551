ghost use Rattle.std.specs.Prelude.{◌≡◌, map, IfOk};
ghost use Rattle.hq_schema.specs.Fixed.{fixed_name};
ghost use Rattle.hq_model.specs.SchemaNames.{fixed_types, fixed_inputs};

use crate::texts::{push_text, text};
use hq_base::{List, Memory};
use hq_model::TxtList;
use hq_schema::Fixed;
use std::alloc::Global;

// The names of these types.
fn names_of(alloc: Global, all: &[Fixed]) -> Result<TxtList, Memory>
    ensures { IfOk result (λ names. names ≡ map fixed_name all.now) }
{
    let mut names = List::new(alloc);
    for fixed in all {
        names.push(text(alloc, fixed.name())?)?;
    }
    Ok(names)
}

/// The types that each schema has.
pub fn fixed_types(alloc: Global) -> Result<TxtList, Memory>
    ensures { IfOk result (λ names. names ≡ fixed_types) }
{
    names_of(alloc, &Fixed::all())
}

/// The inputs that each boolean expression has.
pub fn fixed_inputs(alloc: Global) -> Result<TxtList, Memory>
    ensures { IfOk result (λ names. names ≡ fixed_inputs) }
{
    let names = push_text(alloc, List::new(alloc), "_and")?;
    let names = push_text(alloc, names, "_not")?;
    push_text(alloc, names, "_or")
}
