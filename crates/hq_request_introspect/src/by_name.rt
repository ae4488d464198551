ghost use Rattle.std.specs.Prelude.{◌≡◌, IfOk, map};
ghost use Rattle.hq_schema.specs.Schema.{type_view, schema_view};
ghost use Rattle.hq_request_introspect.specs.Types.{under, sorted_types, types_by_name};
ghost use Rattle.hq_request_introspect.specs.Views.{entry_view, types_view};

use hq_base::{Memory, Txt, sort};
use hq_schema::{Schema, TypeDef};
use std::alloc::Global;

/// A type under its name. Entries are compared by their names alone.
#[derive(Clone, Copy)]
#[derive_where(PartialEq, Eq, PartialOrd, Ord)]
pub struct Entry<'a> {
    name: &'a Txt,
    #[derive_where(skip)]
    def: &'a TypeDef,
}

fn entries<'a>(alloc: Global, types: &'a [TypeDef]) -> Result<Vec<Entry<'a>>, Memory>
    ensures { IfOk result (λ es. map entry_view es.items ≡ map under (map type_view types.now)) }
{
    let mut entries = Vec::with_capacity(alloc, types.len())?;
    for def in types {
        entries.push(Entry {
            name: &def.name,
            def,
        })?;
    }
    Ok(entries)
}

fn types_of<'a>(alloc: Global, entries: &[Entry<'a>]) -> Result<Vec<&'a TypeDef>, Memory>
    ensures { IfOk result (λ ts. types_view ts.items ≡ map (λ e. type_view e.def.now) entries.now) }
{
    let mut types = Vec::with_capacity(alloc, entries.len())?;
    for entry in entries {
        types.push(entry.def)?;
    }
    Ok(types)
}

// The types of entries, in ascending byte order of the names.
fn sorted_types<'a>(alloc: Global, entries: &mut [Entry<'a>]) -> Result<Vec<&'a TypeDef>, Memory>
    ensures { IfOk result (λ ts. types_view ts.items ≡ sorted_types (map entry_view entries.old)) }
{
    sort(alloc, entries)?;
    let types = types_of(alloc, entries)?;
    Ok(types)
}

/// The types of a schema, in ascending byte order of their names.
pub fn types_by_name<'a>(alloc: Global, schema: &'a Schema) -> Result<Vec<&'a TypeDef>, Memory>
    ensures { IfOk result (λ ts. types_view ts.items ≡ types_by_name (schema_view schema.now)) }
{
    let mut entries = entries(alloc, schema.types.as_slice())?;
    let types = sorted_types(alloc, &mut entries)?;
    Ok(types)
}
