ghost use Rattle.hq_base.specs.Body.{body_of};
ghost use Rattle.hq_base.specs.Due.{Gives};
ghost use Rattle.hq_base.specs.Json.{json_view};
ghost use Rattle.hq_load_catalog.specs.Reading.{json_in, catalog_of, catalog_due};

use crate::CatalogRefusal;
use crate::limits::{check_counts, check_name_lengths};
use crate::repeats::{check_keys, check_repeats};
use crate::resolve::resolved;
use crate::shape::written_tables;
use hq_base::{Json, JsonRefusal};
use hq_model::Catalog;
use std::alloc::Global;

/// Reads the bytes of a `catalog.json`. The tests come in this order, each over the whole file before the next, lists
/// in order and members in the order of the form: NotJson, Shape, TooMany, NameLength, Repeated, NoKey, and Shape
/// again for what keys and foreign keys name. The first refusal is the answer. A column of the key holds no NULL,
/// whatever the file says.
#[tactic(auto, unfolding(crate::specs::Reading::catalog_due))]
pub fn read_catalog(alloc: Global, bytes: &[u8]) -> Result<Catalog, CatalogRefusal>
    ensures { Gives (λ catalog. catalog.tables) CatalogRefusal.Memory (catalog_due bytes.now) result }
{
    let json = json_of(alloc, bytes)?;
    catalog_of(alloc, &json)
}

// The JSON of the bytes.
fn json_of(alloc: Global, bytes: &[u8]) -> Result<Json, CatalogRefusal>
    ensures { Gives json_view CatalogRefusal.Memory (json_in (body_of bytes.now)) result }
{
    match Json::from_body(alloc, bytes) {
        Ok(json) => Ok(json),
        Err(JsonRefusal::Memory) => Err(CatalogRefusal::Memory),
        Err(_) => Err(CatalogRefusal::NotJson),
    }
}

// The catalog of a JSON value.
#[tactic(auto, unfolding(crate::specs::Reading::catalog_of))]
fn catalog_of(alloc: Global, json: &Json) -> Result<Catalog, CatalogRefusal>
    ensures { Gives (λ catalog. catalog.tables) CatalogRefusal.Memory (catalog_of (json_view json.now)) result }
{
    let written = written_tables(alloc, json)?;
    let written = written.as_slice();
    check_counts(alloc, written)?;
    check_name_lengths(alloc, written)?;
    check_repeats(alloc, written)?;
    check_keys(alloc, written)?;
    let tables = resolved(alloc, written)?;
    Ok(Catalog { tables })
}
