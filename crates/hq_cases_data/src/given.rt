//! Metadata that cases name.

use hq_cases_file::{Case, Stop};
use hq_load_meta::{MetaRefusal, read_meta};
use hq_model::{Catalog, Meta, Role, Session, TableId, VarList};
use std::alloc::Global;

fn stop_of(refusal: &MetaRefusal) -> Stop {
    match refusal {
        MetaRefusal::Memory => Stop::Memory,
        _ => Stop::Shape,
    }
}

fn meta_of(alloc: Global, bytes: &[u8], catalog: &Catalog) -> Result<Meta, Stop> {
    match read_meta(alloc, bytes, catalog) {
        Ok(meta) => Ok(meta),
        Err(refusal) => Err(stop_of(&refusal)),
    }
}

/// The metadata over a catalog that the value of the member `metadata` writes.
pub fn given_meta(alloc: Global, case: &Case, catalog: &Catalog) -> Result<Meta, Stop> {
    let text = case.json_text(alloc, "metadata")?;
    meta_of(alloc, text.as_slice(), catalog)
}

/// The role of the name that the member `role` writes.
pub fn given_role(alloc: Global, case: &Case) -> Result<Role, Stop> {
    let session = Session {
        role: case.text(alloc, "role")?,
        vars: VarList::new(alloc),
    };
    Ok(Role::of(alloc, &session)?)
}

/// The table at the place that the member `table` is.
pub fn given_table(case: &Case) -> Result<TableId, Stop> {
    Ok(TableId::new(case.place("table")?))
}
