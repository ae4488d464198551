//! Tables in memory: one author and his articles, as `hq gen` makes them.
use hq_base::Memory;
use hq_generator::{Generated, generate};
use hq_load_tables::MemTables;
use std::alloc::Global;

/// The tables `public.author` and `public.article`.
pub fn store(alloc: Global) -> Result<MemTables, Memory> {
    let Generated {
        catalog,
        meta: _,
        rows,
    } = generate(alloc, 1)?;
    Ok(MemTables::new(catalog, rows))
}
