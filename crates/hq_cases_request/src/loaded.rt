//! What the directory of a case holds, read by the public readers.

use crate::directory::folder;
use hq_cases_file::{Case, Stop};
use hq_load::{Loaded, load};

/// What the directory holds.
pub fn loaded(rt: &HostRuntime, case: &Case) -> Result<Loaded, Stop> {
    let mut files = folder(rt, case)?;
    let directory = case.text(rt.alloc(), "directory")?;
    match load(rt.alloc(), &mut files, &directory) {
        Ok(loaded) => Ok(loaded),
        Err(_) => Err(Stop::Shape),
    }
}
