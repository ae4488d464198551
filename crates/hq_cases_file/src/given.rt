//! Catalogs and sessions that cases name.

use crate::{Case, Stop};
use hq_base::Txt;
use hq_load_catalog::{CatalogRefusal, read_catalog};
use hq_model::{Catalog, Session};
use hq_session::{Header, Headers, HeadersRefusal};
use std::alloc::Global;

fn stop_of(refusal: &CatalogRefusal) -> Stop {
    match refusal {
        CatalogRefusal::Memory => Stop::Memory,
        _ => Stop::Shape,
    }
}

/// The catalog that the value of the member `catalog` writes.
pub fn given_catalog(alloc: Global, case: &Case) -> Result<Catalog, Stop> {
    let text = case.json_text(alloc, "catalog")?;
    match read_catalog(alloc, text.as_slice()) {
        Ok(catalog) => Ok(catalog),
        Err(refusal) => Err(stop_of(&refusal)),
    }
}

// The header that a text writes.
fn given_header(alloc: Global, line: &Txt) -> Result<Header, Stop> {
    match Header::read(alloc, line)? {
        Some(header) => Ok(header),
        None => Err(Stop::Shape),
    }
}

/// The headers that these texts write, or the refusal of one too many.
pub fn given_headers(
    alloc: Global,
    lines: &[Txt],
) -> Result<Result<Headers, HeadersRefusal>, Stop> {
    let mut headers = Headers::new(alloc);
    for line in lines {
        if let Err(refusal) = headers.push(given_header(alloc, line)?) {
            return Ok(Err(refusal));
        }
    }
    Ok(Ok(headers))
}

/// The session of the headers that the elements of the member `headers` write.
pub fn given_session(alloc: Global, case: &Case) -> Result<Session, Stop> {
    match given_headers(alloc, case.texts(alloc, "headers")?.as_slice())? {
        Ok(headers) => Ok(headers.session(alloc)?),
        Err(_) => Err(Stop::Shape),
    }
}
