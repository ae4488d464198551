//! What is copied, and for whom.

use crate::{Link, Source};
use hq_model::{Described, Role};

/// A database's catalog and metadata, and of them what a role may see: the tables, and the links between them.
#[derive(Drop)]
pub struct Original<'a> {
    pub scope: Described<'a>,
    pub role: &'a Role,
    pub sources: &'a [Source<'a>],
    pub links: &'a [Link],
}
