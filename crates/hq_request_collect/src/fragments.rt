//! The fragments of a document by their names.
ghost use Rattle.std.specs.Prelude.{◌≡◌, IfOk};
ghost use Rattle.hq_gql_tree.specs.View.{document_view};
ghost use Rattle.hq_gql_nodes.specs.Names.{get_name};
ghost use Rattle.hq_gql_nodes.specs.Fragments.{fragment_named};

use hq_base::Memory;
use hq_gql_nodes::{NamePlaces, fragment_places};
use hq_gql_tree::Document;
use std::alloc::Global;

/// A document with the places of its fragments by their names.
#[derive(Drop)]
pub struct Fragments<'a> {
    pub(crate) document: &'a Document,
    pub(crate) places: NamePlaces<'a>,
    ghost named: { get_name places ≡ fragment_named (document_view document.now) },
}

impl<'a> Fragments<'a> {
    /// The fragments of a document. Of two fragments of one name the first is meant.
    pub fn of(alloc: Global, document: &'a Document) -> Result<Self, Memory>
        ensures { IfOk result (λ f. document_view f.document.now ≡ document_view document.now) }
    {
        let places = fragment_places(alloc, document)?;
        Ok(Fragments { document, places })
    }
}
