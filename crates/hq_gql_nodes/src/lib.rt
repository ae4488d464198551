//! The nodes of a document that the rules of validation look at, each with what it stands in (GraphQL October 2021, section 5).
#![tactic(auto)]

mod fault;
mod fragments;
mod known;
mod least;
mod names;
mod node;
mod parts;
mod place;
mod search;
mod selections;
mod values;
mod variables;

pub use fault::fault_at;
pub use fragments::{fragment_place, fragment_places, graph_of};
pub use known::{
    args_of_directive, args_of_field, below_field, element_type, input_at, is_condition,
    is_input_type, is_non_null, is_null, known_field, object_at, object_named, root_of,
};
pub use least::{at_if, earlier};
pub use names::{NameAt, NamePlaces, Names, least_repeat, note, note_first};
pub use node::{Location, Node};
pub use parts::{Part, document_parts};
pub use place::{ValuePlace, arg_place, element_place, input_of, member_place};
pub use search::{reached, row};
pub use selections::below_inline;
pub use variables::{VariableTypes, type_at, types_at, variable_types};
