//! Values, texts, lists and JSON: what every other crate of hq stands on.
#![tactic(auto)]

mod aggregate;
mod body;
mod bytes;
mod column_type;
mod compact;
mod json;
mod list;
mod look;
mod memory;
mod order;
mod parts;
mod path;
mod pattern;
mod reply;
mod stable_sort;
mod txt;
mod uuid;
mod value;

pub use aggregate::Aggregate;
pub use body::JsonRefusal;
pub use bytes::Bytes;
pub use json::{Json, JsonList, Member, Members};
pub use list::List;
pub use memory::Memory;
pub use order::compare;
pub use parts::{put_comma, put_quoted};
pub use path::{item_path, member_path, top_path};
pub use pattern::{Pattern, PatternRefusal, is_pattern};
pub use reply::Reply;
pub use stable_sort::sort;
pub use txt::{Txt, TxtRefusal};
pub use uuid::{is_uuid_form, spells_uuid, uuid_form};
pub use value::{Cell, Ty, Val};
