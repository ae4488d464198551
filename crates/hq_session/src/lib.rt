//! Who asks: the headers of a request, the session that they give, and the hook that decides who the caller is.
#![tactic(auto)]

mod blanks;
mod header;
mod headers;
mod hook;
mod secret;
mod session;

pub use header::Header;
pub use headers::{HEADERS_LIMIT, Headers, HeadersRefusal};
pub use hook::{Hook, HookAnswer, HookRule};
pub use secret::SecretRule;
