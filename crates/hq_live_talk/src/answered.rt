ghost use Rattle.std.specs.Prelude.{◌≡◌, ◌∷◌, [], IfOk, None, Some};

use hq_base::{Bytes, Memory};
use std::alloc::Global;

/// What follows a message: texts, in order, and the code to close with.
#[derive(Drop)]
pub struct Answered {
    pub texts: Vec<Bytes>,
    pub code: Option<u16>,
}

impl Answered {
    /// Nothing.
    pub fn silent(alloc: Global) -> Self
        ensures texts { result.texts.items ≡ [] }
        ensures code { result.code ≡ None }
    {
        Answered {
            texts: Vec::new(alloc),
            code: None,
        }
    }

    /// A close with this code.
    pub fn closed(alloc: Global, code: u16) -> Self
        ensures texts { result.texts.items ≡ [] }
        ensures code { result.code ≡ Some code }
    {
        Answered {
            texts: Vec::new(alloc),
            code: Some(code),
        }
    }

    /// These texts.
    pub fn texts(texts: Vec<Bytes>) -> Self
        ensures texts { result.texts ≡ texts }
        ensures code { result.code ≡ None }
    {
        Answered { texts, code: None }
    }
}

/// This text alone.
pub fn one_text(alloc: Global, text: Bytes) -> Result<Vec<Bytes>, Memory>
    ensures { IfOk result (λ texts. texts.items ≡ text ∷ []) }
{
    let mut texts = Vec::new(alloc);
    texts.push(text)?;
    Ok(texts)
}
