ghost use Rattle.std.specs.Prelude.{◌≡◌, ◌++◌, ◌∷◌, ◌<◌, [], IfOk, OnOk, OnErr, MatchOption, None, Some, true, false};
ghost use Rattle.std.specs.Str.{is_utf8};
ghost use Rattle.std.specs.Hash as fed;
ghost use Rattle.std.specs.Cmp.Lexicographic.{pointwise, slice_cmp, nat_list_eq_equiv};
ghost use Rattle.std.specs.Cmp.{partial_equiv_from_equiv, partial_order_from_own_ties};
ghost use Rattle.std.specs.Cmp.Rules.{comparing, hashing};
ghost use Rattle.std.specs.Ordering.{as_partial_cmp, nat_cmp};
ghost use Rattle.std.specs.Prelude.{nat_eq};
ghost use Rattle.std.proofs.Common.{rules};
ghost use Rattle.hq_base.specs.Due.{Gives};
ghost use Rattle.hq_base.specs.Text.{has_zero, after};

use crate::Memory;
use std::alloc::Global;
use std::cmp::Ordering;
use std::convert::AsStr;
use std::hash::{Hash, Hasher};
use std::marker::Model;
use std::str;
use thiserror::Error;

/// A text: UTF-8 without a zero byte.
#[derive(Debug, Drop)]
pub struct Txt {
    text: String,
}

impl Model for Txt {
    ghost use Rattle.std.specs.Prelude.{◌≡◌, ℕ, List, false, string_bytes};
    ghost use Rattle.hq_base.specs.Text.{has_zero};

    ghost Value = { List ℕ };

    ghost view = { λ t. string_bytes t.text };

    ghost invariant = { λ t. has_zero (string_bytes t.text) ≡ false };
}

/// Why bytes are no text.
#[derive(Clone, Copy, Debug, PartialEq, Eq, Error)]
pub enum TxtRefusal {
    #[error("not UTF-8")]
    NotUtf8,
    #[error("has a zero byte")]
    ZeroByte,
    #[error("out of memory")]
    Memory,
}

// The bytes as `str`, where they are UTF-8.
fn utf8(bytes: &[u8]) -> Option<&str>
    ensures { MatchOption result (is_utf8 bytes.now ≡ false) (λ text. (is_utf8 bytes.now ≡ true) × (text.now ≡ bytes.now)) }
{
    match str::from_utf8(bytes) {
        Ok(text) => Some(text),
        Err(_) => None,
    }
}

// Whether a zero byte is among the bytes.
fn holds_zero(bytes: &[u8]) -> bool
    ensures { result ≡ has_zero bytes.now }
{
    bytes.iter().any(|b| *b == 0)
}

// What follows a front, where the text begins with it.
fn behind<'a>(text: &'a str, front: &str) -> Option<&'a str>
    ensures { MatchOption result (after front.now text.now ≡ None) (λ rest. after front.now text.now ≡ Some rest.now) }
{
    text.strip_prefix(front)
}

impl Txt {
    ghost use Rattle.hq_base.specs.Refused.{text_of};

    /// The text of these bytes: NotUtf8 or ZeroByte where they are none, in this order.
    pub fn of(alloc: Global, bytes: &[u8]) -> Result<Txt, TxtRefusal>
        ensures { Gives (λ text. text) TxtRefusal.Memory (text_of bytes.now) result }
    {
        let Some(text) = utf8(bytes) else {
            return Err(TxtRefusal::NotUtf8);
        };
        if holds_zero(bytes) {
            return Err(TxtRefusal::ZeroByte);
        }
        match String::from_str(alloc, text) {
            Ok(text) => Ok(Txt { text }),
            Err(_) => Err(TxtRefusal::Memory),
        }
    }

    /// The empty text. Takes no memory: later calls do.
    pub fn new(alloc: Global) -> Txt
        ensures { result ≡ [] }
    {
        Txt {
            text: String::new(alloc),
        }
    }

    /// Adds a piece without a zero byte at the end.
    pub fn push_str(&mut self, piece: &str) -> Result<(), Memory>
        requires { has_zero piece.now ≡ false }
        ensures ok { OnOk result (self.new ≡ self.old ++ piece.now) }
        ensures err { OnErr result (self.new ≡ self.old) }
    {
        self.text.push_str(piece)?;
        Ok(())
    }

    /// Adds a character of ASCII at the end, which is no zero byte.
    pub fn push_ascii(&mut self, character: u8) -> Result<(), Memory>
        requires no_zero { 0 < character }
        requires ascii { character < 128 }
        ensures ok { OnOk result (self.new ≡ self.old ++ character ∷ []) }
        ensures err { OnErr result (self.new ≡ self.old) }
    {
        self.text.push(char::from(character))?;
        Ok(())
    }

    /// Adds a text at the end.
    pub fn push_txt(&mut self, piece: &Txt) -> Result<(), Memory>
        ensures ok { OnOk result (self.new ≡ self.old ++ piece.now) }
        ensures err { OnErr result (self.new ≡ self.old) }
    {
        self.text.push_str(piece.text.as_str())?;
        Ok(())
    }

    /// The text, as `str`.
    pub fn as_str(&self) -> &str
        ensures { result.now ≡ self.now }
    {
        self.text.as_str()
    }

    /// The text's bytes.
    pub fn as_bytes(&self) -> &[u8]
        ensures { result.now ≡ self.now }
    {
        self.text.as_bytes()
    }

    /// Every text is UTF-8 without a zero byte.
    pub fn is_text(&self)
        ensures utf8 { is_utf8 self.now ≡ true }
        ensures no_zero { has_zero self.now ≡ false }
    {
        let _ = &self.text;
    }

    /// An equal text.
    pub fn copy(&self, alloc: Global) -> Result<Txt, Memory>
        ensures { IfOk result (λ copy. copy ≡ self.now) }
    {
        Ok(Txt {
            text: String::from_str(alloc, self.text.as_str())?,
        })
    }

    /// What follows this front, or None where the text does not begin with it.
    pub fn after(&self, alloc: Global, front: &str) -> Result<Option<Txt>, Memory>
        ensures { IfOk result (λ rest. rest ≡ after front.now self.now) }
    {
        let Some(rest) = behind(self.text.as_str(), front) else {
            return Ok(None);
        };
        let text = String::from_str(alloc, rest)?;
        Ok(Some(Txt { text }))
    }
}

impl AsStr for Txt {
    ghost text = { λ t. t };

    fn as_str(&self) -> &str {
        self.text.as_str()
    }
}

impl PartialEq for Txt {
    ghost eq = { pointwise nat_eq };

    ghost laws = { partial_equiv_from_equiv nat_list_eq_equiv };

    fn eq(&self, other: &Txt) -> bool {
        self.as_bytes() == other.as_bytes()
    }
}

impl Eq for Txt {
    ghost laws = { nat_list_eq_equiv };
}

impl PartialOrd for Txt {
    ghost partial_cmp = { as_partial_cmp (slice_cmp nat_cmp) };

    ghost laws = { partial_order_from_own_ties (Prim.search (comparing, rules)) (Prim.search (comparing, rules)) };

    fn partial_cmp(&self, other: &Txt) -> Option<Ordering> {
        Some(self.cmp(other))
    }
}

/// Texts are ordered by their bytes.
impl Ord for Txt {
    ghost cmp = { slice_cmp nat_cmp };

    ghost total = { Prim.search (comparing, rules) };

    ghost matches_partial_cmp = { Prim.search (comparing, rules) };

    ghost matches_eq = { Prim.search (comparing, rules) };

    fn cmp(&self, other: &Txt) -> Ordering {
        self.as_bytes().cmp(other.as_bytes())
    }
}

impl Hash for Txt {
    ghost hash_input = { fed.slice fed.u8 };

    ghost respects_eq = { Prim.search (hashing, rules) };

    fn hash<H: Hasher>(&self, state: &mut H) {
        self.as_bytes().hash(state);
    }
}
