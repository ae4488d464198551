ghost use Rattle.std.specs.Prelude.{◌≡◌};
ghost use Rattle.hq_base.specs.Values.{value_cmp};

use crate::Val;
use std::cmp::Ordering;

/// How two values compare: whole numbers by value, texts by their bytes, false before true. None where one is Null or
/// their kinds differ.
pub fn compare(a: &Val, b: &Val) -> Option<Ordering>
    ensures { result ≡ value_cmp a.now b.now }
{
    match (a, b) {
        (Val::Int(a), Val::Int(b)) => Some(a.cmp(b)),
        (Val::Text(a), Val::Text(b)) => Some(a.as_bytes().cmp(b.as_bytes())),
        (Val::Bool(a), Val::Bool(b)) => Some(a.cmp(b)),
        _ => None,
    }
}
