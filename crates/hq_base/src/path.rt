ghost use Rattle.std.specs.Prelude.{◌≡◌, IfOk, false, string_bytes};
ghost use Rattle.std.specs.Fmt.{decimal};
ghost use Rattle.hq_base.specs.Text.{has_zero};
ghost use Rattle.hq_base.specs.Path.{top_path, member_path, item_path};

use crate::{Memory, Txt};
use std::alloc::Global;

/// The path of a JSON file's value itself: `$`.
#[tactic(auto, unfolding(crate::specs::Path::top_path))]
pub fn top_path(alloc: Global) -> Result<Txt, Memory>
    ensures { IfOk result (λ path. path ≡ top_path) }
{
    let mut path = Txt::new(alloc);
    path.push_str("$")?;
    Ok(path)
}

/// The path of the member of this name, of the object at `path`.
#[tactic(auto, unfolding(crate::specs::Path::member_path))]
pub fn member_path(alloc: Global, path: &Txt, name: &str) -> Result<Txt, Memory>
    requires { has_zero name.now ≡ false }
    ensures { IfOk result (λ joined. joined ≡ member_path path.now name.now) }
{
    let mut joined = path.copy(alloc)?;
    joined.push_str(".")?;
    joined.push_str(name)?;
    Ok(joined)
}

/// The path of the element at this place, counted from 0, of the array at `path`.
#[tactic(auto, unfolding(crate::specs::Path::item_path))]
pub fn item_path(alloc: Global, path: &Txt, index: usize) -> Result<Txt, Memory>
    ensures { IfOk result (λ joined. joined ≡ item_path path.now index) }
{
    let mut joined = path.copy(alloc)?;
    joined.push_str("[")?;
    joined.push_str(digits(alloc, index)?.as_str())?;
    joined.push_str("]")?;
    Ok(joined)
}

// The number in decimal.
fn digits(alloc: Global, number: usize) -> Result<String, Memory>
    ensures text { IfOk result (λ digits. string_bytes digits ≡ decimal number) }
    ensures clean { IfOk result (λ digits. has_zero (string_bytes digits) ≡ false) }
{
    Ok(format!(in alloc; "{number}")?)
}
