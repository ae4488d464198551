ghost use Rattle.std.specs.Prelude.{◌≡◌, ◌++◌, IfOk, false, true, map};
ghost use Rattle.std.specs.List.{list_all};
ghost use Rattle.hq_base.specs.Text.{has_zero};
ghost use Rattle.hq_schema_of_role.specs.Rows.{is_clean, piece_name};

use hq_base::{Memory, Txt};
use std::alloc::Global;

/// The text of these bytes.
pub fn text(alloc: Global, piece: &str) -> Result<Txt, Memory>
    requires { has_zero piece.now ≡ false }
    ensures { IfOk result (λ text. text ≡ piece.now) }
{
    let mut text = Txt::new(alloc);
    text.push_str(piece)?;
    Ok(text)
}

/// A name with a suffix.
pub fn suffixed(alloc: Global, name: &Txt, suffix: &str) -> Result<Txt, Memory>
    requires { has_zero suffix.now ≡ false }
    ensures { IfOk result (λ text. text ≡ name.now ++ suffix.now) }
{
    let mut text = name.copy(alloc)?;
    text.push_str(suffix)?;
    Ok(text)
}

/// Texts.
pub fn texts(alloc: Global, pieces: &[&str]) -> Result<Vec<Txt>, Memory>
    requires { list_all is_clean pieces.now ≡ true }
    ensures { IfOk result (λ texts. texts.items ≡ map piece_name pieces.now) }
{
    let mut texts = Vec::new(alloc);
    for piece in pieces {
        texts.push(text(alloc, piece)?)?;
    }
    Ok(texts)
}
