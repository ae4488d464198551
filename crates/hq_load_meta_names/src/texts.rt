ghost use Rattle.std.specs.Prelude.{◌≡◌, ◌++◌, ◌∷◌, [], false, IfOk};
ghost use Rattle.hq_base.specs.Text.{has_zero};

use hq_base::{Memory, Txt};
use hq_model::TxtList;
use std::alloc::Global;

/// The text of these bytes.
pub fn text(alloc: Global, piece: &str) -> Result<Txt, Memory>
    requires { has_zero piece.now ≡ false }
    ensures { IfOk result (λ text. text ≡ piece.now) }
{
    let mut text = Txt::new(alloc);
    text.push_str(piece)?;
    Ok(text)
}

/// A name with an end.
pub fn with_end(alloc: Global, name: &Txt, end: &str) -> Result<Txt, Memory>
    requires { has_zero end.now ≡ false }
    ensures { IfOk result (λ text. text ≡ name.now ++ end.now) }
{
    let mut text = name.copy(alloc)?;
    text.push_str(end)?;
    Ok(text)
}

/// Names, and behind them a name with an end.
pub fn push_end(alloc: Global, names: TxtList, name: &Txt, end: &str) -> Result<TxtList, Memory>
    requires { has_zero end.now ≡ false }
    ensures { IfOk result (λ all. all ≡ names ++ (name.now ++ end.now) ∷ []) }
{
    let mut all = names;
    all.push(with_end(alloc, name, end)?)?;
    Ok(all)
}

/// Names, and behind them this one.
pub fn push_text(alloc: Global, names: TxtList, name: &str) -> Result<TxtList, Memory>
    requires { has_zero name.now ≡ false }
    ensures { IfOk result (λ all. all ≡ names ++ name.now ∷ []) }
{
    let mut all = names;
    all.push(text(alloc, name)?)?;
    Ok(all)
}

/// Names, and behind them a copy of this one.
pub fn push_name(alloc: Global, names: TxtList, name: &Txt) -> Result<TxtList, Memory>
    ensures { IfOk result (λ all. all ≡ names ++ name.now ∷ []) }
{
    let mut all = names;
    all.push(name.copy(alloc)?)?;
    Ok(all)
}
