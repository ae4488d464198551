ghost use Rattle.hq_base.specs.Due.{Gives};
ghost use Rattle.hq_load_meta_names.specs.Added.{added};

use crate::NameRefusal;
use hq_base::Txt;
use hq_model::TxtList;
use std::alloc::Global;

/// The names of all types, and of all root fields.
#[derive(Drop)]
pub struct Shared {
    pub types: TxtList,
    pub roots: TxtList,
}

/// The names of a type's fields, and of the inputs of its boolean expressions.
#[derive(Drop)]
pub struct Own {
    pub fields: TxtList,
    pub inputs: TxtList,
}

/// The known names and behind them these, or Repeated with a path where one stands there already.
pub fn added(
    alloc: Global,
    path: &Txt,
    known: TxtList,
    names: &[Txt],
) -> Result<TxtList, NameRefusal>
    ensures { Gives (λ all. all) NameRefusal.Memory (added path.now known names.now) result }
{
    let mut all = known;
    for name in names {
        if all.as_slice().contains(name) {
            return Err(NameRefusal::Repeated {
                path: path.copy(alloc)?,
            });
        }
        all.push(name.copy(alloc)?)?;
    }
    Ok(all)
}
