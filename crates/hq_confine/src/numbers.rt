//! Whether the filters and masks of what is granted can be written: the numbers of their aliases have 64 bits.
ghost use Rattle.std.specs.Prelude.{ℕ, ◌+◌, ◌^◌, ◌≤◌, OnOk, map};
ghost use Rattle.hq_model.specs.Bexp.{bexp_view};
ghost use Rattle.hq_model.specs.PermView.{mask_view};
ghost use Rattle.hq_model.specs.Permitted.{mask_of};
ghost use Rattle.hq_translation.specs.Predicates.{own_numbers};
ghost use Rattle.hq_laws_confine.specs.Meaning.Laws.{AreWritten};
ghost use Rattle.hq_confine.specs.Written.{IsWritten};
ghost use Rattle.hq_confine_uses.specs.Views.{rules_schema, rules_grants};

use crate::written::own_condition;
use hq_base::Memory;
use hq_confine_uses::Rules;
use hq_model::{Bexp, Mask};
use std::alloc::Global;

// Wants memory where a filter or a mask of table `t` has too many aliases.
fn write(alloc: Global, rules: &Rules<'_>, t: usize, bexp: &Bexp) -> Result<(), Memory>
    ensures { OnOk result (1 + own_numbers (bexp_view bexp.now) (rules_schema rules.now) t ≤ 2 ^ 64) }
{
    own_condition(alloc, rules, t, bexp)?;
    Ok(())
}

// The same of masks.
fn write_masks(alloc: Global, rules: &Rules<'_>, t: usize, masks: &[Mask]) -> Result<(), Memory>
    ensures { OnOk result ((c : ℕ) → 1 + own_numbers (mask_of (map mask_view masks.now) c) (rules_schema rules.now) t ≤ 2 ^ 64) }
{
    for mask in masks {
        write(alloc, rules, t, &mask.shown)?;
    }
    Ok(())
}

// The same of what is granted of a table.
fn write_grant(alloc: Global, rules: &Rules<'_>, t: usize) -> Result<(), Memory>
    ensures { OnOk result (IsWritten (rules_schema rules.now) (rules_grants rules.now) t) }
{
    match rules.grant(t) {
        Some(granted) => {
            write(alloc, rules, t, &granted.filter)?;
            write_masks(alloc, rules, t, &granted.masks)
        }
        None => Ok(()),
    }
}

/// Wants memory where a filter or a mask of what is granted has too many aliases.
#[inline(never)]
pub(crate) fn write_grants(alloc: Global, rules: &Rules<'_>) -> Result<(), Memory>
    ensures { OnOk result (AreWritten (rules_schema rules.now) (rules_grants rules.now)) }
{
    for t in 0..rules.grants.len() {
        write_grant(alloc, rules, t)?;
    }
    Ok(())
}
