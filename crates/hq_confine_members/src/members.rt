//! Conjuncts that what a session is granted asks for, among those of a WHERE.
ghost use Rattle.std.specs.Prelude.{◌≡◌};
ghost use Rattle.std.specs.List.{list_all, list_any};
ghost use Rattle.hq_sql_tree.specs.View.{pred_view};
ghost use Rattle.hq_confine_rules.specs.Members.{is_written, is_one_of, stand_among};
ghost use Rattle.hq_confine_members.specs.Views.{preds_view};

use crate::alike::{Renaming, is_alike};
use hq_base::Txt;
use hq_sql_tree::Pred;

// The alias of number 0, at which filters and masks are written.
const WRITTEN: &str = "t0";

// Whether a conjunct is this one of a filter or mask, at an alias.
fn is_written(alias: &Txt, own: &Pred, pred: &Pred) -> bool
    ensures { result ≡ is_written alias.now (pred_view own.now) (pred_view pred.now) }
{
    let renaming = Renaming::Beside {
        one: WRITTEN,
        other: alias.as_str(),
        outer: &Renaming::Nothing,
    };
    is_alike(own, pred, &renaming)
}

/// Whether a conjunct is one of these at an alias.
pub fn is_one_of(owns: &[&Pred], alias: &Txt, pred: &Pred) -> bool
    ensures { result ≡ is_one_of (preds_view owns.now) alias.now (pred_view pred.now) }
{
    for own in owns {
        if is_written(alias, own, pred) {
            return true;
        }
    }
    false
}

// Whether this one stands, at an alias, among the conjuncts.
fn stands_among(all: &[&Pred], own: &Pred, alias: &Txt) -> bool
    ensures { result ≡ list_any (is_written alias.now (pred_view own.now)) (preds_view all.now) }
{
    for pred in all {
        if is_written(alias, own, pred) {
            return true;
        }
    }
    false
}

/// Whether these stand, at an alias, among the conjuncts.
pub fn stand_among(all: &[&Pred], owns: &[&Pred], alias: &Txt) -> bool
    ensures { result ≡ stand_among (preds_view all.now) (preds_view owns.now) alias.now }
{
    for own in owns {
        if !stands_among(all, own, alias) {
            return false;
        }
    }
    true
}

/// Whether all conjuncts are of these at an alias.
pub fn are_of(all: &[&Pred], owns: &[&Pred], alias: &Txt) -> bool
    ensures { result ≡ list_all (is_one_of (preds_view owns.now) alias.now) (preds_view all.now) }
{
    for pred in all {
        if !is_one_of(owns, alias, pred) {
            return false;
        }
    }
    true
}
