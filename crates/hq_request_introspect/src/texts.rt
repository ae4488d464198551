ghost use Rattle.std.specs.Prelude.{◌≡◌, IfOk, false};
ghost use Rattle.hq_base.specs.Json.{str, json_view};
ghost use Rattle.hq_base.specs.Text.{has_zero};
ghost use Rattle.hq_request_introspect.specs.Directives.{directive_locations};
ghost use Rattle.hq_request_introspect.specs.Nodes.{text, texts};
ghost use Rattle.hq_request_introspect.specs.Views.{resolved_view};

use crate::node::Resolved;
use hq_base::{Json, Memory, Txt};
use std::alloc::Global;

fn json_text(alloc: Global, piece: &str) -> Result<Json, Memory>
    requires { has_zero piece.now ≡ false }
    ensures { IfOk result (λ j. json_view j ≡ str piece.now) }
{
    let mut text = Txt::new(alloc);
    text.push_str(piece)?;
    Ok(Json::Str(text))
}

/// A text.
pub fn text<'a>(alloc: Global, piece: &str) -> Result<Resolved<'a>, Memory>
    requires { has_zero piece.now ≡ false }
    ensures { IfOk result (λ r. resolved_view r ≡ text piece.now) }
{
    Ok(Resolved::Leaf(json_text(alloc, piece)?))
}

/// A name.
pub fn name<'a>(alloc: Global, name: &Txt) -> Result<Resolved<'a>, Memory>
    ensures { IfOk result (λ r. resolved_view r ≡ text name.now) }
{
    Ok(Resolved::Leaf(Json::Str(name.copy(alloc)?)))
}

/// Where a directive may stand.
#[tactic(auto, unfolding(crate::specs::Directives::directive_locations))]
pub fn locations<'a>(alloc: Global) -> Result<Resolved<'a>, Memory>
    ensures { IfOk result (λ r. resolved_view r ≡ texts directive_locations) }
{
    let field = json_text(alloc, "FIELD")?;
    let spread = json_text(alloc, "FRAGMENT_SPREAD")?;
    let inline = json_text(alloc, "INLINE_FRAGMENT")?;
    Ok(Resolved::Leaf(Json::Arr(vec![in alloc; field, spread, inline]?)))
}
