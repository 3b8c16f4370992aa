// The choices of a `case` (Ada 95 RM 5.4).
ghost use Rattle.std.specs.Prelude.{◌≡◌, IfOk, map, option_map};
ghost use Rattle.spx_core.specs.ResolvedExpressions.{resolved_static};
ghost use Rattle.spx_core.specs.ResolvedStatements.{resolved_choice};
ghost use Rattle.spx_scope.specs.Seen.{seen};

use crate::expression::resolve_static;
use crate::meaning::chosen_by;
use crate::scene::Scene;
use spx_core::{CoreChoice, CoreExpr};
use spx_scope::Scope;
use spx_tree::{Choice, Expr};
use sqlite_items::{Boxed, Items};
use std::alloc::{AllocError, Global};

/// The upper bound of a choice, if it has one.
fn resolve_upper(
    alloc: Global,
    high: &Option<Boxed<Expr>>,
    scene: &Scene<'_>,
    scope: &Scope<'_>,
) -> Result<Option<Boxed<CoreExpr>>, AllocError>
    ensures { IfOk result (λ r. r ≡ option_map (resolved_static scene.now (seen scope.now)) high.now) }
{
    match high {
        Some(high) => Ok(Some(resolve_static(alloc, scene, high.get(), scope)?)),
        None => Ok(None),
    }
}

/// A choice, with its values.
fn resolve_choice(
    alloc: Global,
    choice: &Choice,
    scene: &Scene<'_>,
    scope: &Scope<'_>,
) -> Result<CoreChoice, AllocError>
    ensures { IfOk result (λ r. r ≡ resolved_choice scene.now (seen scope.now) choice.now) }
{
    let low = resolve_static(alloc, scene, choice.low.get(), scope)?;
    let high = resolve_upper(alloc, &choice.high, scene, scope)?;
    let span = chosen_by(low.get(), &high);
    Ok(CoreChoice { low, high, span })
}

fn resolve_choices(
    alloc: Global,
    choices: &[Choice],
    scene: &Scene<'_>,
    scope: &Scope<'_>,
) -> Result<Items<CoreChoice>, AllocError>
    ensures { IfOk result (λ r. r ≡ map (resolved_choice scene.now (seen scope.now)) choices.now) }
{
    let mut resolved = Items::new(alloc);
    for choice in choices {
        resolved.push(resolve_choice(alloc, choice, scene, scope)?)?;
    }
    Ok(resolved)
}

/// The choices of an alternative, unless it is for `others`.
pub fn resolve_listed(
    alloc: Global,
    choices: &Option<Items<Choice>>,
    scene: &Scene<'_>,
    scope: &Scope<'_>,
) -> Result<Option<Items<CoreChoice>>, AllocError>
    ensures { IfOk result (λ r. r ≡ option_map (map (resolved_choice scene.now (seen scope.now))) choices.now) }
{
    match choices {
        Some(choices) => {
            let resolved = resolve_choices(alloc, choices.as_slice(), scene, scope)?;
            Ok(Some(resolved))
        }
        None => Ok(None),
    }
}
