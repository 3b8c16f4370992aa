// What holds of the programs of this crate, each as the contract of a function that does nothing.
ghost use Rattle.std.specs.Prelude.{◌≡◌, ◌↔◌, ℕ, pos, List, [], ◌∷◌, Some};
ghost use Rattle.spx_core.specs.Erased.{Visible};
ghost use Rattle.spx_core.specs.declared.entity.VarId.{VarId};
ghost use Rattle.spx_core.specs.Flow.{MayFlow};
ghost use Rattle.spx_core.specs.FlowRules.{HasNoFlowFinding, body_effect, mark};
ghost use Rattle.spx_core.specs.Marks.{Lambda, marked};
ghost use Rattle.spx_core.specs.Ways.{Goes};
ghost use Rattle.spx_core.specs.Obeyed.{Obeys};
ghost use Rattle.spx_core.specs.Statements.{Typed};
ghost use Rattle.spx_term.specs.declared.value.Value.TheVariants as value;
ghost use Rattle.spx_meaning.specs.declared.bad.BadKind.TheVariants.{Overflow};
ghost use Rattle.spx_paths.specs.Fit.{Clean, Fit, IsValid};
ghost use Rattle.spx_meaning.specs.Laws.{NeverBad, Start};
ghost use Rattle.spx_paths.specs.Conditions.{conditions_of};
ghost use Rattle.spx_meaning.specs.Runs.{Bad, Ended, call};
ghost use Rattle.spx_examples.specs.Increment.{place, x, inc, inc_conditions, inc_effect, increment};
ghost use Rattle.spx_examples.specs.Refused.{inc_without_pre, increment_without_pre, x_is_last, overflow_without_pre, range_without_pre};

use spx_core::laws::{
    initial_values_fit, names_are_scoped, resolution, rules_hold, types_are_made, types_have_values,
};

/// The procedure of examples/inc.adb meets the premises of the laws, so they are not empty.
pub fn increment_is_clean()
    ensures conditions { conditions_of increment inc ≡ inc_conditions }
    ensures clean { Clean increment }
    ensures run { (n : ℕ) → call increment n inc (Some (value.Number (pos 41)) ∷ []) ≡ Ended (Some (value.Number (pos 42)) ∷ []) }
{
    resolution();
}

/// Its body sets X, and reads X for that: only X comes to the assignment, a mark on it comes to X, and the one way
/// through the body sets X.
pub fn increment_flows()
    ensures body { body_effect inc ≡ inc_effect }
    ensures x_comes { (u : VarId) → Lambda (body_effect inc) u (place 6 4) ↔ (x ≡ u) }
    ensures mark_arrives { MayFlow (marked (place 6 4) (mark increment) (body_effect inc)) (mark increment) x }
    ensures one_way { (way : List VarId) → Goes (body_effect inc) way ↔ (way ≡ x ∷ []) }
{}

/// It meets the premise of the law on runs.
pub fn increment_is_never_bad()
    ensures fit { Fit increment }
    ensures never_bad { NeverBad increment }
{
    increment_is_clean();
    names_are_scoped();
    initial_values_fit();
    types_have_values();
    types_are_made();
    rules_hold();
}

/// The same procedure without its precondition breaks no static rule and flows as it declares, and yet a call of it is bad: a
/// program whose conditions are not valid may go wrong.
pub fn a_run_without_proof_is_bad()
    ensures visible { Visible increment_without_pre }
    ensures typed { Typed increment_without_pre }
    ensures obeys { Obeys increment_without_pre }
    ensures flows { HasNoFlowFinding increment_without_pre }
    ensures start { Start increment_without_pre inc_without_pre x_is_last }
    ensures bad { (n : ℕ) → call increment_without_pre n inc_without_pre x_is_last ≡ Bad Overflow (place 6 11) }
{
    resolution();
}

/// Its condition on overflow is not valid: where X has the last value of its type, the sum lies past it. So the program is not fit
/// to run. That X lies below a number, by a precondition or by the condition of a branch, is what makes this condition valid.
pub fn a_sum_without_a_test_is_not_valid()
    ensures conditions { conditions_of increment_without_pre inc_without_pre ≡ overflow_without_pre ∷ range_without_pre ∷ [] }
    ensures not_valid { ¬ IsValid increment_without_pre overflow_without_pre }
    ensures unfit { ¬ Fit increment_without_pre }
{}
