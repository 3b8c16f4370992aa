// What holds of procedures with a branch, each as the contract of a function that does nothing.
ghost use Rattle.std.specs.Prelude.{◌≡◌, ◌↔◌, ◌⊎◌, ℕ, pos, List, [], ◌∷◌, Some};
ghost use Rattle.spx_text.specs.declared.place.Place.{Place};
ghost use Rattle.spx_tree.specs.declared.statement.Closing.{Closing};
ghost use Rattle.spx_core.specs.declared.entity.VarId.{VarId};
ghost use Rattle.spx_core.specs.declared.expression.CoreExpr.{CoreExpr};
ghost use Rattle.spx_core.specs.declared.statement.CoreStmt.{CoreStmt};
ghost use Rattle.spx_core.specs.declared.statement.CoreStmt.TheVariants.{If};
ghost use Rattle.spx_core.specs.Commands.{Skip, Then, Choose, commands};
ghost use Rattle.spx_core.specs.Flow.{MayFlow};
ghost use Rattle.spx_core.specs.FlowRules.{MayBeUnset, body_effect, mark};
ghost use Rattle.spx_core.specs.Marks.{marked};
ghost use Rattle.spx_core.specs.Ways.{Goes};
ghost use Rattle.spx_core.specs.Obeyed.{Obeys};
ghost use Rattle.spx_core.specs.Statements.{Typed};
ghost use Rattle.spx_term.specs.declared.value.Value.{Value};
ghost use Rattle.spx_term.specs.declared.value.Value.TheVariants as value;
ghost use Rattle.spx_meaning.specs.declared.bad.BadKind.TheVariants.{Unset};
ghost use Rattle.spx_meaning.specs.Laws.{NeverBad};
ghost use Rattle.spx_meaning.specs.Runs.{Bad, Ended, call};
ghost use Rattle.spx_paths.specs.Conditions.{conditions_of, paths};
ghost use Rattle.spx_paths.specs.Fit.{Clean, Fit};
ghost use Rattle.spx_examples.specs.Branches.{arm};
ghost use Rattle.spx_examples.specs.Increment.{place, x};
ghost use Rattle.spx_examples.specs.Flag.{y, flag, flag_program, flag_effect};
ghost use Rattle.spx_examples.specs.Next.{next_sub, next_program, next_effect, path_through_arm, path_past_arm, next_conditions};
ghost use Rattle.spx_examples.specs.Refused.{x_is_last};

use spx_core::laws::{
    initial_values_fit, names_are_scoped, resolution, rules_hold, types_are_made, types_have_values,
};

/// `elsif` is an `if` in the `else` before it.
pub fn elsif_is_nested()
    ensures { (p q : Place) (first second : CoreExpr) (a b c : List CoreStmt) (closing : Closing) →
        commands (If (arm p first a ∷ arm q second b ∷ []) (Some c) closing ∷ [])
        ≡ Then (Choose p first (commands a) (Choose q second (commands b) (commands c))) Skip }
{}

/// One path goes through its arm and one past it; the first asks for two conditions, the second for none.
pub fn next_has_two_paths()
    ensures paths { paths next_program next_sub ≡ path_through_arm ∷ path_past_arm ∷ [] }
    ensures conditions { conditions_of next_program next_sub ≡ next_conditions }
{}

/// Its body reads X to choose an arm: a mark on the condition comes to X. One way sets X and one sets nothing.
pub fn next_flows()
    ensures body { body_effect next_sub ≡ next_effect }
    ensures mark_arrives { MayFlow (marked (place 5 4) (mark next_program) (body_effect next_sub)) (mark next_program) x }
    ensures two_ways { (way : List VarId) → Goes (body_effect next_sub) way ↔ ((way ≡ x ∷ []) ⊎ (way ≡ [])) }
{}

/// A call from 41 goes through the arm, and a call from 100, or from the last value, past it.
pub fn next_runs()
    ensures through_arm { (n : ℕ) → call next_program n next_sub (Some (value.Number (pos 41)) ∷ []) ≡ Ended (Some (value.Number (pos 42)) ∷ []) }
    ensures past_arm { (n : ℕ) → call next_program n next_sub (Some (value.Number (pos 100)) ∷ []) ≡ Ended (Some (value.Number (pos 100)) ∷ []) }
    ensures from_last { (n : ℕ) → call next_program n next_sub x_is_last ≡ Ended x_is_last }
{}

/// It meets the premises of the laws with no precondition: what its condition says is known in its arm.
pub fn next_is_clean()
    ensures { Clean next_program }
{
    resolution();
}

/// So no call of it is bad.
pub fn next_is_never_bad()
    ensures fit { Fit next_program }
    ensures never_bad { NeverBad next_program }
{
    next_is_clean();
    names_are_scoped();
    initial_values_fit();
    types_have_values();
    types_are_made();
    rules_hold();
}

/// A procedure that sets its export on one arm only breaks no static rule. It may leave the export unset, by the way past the arm, and
/// a call that goes this way is bad at the end.
pub fn one_arm_is_not_enough()
    ensures typed { Typed flag_program }
    ensures obeys { Obeys flag_program }
    ensures body { body_effect flag ≡ flag_effect }
    ensures may_be_unset { MayBeUnset flag_program flag flag.end y }
    ensures through_arm { (n : ℕ) (v : Value) → call flag_program n flag (Some (value.Number (pos 1)) ∷ Some v ∷ []) ≡ Ended (Some (value.Number (pos 1)) ∷ Some (value.Number (pos 1)) ∷ []) }
    ensures past_arm { (n : ℕ) (v : Value) → call flag_program n flag (Some (value.Number (pos 0)) ∷ Some v ∷ []) ≡ Bad Unset flag.end }
{}
