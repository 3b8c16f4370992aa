// How calls begin and end, each law as the contract of a function that does nothing. Each outcome is the same at any bound n.
//
// Laws of other modules that belong here: a call of `Inc` that ends (`increment_is_clean`), one whose sum overflows
// (`a_run_without_proof_is_bad`), and one that leaves an export unset (`one_arm_is_not_enough`).
ghost use Rattle.std.specs.Prelude.{◌≡◌, ℕ, pos, negsuc, true, List, [], ◌∷◌, Option, Some, None, Err};
ghost use Rattle.spx_core.specs.declared.entity.TheConstants.{INTEGER_FIRST};
ghost use Rattle.spx_core.specs.declared.rule.Breach.{Breach};
ghost use Rattle.spx_core.specs.declared.rule.RuleName.TheVariants.{N12};
ghost use Rattle.spx_core.specs.declared.statement.CoreStmt.{CoreStmt};
ghost use Rattle.spx_core.specs.Statements.{Typed, judged_program};
ghost use Rattle.spx_term.specs.declared.value.Value.{Value};
ghost use Rattle.spx_term.specs.declared.value.Value.TheVariants as value;
ghost use Rattle.spx_meaning.specs.declared.bad.BadKind.TheVariants.{Overflow, Pre, Range, Unset};
ghost use Rattle.spx_meaning.specs.Laws.{Start};
ghost use Rattle.spx_meaning.specs.Runs.{Bad, Ended, call};
ghost use Rattle.spx_examples.specs.Increment.{place, inc, increment};
ghost use Rattle.spx_examples.specs.Refused.{x_is_last};
ghost use Rattle.spx_examples.specs.Variants.{number, local_sub, local_program, only_null, giving, the_local, negated, past_last, testing, out_sub, out_program, itself, natural_sub, natural_program};

/// `Inc` may be called where X is 41. It may not where its precondition is false, where X is unset, or where the value of X is none of
/// its type, be it a number or not. In each of these cases the other demands are met.
pub fn where_a_call_may_start()
    ensures from_41 { Start increment inc (number (pos 41) ∷ []) }
    ensures not_from_last { ¬ Start increment inc x_is_last }
    ensures not_from_unset { ¬ Start increment inc (None ∷ []) }
    ensures not_from_below_first { ¬ Start increment inc (number (negsuc 2147483648) ∷ []) }
    ensures not_from_truth { ¬ Start increment inc (Some (value.Truth true) ∷ []) }
{}

/// A precondition that is false is bad at the word `pre`, before the overflow that the body would meet.
pub fn a_false_precondition_is_bad()
    ensures { (n : ℕ) → call increment n inc x_is_last ≡ Bad Pre (place 3 5) }
{}

/// Minus the first number lies past the last one, which is bad at the sign.
pub fn a_sign_may_overflow()
    ensures from_41 { (n : ℕ) (y : Option Value) → call (local_program (giving negated)) n (local_sub (giving negated)) (number (pos 41) ∷ y ∷ []) ≡ Ended (number (negsuc 40) ∷ None ∷ []) }
    ensures from_first { (n : ℕ) (y : Option Value) → call (local_program (giving negated)) n (local_sub (giving negated)) (number INTEGER_FIRST ∷ y ∷ []) ≡ Bad Overflow (place 6 9) }
{}

/// A value that passes the overflow check and lies outside the type of its target is bad at the value: `- X` is a number of `Integer`
/// where X is 41, and none of `Natural`. So is a literal past the last number, which is static and brings no overflow check; rule N12
/// refuses it.
pub fn a_value_outside_its_type_is_bad()
    ensures typed { Typed natural_program }
    ensures inside { (n : ℕ) → call natural_program n natural_sub (number (pos 0) ∷ []) ≡ Ended (number (pos 0) ∷ []) }
    ensures outside { (n : ℕ) → call natural_program n natural_sub (number (pos 41) ∷ []) ≡ Bad Range (place 6 9) }
    ensures refused { judged_program (local_program (giving past_last)) ≡ Err (record { rule = N12; place = place 6 9 }) }
    ensures literal { (n : ℕ) (x y : Option Value) → call (local_program (giving past_last)) n (local_sub (giving past_last)) (x ∷ y ∷ []) ≡ Bad Range (place 6 9) }
{}

/// A local has no value at the start, whatever the store has for it: to read it is bad at the name.
pub fn a_local_starts_unset()
    ensures in_value { (n : ℕ) (x y : Option Value) → call (local_program (giving the_local)) n (local_sub (giving the_local)) (x ∷ y ∷ []) ≡ Bad Unset (place 6 9) }
    ensures in_condition { (n : ℕ) (x y : Option Value) → call (local_program testing) n (local_sub testing) (x ∷ y ∷ []) ≡ Bad Unset (place 6 7) }
{}

/// Nor has an `out` formal. To read it is bad at the name, to leave it unset is bad at `end`, and no call depends on what the store
/// has for it, whatever its statements are.
pub fn an_out_formal_starts_unset()
    ensures read { (n : ℕ) (x : Option Value) → call (out_program itself) n (out_sub itself) (x ∷ []) ≡ Bad Unset (place 6 9) }
    ensures left { (n : ℕ) (x : Option Value) → call (out_program only_null) n (out_sub only_null) (x ∷ []) ≡ Bad Unset (place 7 1) }
    ensures same { (n : ℕ) (statements : List CoreStmt) (x y : Option Value) →
        call (out_program statements) n (out_sub statements) (x ∷ []) ≡ call (out_program statements) n (out_sub statements) (y ∷ []) }
{}

/// `null` changes nothing: after the call an `in out` formal has the value with which the call began, and a local has none.
pub fn null_changes_nothing()
    ensures { (n : ℕ) (x : Value) (y : Option Value) → call (local_program only_null) n (local_sub only_null) (Some x ∷ y ∷ []) ≡ Ended (Some x ∷ None ∷ []) }
{}
