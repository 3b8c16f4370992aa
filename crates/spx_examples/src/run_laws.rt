// Which of two failures a call meets, and how two calls are compared, each law as the contract of a function that does nothing.
ghost use Rattle.std.specs.Prelude.{◌≡◌, ℕ, pos, List, [], ◌∷◌, Option, None};
ghost use Rattle.spx_core.specs.declared.entity.TheConstants.{INTEGER_LAST};
ghost use Rattle.spx_term.specs.declared.value.Value.{Value};
ghost use Rattle.spx_meaning.specs.declared.bad.BadKind.TheVariants.{Overflow, Pre, Unset};
ghost use Rattle.spx_meaning.specs.Laws.{AreDerived, OthersAreKept, TwoRuns};
ghost use Rattle.spx_meaning.specs.Runs.{Bad, Ended, call};
ghost use Rattle.spx_examples.specs.Increment.{place};
ghost use Rattle.spx_examples.specs.Variants.{number, local_sub, local_program, giving, local_and_sum, sum_and_local, twice, flag_with_pre, flag_with_pre_program, inc_without_derives, increment_without_derives};
ghost use Rattle.spx_examples.specs.Copy.{copy, copy_program};

/// Statements are run one after the other: the second reads the value that the first has set, and the first failure ends the run.
pub fn statements_are_run_in_order()
    ensures both { (n : ℕ) (y : Option Value) → call (local_program twice) n (local_sub twice) (number (pos 40) ∷ y ∷ []) ≡ Ended (number (pos 42) ∷ None ∷ []) }
    ensures second { (n : ℕ) (y : Option Value) → call (local_program twice) n (local_sub twice) (number (pos 2147483646) ∷ y ∷ []) ≡ Bad Overflow (place 6 23) }
    ensures first { (n : ℕ) (y : Option Value) → call (local_program twice) n (local_sub twice) (number INTEGER_LAST ∷ y ∷ []) ≡ Bad Overflow (place 6 11) }
{}

/// Operands are evaluated from left to right: where one is an unset name and one a sum that overflows, the failure is that of the left.
pub fn the_left_operand_is_met_first()
    ensures unset { (n : ℕ) (y : Option Value) → call (local_program (giving local_and_sum)) n (local_sub (giving local_and_sum)) (number INTEGER_LAST ∷ y ∷ []) ≡ Bad Unset (place 6 9) }
    ensures overflow { (n : ℕ) (y : Option Value) → call (local_program (giving sum_and_local)) n (local_sub (giving sum_and_local)) (number INTEGER_LAST ∷ y ∷ []) ≡ Bad Overflow (place 6 12) }
{}

/// A false precondition is met before an export that the body leaves unset. Without the precondition the same call is bad at the end
/// (`one_arm_is_not_enough`).
pub fn a_precondition_is_met_first()
    ensures { (n : ℕ) (y : Option Value) → call flag_with_pre_program n flag_with_pre (number (pos 0) ∷ y ∷ []) ≡ Bad Pre (place 3 5) }
{}

/// A procedure copies Z to Y, and declares that Y is derived from X. Two calls from stores that agree on X end with two values of Y,
/// so what `TwoRuns` says can fail.
pub fn a_wrong_relation_is_seen_in_two_runs()
    ensures from_1 { (n : ℕ) (y : Option Value) → call copy_program n copy (number (pos 7) ∷ y ∷ number (pos 1) ∷ []) ≡ Ended (number (pos 7) ∷ number (pos 1) ∷ number (pos 1) ∷ []) }
    ensures from_2 { (n : ℕ) (y : Option Value) → call copy_program n copy (number (pos 7) ∷ y ∷ number (pos 2) ∷ []) ≡ Ended (number (pos 7) ∷ number (pos 2) ∷ number (pos 2) ∷ []) }
    ensures not_derived { ¬ AreDerived copy_program copy }
    ensures fails { ¬ TwoRuns copy_program }
{}

/// A procedure changes X, and declares no export. X does not have its first value after the call, which is the other way in which
/// `TwoRuns` can fail.
pub fn a_change_of_no_export_is_seen()
    ensures changed { (n : ℕ) → call increment_without_derives n inc_without_derives (number (pos 0) ∷ []) ≡ Ended (number (pos 1) ∷ []) }
    ensures not_kept { ¬ OthersAreKept increment_without_derives inc_without_derives }
    ensures fails { ¬ TwoRuns increment_without_derives }
{}
