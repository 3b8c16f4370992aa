// Laws that hold of some definitions and not of weaker ones: of starts, of two runs, of the limit of bits, of valid sequents and of the flow of loops. Each law is the contract of a function that does nothing.
ghost use Rattle.std.specs.Prelude.{◌≡◌, ◌↔◌, ◌⊎◌, ℕ, suc, ℤ, pos, negsuc, true, false, [], ◌∷◌, Option, None};
ghost use Rattle.spx_core.specs.declared.entity.TheConstants.{INTEGER_FIRST, INTEGER_LAST};
ghost use Rattle.spx_core.specs.declared.entity.VarId.{VarId};
ghost use Rattle.spx_core.specs.declared.name.CoreName.{CoreName};
ghost use Rattle.spx_core.specs.declared.program.Program.{Program};
ghost use Rattle.spx_core.specs.declared.subprogram.Sub.{Sub};
ghost use Rattle.spx_core.specs.Effects.{effect};
ghost use Rattle.spx_core.specs.Marks.{Lambda, Mu};
ghost use Rattle.spx_term.specs.declared.term.Term.TheVariants as term;
ghost use Rattle.spx_term.specs.declared.value.Value.{Value};
ghost use Rattle.spx_term.specs.declared.value.Value.TheVariants as value;
ghost use Rattle.spx_term.specs.Meaning.{Valid};
ghost use Rattle.spx_examples.specs.Types.{no_composites};
ghost use Rattle.spx_meaning.specs.declared.bad.BadKind.TheVariants.{Overflow, Pre, Unset};
ghost use Rattle.spx_meaning.specs.Bits.{is_too_large};
ghost use Rattle.spx_meaning.specs.Frames.{Frame, around};
ghost use Rattle.spx_meaning.specs.Laws.{AreDerived, OthersAreKept, Start, TwoRuns};
ghost use Rattle.spx_meaning.specs.Limits.{call_passes, passes};
ghost use Rattle.spx_meaning.specs.Runs.{Bad, Ended, Later, call};
ghost use Rattle.spx_meaning.specs.Stores.{Store};
ghost use Rattle.spx_examples.specs.Assertions.{program_of};
ghost use Rattle.spx_examples.specs.Flag.{y};
ghost use Rattle.spx_examples.specs.Increment.{place, x, inc, increment};
ghost use Rattle.spx_examples.specs.Loops.{passing_on, passing_turn_by_turn, runs_from};
ghost use Rattle.spx_examples.specs.Refused.{inc_without_pre};
ghost use Rattle.spx_examples.specs.Sequents.{x_at_most};
ghost use Rattle.spx_examples.specs.VariableRules.{z};
ghost use Rattle.spx_examples.specs.Variants.{number};
ghost use Rattle.spx_examples.specs.Weakenings.{x_of, power, product, negated_power, quotient, positive_power_at, guarded_power, power_in_natural, up_to_power, below_limit, Computes, IsTooLarge, wanting_power, promising_power, checking_power, checking_twice, turns_with_power, unset_power, unset_and_power, unset_program, endless_then_power, arm_with_power, case_with_power, converted_power, exit_before_power, power_before_exit, exit_then_power, whole_type_passes, passes_from, each_passes, PassesLimit, KeepsLimit, EndsFrom, with_other, reaching, y_at, z_at, all_of, FormalsAreKept, from_nothing, AreDerivedAtOneBound, ValidInBits, x_at_least, up_to_greatest, from_least, past_greatest, passing_without_end, passing_parameter, passing_up_to_x};

use spx_meaning::laws::calls_are_settled;

/// `Inc` may be called where X lies below 0, down to the first value of its type, and its call ends in the next value.
pub fn a_call_may_start_below_zero()
    ensures start { Start increment inc (x_of (negsuc 4)) }
    ensures ended { (n : ℕ) → call increment n inc (x_of (negsuc 4)) ≡ Ended (x_of (negsuc 3)) }
    ensures first { Start increment inc (x_of INTEGER_FIRST) }
    ensures after_first { (n : ℕ) → call increment n inc (x_of INTEGER_FIRST) ≡ Ended (x_of (negsuc 2147483646)) }
{}

/// In a program of two procedures the call of one keeps the formal Y and the local Z of the other, whatever they hold, or that they are unset.
pub fn what_belongs_to_another_procedure_is_kept()
    ensures { (n : ℕ) (v w : Option Value) → call (with_other inc_without_pre) n inc_without_pre (all_of (number (pos 41)) v w) ≡ Ended (all_of (number (pos 42)) v w) }
{}

/// A body that sets Y, or Z, keeps each formal that it does not export, since it has none. And yet not all is kept that is neither an export nor declared in
/// the body, so that what `TwoRuns` says fails.
pub fn not_only_formals_are_kept()
    ensures changes_y { (n : ℕ) (v w : Option Value) → call (with_other (reaching (y_at 6 4))) n (reaching (y_at 6 4)) (all_of (number (pos 41)) v w) ≡ Ended (all_of (number (pos 41)) (number (pos 41)) w) }
    ensures changes_z { (n : ℕ) (v w : Option Value) → call (with_other (reaching (z_at 6 4))) n (reaching (z_at 6 4)) (all_of (number (pos 41)) v w) ≡ Ended (all_of (number (pos 41)) v (number (pos 41))) }
    ensures formals { (name : CoreName) → FormalsAreKept (with_other (reaching name)) (reaching name) }
    ensures not_y { ¬ OthersAreKept (with_other (reaching (y_at 6 4))) (reaching (y_at 6 4)) }
    ensures not_z { ¬ OthersAreKept (with_other (reaching (z_at 6 4))) (reaching (z_at 6 4)) }
    ensures fails { ¬ TwoRuns (with_other (reaching (y_at 6 4))) }
{}

/// `while X < 100 loop X := X + 1; end loop` ends from 98 at the bound 2, and not at 1, and from 101 at the bound 0. These ends are compared: X is not derived
/// from nothing.
pub fn calls_of_different_bounds_are_compared()
    ensures later { call (program_of from_nothing) 1 from_nothing (x_of (pos 98)) ≡ Later }
    ensures two { call (program_of from_nothing) 2 from_nothing (x_of (pos 98)) ≡ Ended (x_of (pos 100)) }
    ensures none { call (program_of from_nothing) 0 from_nothing (x_of (pos 101)) ≡ Ended (x_of (pos 101)) }
    ensures not_derived { ¬ AreDerived (program_of from_nothing) from_nothing }
{}

/// To compare calls at one bound, any one, is as much as to compare them at two: what has ended has ended at each greater bound, and in the same store.
pub fn one_bound_is_as_much_as_two()
    ensures { (p : Program) (sub : Sub) → AreDerivedAtOneBound p sub → AreDerived p sub }
{
    calls_are_settled();
}

/// 128 bits hold 2 ** 126 and -2 ** 127, and not 2 ** 127, be it a power, a product of numbers that they hold, or minus such a number.
pub fn a_result_may_be_too_large()
    ensures power_fits { Computes (pos 2) (power (pos 126)) (value.Number (pos 85070591730234615865843651857942052864)) }
    ensures least_fits { Computes (negsuc 1) (power (pos 127)) (value.Number (negsuc 170141183460469231731687303715884105727)) }
    ensures product_fits { Computes (negsuc 1) product (value.Number (negsuc 170141183460469231731687303715884105727)) }
    ensures power { IsTooLarge (pos 2) (power (pos 127)) }
    ensures product { IsTooLarge (pos 2) product }
    ensures negation { IsTooLarge (negsuc 1) negated_power }
{}

/// Where an operand is 2 ** 127 the annotation is too large, though its own value is minus that, half of it, or a truth value. The right operand of `and then`
/// is not passed over where the left one is false, nor is the upper bound where the value lies below the lower one. From 1 the annotation with `and then` has its value.
pub fn an_operand_may_be_too_large()
    ensures negated { IsTooLarge (pos 2) negated_power }
    ensures converted { IsTooLarge (pos 2) converted_power }
    ensures divided { IsTooLarge (pos 2) quotient }
    ensures compared { IsTooLarge (pos 2) (positive_power_at 3 9) }
    ensures passed_over { IsTooLarge (pos 2) guarded_power }
    ensures tested { IsTooLarge (pos 2) power_in_natural }
    ensures bound { IsTooLarge (pos 2) up_to_power }
    ensures small { Computes (pos 1) guarded_power (value.Truth false) }
{}

/// A number that is only written may be 2 ** 127.
pub fn what_is_written_is_not_too_large()
    ensures { Computes (pos 2) below_limit (value.Truth true) }
{}

/// A run passes the limit at a precondition that computes 2 ** 127. Where 128 bits hold its numbers the run does not, be the precondition true or false.
pub fn a_precondition_may_pass_the_limit()
    ensures passes { PassesLimit wanting_power (pos 2) }
    ensures keeps { KeepsLimit wanting_power (pos 1) }
    ensures keeps_below { KeepsLimit wanting_power (negsuc 1) }
    ensures fails_below { EndsFrom wanting_power (negsuc 1) (Bad Pre (place 3 5)) }
{}

/// It passes the limit at a postcondition, with the values at the end of the body.
pub fn a_postcondition_may_pass_the_limit()
    ensures passes { PassesLimit promising_power (pos 1) }
    ensures keeps { KeepsLimit promising_power (pos 0) }
{}

/// Where an export is left unset the run does not come to the postcondition, in which X counts as the first value of its type, and is too large.
pub fn an_unset_export_comes_before_the_limit()
    ensures keeps { (n : ℕ) (v : Option Value) → call_passes unset_program n unset_and_power (v ∷ []) ≡ false }
    ensures fails { (n : ℕ) (v : Option Value) → call unset_program n unset_and_power (v ∷ []) ≡ Bad Unset (place 7 1) }
    ensures large { is_too_large (around unset_program unset_and_power (None ∷ [])) (None ∷ []) unset_power ≡ true }
{}

/// It passes the limit at a check, with the values there. Where a statement before fails, the run does not come to the check.
pub fn a_check_may_pass_the_limit()
    ensures passes { PassesLimit checking_power (pos 1) }
    ensures keeps { KeepsLimit checking_power (pos 0) }
    ensures keeps_last { KeepsLimit checking_power INTEGER_LAST }
    ensures fails_last { EndsFrom checking_power INTEGER_LAST (Bad Overflow (place 6 11)) }
{}

/// It passes the limit at the second of two checks where the first one holds, and not where that fails.
pub fn a_check_that_fails_ends_the_run()
    ensures keeps { KeepsLimit checking_twice (pos 2) }
    ensures passes { PassesLimit checking_twice (pos 3) }
{}

/// `while X < 100 loop check X ** 127 > 0; X := X + 1; end loop` from 1 passes the limit in its second turn, so at the bound 2. At 1 it is later, and has not.
pub fn a_turn_may_pass_the_limit()
    ensures keeps { passes_from 1 (pos 1) turns_with_power ≡ false }
    ensures later { runs_from 1 (pos 1) turns_with_power ≡ Later }
    ensures passes { passes_from 2 (pos 1) turns_with_power ≡ true }
{}

/// `for I in Positive range 1 .. 2 loop check I ** 127 > 0; end loop` passes the limit in its second turn, so at the bound 2 and not at 1. Over `1 .. 1` and over
/// `2 .. 1` it does not, nor over `0 .. 2`, where the bounds fail. Over the whole type it does in its second turn, too.
pub fn a_turn_with_its_value_may_pass_the_limit()
    ensures passes { each_passes 2 (pos 1) (pos 2) ≡ true }
    ensures first { each_passes 1 (pos 1) (pos 2) ≡ false }
    ensures one { (n : ℕ) → each_passes n (pos 1) (pos 1) ≡ false }
    ensures none { (n : ℕ) → each_passes n (pos 2) (pos 1) ≡ false }
    ensures bad { (n : ℕ) → each_passes n (pos 0) (pos 2) ≡ false }
    ensures whole { whole_type_passes 2 ≡ true }
    ensures whole_first { whole_type_passes 1 ≡ false }
{}

/// `if X < 100 then check X ** 127 > 0; end if` passes the limit from 2. From 100 the check is passed over.
pub fn an_arm_may_pass_the_limit()
    ensures passes { (f : Frame) (n : ℕ) → passes f n (x_of (pos 2)) arm_with_power ≡ true }
    ensures keeps { (f : Frame) (n : ℕ) → passes f n (x_of (pos 100)) arm_with_power ≡ false }
{}

/// A `case` passes the limit at a check in the alternative of its value, and in that of `others`, and at none in another.
pub fn an_alternative_may_pass_the_limit()
    ensures passes { (f : Frame) (n : ℕ) → passes f n (x_of (pos 2)) case_with_power ≡ true }
    ensures keeps { (f : Frame) (n : ℕ) → passes f n (x_of (pos 3)) case_with_power ≡ false }
    ensures others { (f : Frame) (n : ℕ) → passes f n (x_of (pos 4)) case_with_power ≡ true }
{}

/// In `loop exit; check X ** 127 > 0; end loop` the check is never looked at. One before the exit is, and one after the loop.
pub fn an_exit_goes_past_a_check()
    ensures keeps { (f : Frame) (n : ℕ) (s : Store) → passes f n s exit_before_power ≡ false }
    ensures before { (f : Frame) (n : ℕ) → passes f (suc n) (x_of (pos 2)) power_before_exit ≡ true }
    ensures after { (f : Frame) (n : ℕ) → passes f (suc n) (x_of (pos 2)) exit_then_power ≡ true }
{}

/// A check after a loop without end is never looked at.
pub fn nothing_passes_the_limit_after_a_loop_without_end()
    ensures { (f : Frame) (n : ℕ) (s : Store) → passes f n s endless_then_power ≡ false }
{}

/// `X <= 2 ** 127 - 1` and `X >= -2 ** 127` are true of each number that 128 bits hold, and `X >= 2 ** 127` of none. Yet neither bound is valid, and
/// `X >= 2 ** 127` is no contradiction: validity asks for the numbers past 128 bits too. No bound of X is valid, however great.
pub fn numbers_past_128_bits_count()
    ensures most_in_bits { ValidInBits [] up_to_greatest }
    ensures least_in_bits { ValidInBits [] from_least }
    ensures none_in_bits { ValidInBits (past_greatest ∷ []) (term.Truth false) }
    ensures most { ¬ Valid no_composites [] up_to_greatest }
    ensures least { ¬ Valid no_composites [] from_least }
    ensures some { ¬ Valid no_composites (past_greatest ∷ []) (term.Truth false) }
    ensures no_most { (n : ℤ) → ¬ Valid no_composites [] (x_at_most n) }
    ensures no_least { (n : ℤ) → ¬ Valid no_composites [] (x_at_least n) }
{}

/// `X := Y; Y := Z`: to the first statement comes Y alone. Where these are the body of a loop, Z comes to it too, by a further turn, and nothing else does.
pub fn a_further_turn_comes_to_an_occurrence()
    ensures once { (v : VarId) → Lambda (effect passing_on) v (place 6 7) ↔ (v ≡ y) }
    ensures by_turns { (v : VarId) → Lambda (effect passing_turn_by_turn) v (place 6 7) ↔ ((v ≡ y) ⊎ (v ≡ z)) }
    ensures without_end { (v : VarId) → Lambda (effect passing_without_end) v (place 6 7) ↔ ((v ≡ y) ⊎ (v ≡ z)) }
{}

/// `X := Y; Y := I`: to the first statement comes Y alone. Where these are the body of `for I in Positive range 1 .. X`, what X holds before the loop comes to
/// it too, by way of I and a further turn, and nothing else does.
pub fn a_further_turn_brings_what_bounds_read()
    ensures once { (v : VarId) → Lambda (effect passing_parameter) v (place 6 7) ↔ (v ≡ y) }
    ensures by_turns { (v : VarId) → Lambda (effect passing_up_to_x) v (place 6 7) ↔ ((v ≡ y) ⊎ (v ≡ x)) }
{}

/// In `X := Y; Y := Z`, and in `X := Y; Y := I`, the value of the second statement comes to Y alone. Where these are the body of a loop it comes to X too, by a
/// further turn.
pub fn a_further_turn_leads_on_from_an_occurrence()
    ensures once { (v : VarId) → Mu (effect passing_on) (place 7 7) v ↔ (v ≡ y) }
    ensures by_turns { Mu (effect passing_turn_by_turn) (place 7 7) x }
    ensures without_end { Mu (effect passing_without_end) (place 7 7) x }
    ensures counted_once { (v : VarId) → Mu (effect passing_parameter) (place 7 7) v ↔ (v ≡ y) }
    ensures by_count { Mu (effect passing_up_to_x) (place 7 7) x }
{}
