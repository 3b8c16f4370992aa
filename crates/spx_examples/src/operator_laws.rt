// What each operator does, each law as the contract of a function that does nothing. `OfTwo op m n answer` says that `A op B` gives this answer
// where A is m and B is n; the operator stands at column 3 and B at column 12.
#![tactic(auto, using(crate::proofs::Operators::eval_two, crate::proofs::Operators::eval_one), unfolding(spx_term::specs::Meaning::value_of_op, spx_term::specs::Meaning::value_of_prefix))]

ghost use Rattle.std.specs.Prelude.{◌≡◌, pos, Bool, true, false, not, ◌&&◌, ◌||◌, [], ◌∷◌, Some, Ok, Err, if◌then◌else◌};
ghost use Rattle.spx_tree.specs.declared.expression.InfixOp.TheVariants as op;
ghost use Rattle.spx_tree.specs.declared.expression.PrefixOp.TheVariants as prefix;
ghost use Rattle.spx_tree.specs.declared.expression.MemberOp.TheVariants as member;
ghost use Rattle.spx_core.specs.declared.entity.TheConstants.{BOOLEAN, INTEGER, INTEGER_FIRST, INTEGER_LAST, NATURAL};
ghost use Rattle.spx_core.specs.declared.entity.VarId.{VarId};
ghost use Rattle.spx_core.specs.declared.expression.CoreExpr.TheVariants as expr;
ghost use Rattle.spx_core.specs.declared.program.Program.{Program};
ghost use Rattle.spx_core.specs.declared.rule.ExprType.TheVariants.{Universal, Of};
ghost use Rattle.spx_core.specs.declared.rule.RuleName.TheVariants.{N10, N12};
ghost use Rattle.spx_core.specs.Judged.{judged, typing};
ghost use Rattle.spx_term.specs.declared.condition.CondKind.TheVariants as kind;
ghost use Rattle.spx_term.specs.declared.term.Term.{Term};
ghost use Rattle.spx_term.specs.declared.term.Term.TheVariants as term;
ghost use Rattle.spx_term.specs.declared.term.TermOp.TheVariants as sign;
ghost use Rattle.spx_term.specs.declared.term.TermPrefix.TheVariants.{Abs, Not};
ghost use Rattle.spx_term.specs.Goals.{goal_of};
ghost use Rattle.spx_term.specs.Steps.{Tree, check};
ghost use Rattle.spx_meaning.specs.declared.bad.BadKind.TheVariants.{Division, Overflow, Range, Unset};
ghost use Rattle.spx_meaning.specs.Evaluation.{Gives, Fails};
ghost use Rattle.spx_meaning.specs.Stores.{Store};
ghost use Rattle.spx_paths.specs.Checks.{checks, in_type};
ghost use Rattle.spx_formula.specs.Terms.{now_term, term_of};
ghost use Rattle.spx_examples.specs.Increment.{place};
ghost use Rattle.spx_examples.specs.Operators.{minus, a, b, true_at, two, one, in_natural, in_numbers, static, guarded, number, truth, values, only_a, Answers, OfTwo, OfOne, HasTable, Means};

/// `/` leaves out the fraction, and so goes toward zero and not down; `rem` has the sign of its left operand, and `mod` that of its right one.
pub fn a_quotient_goes_toward_zero()
    ensures product { OfTwo op.Multiply (minus 7) (pos 6) (Gives (number (minus 42))) }
    ensures quotient { OfTwo op.Divide (minus 7) (pos 2) (Gives (number (minus 3))) }
    ensures remainder { OfTwo op.Rem (minus 7) (pos 2) (Gives (number (minus 1))) }
    ensures remainder_by_negative { OfTwo op.Rem (pos 7) (minus 2) (Gives (number (pos 1))) }
    ensures modulus { OfTwo op.Mod (minus 7) (pos 2) (Gives (number (pos 1))) }
    ensures modulus_by_negative { OfTwo op.Mod (pos 7) (minus 2) (Gives (number (minus 1))) }
{}

/// A division by 0 fails at its operator.
pub fn a_division_by_zero_fails()
    ensures quotient { OfTwo op.Divide (pos 7) (pos 0) (Fails Division (place 1 3)) }
    ensures remainder { OfTwo op.Rem (pos 7) (pos 0) (Fails Division (place 1 3)) }
    ensures modulus { OfTwo op.Mod (pos 7) (pos 0) (Fails Division (place 1 3)) }
{}

/// A power with the exponent 0 is 1, also that of 0. A negative exponent fails at the exponent.
pub fn an_exponent_is_not_negative()
    ensures zero { OfTwo op.Power (pos 2) (pos 0) (Gives (number (pos 1))) }
    ensures of_zero { OfTwo op.Power (pos 0) (pos 0) (Gives (number (pos 1))) }
    ensures odd { OfTwo op.Power (minus 2) (pos 3) (Gives (number (minus 8))) }
    ensures negative { OfTwo op.Power (pos 2) (minus 1) (Fails Range (place 1 12)) }
{}

/// The result of an operation lies in the base range, or the operation fails at its operator. The base range of `Natural` is that of `Integer`.
/// What `rem` and `mod` give always lies there.
pub fn a_result_may_overflow()
    ensures product { OfTwo op.Multiply (pos 65536) (pos 32768) (Fails Overflow (place 1 3)) }
    ensures quotient { OfTwo op.Divide INTEGER_FIRST (minus 1) (Fails Overflow (place 1 3)) }
    ensures remainder { OfTwo op.Rem INTEGER_FIRST (minus 1) (Gives (number (pos 0))) }
    ensures modulus { OfTwo op.Mod INTEGER_FIRST (minus 1) (Gives (number (pos 0))) }
    ensures power { OfTwo op.Power (pos 2) (pos 31) (Fails Overflow (place 1 3)) }
    ensures negative_power { OfTwo op.Power (minus 2) (pos 31) (Gives (number INTEGER_FIRST)) }
    ensures difference { Answers (two op.Subtract NATURAL) (values (number (pos 0)) (number (pos 1))) (Gives (number (minus 1))) }
    ensures absolute { OfOne prefix.Abs INTEGER_FIRST (Fails Overflow (place 1 3)) }
    ensures absolute_of_last { OfOne prefix.Abs (minus 2147483647) (Gives (number INTEGER_LAST)) }
{}

/// What the operators on truth values give. `=` and `/=` compare truth values too.
pub fn operators_on_truth_values_have_tables()
    ensures and { HasTable op.And ◌&&◌ }
    ensures or { HasTable op.Or ◌||◌ }
    ensures xor { HasTable op.Xor (λ p q. if p then not q else q) }
    ensures and_then { HasTable op.AndThen ◌&&◌ }
    ensures or_else { HasTable op.OrElse ◌||◌ }
    ensures implies { HasTable op.Implies (λ p q. not p || q) }
    ensures equivalent { HasTable op.Equivalent (λ p q. if p then q else not q) }
    ensures equal { HasTable op.Equal (λ p q. if p then q else not q) }
    ensures not_equal { HasTable op.NotEqual (λ p q. if p then not q else q) }
    ensures no { (p : Bool) → Answers (one prefix.Not BOOLEAN) (values (truth false) (truth p)) (Gives (truth (not p))) }
{}

/// `True` is static, and stands for its value.
#[tactic(auto, using(crate::proofs::Operators::judged_true, crate::proofs::Operators::eval_true, crate::proofs::Operators::term_of_true))]
pub fn a_literal_stands_for_its_value()
    ensures typing { judged (expr.Name (true_at 1 1)) ≡ Ok (typing (Of BOOLEAN.base) (Some (pos 1)) (place 1 1)) }
    ensures value { (s : Store) → Answers (expr.Name (true_at 1 1)) s (Gives (truth true)) }
    ensures term { (p : Program) (entered : VarId → Term) → term_of p entered (expr.Name (true_at 1 1)) ≡ term.Truth true }
{}

/// `and then` and `or else` evaluate their right operand only where the left one does not decide; `and` and `or` always do. So `B /= 0 and then
/// A / B > 1` is false where B is 0, and with `and` the division fails.
#[tactic(auto, using(crate::proofs::Operators::eval_two, crate::proofs::Operators::eval_guarded), unfolding(spx_term::specs::Meaning::value_of_op))]
pub fn a_left_operand_may_decide()
    ensures and_then { Answers (two op.AndThen BOOLEAN) (only_a (truth false)) (Gives (truth false)) }
    ensures and_then_goes_on { Answers (two op.AndThen BOOLEAN) (only_a (truth true)) (Fails Unset (place 1 12)) }
    ensures and { Answers (two op.And BOOLEAN) (only_a (truth false)) (Fails Unset (place 1 12)) }
    ensures or_else { Answers (two op.OrElse BOOLEAN) (only_a (truth true)) (Gives (truth true)) }
    ensures or_else_goes_on { Answers (two op.OrElse BOOLEAN) (only_a (truth false)) (Fails Unset (place 1 12)) }
    ensures or { Answers (two op.Or BOOLEAN) (only_a (truth true)) (Fails Unset (place 1 12)) }
    ensures guarded_division { Answers (guarded op.AndThen) (values (number (pos 7)) (number (pos 0))) (Gives (truth false)) }
    ensures division { Answers (guarded op.And) (values (number (pos 7)) (number (pos 0))) (Fails Division (place 1 19)) }
{}

/// A membership test is true at both ends of the type or range; no value is in a range whose ends are in the wrong order.
#[tactic(auto, using(crate::proofs::Operators::eval_in_natural, crate::proofs::Operators::eval_in_numbers), unfolding(spx_term::specs::Meaning::value_of_op, spx_term::specs::Meaning::value_of_prefix))]
pub fn both_ends_are_members()
    ensures first { Answers (in_natural member.In) (only_a (number (pos 0))) (Gives (truth true)) }
    ensures before_first { Answers (in_natural member.In) (only_a (number (minus 1))) (Gives (truth false)) }
    ensures not_in { Answers (in_natural (member.NotIn (place 1 7))) (only_a (number (minus 1))) (Gives (truth true)) }
    ensures low { Answers (in_numbers member.In (pos 3) (pos 5)) (only_a (number (pos 3))) (Gives (truth true)) }
    ensures high { Answers (in_numbers member.In (pos 3) (pos 5)) (only_a (number (pos 5))) (Gives (truth true)) }
    ensures after_high { Answers (in_numbers member.In (pos 3) (pos 5)) (only_a (number (pos 6))) (Gives (truth false)) }
    ensures empty { Answers (in_numbers member.In (pos 5) (pos 3)) (only_a (number (pos 4))) (Gives (truth false)) }
    ensures not_in_empty { Answers (in_numbers (member.NotIn (place 1 7)) (pos 5) (pos 3)) (only_a (number (pos 4))) (Gives (truth true)) }
{}

/// In an annotation each operation has a value, of any size: a division by 0 gives 0, and so does a negative exponent.
pub fn an_annotation_has_a_value()
    ensures quotient { Means op.Divide (pos 7) (pos 0) (number (pos 0)) }
    ensures remainder { Means op.Rem (pos 7) (pos 0) (number (pos 0)) }
    ensures modulus { Means op.Mod (pos 7) (pos 0) (number (pos 0)) }
    ensures negative { Means op.Power (pos 2) (minus 1) (number (pos 0)) }
    ensures power { Means op.Power (pos 2) (pos 31) (number (pos 2147483648)) }
    ensures past_last { Means op.Divide INTEGER_FIRST (minus 1) (number (pos 2147483648)) }
{}

/// An operation on numbers is static, and has its exact value. Rule N12 refuses one without a value, and one whose value 128 bits do not hold.
#[tactic(auto, using(crate::proofs::Operators::judged_static), unfolding(spx_num::specs::Widths::fits))]
pub fn an_operation_on_numbers_is_static()
    ensures quotient { judged (static op.Divide (pos 7) (pos 2)) ≡ Ok (typing Universal (Some (pos 3)) (place 1 3)) }
    ensures power { judged (static op.Power (pos 2) (pos 40)) ≡ Ok (typing Universal (Some (pos 1099511627776)) (place 1 3)) }
    ensures by_zero { judged (static op.Divide (pos 7) (pos 0)) ≡ Err (record { rule = N12; place = place 1 3 }) }
    ensures past_128_bits { judged (static op.Power (pos 2) (pos 127)) ≡ Err (record { rule = N12; place = place 1 3 }) }
    ensures no_truth_values { judged (static op.And (pos 1) (pos 1)) ≡ Err (record { rule = N10; place = place 1 3 }) }
{}

/// The terms of operations: `xor` is `/=`, a short-circuit form is the operation of its first word, and a membership test is two comparisons.
#[tactic(auto, using(crate::proofs::Operators::term_of_two, crate::proofs::Operators::term_of_one, crate::proofs::Operators::term_of_in_natural))]
pub fn operations_have_terms()
    ensures quotient { (p : Program) (entered : VarId → Term) → term_of p entered (two op.Divide INTEGER) ≡ term.Infix sign.Divide (now_term p a) (now_term p b) }
    ensures power { (p : Program) (entered : VarId → Term) → term_of p entered (two op.Power INTEGER) ≡ term.Infix sign.Power (now_term p a) (now_term p b) }
    ensures xor { (p : Program) (entered : VarId → Term) → term_of p entered (two op.Xor BOOLEAN) ≡ term.Infix sign.NotEqual (now_term p a) (now_term p b) }
    ensures and_then { (p : Program) (entered : VarId → Term) → term_of p entered (two op.AndThen BOOLEAN) ≡ term.Infix sign.And (now_term p a) (now_term p b) }
    ensures implies { (p : Program) (entered : VarId → Term) → term_of p entered (two op.Implies BOOLEAN) ≡ term.Infix sign.Implies (now_term p a) (now_term p b) }
    ensures equivalent { (p : Program) (entered : VarId → Term) → term_of p entered (two op.Equivalent BOOLEAN) ≡ term.Infix sign.Equivalent (now_term p a) (now_term p b) }
    ensures absolute { (p : Program) (entered : VarId → Term) → term_of p entered (one prefix.Abs INTEGER) ≡ term.Prefix Abs (now_term p b) }
    ensures not_in { (p : Program) (entered : VarId → Term) → term_of p entered (in_natural (member.NotIn (place 1 7))) ≡ term.Prefix Not (term.Infix sign.And (term.Infix sign.GreaterOrEqual (now_term p a) (term.Number (pos 0))) (term.Infix sign.LessOrEqual (now_term p a) (term.Number INTEGER_LAST))) }
{}

/// What operations ask to be shown, in order: that the divisor is not 0, or the exponent not negative, and that the result lies in the base range.
/// In the right operand of `and then` a check is asked for only where the left one is true.
#[tactic(auto, using(crate::proofs::Operators::checks_two, crate::proofs::Operators::checks_guarded))]
pub fn operations_have_checks()
    ensures quotient { (p : Program) (entered : VarId → Term) (rest : Tree) → checks p entered [] (two op.Divide INTEGER) rest
        ≡ check kind.Division (place 1 3) (term.Infix sign.NotEqual (now_term p b) (term.Number (pos 0)) ∷ [])
        (check kind.Overflow (place 1 3) (in_type INTEGER (term.Infix sign.Divide (now_term p a) (now_term p b))) rest) }
    ensures modulus { (p : Program) (entered : VarId → Term) (rest : Tree) → checks p entered [] (two op.Mod INTEGER) rest
        ≡ check kind.Division (place 1 3) (term.Infix sign.NotEqual (now_term p b) (term.Number (pos 0)) ∷ []) rest }
    ensures power { (p : Program) (entered : VarId → Term) (rest : Tree) → checks p entered [] (two op.Power INTEGER) rest
        ≡ check kind.Range (place 1 12) (term.Infix sign.GreaterOrEqual (now_term p b) (term.Number (pos 0)) ∷ [])
        (check kind.Overflow (place 1 3) (in_type INTEGER (term.Infix sign.Power (now_term p a) (now_term p b))) rest) }
    ensures guarded_division { (p : Program) (entered : VarId → Term) (rest : Tree) → checks p entered [] (guarded op.AndThen) rest
        ≡ (let left = term.Infix sign.NotEqual (now_term p b) (term.Number (pos 0)) in
        let quotient = term.Infix sign.Divide (now_term p a) (now_term p b) in
        check kind.Division (place 1 19) (term.Infix sign.Implies left left ∷ [])
        (check kind.Overflow (place 1 19) (term.Infix sign.Implies left (goal_of (in_type INTEGER quotient)) ∷ []) rest)) }
{}
