// Which type a power of numbers takes, each law as the contract of a function that does nothing. N is a variable of `Integer`, and V one of a type with a
// base range of 64 bits. `Becomes e other` says that e becomes this in every context, `power k c` is `k ** N` with k at column c of line 1, and in
// `power_of subtype k c` k is converted to the base type of that subtype.
#![tactic(auto, using(crate::proofs::Contexts::becomes), unfolding(spx_num::specs::Widths::fits))]

ghost use Rattle.std.specs.Prelude.{◌≡◌, pos, [], ◌∷◌, None, Some, Ok, Err, codes};
ghost use Rattle.spx_core.specs.declared.function.FunctionForm.TheVariants as form;
ghost use Rattle.spx_tree.specs.declared.expression.InfixOp.TheVariants as op;
ghost use Rattle.spx_tree.specs.declared.statement.AssertionKind.TheVariants as assertion;
ghost use Rattle.spx_tree.specs.declared.statement.Scheme.TheVariants as written_scheme;
ghost use Rattle.spx_tree.specs.declared.statement.Stmt.TheVariants as written_stmt;
ghost use Rattle.spx_core.specs.declared.entity.TheConstants.{BOOLEAN, INTEGER, INTEGER_FIRST, INTEGER_LAST, NATURAL, WIDEST_FIRST, WIDEST_LAST};
ghost use Rattle.spx_core.specs.declared.entity.VarId.{VarId};
ghost use Rattle.spx_core.specs.declared.program.Program.{Program};
ghost use Rattle.spx_core.specs.declared.rule.ExprType.TheVariants.{Universal, Of};
ghost use Rattle.spx_core.specs.declared.rule.RuleName.TheVariants.{N11, N12};
ghost use Rattle.spx_core.specs.declared.statement.CoreScheme.TheVariants as scheme;
ghost use Rattle.spx_core.specs.declared.statement.CoreStmt.TheVariants as stmt;
ghost use Rattle.spx_core.specs.Contexts.{in_context};
ghost use Rattle.spx_core.specs.Judged.{judged, typing};
ghost use Rattle.spx_core.specs.ResolvedStatements.{resolved_count};
ghost use Rattle.spx_term.specs.declared.condition.CondKind.TheVariants as kind;
ghost use Rattle.spx_term.specs.declared.term.Term.{Term};
ghost use Rattle.spx_term.specs.declared.term.Term.TheVariants as term;
ghost use Rattle.spx_term.specs.declared.term.TermOp.TheVariants as sign;
ghost use Rattle.spx_term.specs.Steps.{Tree, check};
ghost use Rattle.spx_meaning.specs.declared.bad.BadKind.TheVariants.{Overflow, Range};
ghost use Rattle.spx_meaning.specs.Evaluation.{Gives, Fails};
ghost use Rattle.spx_formula.specs.Terms.{now_term, term_of};
ghost use Rattle.spx_paths.specs.Checks.{checks, in_range};
ghost use Rattle.spx_examples.specs.Declarations.{breach_of, color, constant_in, name_in, named_number_in, narrowed_in, number_in, operation_in, type_in};
ghost use Rattle.spx_examples.specs.Increment.{place, word};
ghost use Rattle.spx_examples.specs.NameRules.{breach};
ghost use Rattle.spx_examples.specs.Names.{target_to};
ghost use Rattle.spx_examples.specs.Operators.{Answers, a, minus, number, only_a};
ghost use Rattle.spx_examples.specs.Powers.{Becomes, ComparedAsInteger, Resolves, Stays, big, c_named, closing, constant_at, converted_at, count_written, function_of, in_range_at, in_type_named, minus_at, n_at, n_named, name_written, number_at, operation_at, parenthesized_at, past_integer, power, power_of, power_written, raised, raised_term, scene, scope, truth_at, unknown_at, unknown_named, v_at, v_named};
ghost use Rattle.spx_examples.specs.Selections.{initialized_in};

/// `2 ** N` has no static value, and takes the integer type that it meets: 2 is converted to it. It takes no other type. What has to be static meets none.
pub fn a_power_takes_an_integer_type()
    ensures wide { in_context (Of big.base) (power (pos 2) 1) ≡ power_of big (pos 2) 1 }
    ensures integer { in_context (Of INTEGER.base) (power (pos 2) 1) ≡ power_of INTEGER (pos 2) 1 }
    ensures truth_values { in_context (Of BOOLEAN.base) (power (pos 2) 1) ≡ power (pos 2) 1 }
    ensures literals { in_context (Of color.base) (power (pos 2) 1) ≡ power (pos 2) 1 }
    ensures none { in_context Universal (power (pos 2) 1) ≡ power (pos 2) 1 }
    ensures sum { in_context Universal (operation_at op.Add 8 (power (pos 2) 1) (number_at (pos 5) 10)) ≡ operation_at op.Add 8 (power (pos 2) 1) (number_at (pos 5) 10) }
{}

/// Each of its largest static parts is converted as a whole, through signs, parentheses and operators: in `1 + 1 - 2 ** N` the sum, and in `(1 + 1) ** N`
/// what is in parentheses. A named number is converted too.
pub fn the_largest_static_parts_are_converted()
    ensures sum { in_context (Of big.base) (operation_at op.Add 3 (number_at (pos 1) 1) (power (pos 2) 5)) ≡ operation_at op.Add 3 (converted_at big 1 (number_at (pos 1) 1)) (power_of big (pos 2) 5) }
    ensures sign { in_context (Of big.base) (minus_at 1 (parenthesized_at 3 (power (pos 2) 4))) ≡ minus_at 1 (parenthesized_at 3 (power_of big (pos 2) 4)) }
    ensures powers { in_context (Of big.base) (operation_at op.Multiply 8 (power (pos 2) 1) (power (pos 3) 10)) ≡ operation_at op.Multiply 8 (power_of big (pos 2) 1) (power_of big (pos 3) 10) }
    ensures power_of_power { in_context (Of big.base) (raised 8 (parenthesized_at 1 (power (pos 2) 2))) ≡ raised 8 (parenthesized_at 1 (power_of big (pos 2) 2)) }
    ensures operation { in_context (Of big.base) (operation_at op.Subtract 7 (operation_at op.Add 3 (number_at (pos 1) 1) (number_at (pos 1) 5)) (power (pos 2) 9))
        ≡ operation_at op.Subtract 7 (converted_at big 3 (operation_at op.Add 3 (number_at (pos 1) 1) (number_at (pos 1) 5))) (power_of big (pos 2) 9) }
    ensures parentheses { in_context (Of big.base) (raised 7 (parenthesized_at 1 (operation_at op.Add 4 (number_at (pos 1) 2) (number_at (pos 1) 6))))
        ≡ raised 7 (converted_at big 1 (parenthesized_at 1 (operation_at op.Add 4 (number_at (pos 1) 2) (number_at (pos 1) 6)))) }
    ensures named_number { in_context (Of big.base) (raised 1 (constant_at (pos 2) 1)) ≡ raised 1 (converted_at big 1 (constant_at (pos 2) 1)) }
{}

/// Beside an operand of an integer type it takes that type, on either side, and whatever is met further out: in `2 ** N + N` it is an `Integer`.
pub fn a_power_takes_the_type_of_the_operand_beside_it()
    ensures right { Becomes (operation_at op.Add 3 (v_at 1) (power (pos 2) 5)) (operation_at op.Add 3 (v_at 1) (power_of big (pos 2) 5)) }
    ensures left { Becomes (operation_at op.Mod 8 (power (pos 2) 1) (v_at 10)) (operation_at op.Mod 8 (power_of big (pos 2) 1) (v_at 10)) }
    ensures integer { Becomes (operation_at op.Add 8 (power (pos 2) 1) (n_at 10)) (operation_at op.Add 8 (power_of INTEGER (pos 2) 1) (n_at 10)) }
    ensures parentheses { Becomes (operation_at op.Multiply 3 (v_at 1) (parenthesized_at 5 (operation_at op.Add 13 (power (pos 2) 6) (power (pos 3) 15))))
        (operation_at op.Multiply 3 (v_at 1) (parenthesized_at 5 (operation_at op.Add 13 (power_of big (pos 2) 6) (power_of big (pos 3) 15)))) }
    ensures comparison { Becomes (operation_at op.Less 8 (power (pos 2) 1) (v_at 10)) (operation_at op.Less 8 (power_of big (pos 2) 1) (v_at 10)) }
    ensures equality { Becomes (operation_at op.Equal 3 (v_at 1) (power (pos 2) 5)) (operation_at op.Equal 3 (v_at 1) (power_of big (pos 2) 5)) }
{}

/// In a comparison of numbers, and in a range of numbers, it meets no type and is an `Integer`. The numbers beside it stay as they are. So is it as an
/// exponent, whatever is raised, and gives that no type: in `2 ** (3 ** N)` 2 may take none, and `(2 ** N) ** N` may stay as it is.
pub fn what_meets_no_type_is_an_integer()
    ensures equal { ComparedAsInteger op.Equal }
    ensures not_equal { ComparedAsInteger op.NotEqual }
    ensures less { ComparedAsInteger op.Less }
    ensures less_or_equal { ComparedAsInteger op.LessOrEqual }
    ensures greater { ComparedAsInteger op.Greater }
    ensures greater_or_equal { ComparedAsInteger op.GreaterOrEqual }
    ensures powers { Becomes (operation_at op.Less 8 (power (pos 2) 1) (power (pos 3) 10)) (operation_at op.Less 8 (power_of INTEGER (pos 2) 1) (power_of INTEGER (pos 3) 10)) }
    ensures range { Becomes (in_range_at 8 (power (pos 2) 1) (number_at (pos 1) 11) (number_at (pos 5) 16)) (in_range_at 8 (power_of INTEGER (pos 2) 1) (number_at (pos 1) 11) (number_at (pos 5) 16)) }
    ensures exponent { Becomes (operation_at op.Power 3 (v_at 1) (parenthesized_at 6 (power (pos 2) 7))) (operation_at op.Power 3 (v_at 1) (parenthesized_at 6 (power_of INTEGER (pos 2) 7))) }
    ensures exponent_beside { in_context (Of big.base) (operation_at op.Power 3 (number_at (pos 2) 1) (parenthesized_at 6 (power (pos 3) 7)))
        ≡ operation_at op.Power 3 (converted_at big 1 (number_at (pos 2) 1)) (parenthesized_at 6 (power_of INTEGER (pos 3) 7)) }
    ensures exponent_alone { in_context Universal (operation_at op.Power 3 (number_at (pos 2) 1) (parenthesized_at 6 (power (pos 3) 7)))
        ≡ operation_at op.Power 3 (number_at (pos 2) 1) (parenthesized_at 6 (power_of INTEGER (pos 3) 7)) }
    ensures raised_twice { in_context Universal (raised 8 (parenthesized_at 1 (power (pos 2) 2))) ≡ raised 8 (parenthesized_at 1 (power (pos 2) 2)) }
{}

/// A membership test gives it the base type of the type after `in`. Of what is tested and the two ends of a range, each that has no type takes that of the
/// others.
pub fn a_test_gives_its_type()
    ensures wide { Becomes (in_type_named big (power (pos 2) 1)) (in_type_named big (power_of big (pos 2) 1)) }
    ensures base { Becomes (in_type_named NATURAL (power (pos 2) 1)) (in_type_named NATURAL (power_of INTEGER (pos 2) 1)) }
    ensures literals { Stays (in_type_named color (power (pos 2) 1)) }
    ensures tested { Becomes (in_range_at 3 (v_at 1) (power (pos 2) 6) (power (pos 3) 16)) (in_range_at 3 (v_at 1) (power_of big (pos 2) 6) (power_of big (pos 3) 16)) }
    ensures low { Becomes (in_range_at 8 (power (pos 2) 1) (v_at 11) (power (pos 3) 16)) (in_range_at 8 (power_of big (pos 2) 1) (v_at 11) (power_of big (pos 3) 16)) }
    ensures high { Becomes (in_range_at 8 (power (pos 2) 1) (number_at (pos 1) 11) (v_at 16)) (in_range_at 8 (power_of big (pos 2) 1) (number_at (pos 1) 11) (v_at 16)) }
{}

/// The operand of a conversion or a qualification takes the base type that is named, and that of `Val` is an `Integer`, whatever is met further out.
pub fn an_operand_of_a_function_takes_its_type()
    ensures conversion { Becomes (function_of big form.Simple (power (pos 2) 10)) (function_of big form.Simple (power_of big (pos 2) 10)) }
    ensures qualification { Becomes (function_of big form.Qualified (power (pos 2) 10)) (function_of big form.Qualified (power_of big (pos 2) 10)) }
    ensures base { Becomes (function_of NATURAL form.Simple (power (pos 2) 10)) (function_of NATURAL form.Simple (power_of INTEGER (pos 2) 10)) }
    ensures position { Becomes (function_of color (form.Attribute (word (codes "Val") 1 3)) (power (pos 2) 10)) (function_of color (form.Attribute (word (codes "Val") 1 3)) (power_of INTEGER (pos 2) 10)) }
{}

/// What is static takes no type, nor do its parts, and neither does what has one: `2 ** 3`, `2 + 3` and `N ** 2` stay as they are everywhere, also beside V.
/// Beside an operand in which a rule is broken nothing is taken, and nothing by what breaks one itself: Y is not declared, and `True` is no exponent. Nor is
/// anything taken where the operands do not fit their operator.
pub fn what_takes_no_type_stays_as_it_is()
    ensures power { Stays (operation_at op.Power 3 (number_at (pos 2) 1) (number_at (pos 3) 6)) }
    ensures sum { Stays (operation_at op.Add 3 (number_at (pos 2) 1) (number_at (pos 3) 5)) }
    ensures beside { Stays (operation_at op.Add 3 (v_at 1) (operation_at op.Power 7 (number_at (pos 2) 5) (number_at (pos 3) 10))) }
    ensures square { Stays (operation_at op.Power 3 (n_at 1) (number_at (pos 2) 6)) }
    ensures two_types { Stays (operation_at op.Add 3 (v_at 1) (operation_at op.Power 7 (n_at 5) (number_at (pos 2) 10))) }
    ensures left { Stays (operation_at op.Add 3 (unknown_at 1) (power (pos 2) 5)) }
    ensures right { Stays (operation_at op.Add 8 (power (pos 2) 1) (unknown_at 10)) }
    ensures comparison { Stays (operation_at op.Less 8 (power (pos 2) 1) (unknown_at 10)) }
    ensures range { Stays (in_range_at 8 (power (pos 2) 1) (v_at 11) (unknown_at 16)) }
    ensures inside { Stays (operation_at op.Power 3 (number_at (pos 2) 1) (truth_at 6)) }
    ensures truth_value { Stays (operation_at op.Equal 8 (power (pos 2) 1) (truth_at 10)) }
    ensures truth_operator { Stays (operation_at op.And 8 (power (pos 2) 1) (v_at 12)) }
    ensures raised_truth { Stays (operation_at op.Power 6 (truth_at 1) (parenthesized_at 9 (power (pos 2) 10))) }
    ensures range_of_two_types { Stays (in_range_at 8 (power (pos 2) 1) (v_at 11) (n_at 16)) }
    ensures truth_in_range { Stays (in_range_at 6 (truth_at 1) (power (pos 2) 9) (number_at (pos 5) 19)) }
{}

/// What is converted lies in the base range, which rule N12 asks at its place, before what comes after it. So a power in a type has no static value, and is of
/// that type; one that takes none is universal.
pub fn a_converted_part_lies_in_the_base_range()
    ensures wide { judged (in_context (Of big.base) (power (pos 4294967296) 1)) ≡ Ok (typing (Of big.base) None (place 1 3)) }
    ensures universal { judged (in_context Universal (power (pos 4294967296) 1)) ≡ Ok (typing Universal None (place 1 3)) }
    ensures last { judged (in_context (Of INTEGER.base) (power (pos 2147483647) 1)) ≡ Ok (typing (Of INTEGER.base) None (place 1 3)) }
    ensures after_last { judged (in_context (Of INTEGER.base) (power (pos 2147483648) 1)) ≡ Err (record { rule = N12; place = place 1 1 }) }
    ensures before_first { judged (in_context (Of INTEGER.base) (raised 13 (parenthesized_at 1 (minus_at 2 (number_at (pos 2147483649) 3))))) ≡ Err (record { rule = N12; place = place 1 1 }) }
    ensures past_64_bits { judged (in_context (Of big.base) (power (pos 9223372036854775808) 1)) ≡ Err (record { rule = N12; place = place 1 1 }) }
    ensures part { judged (in_context (Of INTEGER.base) (operation_at op.Multiply 8 (power (pos 2) 1) (number_at (pos 2147483648) 10))) ≡ Err (record { rule = N12; place = place 1 10 }) }
    ensures in_order { judged (in_context (Of INTEGER.base) (operation_at op.Add 8 (power (pos 2147483648) 1) (power (pos 2147483648) 10))) ≡ Err (record { rule = N12; place = place 1 1 }) }
{}

/// A run computes `2 ** N` in the type that it takes: where N is 40 it is a number of 64 bits, and no `Integer`. A negative exponent fails. What is asked to be
/// shown is the same, of the base range of that type. The term of what is converted is its own.
pub fn a_power_is_computed_in_its_type()
    ensures wide { Answers (in_context (Of big.base) (power (pos 2) 1)) (only_a (number (pos 40))) (Gives (number (pos 1099511627776))) }
    ensures past_64_bits { Answers (in_context (Of big.base) (power (pos 2) 1)) (only_a (number (pos 63))) (Fails Overflow (place 1 3)) }
    ensures integer { Answers (in_context (Of INTEGER.base) (power (pos 2) 1)) (only_a (number (pos 30))) (Gives (number (pos 1073741824))) }
    ensures past_integer { Answers (in_context (Of INTEGER.base) (power (pos 2) 1)) (only_a (number (pos 40))) (Fails Overflow (place 1 3)) }
    ensures negative { Answers (in_context (Of big.base) (power (pos 2) 1)) (only_a (number (minus 1))) (Fails Range (place 1 6)) }
    ensures term { (p : Program) (entered : VarId → Term) → term_of p entered (in_context (Of big.base) (power (pos 2) 1)) ≡ raised_term p (pos 2) }
    ensures wide_check { (p : Program) (entered : VarId → Term) (rest : Tree) → checks p entered [] (in_context (Of big.base) (power (pos 2) 1)) rest
        ≡ check kind.Range (place 1 6) (term.Infix sign.GreaterOrEqual (now_term p a) (term.Number (pos 0)) ∷ [])
        (check kind.Overflow (place 1 3) (in_range WIDEST_FIRST WIDEST_LAST (raised_term p (pos 2))) rest) }
    ensures integer_check { (p : Program) (entered : VarId → Term) (rest : Tree) → checks p entered [] (in_context (Of INTEGER.base) (power (pos 2) 1)) rest
        ≡ check kind.Range (place 1 6) (term.Infix sign.GreaterOrEqual (now_term p a) (term.Number (pos 0)) ∷ [])
        (check kind.Overflow (place 1 3) (in_range INTEGER_FIRST INTEGER_LAST (raised_term p (pos 2))) rest) }
{}

/// The right side of an assignment meets the type of its target, and the bounds of a loop that of its parameter. A condition, a selector and an assertion meet
/// `Integer`. What has to be static meets no type, and breaks rule N11 at its operator: `2147483648 ** X`, which as an `Integer` breaks rule N12 at its number, as
/// it does beside X.
#[tactic(auto, using(crate::proofs::Declarations::breach_is), unfolding(spx_core::specs::Regions::standard, spx_num::specs::Widths::fits))]
pub fn each_place_gives_a_type()
    ensures target { Resolves (written_stmt.Assignment (name_written (codes "V") 1) (power_written (pos 2) 6)) (stmt.Assignment (target_to (v_named 1)) (power_of big (pos 2) 6)) }
    ensures integer_target { Resolves (written_stmt.Assignment (name_written (codes "N") 1) (power_written (pos 2) 6)) (stmt.Assignment (target_to (n_named 1)) (power_of INTEGER (pos 2) 6)) }
    ensures constant_target { Resolves (written_stmt.Assignment (name_written (codes "C") 1) (power_written (pos 2) 6)) (stmt.Assignment (target_to (c_named 1)) (power_of big (pos 2) 6)) }
    ensures unknown_target { Resolves (written_stmt.Assignment (name_written (codes "Y") 1) (power_written (pos 2) 6)) (stmt.Assignment (target_to (unknown_named 1)) (power (pos 2) 6)) }
    ensures bounds { (resolved_count scene scope [] 0 count_written).bounds ≡ Some (record { low = number_at (pos 1) 20; high = power_of big (pos 2) 25 }) }
    ensures arm { Resolves (written_stmt.If (record { place = place 1 1; condition = power_written (pos 2) 4; body = [] } ∷ []) None closing)
        (stmt.If (record { place = place 1 1; condition = power_of INTEGER (pos 2) 4; body = [] } ∷ []) None closing) }
    ensures while_loop { Resolves (written_stmt.Loop (written_scheme.While (place 1 1) (power_written (pos 2) 7)) (place 1 14) [] closing)
        (stmt.Loop (scheme.While (place 1 1) (power_of INTEGER (pos 2) 7)) (place 1 14) [] closing) }
    ensures exit { Resolves (written_stmt.Exit (place 1 1) (Some (power_written (pos 2) 11))) (stmt.Exit (place 1 1) (Some (power_of INTEGER (pos 2) 11))) }
    ensures selector { Resolves (written_stmt.Case (place 1 1) (power_written (pos 2) 6) [] closing) (stmt.Case (place 1 1) (power_of INTEGER (pos 2) 6) [] closing) }
    ensures assertion { Resolves (written_stmt.Assertion assertion.Check (place 1 5) (power_written (pos 2) 11)) (stmt.Assertion assertion.Check (place 1 5) (power_of INTEGER (pos 2) 11)) }
    ensures named_number { breach_of (named_number_in 4 (codes "K") past_integer ∷ []) ≡ breach N11 4 40 }
    ensures constant { breach_of (constant_in 4 (codes "C") (codes "Integer") past_integer ∷ []) ≡ breach N11 4 40 }
    ensures initial_value { breach_of (initialized_in 4 (codes "Z") (codes "Integer") past_integer ∷ []) ≡ breach N11 4 40 }
    ensures low { breach_of (type_in 4 (codes "T") past_integer (number_in (pos 5)) ∷ []) ≡ breach N11 4 40 }
    ensures high { breach_of (narrowed_in 4 (codes "S") (codes "Integer") (number_in (pos 0)) past_integer ∷ []) ≡ breach N11 4 60 }
    ensures beside { breach_of (constant_in 4 (codes "C") (codes "Integer") (operation_in op.Add (name_in (codes "X")) past_integer) ∷ []) ≡ breach N12 4 43 }
{}
