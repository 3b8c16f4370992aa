// What holds of postconditions, `assert` and `check` annotations and values on entry, each law as the contract of a function that does nothing. The procedures
// are variants of `Inc` and `Flag`.
ghost use Rattle.std.specs.Prelude.{◌≡◌, ℕ, ℤ, pos, Bool, false, not, ◌||◌, [], ◌∷◌, ◌++◌, Option, Some, None, Ok, Err, codes, if◌then◌else◌};
ghost use Rattle.spx_tree.specs.declared.expression.Expr.TheVariants as written_expr;
ghost use Rattle.spx_tree.specs.declared.expression.InfixOp.TheVariants as op;
ghost use Rattle.spx_tree.specs.Form.{forms_of};
ghost use Rattle.spx_tree.specs.Grammar.{IsCondition, IsExpr, IsFile};
ghost use Rattle.spx_tree.specs.Spells.{Spells};
ghost use Rattle.spx_tree.specs.Stops.{StopsAt, bad_byte};
ghost use Rattle.spx_tree.specs.Written.{written};
ghost use Rattle.spx_core.specs.declared.entity.TheConstants.{BOOLEAN, INTEGER, INTEGER_LAST};
ghost use Rattle.spx_core.specs.declared.rule.ExprType.TheVariants.{Of};
ghost use Rattle.spx_core.specs.Judged.{judged, typing};
ghost use Rattle.spx_core.specs.declared.rule.RuleName.TheVariants.{N1, N3, N10, N18, U11};
ghost use Rattle.spx_core.specs.declared.expression.CoreExpr.TheVariants as expr;
ghost use Rattle.spx_core.specs.Obeyed.{first_rule_breach};
ghost use Rattle.spx_core.specs.Resolved.{resolved};
ghost use Rattle.spx_core.specs.Statements.{first_name_breach};
ghost use Rattle.spx_term.specs.declared.value.Value.{Value};
ghost use Rattle.spx_meaning.specs.declared.bad.BadKind.TheVariants.{Assert, Check, Post, Unset};
ghost use Rattle.spx_meaning.specs.Annotations.{meant};
ghost use Rattle.spx_meaning.specs.Frames.{Frame};
ghost use Rattle.spx_meaning.specs.Runs.{Bad, Ended, call};
ghost use Rattle.spx_meaning.specs.Stores.{Store, reading};
ghost use Rattle.spx_paths.specs.Conditions.{conditions_of};
ghost use Rattle.spx_paths.specs.Walks.{cut_facts, path_count, trees_of};
ghost use Rattle.spx_examples.specs.Assertions.{asserted_in_arm, asserting_in_arm, kept_from_assert, kept_past_arm, lies_in_integer, now_is_positive, step_and_assert, tree_from_assert, tree_from_start, y_now, entry_at, is_kept, is_next, is_positive, promising, program_of, step_and_check, check_and_step, only_checking, checking_both, unset_and_promising, promised_conditions, check_condition, kept_condition, both_condition, kept_after_both, checks_local, checks_import, entry_written, requiring, ensuring, looking, two_formals, one_local, flag_promising, z_promised, MeansTable, false_at, of_literals, implying, positive_written, checking_unset, assertion_line, assertion_tokens, tilde_in_code, constant_at};
ghost use Rattle.spx_examples.specs.AssertionText.{assert_bytes, assert_program, assert_tokens, assert_units, asserted_bytes, asserted_tokens, asserted_units, asserted_program, tokens_with};
ghost use Rattle.spx_examples.specs.Findings.{as_flag, with_local};
ghost use Rattle.spx_examples.specs.Flag.{x_at as in_flag, y_at, y, flag, flag_program};
ghost use Rattle.spx_examples.specs.Found.{Finds, nothing_found};
ghost use Rattle.spx_examples.specs.Increment.{place, word, x, x_at, x_written, entry_x};
ghost use Rattle.spx_examples.specs.NameRules.{breach, alone, assigning, stepping};
ghost use Rattle.spx_examples.specs.Names.{entry_named, value_named};
ghost use Rattle.spx_examples.specs.Next.{x_now};
ghost use Rattle.spx_examples.specs.Operators.{true_at};
ghost use Rattle.spx_examples.specs.VariableRules.{only};
ghost use Rattle.spx_examples.specs.Variants.{number, flag_with_pre, flag_with_pre_program, local_program, local_sub, out_program, only_null};

/// `post X = X~ + 1` is true after `X := X + 1`, and `post X = X~` is not, which is bad at the word `post`. An export that is left unset is met before.
pub fn a_postcondition_is_met_on_the_way_out()
    ensures holds { (n : ℕ) → call (program_of (promising (is_next 3 10))) n (promising (is_next 3 10)) (number (pos 41) ∷ []) ≡ Ended (number (pos 42) ∷ []) }
    ensures fails { (n : ℕ) → call (program_of (promising (is_kept 3 10))) n (promising (is_kept 3 10)) (number (pos 41) ∷ []) ≡ Bad Post (place 3 5) }
    ensures unset { (n : ℕ) (v : Option Value) → call (record (out_program only_null) { subs = unset_and_promising ∷ [] }) n unset_and_promising (v ∷ []) ≡ Bad Unset (place 7 1) }
{}

/// `X~` is what X counts as in the store with which the body began, whatever the present one, and X what it counts as in the present one.
pub fn an_entry_value_is_that_of_the_start()
    ensures entry { (f : Frame) (s : Store) (line column : ℕ) → meant f s (entry_at line column) ≡ reading f.program f.entry x }
    ensures present { (f : Frame) (s : Store) (line column : ℕ) → meant f s (expr.Name (x_at line column)) ≡ reading f.program s x }
{}

/// A `check` is looked at where it stands: `check X > 0` from 0 is true after `X := X + 1`, and before it it is bad at its word. It changes nothing, and
/// there too `X~` is the value on entry.
pub fn a_check_is_met_where_it_stands()
    ensures after { (n : ℕ) → call (program_of (step_and_check (is_positive 7 14))) n (step_and_check (is_positive 7 14)) (number (pos 0) ∷ []) ≡ Ended (number (pos 1) ∷ []) }
    ensures before { (n : ℕ) → call (program_of (check_and_step (is_positive 5 14))) n (check_and_step (is_positive 5 14)) (number (pos 0) ∷ []) ≡ Bad Check (place 5 8) }
    ensures changes_nothing { (n : ℕ) → call (program_of only_checking) n only_checking (number (pos 7) ∷ []) ≡ Ended (number (pos 7) ∷ []) }
    ensures next_of_entry { (n : ℕ) → call (program_of (step_and_check (is_next 7 14))) n (step_and_check (is_next 7 14)) (number (pos 41) ∷ []) ≡ Ended (number (pos 42) ∷ []) }
    ensures entry { (n : ℕ) → call (program_of (step_and_check (is_kept 7 14))) n (step_and_check (is_kept 7 14)) (number (pos 41) ∷ []) ≡ Bad Check (place 7 8) }
{}

/// A `check` fails in no other way. Its numbers have no bound: `check X = X~ + 1` is false where X has the last value of its type. An unset variable counts
/// as the first value of its type.
pub fn a_check_is_true_or_false()
    ensures past_last { (n : ℕ) → call (program_of (check_and_step (is_next 5 14))) n (check_and_step (is_next 5 14)) (number INTEGER_LAST ∷ []) ≡ Bad Check (place 5 8) }
    ensures unset_below { (n : ℕ) (v : Value) (w : Option Value) → call (local_program (checking_unset op.Less)) n (local_sub (checking_unset op.Less)) (Some v ∷ w ∷ []) ≡ Ended (Some v ∷ None ∷ []) }
    ensures unset_above { (n : ℕ) (v : Value) (w : Option Value) → call (local_program (checking_unset op.Greater)) n (local_sub (checking_unset op.Greater)) (Some v ∷ w ∷ []) ≡ Bad Check (place 6 8) }
{}

/// An `assert` is looked at where it stands, as a `check` is: one that is false is bad at its word, and a run goes on past one that is true.
pub fn an_assert_is_met_where_it_stands()
    ensures holds { (n : ℕ) → call (program_of (step_and_assert (is_next 7 15))) n (step_and_assert (is_next 7 15)) (number (pos 41) ∷ []) ≡ Ended (number (pos 42) ∷ []) }
    ensures fails { (n : ℕ) → call (program_of (step_and_assert (is_kept 7 15))) n (step_and_assert (is_kept 7 15)) (number (pos 41) ∷ []) ≡ Bad Assert (place 7 8) }
{}

/// A postcondition asks for a last condition: `post X = X~ + 1` after `X := X + 1` for `X~ + 1 = X~ + 1`. A `check` asks for one, and is known from there on;
/// each part of a conjunction is shown, and known, for itself.
pub fn assertions_ask_for_conditions()
    ensures post { conditions_of (program_of (promising (is_next 3 10))) (promising (is_next 3 10)) ≡ promised_conditions }
    ensures check { conditions_of (program_of only_checking) only_checking ≡ check_condition ∷ kept_condition ∷ [] }
    ensures both { conditions_of (program_of checking_both) checking_both ≡ both_condition ∷ kept_after_both ∷ [] }
{}

/// With an `assert` in an arm there is one tree more, from the `assert` on: the path through the arm ends there, and another one begins. The conditions come
/// tree by tree. After the `assert` the types, the precondition for X~ and what it says are known, and no more: neither the test nor that X = X~ is.
pub fn an_assert_cuts_paths()
    ensures trees { trees_of (program_of asserting_in_arm) asserting_in_arm ≡ tree_from_start ∷ tree_from_assert ∷ [] }
    ensures paths { path_count asserting_in_arm ≡ 3 }
    ensures conditions { conditions_of (program_of asserting_in_arm) asserting_in_arm ≡ asserted_in_arm ∷ kept_past_arm ∷ kept_from_assert ∷ [] }
{}

/// Known after each cut are the types of formals of any mode and of locals, and of values on entry for what is imported and exported too; and the
/// precondition, which for an import that is no export is about its value.
pub fn what_is_known_after_a_cut()
    ensures formals { cut_facts flag_program flag [] ≡ lies_in_integer x_now ++ lies_in_integer y_now }
    ensures local { cut_facts (local_program only_null) (local_sub only_null) [] ≡ lies_in_integer x_now ++ lies_in_integer y_now ++ lies_in_integer entry_x }
    ensures precondition { cut_facts flag_with_pre_program flag_with_pre [] ≡ lies_in_integer x_now ++ lies_in_integer y_now ++ now_is_positive ∷ [] }
{}

/// `X~` stands in a postcondition or a `check`, for a variable that is both imported and exported. It does not in a precondition or in code, nor for an
/// import that is no export, an export that is no import, or a local.
#[tactic(auto, unfolding(spx_core::specs::Statements::first_name_breach, spx_core::specs::Regions::standard))]
pub fn an_entry_value_out_of_place_breaks_n18()
    ensures post { first_name_breach (alone (ensuring stepping (entry_written (codes "X") 3 10))) ≡ None }
    ensures check { first_name_breach (alone (looking stepping (entry_written (codes "X") 6 14))) ≡ None }
    ensures pre { first_name_breach (alone (requiring stepping (entry_written (codes "X") 3 9))) ≡ breach N18 3 9 }
    ensures code { first_name_breach (alone (assigning (entry_named (word (codes "X") 6 9)))) ≡ breach N18 6 9 }
    ensures import { first_name_breach (alone (ensuring two_formals (entry_written (codes "X") 3 10))) ≡ breach N18 3 10 }
    ensures export { first_name_breach (alone (ensuring two_formals (entry_written (codes "Y") 3 10))) ≡ breach N18 3 10 }
    ensures import_in_check { first_name_breach (alone (looking two_formals (entry_written (codes "X") 6 14))) ≡ breach N18 6 14 }
    ensures local { first_name_breach (alone (looking one_local (entry_written (codes "Y") 6 14))) ≡ breach N18 6 14 }
{}

/// What stands before `~` is the name of a variable: no literal, type or procedure, and no name that nothing declares. A postcondition does not see the
/// locals.
#[tactic(auto, unfolding(spx_core::specs::Statements::first_name_breach, spx_core::specs::Regions::standard))]
pub fn an_entry_value_is_of_a_variable()
    ensures literal { first_name_breach (alone (ensuring stepping (entry_written (codes "True") 3 10))) ≡ breach N3 3 10 }
    ensures type_name { first_name_breach (alone (ensuring stepping (entry_written (codes "Integer") 3 10))) ≡ breach N3 3 10 }
    ensures procedure { first_name_breach (alone (ensuring stepping (entry_written (codes "Inc") 3 10))) ≡ breach N3 3 10 }
    ensures undeclared { first_name_breach (alone (ensuring stepping (entry_written (codes "Z") 3 10))) ≡ breach N1 3 10 }
    ensures local { first_name_breach (alone (ensuring one_local (entry_written (codes "Y") 3 10))) ≡ breach N1 3 10 }
{}

/// An entry value is of the type of its variable, and never static. What its name denotes is looked at first, and only then whether it may stand there:
/// that of a constant breaks N3 in both cases.
pub fn an_entry_value_is_of_the_type_of_its_variable()
    ensures allowed { judged (entry_at 3 10) ≡ Ok (typing (Of INTEGER.base) None (place 3 10)) }
    ensures not_allowed { judged (expr.Entry (x_at 3 10) false) ≡ Err (record { rule = N18; place = place 3 10 }) }
    ensures constant { (allowed : Bool) (n : ℤ) → judged (expr.Entry (constant_at n) allowed) ≡ Err (record { rule = N3; place = place 3 10 }) }
{}

/// A postcondition and a `check` are conditions, and so are both sides of `->`. `X` is a number.
#[tactic(auto, unfolding(spx_core::specs::Statements::first_name_breach, spx_core::specs::Regions::standard))]
pub fn an_assertion_is_a_condition()
    ensures post { first_name_breach (alone (ensuring stepping (value_named (x_written 3 10)))) ≡ breach N10 3 10 }
    ensures check { first_name_breach (alone (looking stepping (value_named (x_written 6 14)))) ≡ breach N10 6 14 }
    ensures left { first_name_breach (alone (ensuring stepping (implying (value_named (x_written 3 10)) positive_written))) ≡ breach N10 3 16 }
    ensures right { first_name_breach (alone (looking stepping (implying positive_written (value_named (x_written 3 19))))) ≡ breach N10 3 16 }
    ensures conditions { first_name_breach (alone (ensuring stepping (implying positive_written positive_written))) ≡ None }
{}

/// U11: a postcondition names formals of any mode, and no local.
pub fn a_postcondition_on_a_local_breaks_u11()
    ensures local { first_rule_breach z_promised ≡ breach U11 3 10 }
    ensures import { first_rule_breach (only (flag_promising (in_flag 3 10))) ≡ None }
    ensures export { first_rule_breach (only (flag_promising (y_at 3 10))) ≡ None }
{}

/// F4: a local that only a `check` reads may be unset there.
pub fn a_check_reads_what_it_names()
    ensures { Finds (with_local checks_local) checks_local (record nothing_found { unset = (place 7 14, y) ∷ [] }) }
{}

/// F2: nothing flows from what only a `check` reads, and it is no occurrence for F3.
pub fn nothing_flows_from_a_check()
    ensures { Finds (as_flag checks_import) checks_import (record nothing_found { unused = (x, y) ∷ [] }) }
{}

/// In an annotation `->` is false only where its left side is true and its right side false, and `<->` is true where both are the same.
pub fn implications_have_tables_in_annotations()
    ensures implies { MeansTable op.Implies (λ p q. not p || q) }
    ensures equivalent { MeansTable op.Equivalent (λ p q. if p then q else not q) }
{}

/// Of literals they are static.
pub fn implications_of_literals_are_static()
    ensures true_false { judged (of_literals op.Implies (true_at 1 1) (false_at 12)) ≡ Ok (typing (Of BOOLEAN.base) (Some (pos 0)) (place 1 3)) }
    ensures false_false { judged (of_literals op.Implies (false_at 1) (false_at 12)) ≡ Ok (typing (Of BOOLEAN.base) (Some (pos 1)) (place 1 3)) }
    ensures true_true { judged (of_literals op.Implies (true_at 1 1) (true_at 1 12)) ≡ Ok (typing (Of BOOLEAN.base) (Some (pos 1)) (place 1 3)) }
    ensures not_same { judged (of_literals op.Equivalent (false_at 1) (true_at 1 12)) ≡ Ok (typing (Of BOOLEAN.base) (Some (pos 0)) (place 1 3)) }
    ensures same { judged (of_literals op.Equivalent (false_at 1) (false_at 12)) ≡ Ok (typing (Of BOOLEAN.base) (Some (pos 1)) (place 1 3)) }
{}

/// An implication is a predicate and no expression of code. Neither side of it is one, unless in parentheses.
pub fn an_implication_is_a_predicate()
    ensures predicate { IsCondition 2 (implying positive_written positive_written) }
    ensures no_expression { (levels : ℕ) → ¬ IsExpr levels (implying positive_written positive_written) }
    ensures none_left { (levels : ℕ) → ¬ IsCondition levels (implying (implying positive_written positive_written) positive_written) }
    ensures none_right { (levels : ℕ) → ¬ IsCondition levels (implying positive_written (implying positive_written positive_written)) }
    ensures parenthesized { IsCondition 4 (implying (written_expr.Parenthesized (place 3 9) (implying positive_written positive_written)) positive_written) }
{}

/// `check` and `post` are words, and `~`, `->` and `<->` delimiters, in annotation text alone: in code `post` is an identifier, `->` two lexemes, and `~`
/// none.
pub fn assertions_are_spelled_in_annotations()
    ensures both { Spells 0 assertion_line assertion_tokens }
    ensures tilde { StopsAt 0 tilde_in_code bad_byte (place 1 2) }
{}

/// The text of a procedure with a postcondition and a `check`: it is these tokens, units of two levels are written with these tokens, and those units
/// are resolved to the program, in which `X~` may be named.
pub fn assertions_are_read()
    ensures spelled { Spells 0 asserted_bytes asserted_tokens }
    ensures grammatical { IsFile 2 asserted_units }
    ensures as_written { written asserted_units ≡ forms_of asserted_bytes asserted_tokens }
    ensures made { resolved asserted_units ≡ asserted_program }
{}

/// The same of a text with an `assert` in the place of the `check`.
pub fn an_assert_is_read()
    ensures spelled { Spells 0 assert_bytes (tokens_with assert_tokens) }
    ensures grammatical { IsFile 2 assert_units }
    ensures as_written { written assert_units ≡ forms_of assert_bytes (tokens_with assert_tokens) }
    ensures made { resolved assert_units ≡ assert_program }
{}
