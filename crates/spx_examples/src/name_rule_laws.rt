// Which rule on names and types is broken first, and where, each as the contract of a function that does nothing. The procedures
// are variants of `Inc`; beside the breaches stand procedures that come close and break nothing.
#![tactic(auto, unfolding(spx_core::specs::Statements::first_name_breach, spx_core::specs::Obeyed::first_rule_breach, spx_core::specs::Regions::standard))]

ghost use Rattle.std.specs.Prelude.{◌≡◌, pos, [], ◌∷◌, None, codes};
ghost use Rattle.spx_tree.specs.declared.expression.InfixOp.TheVariants as op;
ghost use Rattle.spx_tree.specs.declared.subprogram.Unit.TheVariants as unit;
ghost use Rattle.spx_core.specs.declared.rule.RuleName.TheVariants.{N1, N2, N3, N5, N10, N12, U7};
ghost use Rattle.spx_core.specs.Obeyed.{first_rule_breach};
ghost use Rattle.spx_core.specs.Resolved.{resolved};
ghost use Rattle.spx_core.specs.Statements.{first_name_breach};
ghost use Rattle.spx_examples.specs.Increment.{word, successor_written, inc_units};
ghost use Rattle.spx_examples.specs.Names.{attribute, simple};
ghost use Rattle.spx_examples.specs.Next.{next_units};
ghost use Rattle.spx_examples.specs.NameRules.{breach, alone, name_at, attribute_at, number_at, operation_at, minus_at, comparison_at, with_target, with_statement, if_x_written, assigning, stepping, ending, with_local, with_pre, with_relation, with_formal, twice_written, of_own_name, second_written, broken_body, broken_local, broken_post, broken_pre, broken_relation, broken_formal};

/// Nothing declares Y, which is a value, a target, a prefix, a type name, an import and a precondition here. In the last one a local
/// does.
pub fn an_undeclared_name_breaks_n1()
    ensures right_side { first_name_breach (alone (assigning (name_at (codes "Y") 9))) ≡ breach N1 6 9 }
    ensures target { first_name_breach (alone (with_target (simple (word (codes "Y") 6 4)) (successor_written 6 9))) ≡ breach N1 6 4 }
    ensures prefix { first_name_breach (alone (assigning (attribute_at (codes "Y") 9 (codes "First") 11))) ≡ breach N1 6 9 }
    ensures type_name { first_name_breach (alone (with_local stepping (codes "Z") (codes "Y") 8)) ≡ breach N1 4 8 }
    ensures import { first_name_breach (alone (with_relation stepping (codes "X") (codes "Y"))) ≡ breach N1 2 20 }
    ensures precondition { first_name_breach (alone (with_pre stepping (codes "Y"))) ≡ breach N1 3 9 }
    ensures declared { first_name_breach (alone (with_local (assigning (name_at (codes "Y") 9)) (codes "Y") (codes "Integer") 8)) ≡ None }
{}

/// A declaration is hidden until its end: the type name in `Y : Y` denotes nothing, nor does one that is the name of its procedure. An
/// annotation comes before the locals, and does not see them.
pub fn a_name_before_the_end_of_its_declaration_breaks_n1()
    ensures local { first_name_breach (alone (with_local stepping (codes "Y") (codes "Y") 8)) ≡ breach N1 4 8 }
    ensures formal { first_name_breach (alone (with_formal stepping of_own_name)) ≡ breach N1 1 27 }
    ensures annotation { first_name_breach (alone (with_local (with_pre stepping (codes "Y")) (codes "Y") (codes "Integer") 8)) ≡ breach N1 3 9 }
{}

/// Formals and locals are declared once, whatever the letter case, and none is named `Integer`: in `Integer : Integer` the name comes
/// before the type name, which denotes nothing there. A local may have the name of the procedure.
pub fn a_second_declaration_breaks_n2()
    ensures formals { first_name_breach (alone (with_formal stepping twice_written)) ≡ breach N2 1 19 }
    ensures local { first_name_breach (alone (with_local stepping (codes "x") (codes "Integer") 8)) ≡ breach N2 4 4 }
    ensures predefined { first_name_breach (alone (with_local stepping (codes "Integer") (codes "Integer") 14)) ≡ breach N2 4 4 }
    ensures procedure { first_name_breach (alone (with_local stepping (codes "Inc") (codes "Integer") 10)) ≡ None }
{}

/// Two procedures of a file have two names.
pub fn a_second_procedure_of_a_name_breaks_n2()
    ensures { first_name_breach (unit.Subprogram stepping ∷ unit.Subprogram (second_written (codes "Inc")) ∷ []) ≡ breach N2 8 11 }
{}

/// A procedure and a type are no variables, and a variable is no type.
pub fn a_name_of_another_kind_breaks_n3()
    ensures procedure { first_name_breach (alone (assigning (name_at (codes "Inc") 9))) ≡ breach N3 6 9 }
    ensures predefined { first_name_breach (alone (assigning (name_at (codes "Integer") 9))) ≡ breach N3 6 9 }
    ensures target { first_name_breach (alone (with_target (simple (word (codes "Inc") 6 4)) (successor_written 6 11))) ≡ breach N3 6 4 }
    ensures import { first_name_breach (alone (with_relation stepping (codes "X") (codes "Inc"))) ≡ breach N3 2 20 }
    ensures prefix { first_name_breach (alone (assigning (attribute_at (codes "X") 9 (codes "First") 11))) ≡ breach N3 6 9 }
    ensures type_name { first_name_breach (alone (with_local stepping (codes "Y") (codes "X") 8)) ≡ breach N3 4 8 }
{}

/// `Integer'Size` is no attribute here, and `X'First` no target. `Integer'First` is a value, whatever the letter case.
pub fn an_attribute_out_of_place_breaks_n3()
    ensures other { first_name_breach (alone (assigning (attribute_at (codes "Integer") 9 (codes "Size") 17))) ≡ breach N3 6 9 }
    ensures target { first_name_breach (alone (with_target (attribute (word (codes "X") 6 4) (word (codes "First") 6 6)) (successor_written 6 15))) ≡ breach N3 6 4 }
    ensures value { first_name_breach (alone (assigning (attribute_at (codes "INTEGER") 9 (codes "FIRST") 17))) ≡ None }
{}

/// `end Dec;` does not name `Inc`. Letter case does not count, and the name may be left out.
pub fn another_end_name_breaks_n5()
    ensures other { first_name_breach (alone (ending stepping (codes "Dec"))) ≡ breach N5 7 5 }
    ensures same { first_name_breach (alone (ending stepping (codes "INC"))) ≡ None }
    ensures none { first_name_breach (alone (record stepping { end_name = None })) ≡ None }
{}

/// A comparison is no number, as a right side, as an operand on either side and after a sign. Operands come before their operator: in
/// `(X = 1) + Y`, Y comes first.
pub fn a_comparison_as_a_number_breaks_n10()
    ensures right_side { first_name_breach (alone (assigning (comparison_at 9))) ≡ breach N10 6 9 }
    ensures left { first_name_breach (alone (assigning (operation_at op.Add 17 (comparison_at 9) (number_at (pos 1) 19)))) ≡ breach N10 6 17 }
    ensures right { first_name_breach (alone (assigning (operation_at op.Add 11 (number_at (pos 1) 9) (comparison_at 13)))) ≡ breach N10 6 11 }
    ensures sign { first_name_breach (alone (assigning (minus_at 9 (comparison_at 10)))) ≡ breach N10 6 9 }
    ensures operands_first { first_name_breach (alone (assigning (operation_at op.Add 17 (comparison_at 9) (name_at (codes "Y") 19)))) ≡ breach N1 6 19 }
{}

/// `pre X;` is no comparison. `pre X < Integer'Last;` is one.
pub fn a_number_as_a_precondition_breaks_n10()
    ensures number { first_name_breach (alone (with_pre stepping (codes "X"))) ≡ breach N10 3 9 }
    ensures comparison { first_name_breach inc_units ≡ None }
{}

/// Nor is X the condition of an `if`. `X < 100` is.
pub fn a_number_as_a_condition_breaks_n10()
    ensures number { first_name_breach (alone (with_statement if_x_written)) ≡ breach N10 6 7 }
    ensures comparison { first_name_breach next_units ≡ None }
{}

/// The last number of `Integer` may be assigned, and the next one may not. With a sign, the whole counts. Beside X the number is out of
/// range on either side, and in `X + 2147483648 - Y` it comes before Y, which is not declared.
pub fn a_number_out_of_range_breaks_n12()
    ensures last { first_name_breach (alone (assigning (number_at (pos 2147483647) 9))) ≡ None }
    ensures after_last { first_name_breach (alone (assigning (number_at (pos 2147483648) 9))) ≡ breach N12 6 9 }
    ensures first { first_name_breach (alone (assigning (minus_at 9 (number_at (pos 2147483648) 10)))) ≡ None }
    ensures before_first { first_name_breach (alone (assigning (minus_at 9 (number_at (pos 2147483649) 10)))) ≡ breach N12 6 9 }
    ensures left { first_name_breach (alone (assigning (operation_at op.Add 20 (number_at (pos 2147483648) 9) (name_at (codes "X") 22)))) ≡ breach N12 6 9 }
    ensures right { first_name_breach (alone (assigning (operation_at op.Subtract 24 (operation_at op.Add 11 (name_at (codes "X") 9) (number_at (pos 2147483648) 13)) (name_at (codes "Y") 26)))) ≡ breach N12 6 13 }
{}

/// `Integer'Last + 1` is out of range at its operator, and `-Integer'First` at its sign. What is made of numbers only has no type until
/// it is assigned: `2147483647 + 1 - 1` is the last number of `Integer`. But 128 bits hold each of its operations.
pub fn an_operation_out_of_range_breaks_n12()
    ensures sum { first_name_breach (alone (assigning (operation_at op.Add 22 (attribute_at (codes "Integer") 9 (codes "Last") 17) (number_at (pos 1) 24)))) ≡ breach N12 6 22 }
    ensures sign { first_name_breach (alone (assigning (minus_at 9 (attribute_at (codes "Integer") 10 (codes "First") 18)))) ≡ breach N12 6 9 }
    ensures universal { first_name_breach (alone (assigning (operation_at op.Subtract 24 (operation_at op.Add 20 (number_at (pos 2147483647) 9) (number_at (pos 1) 22)) (number_at (pos 1) 26)))) ≡ None }
    ensures past_128_bits { first_name_breach (alone (assigning (operation_at op.Subtract 53 (operation_at op.Add 49 (number_at (pos 170141183460469231731687303715884105727) 9) (number_at (pos 1) 51)) (number_at (pos 1) 55)))) ≡ breach N12 6 49 }
{}

/// The rules on names and types come in the order of the text: the first of these procedures breaks one in its target, in its right
/// side and at its end, and each other one breaks one more, in a part before those.
pub fn rules_on_names_come_in_the_order_of_the_text()
    ensures body { first_name_breach (alone broken_body) ≡ breach N1 6 4 }
    ensures locals { first_name_breach (alone broken_local) ≡ breach N1 4 8 }
    ensures postcondition { first_name_breach (alone broken_post) ≡ breach N1 3 17 }
    ensures precondition { first_name_breach (alone broken_pre) ≡ breach N1 3 9 }
    ensures relation { first_name_breach (alone broken_relation) ≡ breach N1 2 13 }
    ensures formals { first_name_breach (alone broken_formal) ≡ breach N1 1 27 }
{}

/// The names of all procedures come before what is in the first one. What is in the first one comes before what is in the second: each
/// has another name at its end.
pub fn names_of_procedures_come_first()
    ensures same_name { first_name_breach (unit.Subprogram broken_formal ∷ unit.Subprogram (second_written (codes "Inc")) ∷ []) ≡ breach N2 8 11 }
    ensures other_name { first_name_breach (unit.Subprogram (ending stepping (codes "Dec")) ∷ unit.Subprogram (second_written (codes "Dec")) ∷ []) ≡ breach N5 7 5 }
{}

/// Without `derives`, and with a Y that is not declared, a procedure breaks a rule in each of the two judgements. That on names does not
/// look at the rules on variables.
pub fn each_judgement_finds_its_own_breach()
    ensures names { first_name_breach (alone (record (assigning (name_at (codes "Y") 9)) { derives = None })) ≡ breach N1 6 9 }
    ensures variables { first_rule_breach (resolved (alone (record (assigning (name_at (codes "Y") 9)) { derives = None }))) ≡ breach U7 1 1 }
{}
