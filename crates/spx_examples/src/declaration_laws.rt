// What declarations of types, subtypes and constants mean, and which rule they break first and where, each as the contract of a function that does
// nothing. They stand in the procedure `Inc`, each in the line of its number, from 4 on, and the one statement in line 9; this is `X := 1;`, unless a
// law has another one. specs/Declarations.antt says at which columns the parts stand.
#![tactic(auto, using(crate::proofs::Declarations::breach_is), unfolding(spx_core::specs::Regions::standard, spx_num::specs::Widths::fits))]

ghost use Rattle.std.specs.Prelude.{◌≡◌, ◌++◌, pos, true, [], ◌∷◌, None, Some, codes};
ghost use Rattle.spx_tree.specs.declared.expression.InfixOp.TheVariants as op;
ghost use Rattle.spx_tree.specs.declared.expression.PrefixOp.TheVariants as prefix;
ghost use Rattle.spx_core.specs.declared.entity.Entity.TheVariants as entity;
ghost use Rattle.spx_core.specs.declared.entity.TheConstants.{BOOLEAN};
ghost use Rattle.spx_core.specs.declared.entity.VarId.{VarId};
ghost use Rattle.spx_core.specs.declared.expression.CoreExpr.TheVariants as expr;
ghost use Rattle.spx_core.specs.declared.program.Program.{Program};
ghost use Rattle.spx_core.specs.declared.rule.RuleName.TheVariants.{N1, N2, N3, N10, N11, N12, N13, U2};
ghost use Rattle.spx_core.specs.Resolved.{standard_types};
ghost use Rattle.spx_term.specs.declared.term.Term.{Term};
ghost use Rattle.spx_term.specs.declared.term.Term.TheVariants as term;
ghost use Rattle.spx_meaning.specs.declared.bad.BadKind.TheVariants.{Overflow, Range};
ghost use Rattle.spx_meaning.specs.Evaluation.{Gives, Fails};
ghost use Rattle.spx_meaning.specs.Runs.{Bad, Ended};
ghost use Rattle.spx_meaning.specs.Stores.{Store};
ghost use Rattle.spx_formula.specs.Terms.{term_of};
ghost use Rattle.spx_examples.specs.Declarations.{LiteralEnds, SumEnds, breach_at, breach_of, c_written, color, color_written, constant_in, constant_of, denotes, enumeration_in, first_of, green, last_of, minus, n_written, name_in, named_number_in, narrowed_in, number_in, numbers_in, operation_in, part_of, red, row, rule_breach_at, s_written, short, signed_in, standing_for, subtype_in, t, t_written, type_in, types_of, types_of_two, u_written, variable_in, wide};
ghost use Rattle.spx_examples.specs.Increment.{word, place};
ghost use Rattle.spx_examples.specs.NameRules.{breach};
ghost use Rattle.spx_examples.specs.Names.{simple};
ghost use Rattle.spx_examples.specs.Operators.{Answers, number, truth, two, values};

/// `type T is range 0 .. 10;`, the first type of the first procedure, has the row after the predefined types, the bounds 0 and 10, and the base
/// range of `Integer`. Where a bound lies outside of that, the base range is the widest one. A second type with the same bounds has a row and a
/// base type of its own, and so has one of a second procedure.
#[tactic(auto, using(crate::proofs::Declarations::types_are, crate::proofs::Declarations::two_types_are), unfolding(spx_core::specs::Regions::standard, spx_num::specs::Widths::fits))]
pub fn a_new_type_has_a_row()
    ensures first { types_of (t_written ∷ []) ≡ standard_types ++ row (codes "T") t ∷ [] }
    ensures second { types_of (t_written ∷ u_written ∷ []) ≡ standard_types ++ row (codes "T") t ∷ row (codes "U") (part_of (short 6) 6 (pos 0) (pos 10)) ∷ [] }
    ensures second_procedure { types_of_two (t_written ∷ []) (u_written ∷ []) ≡ standard_types ++ row (codes "T") t ∷ row (codes "U") (part_of (short 6) 6 (pos 0) (pos 10)) ∷ [] }
    ensures past_integer { types_of (numbers_in 4 (codes "T") (pos 0) (pos 2147483648) ∷ []) ≡ standard_types ++ row (codes "T") (part_of (wide 5) 5 (pos 0) (pos 2147483648)) ∷ [] }
    ensures last_of_integer { types_of (numbers_in 4 (codes "T") (pos 0) (pos 2147483647) ∷ []) ≡ standard_types ++ row (codes "T") (part_of (short 5) 5 (pos 0) (pos 2147483647)) ∷ [] }
{}

/// The first number of a range is not after the last, and both lie in the widest base range. Each bound is a static number, of any integer type.
pub fn a_bad_range_breaks_n13()
    ensures empty { breach_of (numbers_in 4 (codes "T") (pos 1) (pos 0) ∷ []) ≡ breach N13 4 30 }
    ensures one { breach_of (numbers_in 4 (codes "T") (pos 3) (pos 3) ∷ []) ≡ None }
    ensures before_first { breach_of (type_in 4 (codes "T") (minus (pos 9223372036854775809)) (number_in (pos 0)) ∷ []) ≡ breach N13 4 30 }
    ensures past_last { breach_of (numbers_in 4 (codes "T") (pos 0) (pos 9223372036854775808) ∷ []) ≡ breach N13 4 30 }
    ensures widest { breach_of (type_in 4 (codes "T") (minus (pos 9223372036854775808)) (number_in (pos 9223372036854775807)) ∷ []) ≡ None }
    ensures variable { breach_of (type_in 4 (codes "T") (number_in (pos 0)) (name_in (codes "X")) ∷ []) ≡ breach N11 4 50 }
    ensures truth { breach_of (type_in 4 (codes "T") (name_in (codes "False")) (name_in (codes "X")) ∷ []) ≡ breach N10 4 30 }
    ensures two_types { breach_of (t_written ∷ type_in 5 (codes "U") (first_of (codes "T")) (last_of (codes "Integer")) ∷ []) ≡ None }
{}

/// A subtype has a row of its own, the base type of its parent and its own bounds, or those of the parent.
#[tactic(auto, using(crate::proofs::Declarations::types_are), unfolding(spx_core::specs::Regions::standard, spx_num::specs::Widths::fits))]
pub fn a_subtype_has_the_base_type_of_its_parent()
    ensures narrowed { types_of (t_written ∷ narrowed_in 5 (codes "S") (codes "T") (number_in (pos 2)) (number_in (pos 3)) ∷ []) ≡ standard_types ++ row (codes "T") t ∷ row (codes "S") (part_of (short 5) 6 (pos 2) (pos 3)) ∷ [] }
    ensures whole { types_of (t_written ∷ subtype_in 5 (codes "S") (codes "T") ∷ []) ≡ standard_types ++ row (codes "T") t ∷ row (codes "S") (part_of (short 5) 6 (pos 0) (pos 10)) ∷ [] }
{}

/// The range of a subtype lies in that of its parent, and each bound is of the parent's base type. A Boolean type has no range to narrow.
pub fn a_subtype_lies_in_its_parent()
    ensures whole { breach_of (t_written ∷ narrowed_in 5 (codes "S") (codes "T") (number_in (pos 0)) (number_in (pos 10)) ∷ []) ≡ None }
    ensures past_last { breach_of (t_written ∷ narrowed_in 5 (codes "S") (codes "T") (number_in (pos 0)) (number_in (pos 11)) ∷ []) ≡ breach N13 5 30 }
    ensures before_first { breach_of (t_written ∷ narrowed_in 5 (codes "S") (codes "T") (minus (pos 1)) (number_in (pos 10)) ∷ []) ≡ breach N13 5 30 }
    ensures empty { breach_of (t_written ∷ narrowed_in 5 (codes "S") (codes "T") (number_in (pos 3)) (number_in (pos 2)) ∷ []) ≡ breach N13 5 30 }
    ensures past_base { breach_of (t_written ∷ narrowed_in 5 (codes "S") (codes "T") (number_in (pos 0)) (number_in (pos 2147483648)) ∷ []) ≡ breach N12 5 50 }
    ensures another_type { breach_of (t_written ∷ narrowed_in 5 (codes "S") (codes "T") (number_in (pos 0)) (last_of (codes "Integer")) ∷ []) ≡ breach N10 5 50 }
    ensures literals { breach_of (color_written ∷ narrowed_in 5 (codes "S") (codes "Color") red green ∷ []) ≡ None }
    ensures truth { breach_of (narrowed_in 4 (codes "S") (codes "Boolean") (name_in (codes "False")) (name_in (codes "True")) ∷ []) ≡ breach N10 4 20 }
    ensures truth_alone { breach_of (subtype_in 4 (codes "S") (codes "Boolean") ∷ []) ≡ None }
{}

/// `type Color is (Red, Green, Blue);` declares a type and three literals, whose positions are 0, 1 and 2.
#[tactic(auto, using(crate::proofs::Declarations::denotes_as), unfolding(spx_core::specs::Regions::standard, spx_num::specs::Widths::fits))]
pub fn literals_have_positions()
    ensures type_name { denotes (color_written ∷ []) (codes "Color") ≡ Some (entity.TypeName color) }
    ensures first { denotes (color_written ∷ []) (codes "Red") ≡ Some (entity.Literal color (pos 0)) }
    ensures second { denotes (color_written ∷ []) (codes "GREEN") ≡ Some (entity.Literal color (pos 1)) }
    ensures third { denotes (color_written ∷ []) (codes "Blue") ≡ Some (entity.Literal color (pos 2)) }
{}

/// A literal has another name than its type, than each literal before it, and than what is predefined. No type has the name of a formal; that comes
/// before its bounds.
pub fn a_second_literal_of_a_name_breaks_n2()
    ensures twice { breach_of (enumeration_in 4 (codes "Color") (codes "Red" ∷ codes "Red" ∷ []) ∷ []) ≡ breach N2 4 30 }
    ensures type_name { breach_of (enumeration_in 4 (codes "Color") (codes "Color" ∷ []) ∷ []) ≡ breach N2 4 20 }
    ensures predefined { breach_of (enumeration_in 4 (codes "Color") (codes "True" ∷ []) ∷ []) ≡ breach N2 4 20 }
    ensures another_type { breach_of (color_written ∷ enumeration_in 5 (codes "Hue") (codes "Red" ∷ []) ∷ []) ≡ breach N2 5 20 }
    ensures formal { breach_of (numbers_in 4 (codes "X") (pos 1) (pos 0) ∷ []) ≡ breach N2 4 4 }
{}

/// What is declared is seen after its declaration, and not before. In its own declaration a name denotes nothing, also where it denotes something
/// outside: `Inc` is the procedure.
pub fn a_name_is_seen_after_its_declaration()
    ensures literal { breach_of (color_written ∷ constant_in 5 (codes "C") (codes "Color") red ∷ []) ≡ None }
    ensures literal_before { breach_of (constant_in 4 (codes "C") (codes "Integer") red ∷ color_written ∷ []) ≡ breach N1 4 30 }
    ensures type_before { breach_of (subtype_in 4 (codes "S") (codes "T") ∷ t_written ∷ []) ≡ breach N1 4 20 }
    ensures itself { breach_of (subtype_in 4 (codes "S") (codes "S") ∷ []) ≡ breach N1 4 20 }
    ensures outside { breach_of (subtype_in 4 (codes "S") (codes "Inc") ∷ []) ≡ breach N3 4 20 }
    ensures hidden { breach_of (subtype_in 4 (codes "Inc") (codes "Inc") ∷ []) ≡ breach N1 4 20 }
    ensures constant { breach_of (constant_in 4 (codes "C") (codes "Integer") (name_in (codes "C")) ∷ []) ≡ breach N1 4 30 }
    ensures bound { breach_of (type_in 4 (codes "T") (number_in (pos 0)) (last_of (codes "T")) ∷ []) ≡ breach N1 4 50 }
{}

/// A constant has a static value, which lies in its type.
pub fn the_value_of_a_constant_is_static()
    ensures variable { breach_of (constant_in 4 (codes "C") (codes "Integer") (name_in (codes "X")) ∷ []) ≡ breach N11 4 30 }
    ensures of_variable { breach_of (constant_in 4 (codes "C") (codes "Integer") (operation_in op.Add (name_in (codes "X")) (number_in (pos 1))) ∷ []) ≡ breach N11 4 40 }
    ensures last { breach_of (t_written ∷ constant_in 5 (codes "C") (codes "T") (number_in (pos 10)) ∷ []) ≡ None }
    ensures past_last { breach_of (t_written ∷ constant_in 5 (codes "C") (codes "T") (number_in (pos 11)) ∷ []) ≡ breach N12 5 30 }
    ensures before_first { breach_of (t_written ∷ constant_in 5 (codes "C") (codes "T") (minus (pos 1)) ∷ []) ≡ breach N12 5 30 }
    ensures another_type { breach_of (t_written ∷ constant_in 5 (codes "C") (codes "T") (name_in (codes "True")) ∷ []) ≡ breach N10 5 30 }
    ensures no_type { breach_of (constant_in 4 (codes "C") (codes "X") (number_in (pos 1)) ∷ []) ≡ breach N3 4 20 }
{}

/// A constant denotes its type and its value, which is again static. A named number has no type.
#[tactic(auto, using(crate::proofs::Declarations::denotes_as), unfolding(spx_core::specs::Regions::standard, spx_num::specs::Widths::fits))]
pub fn a_constant_denotes_its_value()
    ensures number { denotes (t_written ∷ constant_in 5 (codes "C") (codes "T") (number_in (pos 7)) ∷ []) (codes "C") ≡ constant_of t (pos 7) }
    ensures literal { denotes (color_written ∷ constant_in 5 (codes "C") (codes "Color") green ∷ []) (codes "C") ≡ constant_of color (pos 1) }
    ensures again { denotes (t_written ∷ constant_in 5 (codes "C") (codes "T") (number_in (pos 7)) ∷ constant_in 6 (codes "D") (codes "T") (operation_in op.Add (name_in (codes "C")) (number_in (pos 1))) ∷ []) (codes "D") ≡ constant_of t (pos 8) }
    ensures of_subtype { denotes (t_written ∷ s_written ∷ constant_in 6 (codes "C") (codes "T") (last_of (codes "S")) ∷ []) (codes "C") ≡ constant_of t (pos 5) }
    ensures named_number { denotes (named_number_in 4 (codes "N") (number_in (pos 3000000000)) ∷ []) (codes "N") ≡ Some (entity.NamedNumber (pos 3000000000)) }
{}

/// A named number fits any integer type. A constant of a type fits only that type, though a named number may have its value.
pub fn a_named_number_is_universal()
    ensures two_types { breach_of (t_written ∷ named_number_in 5 (codes "N") (number_in (pos 7)) ∷ constant_in 6 (codes "C") (codes "T") (name_in (codes "N")) ∷ constant_in 7 (codes "D") (codes "Integer") (name_in (codes "N")) ∷ []) ≡ None }
    ensures constant { breach_of (t_written ∷ constant_in 5 (codes "C") (codes "T") (number_in (pos 7)) ∷ constant_in 6 (codes "D") (codes "Integer") (name_in (codes "C")) ∷ []) ≡ breach N10 6 30 }
    ensures of_constant { breach_of (t_written ∷ named_number_in 5 (codes "N") (last_of (codes "T")) ∷ constant_in 6 (codes "D") (codes "Integer") (name_in (codes "N")) ∷ []) ≡ None }
    ensures variable { breach_of (named_number_in 4 (codes "N") (name_in (codes "X")) ∷ []) ≡ breach N11 4 30 }
    ensures literal { breach_of (color_written ∷ named_number_in 5 (codes "N") red ∷ []) ≡ breach N10 5 30 }
{}

/// A value of a subtype fits its parent, and one of the parent fits a subtype in which it lies.
pub fn a_subtype_is_no_other_type()
    ensures in_parent { breach_of (t_written ∷ s_written ∷ constant_in 6 (codes "C") (codes "T") (last_of (codes "S")) ∷ []) ≡ None }
    ensures of_parent { breach_of (t_written ∷ s_written ∷ constant_in 6 (codes "C") (codes "S") (first_of (codes "T")) ∷ []) ≡ None }
    ensures truth { breach_of (subtype_in 4 (codes "B") (codes "Boolean") ∷ constant_in 5 (codes "C") (codes "B") (name_in (codes "True")) ∷ []) ≡ None }
    ensures past_subtype { breach_of (t_written ∷ s_written ∷ constant_in 6 (codes "C") (codes "S") (last_of (codes "T")) ∷ []) ≡ breach N12 6 30 }
{}

/// Values of two types do not meet, though their bounds are the same. A number that meets a value of T lies in the base range of T, and so does what
/// comes of them; the bounds of T do not count. An exponent is of `Integer`.
pub fn types_match_by_base_type()
    ensures operation { breach_of (t_written ∷ u_written ∷ named_number_in 6 (codes "N") (operation_in op.Add (first_of (codes "T")) (first_of (codes "U"))) ∷ []) ≡ breach N10 6 40 }
    ensures comparison { breach_of (t_written ∷ u_written ∷ constant_in 6 (codes "C") (codes "Boolean") (operation_in op.Less (first_of (codes "T")) (first_of (codes "U"))) ∷ []) ≡ breach N10 6 40 }
    ensures value { breach_of (t_written ∷ u_written ∷ constant_in 6 (codes "C") (codes "T") (first_of (codes "U")) ∷ []) ≡ breach N10 6 30 }
    ensures exponent { breach_of (t_written ∷ named_number_in 5 (codes "N") (operation_in op.Power (number_in (pos 2)) (last_of (codes "T"))) ∷ []) ≡ breach N10 5 40 }
    ensures past_bounds { breach_of (t_written ∷ named_number_in 5 (codes "N") (operation_in op.Add (last_of (codes "T")) (number_in (pos 1))) ∷ []) ≡ None }
    ensures in_base { breach_of (t_written ∷ named_number_in 5 (codes "N") (operation_in op.Add (first_of (codes "T")) (number_in (pos 2147483647))) ∷ []) ≡ None }
    ensures past_base { breach_of (t_written ∷ named_number_in 5 (codes "N") (operation_in op.Add (first_of (codes "T")) (number_in (pos 2147483648))) ∷ []) ≡ breach N12 5 43 }
    ensures result { breach_of (t_written ∷ named_number_in 5 (codes "N") (operation_in op.Add (last_of (codes "T")) (number_in (pos 2147483647))) ∷ []) ≡ breach N12 5 40 }
{}

/// Literals are ordered by their positions, and have a first and a last one.
#[tactic(auto, using(crate::proofs::Declarations::denotes_as), unfolding(spx_core::specs::Regions::standard, spx_num::specs::Widths::fits))]
pub fn literals_have_an_order()
    ensures less { denotes (color_written ∷ constant_in 5 (codes "C") (codes "Boolean") (operation_in op.Less red green) ∷ []) (codes "C") ≡ constant_of BOOLEAN (pos 1) }
    ensures not_less { denotes (color_written ∷ constant_in 5 (codes "C") (codes "Boolean") (operation_in op.Less green red) ∷ []) (codes "C") ≡ constant_of BOOLEAN (pos 0) }
    ensures last { denotes (color_written ∷ constant_in 5 (codes "C") (codes "Color") (last_of (codes "Color")) ∷ []) (codes "C") ≡ constant_of color (pos 2) }
{}

/// They have no arithmetic, and a number is no literal. Truth values have no order.
pub fn literals_have_no_arithmetic()
    ensures order { breach_of (color_written ∷ constant_in 5 (codes "C") (codes "Boolean") (operation_in op.Less red green) ∷ []) ≡ None }
    ensures sum { breach_of (color_written ∷ constant_in 5 (codes "C") (codes "Color") (operation_in op.Add red green) ∷ []) ≡ breach N10 5 40 }
    ensures power { breach_of (color_written ∷ constant_in 5 (codes "C") (codes "Color") (operation_in op.Power red (number_in (pos 1))) ∷ []) ≡ breach N10 5 40 }
    ensures exponent { breach_of (color_written ∷ named_number_in 5 (codes "N") (operation_in op.Power (number_in (pos 2)) red) ∷ []) ≡ breach N10 5 40 }
    ensures sign { breach_of (color_written ∷ constant_in 5 (codes "C") (codes "Color") (signed_in prefix.Minus red) ∷ []) ≡ breach N10 5 30 }
    ensures number { breach_of (color_written ∷ constant_in 5 (codes "C") (codes "Color") (number_in (pos 0)) ∷ []) ≡ breach N10 5 30 }
    ensures truth { breach_of (constant_in 4 (codes "C") (codes "Boolean") (operation_in op.Less (name_in (codes "False")) (name_in (codes "True"))) ∷ []) ≡ breach N10 4 40 }
{}

/// As far as names and types go, a constant or a named number may be assigned, if the value is of its type: for a named number, that of universal
/// numbers. It is the rule U2 that forbids it. A literal and a type are no targets at all.
#[tactic(auto, using(crate::proofs::Declarations::breach_is, crate::proofs::Declarations::rule_breach_is), unfolding(spx_core::specs::Regions::standard, spx_num::specs::Widths::fits))]
pub fn an_assigned_constant_breaks_u2()
    ensures constant { breach_at (c_written ∷ []) (simple (word (codes "C") 9 4)) (number_in (pos 2) 9 9) ≡ None }
    ensures constant_u2 { rule_breach_at (c_written ∷ []) (simple (word (codes "C") 9 4)) (number_in (pos 2) 9 9) ≡ breach U2 9 4 }
    ensures named_number { breach_at (n_written ∷ []) (simple (word (codes "N") 9 4)) (number_in (pos 2) 9 9) ≡ None }
    ensures named_number_u2 { rule_breach_at (n_written ∷ []) (simple (word (codes "N") 9 4)) (number_in (pos 2) 9 9) ≡ breach U2 9 4 }
    ensures named_number_type { breach_at (n_written ∷ []) (simple (word (codes "N") 9 4)) (name_in (codes "X") 9 9) ≡ breach N10 9 9 }
    ensures another_type { breach_at (c_written ∷ []) (simple (word (codes "C") 9 4)) (name_in (codes "True") 9 9) ≡ breach N10 9 9 }
    ensures past_base { breach_at (c_written ∷ []) (simple (word (codes "C") 9 4)) (number_in (pos 2147483648) 9 9) ≡ breach N12 9 9 }
    ensures variable { rule_breach_at (variable_in 4 (codes "V") (codes "Integer") ∷ []) (simple (word (codes "V") 9 4)) (number_in (pos 2) 9 9) ≡ None }
    ensures literal { breach_at (color_written ∷ []) (simple (word (codes "Red") 9 4)) (green 9 9) ≡ breach N3 9 4 }
    ensures type_name { breach_at (t_written ∷ []) (simple (word (codes "T") 9 4)) (number_in (pos 2) 9 9) ≡ breach N3 9 4 }
{}

/// In a run, an operation must give a number of the base range of T, and an assignment one between the bounds of T: `A := A + B` for 10 and 1 is bad
/// there, and not at the operation.
#[tactic(auto, using(crate::proofs::Declarations::sum_ends, crate::proofs::Operators::eval_two), unfolding(spx_term::specs::Meaning::value_of_op))]
pub fn a_run_checks_the_base_range_and_the_bounds()
    ensures sum { Answers (two op.Add t) (values (number (pos 10)) (number (pos 1))) (Gives (number (pos 11))) }
    ensures past_base { Answers (two op.Add t) (values (number (pos 2147483647)) (number (pos 1))) (Fails Overflow (place 1 3)) }
    ensures in_widest { Answers (two op.Add (part_of (wide 5) 5 (pos 0) (pos 2147483648))) (values (number (pos 2147483647)) (number (pos 1))) (Gives (number (pos 2147483648))) }
    ensures last { SumEnds (pos 9) (pos 1) (Ended (values (number (pos 10)) (number (pos 1)))) }
    ensures past_last { SumEnds (pos 10) (pos 1) (Bad Range (place 1 3)) }
    ensures overflow { SumEnds (pos 2147483647) (pos 1) (Bad Overflow (place 1 3)) }
{}

/// An assignment checks literals too: to a variable of `subtype Warm is Color range Red .. Green;`, Green may be assigned, and Blue is bad.
#[tactic(auto, using(crate::proofs::Declarations::literal_ends))]
pub fn a_run_checks_literals()
    ensures last { LiteralEnds (pos 1) (Ended (Some (number (pos 1)) ∷ [])) }
    ensures past_last { LiteralEnds (pos 2) (Bad Range (place 1 12)) }
{}

/// A constant and a literal are no variables. From any store they give their value or position, and stand for it in terms.
#[tactic(auto, using(crate::proofs::Evaluations::eval_name, crate::proofs::Declarations::term_of_name))]
pub fn a_constant_is_no_variable()
    ensures constant { (s : Store) → Answers (expr.Name (standing_for (entity.Constant t (pos 7)))) s (Gives (number (pos 7))) }
    ensures named_number { (s : Store) → Answers (expr.Name (standing_for (entity.NamedNumber (pos 7)))) s (Gives (number (pos 7))) }
    ensures literal { (s : Store) → Answers (expr.Name (standing_for (entity.Literal color (pos 2)))) s (Gives (number (pos 2))) }
    ensures truth { (s : Store) → Answers (expr.Name (standing_for (entity.Constant BOOLEAN (pos 1)))) s (Gives (truth true)) }
    ensures constant_term { (p : Program) (entered : VarId → Term) → term_of p entered (expr.Name (standing_for (entity.Constant t (pos 7)))) ≡ term.Number (pos 7) }
    ensures literal_term { (p : Program) (entered : VarId → Term) → term_of p entered (expr.Name (standing_for (entity.Literal color (pos 2)))) ≡ term.Number (pos 2) }
    ensures truth_term { (p : Program) (entered : VarId → Term) → term_of p entered (expr.Name (standing_for (entity.Constant BOOLEAN (pos 1)))) ≡ term.Truth true }
{}
