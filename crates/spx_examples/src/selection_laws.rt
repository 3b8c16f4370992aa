// What conversions, functions of a type, initial values and `case` statements mean, and which rule they break first and where, each as the contract of
// a function that does nothing. They stand in the procedure `Inc`, where specs/Selections.antt says.
#![tactic(auto, using(crate::proofs::Declarations::breach_is), unfolding(spx_core::specs::Regions::standard, spx_num::specs::Widths::fits))]

ghost use Rattle.std.specs.Prelude.{◌≡◌, pos, true, false, [], ◌∷◌, None, Option, Some, codes};
ghost use Rattle.spx_core.specs.declared.entity.TheConstants.{BOOLEAN, INTEGER};
ghost use Rattle.spx_core.specs.declared.rule.RuleName.TheVariants.{N3, N10, N11, N12, N14, N17};
ghost use Rattle.spx_core.specs.FlowRules.{HasNoFlowFinding};
ghost use Rattle.spx_term.specs.Steps.{Assign, Tree};
ghost use Rattle.spx_term.specs.declared.term.Term.{Term};
ghost use Rattle.spx_term.specs.declared.term.Term.TheVariants as term;
ghost use Rattle.spx_term.specs.declared.term.TermOp.TheVariants as operator;
ghost use Rattle.spx_term.specs.declared.term.TermPrefix.TheVariants.{Not};
ghost use Rattle.spx_term.specs.declared.value.Value.{Value};
ghost use Rattle.spx_meaning.specs.declared.bad.BadKind.TheVariants.{Range};
ghost use Rattle.spx_meaning.specs.Evaluation.{Gives, Fails};
ghost use Rattle.spx_meaning.specs.Runs.{Ended, entry_of};
ghost use Rattle.spx_formula.specs.Terms.{between, now};
ghost use Rattle.spx_paths.specs.Walks.{alternative_facts, and_these, initializing};
ghost use Rattle.spx_examples.specs.Declarations.{attribute_in, breach_of, color, color_written, constant_in, constant_of, denotes, green, last_of, name_in, named_number_in, number_in, red, t, t_written, u_written, warm};
ghost use Rattle.spx_examples.specs.Findings.{seven_program};
ghost use Rattle.spx_examples.specs.Flag.{y};
ghost use Rattle.spx_examples.specs.Increment.{place};
ghost use Rattle.spx_examples.specs.NameRules.{breach};
ghost use Rattle.spx_examples.specs.Operators.{Answers, number, truth};
ghost use Rattle.spx_examples.specs.Selections.{Chosen, breach_choosing, choice, choices_to, conversion_at, conversion_in, function_at, function_in, holding, initialized_in, qualified_in, range_in, starting, warm_written, when_in};
ghost use Rattle.spx_examples.specs.Variants.{local_program, local_sub};

/// A number of any type may be converted to T, and must lie in it; one past it is reported at the name of the type. A literal is no number.
pub fn a_conversion_ends_in_its_type()
    ensures last { breach_of (t_written ∷ named_number_in 5 (codes "N") (conversion_in (codes "T") (number_in (pos 10))) ∷ []) ≡ None }
    ensures past_last { breach_of (t_written ∷ named_number_in 5 (codes "N") (conversion_in (codes "T") (number_in (pos 11))) ∷ []) ≡ breach N12 5 30 }
    ensures another_type { breach_of (t_written ∷ u_written ∷ constant_in 6 (codes "C") (codes "T") (conversion_in (codes "T") (last_of (codes "U"))) ∷ []) ≡ None }
    ensures literal { breach_of (color_written ∷ constant_in 5 (codes "C") (codes "Integer") (conversion_in (codes "Integer") red) ∷ []) ≡ breach N10 5 40 }
{}

/// What is qualified is of the type, or of its base type, before; it must lie between the bounds.
pub fn a_qualified_value_is_of_its_type()
    ensures last { breach_of (t_written ∷ named_number_in 5 (codes "N") (qualified_in (codes "T") (number_in (pos 10))) ∷ []) ≡ None }
    ensures past_last { breach_of (t_written ∷ named_number_in 5 (codes "N") (qualified_in (codes "T") (number_in (pos 11))) ∷ []) ≡ breach N12 5 30 }
    ensures another_type { breach_of (t_written ∷ u_written ∷ named_number_in 6 (codes "N") (qualified_in (codes "T") (last_of (codes "U"))) ∷ []) ≡ breach N10 6 40 }
    ensures literal { breach_of (color_written ∷ warm_written ∷ constant_in 6 (codes "C") (codes "Color") (qualified_in (codes "Warm") green) ∷ []) ≡ None }
    ensures past_subtype { breach_of (color_written ∷ warm_written ∷ constant_in 6 (codes "C") (codes "Color") (qualified_in (codes "Warm") (name_in (codes "Blue"))) ∷ []) ≡ breach N12 6 30 }
{}

/// `Pos`, `Val`, `Succ` and `Pred` are functions of an enumeration type, and need an operand; `First` takes none. An integer type has none of them.
pub fn a_function_of_a_type_needs_an_operand()
    ensures no_operand { breach_of (color_written ∷ constant_in 5 (codes "C") (codes "Integer") (attribute_in (codes "Color") (codes "Pos")) ∷ []) ≡ breach N14 5 30 }
    ensures operand { breach_of (color_written ∷ constant_in 5 (codes "C") (codes "Integer") (function_in (codes "Color") (codes "Pos") green) ∷ []) ≡ None }
    ensures first { breach_of (color_written ∷ constant_in 5 (codes "C") (codes "Color") (function_in (codes "Color") (codes "First") red) ∷ []) ≡ breach N14 5 30 }
    ensures of_integer { breach_of (t_written ∷ constant_in 5 (codes "C") (codes "Integer") (function_in (codes "T") (codes "Pos") (number_in (pos 1))) ∷ []) ≡ breach N3 5 30 }
    ensures past_last { breach_of (color_written ∷ constant_in 5 (codes "C") (codes "Color") (function_in (codes "Color") (codes "Succ") (name_in (codes "Blue"))) ∷ []) ≡ breach N12 5 30 }
{}

/// They go between literals and positions.
#[tactic(auto, using(crate::proofs::Declarations::denotes_as), unfolding(spx_core::specs::Regions::standard, spx_num::specs::Widths::fits))]
pub fn functions_of_literals_have_values()
    ensures position { denotes (color_written ∷ constant_in 5 (codes "C") (codes "Integer") (function_in (codes "Color") (codes "Pos") green) ∷ []) (codes "C") ≡ constant_of INTEGER (pos 1) }
    ensures value { denotes (color_written ∷ constant_in 5 (codes "C") (codes "Color") (function_in (codes "Color") (codes "Val") (number_in (pos 2))) ∷ []) (codes "C") ≡ constant_of color (pos 2) }
    ensures next { denotes (color_written ∷ constant_in 5 (codes "C") (codes "Color") (function_in (codes "Color") (codes "Succ") red) ∷ []) (codes "C") ≡ constant_of color (pos 1) }
    ensures previous { denotes (color_written ∷ constant_in 5 (codes "C") (codes "Color") (function_in (codes "Color") (codes "Pred") green) ∷ []) (codes "C") ≡ constant_of color (pos 0) }
{}

/// In a run, a result that lies outside is bad at the operand. The results of `Succ` are those of the whole type, also where a subtype is named.
#[tactic(auto, using(crate::proofs::Selections::eval_applied), unfolding(spx_term::specs::Meaning::value_of_op))]
pub fn a_run_checks_functions_at_the_operand()
    ensures next { Answers (function_at color (codes "Succ") color) (holding (pos 1)) (Gives (number (pos 2))) }
    ensures past_last { Answers (function_at color (codes "Succ") color) (holding (pos 2)) (Fails Range (place 1 12)) }
    ensures past_subtype { Answers (function_at warm (codes "Succ") color) (holding (pos 1)) (Gives (number (pos 2))) }
    ensures last { Answers (conversion_at t INTEGER) (holding (pos 10)) (Gives (number (pos 10))) }
    ensures past_bound { Answers (conversion_at t INTEGER) (holding (pos 11)) (Fails Range (place 1 12)) }
{}

/// An initial value is a static value of the type of the variable.
pub fn an_initial_value_lies_in_its_type()
    ensures last { breach_of (t_written ∷ initialized_in 5 (codes "V") (codes "T") (number_in (pos 10)) ∷ []) ≡ None }
    ensures past_last { breach_of (t_written ∷ initialized_in 5 (codes "V") (codes "T") (number_in (pos 11)) ∷ []) ≡ breach N12 5 30 }
    ensures variable { breach_of (initialized_in 4 (codes "V") (codes "Integer") (name_in (codes "X")) ∷ []) ≡ breach N11 4 30 }
{}

/// A local that is declared with a value has it on entry, whatever the caller left there, and no other variable changes. A position stands for the
/// truth value there.
pub fn a_local_starts_with_its_value()
    ensures declared { (v w : Option Value) → entry_of (starting INTEGER (pos 7)) (local_sub []) (v ∷ w ∷ []) ≡ v ∷ Some (number (pos 7)) ∷ [] }
    ensures truth { (v w : Option Value) → entry_of (starting BOOLEAN (pos 1)) (local_sub []) (v ∷ w ∷ []) ≡ v ∷ Some (truth true) ∷ [] }
{}

/// It is known from the start in the conditions of the body.
pub fn a_local_is_known_by_its_value()
    ensures number { (rest : Tree) → initializing (starting INTEGER (pos 7)) (y ∷ []) rest ≡ Assign (now (starting INTEGER (pos 7)) y) (term.Number (pos 7)) rest }
    ensures truth { (rest : Tree) → initializing (starting BOOLEAN (pos 0)) (y ∷ []) rest ≡ Assign (now (starting BOOLEAN (pos 0)) y) (term.Truth false) rest }
    ensures no_value { (rest : Tree) → initializing (local_program []) (y ∷ []) rest ≡ rest }
{}

/// `X := Y` for a local Y that is declared with 7: no finding says that it is read unset.
#[tactic(auto, using(crate::proofs::Findings::seven_clean))]
pub fn a_local_with_a_value_is_set()
    ensures { HasNoFlowFinding seven_program }
{}

/// The alternatives of a `case` over `Color` have each literal once; `others` stands for those that are left, and comes last.
#[tactic(auto, using(crate::proofs::Selections::case_breach), unfolding(spx_core::specs::Regions::standard, spx_num::specs::Widths::fits))]
pub fn a_case_has_each_value_once()
    ensures each { breach_choosing (codes "Color") (when_in 10 (codes "Red" ∷ [])) (when_in 11 (codes "Green" ∷ codes "Blue" ∷ [])) ≡ None }
    ensures missing { breach_choosing (codes "Color") (when_in 10 (codes "Red" ∷ [])) (when_in 11 (codes "Green" ∷ [])) ≡ breach N17 9 4 }
    ensures twice { breach_choosing (codes "Color") (when_in 10 (codes "Red" ∷ codes "Green" ∷ [])) (when_in 11 (codes "Blue" ∷ codes "Red" ∷ [])) ≡ breach N17 9 4 }
    ensures in_range { breach_choosing (codes "Color") (range_in 10 (codes "Red") (codes "Green")) (when_in 11 (codes "Blue" ∷ [])) ≡ None }
    ensures twice_in_range { breach_choosing (codes "Color") (range_in 10 (codes "Red") (codes "Blue")) (when_in 11 (codes "Green" ∷ [])) ≡ breach N17 9 4 }
    ensures others { breach_choosing (codes "Color") (when_in 10 (codes "Red" ∷ [])) None ≡ None }
    ensures others_first { breach_choosing (codes "Color") None (when_in 11 (codes "Red" ∷ [])) ≡ breach N17 9 4 }
    ensures another_type { breach_choosing (codes "Color") (when_in 10 (codes "True" ∷ [])) None ≡ breach N10 10 12 }
    ensures of_subtype { breach_choosing (codes "Warm") (when_in 10 (codes "Red" ∷ [])) (when_in 11 (codes "Green" ∷ [])) ≡ None }
{}

/// A `case` runs the alternative that has the value, and that of `others` for another value.
#[tactic(auto, using(crate::proofs::Selections::chosen_ends))]
pub fn a_case_runs_the_alternative_of_its_value()
    ensures chosen { Chosen (Some (choice (pos 0) ∷ [])) None (pos 0) (Ended (holding (pos 2))) }
    ensures others { Chosen (Some (choice (pos 0) ∷ [])) None (pos 2) (Ended (holding (pos 1))) }
    ensures in_range { Chosen (Some (choices_to (pos 0) (pos 1) ∷ [])) None (pos 1) (Ended (holding (pos 2))) }
    ensures past_range { Chosen (Some (choices_to (pos 0) (pos 1) ∷ [])) None (pos 2) (Ended (holding (pos 1))) }
{}

/// What is known in `others` is that none of the earlier choices has the value.
pub fn others_have_no_earlier_choice()
    ensures others { (t : Term) → alternative_facts t (and_these t (and_these t [] (Some (choice (pos 0) ∷ []))) (Some (choices_to (pos 1) (pos 2) ∷ []))) None ≡ term.Prefix Not (term.Infix operator.Equal t (term.Number (pos 0))) ∷ term.Prefix Not (between t (term.Number (pos 1)) (term.Number (pos 2))) ∷ [] }
{}
