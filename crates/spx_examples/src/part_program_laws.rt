//! What elements of arrays and assignments to them mean in programs, and what is checked and read there. A has an integer at each of the indexes 1, 2 and 3.
ghost use Rattle.std.specs.Prelude.{◌≡◌, ℕ, pos, true, false, [], ◌∷◌, Option, Some, None, Ok, Err};
ghost use Rattle.spx_core.specs.declared.entity.TheConstants.{INTEGER, INTEGER_FIRST, INTEGER_LAST};
ghost use Rattle.spx_core.specs.declared.entity.VarId.{VarId};
ghost use Rattle.spx_core.specs.declared.expression.CoreExpr.TheVariants.{Name, Number};
ghost use Rattle.spx_core.specs.declared.program.Program.{Program};
ghost use Rattle.spx_core.specs.declared.rule.ExprType.TheVariants.{Of};
ghost use Rattle.spx_core.specs.declared.rule.RuleName.TheVariants.{N10, N12};
ghost use Rattle.spx_core.specs.declared.subprogram.Sub.{Sub};
ghost use Rattle.spx_core.specs.Effects.{assign, effect};
ghost use Rattle.spx_core.specs.Judged.{judged, typing};
ghost use Rattle.spx_core.specs.Parts.{IsAsFormed, TypesAreMade, an_element};
ghost use Rattle.spx_term.specs.declared.condition.CondKind.TheVariants as kind;
ghost use Rattle.spx_term.specs.declared.term.Term.{Term};
ghost use Rattle.spx_term.specs.declared.term.Term.TheVariants as term;
ghost use Rattle.spx_term.specs.declared.term.TernaryOp.TheVariants as ternary;
ghost use Rattle.spx_term.specs.declared.term.UnaryOp.TheVariants as unary;
ghost use Rattle.spx_term.specs.declared.value.Shape.TheVariants as shape;
ghost use Rattle.spx_term.specs.declared.value.Value.{Value};
ghost use Rattle.spx_term.specs.declared.value.Value.TheVariants as value;
ghost use Rattle.spx_term.specs.Parts.{with_end};
ghost use Rattle.spx_term.specs.Steps.{Tree, Assign, Assume, check};
ghost use Rattle.spx_meaning.specs.declared.bad.BadKind.TheVariants.{Index, Range, Unset};
ghost use Rattle.spx_meaning.specs.Annotations.{meant};
ghost use Rattle.spx_meaning.specs.Evaluation.{Fails, Gives, eval};
ghost use Rattle.spx_meaning.specs.Frames.{Frame, around};
ghost use Rattle.spx_meaning.specs.Runs.{Bad, Ended, run};
ghost use Rattle.spx_meaning.specs.Stores.{Store, is_in, types_of};
ghost use Rattle.spx_formula.specs.Goals.{in_range};
ghost use Rattle.spx_formula.specs.Terms.{now, now_term};
ghost use Rattle.spx_paths.specs.Checks.{checks};
ghost use Rattle.spx_paths.specs.Walks.{walk};
ghost use Rattle.spx_examples.specs.CompositeExamples.{types, digits_of, numbers_of};
ghost use Rattle.spx_examples.specs.Increment.{place};
ghost use Rattle.spx_examples.specs.Operators.{true_at};
ghost use Rattle.spx_examples.specs.PartPrograms.{a, a_at, array_type, e, element_at, element_of_a, endless_program, field_of_r, i, i_at, indexing, number, pairs_of, part_program, setting, setting_field, to_second_g, values};

/// An index below or above its subtype fails at the index, and that it lies between the bounds is the only check of `A (I)`.
pub fn an_index_lies_in_its_subtype()
    ensures inside { (f : Frame) (n : ℕ) → eval f n (values (number 2) None (Some (numbers_of 4 5 6))) element_of_a ≡ Gives (value.Number (pos 5)) }
    ensures below { (f : Frame) (n : ℕ) → eval f n (values (number 0) None (Some (numbers_of 4 5 6))) element_of_a ≡ Fails Index (place 6 7) }
    ensures above { (f : Frame) (n : ℕ) → eval f n (values (number 4) None (Some (numbers_of 4 5 6))) element_of_a ≡ Fails Index (place 6 7) }
    ensures check { (p : Program) (entered : VarId → Term) (rest : Tree) → checks p entered [] element_of_a rest ≡ check kind.Index (place 6 7) (in_range (pos 1) (pos 3) (now_term p i)) rest }
{}

/// `A (I) := E` puts the value of E at the index, and leaves the other elements.
pub fn an_assignment_sets_one_element()
    ensures { (f : Frame) (n : ℕ) → run f n (values (number 2) (number 7) (Some (numbers_of 4 5 6))) setting ≡ Ended (values (number 2) (number 7) (Some (numbers_of 4 7 6))) }
{}

/// For that assignment it is shown that the index lies between the bounds and the value in the type of the elements. Then A is an update of itself, of which it
/// is known that it is of its type.
pub fn an_assignment_to_an_element_is_an_update()
    ensures { (sub : Sub) (rest leave : ℕ → Tree) (made : ℕ) →
        let of_i = now_term part_program i in
        let of_e = now_term part_program e in
        let of_a = now_term part_program a in
        walk part_program sub setting rest leave made
        ≡ check kind.Index (place 6 7) (in_range (pos 1) (pos 3) of_i) (check kind.Range (place 6 13) (in_range INTEGER_FIRST INTEGER_LAST of_e)
        (Assign (now part_program a) (term.Ternary (ternary.Update 6) of_a of_i of_e) (Assume (term.Unary (unary.In 6) of_a) (rest made)))) }
{}

/// An array that is unset is read where one of its elements is set: this fails at its name.
pub fn an_unset_array_takes_no_element()
    ensures { (f : Frame) (n : ℕ) → run f n (values (number 2) (number 7) None) setting ≡ Bad Unset (place 6 4) }
{}

/// The index is evaluated first, then the right side, and then the array.
pub fn the_index_comes_before_the_right_side()
    ensures index { (f : Frame) (n : ℕ) → run f n (values (number 4) None None) setting ≡ Bad Index (place 6 7) }
    ensures right_side { (f : Frame) (n : ℕ) → run f n (values (number 2) None None) setting ≡ Bad Unset (place 6 13) }
    ensures range { (f : Frame) (n : ℕ) → run f n (values (number 2) (number 2147483648) None) setting ≡ Bad Range (place 6 13) }
{}

/// All elements of an array are one variable: `A (I) := E` reads I, E and A, and sets A.
pub fn elements_are_one_variable()
    ensures { effect setting ≡ assign (Some a) ((place 6 7, i) ∷ (place 6 13, e) ∷ (place 6 4, a) ∷ []) (place 6 4) }
{}

/// Where an array has the records (1, 2) and (3, 4), `(2).G := 5` makes the second one (3, 5) and leaves the first.
pub fn a_field_of_an_element_changes_alone()
    ensures { with_end types to_second_g (pairs_of (digits_of 1 2) (digits_of 3 4)) (value.Number (pos 5)) ≡ pairs_of (digits_of 1 2) (digits_of 3 5) }
{}

/// An element is taken of an array of its type, at an index of the base type of its index. That the index lies in the subtype is no rule on types: it is checked.
pub fn an_index_is_of_its_type()
    ensures element { judged element_of_a ≡ Ok (typing (Of INTEGER.base) None (place 6 4)) }
    ensures past_subtype { judged (element_at (a_at 4) (Number (pos 4) (place 6 7))) ≡ Ok (typing (Of INTEGER.base) None (place 6 4)) }
    ensures past_base { judged (element_at (a_at 4) (Number (pos 2147483648) (place 6 7))) ≡ Err (record { rule = N12; place = place 6 7 }) }
    ensures no_number { judged (element_at (a_at 4) (Name (true_at 6 7))) ≡ Err (record { rule = N10; place = place 6 7 }) }
    ensures no_array { judged (element_at (i_at 4) (Name (i_at 7))) ≡ Err (record { rule = N10; place = place 6 4 }) }
{}

/// The values of a type of a program look as its row says. One lies in the type where each element lies in its own.
pub fn an_array_lies_in_its_type_by_its_elements()
    ensures looks { types_of part_program 6 ≡ shape.Array 6 (pos 1) (pos 3) (shape.Integer INTEGER_FIRST INTEGER_LAST) }
    ensures inside { is_in (types_of part_program) array_type (numbers_of 4 5 6) ≡ true }
    ensures past_last { is_in (types_of part_program) array_type (numbers_of 4 5 2147483648) ≡ false }
    ensures too_few { is_in (types_of part_program) array_type (value.Elements (pos 1) (value.Number (pos 4) ∷ [])) ≡ false }
{}

/// In an annotation an unset array counts as the first value of its type, and an element out of range as that of its own.
pub fn an_annotation_gives_each_element_a_value()
    ensures set { (f : Frame) → meant f (values (number 2) None (Some (numbers_of 4 5 6))) element_of_a ≡ value.Number (pos 5) }
    ensures out_of_range { (f : Frame) → meant f (values (number 4) None (Some (numbers_of 4 5 6))) element_of_a ≡ value.Number INTEGER_FIRST }
    ensures unset { (sub : Sub) (entry : Store) → meant (around part_program sub entry) (values (number 2) None None) element_of_a ≡ value.Number INTEGER_FIRST }
{}

/// `R.G := E` puts the value of E at the field, and leaves the other field. A record that is unset is read there, and in `R.G`.
pub fn an_assignment_sets_one_field()
    ensures value { (f : Frame) (n : ℕ) → eval f n (values None None (Some (digits_of 3 4))) field_of_r ≡ Gives (value.Number (pos 4)) }
    ensures no_value { (f : Frame) (n : ℕ) → eval f n (values None None None) field_of_r ≡ Fails Unset (place 6 4) }
    ensures set { (f : Frame) (n : ℕ) → run f n (values None (number 7) (Some (digits_of 3 4))) setting_field ≡ Ended (values None (number 7) (Some (digits_of 3 7))) }
    ensures unset { (f : Frame) (n : ℕ) → run f n (values None (number 7) None) setting_field ≡ Bad Unset (place 6 4) }
    ensures reads { effect setting_field ≡ assign (Some a) ((place 6 11, e) ∷ (place 6 4, a) ∷ []) (place 6 4) }
{}

/// The types of that program are made of those that are declared before them. An array type whose elements are its own arrays is not.
pub fn types_of_programs_are_made_in_their_order()
    ensures made { TypesAreMade part_program }
    ensures formed { IsAsFormed part_program (an_element indexing) }
    ensures not_made { ¬ TypesAreMade endless_program }
{}
