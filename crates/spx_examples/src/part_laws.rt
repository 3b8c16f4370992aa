//! What the types of a table look like, and what an assignment to a part of an array or a record makes of its value. T is an array type with a digit at each index from 1 to 3. Q is a record type
//! of an array F of the type T and a digit G, and N a record of it.
ghost use Rattle.std.specs.Prelude.{◌≡◌, true, pos, [], ◌∷◌};
ghost use Rattle.spx_term.specs.declared.term.Sort.TheVariants.{Integer, Composite};
ghost use Rattle.spx_term.specs.declared.value.Value.{Value};
ghost use Rattle.spx_term.specs.declared.value.Value.TheVariants as value;
ghost use Rattle.spx_term.specs.Parts.{at_end, with_end, end_term, with_end_term, LeadsTo, Diverge};
ghost use Rattle.spx_term.specs.Sorts.{is_array};
ghost use Rattle.spx_term.specs.Tables.{AreMade, types_in};
ghost use Rattle.spx_term.specs.declared.value.Shape.TheVariants as shape;
ghost use Rattle.spx_examples.specs.CompositeExamples.{types, digit_shape, numbers_shape, numbers, array_f, nested_n, integer_x, number, at, with_at, array_of, with_in, numbers_of};
ghost use Rattle.spx_examples.specs.PartExamples.{rows, rows_out_of_order, element, field_digit, to_element, to_element_at, array_and_digit};

/// Types that are declared one after another look as their declarations say, and what terms say of them is so.
pub fn types_look_as_they_are_declared()
    ensures made { AreMade rows }
    ensures array { types_in rows 0 ≡ numbers_shape }
    ensures flat { types_in rows 1 ≡ types 1 }
    ensures nested { types_in rows 2 ≡ types 2 }
    ensures said { is_array (types_in rows) numbers ≡ true }
{}

/// A type that is declared before the type of its field does not look like it.
pub fn a_type_comes_after_those_of_its_parts()
    ensures made { AreMade rows_out_of_order → ⊥ }
    ensures looks { types_in rows_out_of_order 0 ≡ shape.Record 0 (shape.Integer (pos 0) (pos 0) ∷ digit_shape ∷ []) }
{}

/// `N.F (X) := 5` gives N the value `N[F => N.F[X => 5]]`, and reads `N.F[X]`.
pub fn an_assignment_to_a_part_is_a_chain_of_updates()
    ensures part { end_term (to_element_at integer_x) nested_n ≡ at (array_of nested_n) integer_x }
    ensures whole { with_end_term (to_element_at integer_x) nested_n (number 5) ≡ with_in nested_n array_f (with_at (array_of nested_n) integer_x (number 5)) }
{}

/// That way leads from the record to an integer, and so does each of its elements in range.
pub fn a_way_leads_through_types()
    ensures terms { LeadsTo types (Composite 2) (to_element_at integer_x) Integer }
    ensures elsewhere { Diverge (to_element 1) (to_element 2) }
    ensures in_another_field { Diverge (to_element 1) (field_digit ∷ []) }
{}

/// Where N.F is (1, 2, 3) and N.G is 4, `N.F (2) := 5` makes N.F (1, 5, 3) and leaves N.G.
pub fn only_that_element_changes()
    ensures before { at_end types (to_element 2) (array_and_digit (numbers_of 1 2 3) 4) ≡ value.Number (pos 2) }
    ensures whole { with_end types (to_element 2) (array_and_digit (numbers_of 1 2 3) 4) (value.Number (pos 5)) ≡ array_and_digit (numbers_of 1 5 3) 4 }
    ensures other_field { with_end types (field_digit ∷ []) (array_and_digit (numbers_of 1 2 3) 4) (value.Number (pos 5)) ≡ array_and_digit (numbers_of 1 2 3) 5 }
{}

/// With no step the whole value is replaced. An index out of range replaces nothing.
pub fn no_step_replaces_all()
    ensures all { (u w : Value) → with_end types [] u w ≡ w }
    ensures out_of_range { (w : Value) → with_end types (element 4 ∷ []) (numbers_of 1 2 3) w ≡ numbers_of 1 2 3 }
{}
