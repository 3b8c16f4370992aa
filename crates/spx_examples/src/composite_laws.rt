//! How terms with arrays, records and quantifiers are folded, what they mean, and which sequents of them need no proof. Each law is the contract of
//! a function that does nothing. T is an array type with a digit at each index from 1 to 3, and A an array of it. P is a record type of two digits,
//! and R a record of it. Q is a record type of an array and a digit, and N a record of it. X is an integer, and K the variable of a quantifier.
ghost use Rattle.std.specs.Prelude.{◌≡◌, ℕ, ◌+◌, pos, negsuc, true, false, Some, None, [], ◌∷◌};
ghost use Rattle.spx_term.specs.declared.term.Sort.TheVariants.{Integer, Boolean, Composite};
ghost use Rattle.spx_term.specs.declared.term.Term.{Term};
ghost use Rattle.spx_term.specs.declared.term.Term.TheVariants.{Truth};
ghost use Rattle.spx_term.specs.declared.value.Value.TheVariants as value;
ghost use Rattle.spx_term.specs.Folding.{folded};
ghost use Rattle.spx_term.specs.Meaning.{Valuation, Holds, Respects, Valid, value_of};
ghost use Rattle.spx_term.specs.Plain.{Plain};
ghost use Rattle.spx_term.specs.Sorts.{sort_of};
ghost use Rattle.spx_term.specs.Sizes.{size_of};
ghost use Rattle.spx_term.specs.Steps.{substituted};
ghost use Rattle.spx_term.specs.Substitution.{put};
ghost use Rattle.spx_examples.specs.CompositeExamples.{types, wide, aggregate, field_f, field_g, array_f, digit_g, array_a, record_r, nested_n, integer_k, integer_x, name_x, number, at, with_at, digit_of, array_of, with_in, deeper_k, each_is, four_and_fives, four_over_fives, four_and_others, one_and_two, updated_n, for_all, for_some, k_is_one, in_t, in_q, at_least, at_most, is, x_in_range, updated_is_read, where_x_is, where_elements_are, numbers_of, digits_of, ten_and_others};

/// Terms of these laws are well sorted, so that folding keeps their values.
pub fn the_terms_are_well_sorted()
    ensures element { sort_of types (at (with_at array_a (number 1) (number 7)) (number 1)) ≡ Some Integer }
    ensures field { sort_of types (digit_of (with_in record_r field_f (number 7)) field_f) ≡ Some Integer }
    ensures ranges { sort_of types four_and_fives ≡ Some (Composite 0) }
    ensures others { sort_of types four_and_others ≡ Some (Composite 0) }
    ensures fields { sort_of types one_and_two ≡ Some (Composite 1) }
    ensures nested { sort_of types (at (array_of updated_n) (number 1)) ≡ Some Integer }
    ensures quantifier { sort_of types (for_all (number 1) (number 1) k_is_one) ≡ Some Boolean }
    ensures membership { sort_of types (in_t array_a) ≡ Some Boolean }
{}

/// A part of another sort leaves a term without one.
pub fn a_part_of_another_sort_is_refused()
    ensures index { sort_of types (at array_a (Truth true)) ≡ None }
    ensures array { sort_of types (at record_r (number 1)) ≡ None }
    ensures element { sort_of types (with_at array_a (number 1) (Truth true)) ≡ None }
    ensures membership { sort_of types (in_t record_r) ≡ None }
{}

/// An update at an index in range is read at that index, and the array before it at another one.
pub fn an_updated_element_is_read()
    ensures updated { folded (at (with_at array_a (number 1) (number 7)) (number 1)) ≡ number 7 }
    ensures another { folded (at (with_at array_a (number 1) (number 7)) (number 2)) ≡ at array_a (number 2) }
    ensures at_the_end { folded (at (with_at array_a (number 3) (number 7)) (number 3)) ≡ number 7 }
{}

/// At an index just outside of the range nothing is folded, neither where it is updated nor where it is read.
pub fn an_index_out_of_range_is_not_folded()
    ensures update { folded (at (with_at array_a (number 4) (number 7)) (number 1)) ≡ at (with_at array_a (number 4) (number 7)) (number 1) }
    ensures read { folded (at (with_at array_a (number 1) (number 7)) (number 4)) ≡ at (with_at array_a (number 1) (number 7)) (number 4) }
{}

/// An index that is no literal is not folded, neither where it is updated nor where it is read.
pub fn an_index_that_is_no_literal_is_not_folded()
    ensures alone { folded (at array_a integer_x) ≡ at array_a integer_x }
    ensures update { folded (at (with_at array_a integer_x (number 7)) (number 1)) ≡ at (with_at array_a integer_x (number 7)) (number 1) }
    ensures read { folded (at (with_at array_a (number 1) (number 7)) integer_x) ≡ at (with_at array_a (number 1) (number 7)) integer_x }
    ensures same { folded (at (with_at array_a integer_x (number 7)) integer_x) ≡ at (with_at array_a integer_x (number 7)) integer_x }
{}

/// An update of a field is read at that field, and the record before it at another one.
pub fn an_updated_field_is_read()
    ensures updated { folded (digit_of (with_in record_r field_f (number 7)) field_f) ≡ number 7 }
    ensures another { folded (digit_of (with_in record_r field_f (number 7)) field_g) ≡ digit_of record_r field_g }
{}

/// An element of an aggregate is that of the range that has its index. Where two ranges have it, the outermost one counts.
pub fn an_element_of_an_aggregate_is_read()
    ensures first { folded (at four_and_fives (number 1)) ≡ number 4 }
    ensures third { folded (at four_and_fives (number 3)) ≡ number 5 }
    ensures outermost { folded (at four_over_fives (number 1)) ≡ number 4 }
    ensures inner { folded (at four_over_fives (number 2)) ≡ number 5 }
{}

/// In an aggregate `others` is read where no other component has the index.
pub fn others_covers_no_named_component()
    ensures covered { folded (at four_and_others (number 2)) ≡ number 6 }
    ensures named { folded (at four_and_others (number 1)) ≡ number 4 }
{}

/// A field of an aggregate is read, also through an update of the aggregate.
pub fn a_field_of_an_aggregate_is_read()
    ensures first { folded (digit_of one_and_two field_f) ≡ number 1 }
    ensures second { folded (digit_of one_and_two field_g) ≡ number 2 }
    ensures updated { folded (digit_of (with_in one_and_two field_f (number 7)) field_f) ≡ number 7 }
    ensures another { folded (digit_of (with_in one_and_two field_f (number 7)) field_g) ≡ number 2 }
{}

/// A quantifier over an empty range of literals is folded, whatever it says. Over one number, or over names, it is not.
pub fn a_quantifier_over_no_number_is_folded()
    ensures all { (p : Term) → folded (for_all (number 2) (number 1) p) ≡ Truth true }
    ensures some { (p : Term) → folded (for_some (number 2) (number 1) p) ≡ Truth false }
    ensures all_of_one { folded (for_all (number 1) (number 1) k_is_one) ≡ for_all (number 1) (number 1) k_is_one }
    ensures some_of_one { folded (for_some (number 1) (number 1) k_is_one) ≡ for_some (number 1) (number 1) k_is_one }
    ensures all_of_names { folded (for_all integer_x (number 1) k_is_one) ≡ for_all integer_x (number 1) k_is_one }
{}

/// In `N[F => A[1 => 5]][G => 2].F[1]` the update of G is passed, and those of F and of the index 1 are read. At the index 2 it is `A[2]`.
pub fn a_part_of_a_part_is_read()
    ensures updated { folded (at (array_of updated_n) (number 1)) ≡ number 5 }
    ensures another { folded (at (array_of updated_n) (number 2)) ≡ at array_a (number 2) }
{}

/// K of an outer quantifier in the place of X stays its own where X stands under a quantifier of K. Put in as it is it would be captured.
pub fn a_bound_variable_is_not_captured()
    ensures renamed { put name_x integer_k (each_is integer_x) ≡ each_is deeper_k }
    ensures captured { substituted name_x integer_k (each_is integer_x) ≡ each_is integer_k }
{}

/// An aggregate is one node, with the nodes of its components. The length of a range does not count.
pub fn an_aggregate_is_one_node()
    ensures ranges { size_of four_and_fives ≡ 3 }
    ensures others { size_of four_and_others ≡ 3 }
    ensures fields { size_of one_and_two ≡ 3 }
    ensures wide { size_of wide ≡ 2 }
    ensures range { (t e : Term) (low high : ℕ) → size_of (aggregate t low high e) ≡ size_of t + size_of e }
{}

/// An update and a quantifier are nodes of their own.
pub fn an_update_is_a_node_more()
    ensures element { size_of (with_at array_a (number 1) (number 7)) ≡ 4 }
    ensures field { size_of (with_in record_r field_f (number 7)) ≡ 3 }
    ensures quantifier { size_of (for_all (number 1) (number 1) k_is_one) ≡ 6 }
{}

/// Over no number `for all` is true and `for some` false, whatever they say.
pub fn a_quantifier_over_no_number_has_a_value()
    ensures all { (v : Valuation) (p : Term) → Holds types (for_all (number 2) (number 1) p) v }
    ensures some { (v : Valuation) (p : Term) → value_of types v (for_some (number 2) (number 1) p) ≡ value.Truth false }
{}

/// The variable of a quantifier takes each number of the range, whatever value its name has outside.
pub fn a_quantifier_takes_each_number()
    ensures all_of_one { (v : Valuation) → Holds types (for_all (number 1) (number 1) k_is_one) v }
    ensures all_of_two { (v : Valuation) → value_of types v (for_all (number 1) (number 2) k_is_one) ≡ value.Truth false }
    ensures some_of_two { (v : Valuation) → Holds types (for_some (number 1) (number 2) k_is_one) v }
    ensures some_past_it { (v : Valuation) → value_of types v (for_some (number 2) (number 3) k_is_one) ≡ value.Truth false }
{}

/// An update out of range leaves the array as it was, and in range it is read.
pub fn an_update_out_of_range_changes_nothing()
    ensures outside { (v : Valuation) → Respects types v → value_of types v (with_at array_a (number 4) (number 7)) ≡ value_of types v array_a }
    ensures inside { (v : Valuation) → Respects types v → value_of types v (at (with_at array_a (number 1) (number 7)) (number 1)) ≡ value.Number (pos 7) }
{}

/// An element out of range has the first value of its type.
pub fn an_element_out_of_range_has_the_first_value()
    ensures { (v : Valuation) → Respects types v → value_of types v (at array_a (number 4)) ≡ value.Number (pos 0) }
{}

/// The value of an aggregate is made of those of its components, whatever its names stand for.
pub fn an_aggregate_has_a_value()
    ensures ranges { (v : Valuation) → value_of types v four_and_fives ≡ numbers_of 4 5 5 }
    ensures outermost { (v : Valuation) → value_of types v four_over_fives ≡ numbers_of 4 5 5 }
    ensures others { (v : Valuation) → value_of types v four_and_others ≡ numbers_of 4 6 6 }
    ensures fields { (v : Valuation) → value_of types v one_and_two ≡ digits_of 1 2 }
{}

/// An array is in its type where each element is. One with another element still is of the sort.
pub fn an_array_is_in_its_type_by_its_elements()
    ensures inside { (v : Valuation) → Holds types (in_t four_and_fives) v }
    ensures outside { (v : Valuation) → value_of types v (in_t ten_and_others) ≡ value.Truth false }
    ensures sorted { sort_of types ten_and_others ≡ Some (Composite 0) }
{}

/// `A in T ⊢ A[X] >= 0` needs no proof: the hypothesis sets bounds to each element.
pub fn an_element_has_the_bounds_of_its_type()
    ensures plain { Plain (in_t array_a ∷ []) (at_least (at array_a integer_x) 0) }
    ensures valid { Valid types (in_t array_a ∷ []) (at_least (at array_a integer_x) 0) }
{}

/// Without the hypothesis `A[X] >= 0` is neither closed nor valid, since A may have elements outside of their type.
pub fn an_element_has_no_bounds_of_its_own()
    ensures not_plain { ¬ Plain [] (at_least (at array_a integer_x) 0) }
    ensures sorted { Respects types (where_elements_are (negsuc 0)) }
    ensures negative { ¬ Holds types (at_least (at array_a integer_x) 0) (where_elements_are (negsuc 0)) }
    ensures not_valid { ¬ Valid types [] (at_least (at array_a integer_x) 0) }
{}

/// `A in T ⊢ A[X] >= 1` is neither closed nor valid, since a digit may be 0.
pub fn an_element_may_be_the_first_of_its_type()
    ensures not_plain { ¬ Plain (in_t array_a ∷ []) (at_least (at array_a integer_x) 1) }
    ensures not_valid { ¬ Valid types (in_t array_a ∷ []) (at_least (at array_a integer_x) 1) }
{}

/// `R.F = 3 ⊢ R.F <= 5` needs no proof. A hypothesis on F sets bounds to F, and none to G.
pub fn a_field_has_the_bounds_of_a_hypothesis()
    ensures plain { Plain (is (digit_of record_r field_f) 3 ∷ []) (at_most (digit_of record_r field_f) 5) }
    ensures valid { Valid types (is (digit_of record_r field_f) 3 ∷ []) (at_most (digit_of record_r field_f) 5) }
    ensures another { ¬ Plain (is (digit_of record_r field_f) 3 ∷ []) (at_most (digit_of record_r field_g) 5) }
{}

/// What is said of a term is said of its parts: `N in Q`, or `N.F in T`, sets bounds to `N.F[X]`.
pub fn a_part_of_a_part_has_the_bounds_of_its_type()
    ensures whole { Plain (in_q nested_n ∷ []) (at_least (at (array_of nested_n) integer_x) 0) }
    ensures whole_valid { Valid types (in_q nested_n ∷ []) (at_least (at (array_of nested_n) integer_x) 0) }
    ensures part { Plain (in_t (array_of nested_n) ∷ []) (at_least (at (array_of nested_n) integer_x) 0) }
    ensures part_valid { Valid types (in_t (array_of nested_n) ∷ []) (at_least (at (array_of nested_n) integer_x) 0) }
{}

/// What is said of one part is said of no other: not of another array, and not of another field of the same record.
pub fn a_type_of_another_part_sets_no_bounds()
    ensures of_the_part { ¬ Plain (in_t (array_of nested_n) ∷ []) (at_least (at array_a integer_x) 0) }
    ensures not_valid { ¬ Valid types (in_t (array_of nested_n) ∷ []) (at_least (at array_a integer_x) 0) }
    ensures of_another_array { ¬ Plain (in_t array_a ∷ []) (at_least (at (array_of nested_n) integer_x) 0) }
    ensures of_another_field { ¬ Plain (in_t (array_of nested_n) ∷ []) (at_least (digit_of nested_n digit_g) 0) }
{}

/// `X >= 1, X <= 3 ⊢ A[X => 7][X] = 7` is valid and takes a proof. Without the hypotheses it is not valid: X may be 4, where the update changes
/// nothing and the element is 0.
pub fn an_update_at_a_name_is_valid_and_not_plain()
    ensures valid { Valid types x_in_range updated_is_read }
    ensures not_plain { ¬ Plain x_in_range updated_is_read }
    ensures sorted { Respects types (where_x_is (pos 4)) }
    ensures at_four { ¬ Holds types updated_is_read (where_x_is (pos 4)) }
    ensures not_valid { ¬ Valid types [] updated_is_read }
{}
