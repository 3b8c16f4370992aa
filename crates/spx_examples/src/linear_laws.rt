//! What is a comparison of integers, which linear forms comparisons have, and which multiples refute forms. Each law is the contract of a function
//! that does nothing. S, I and N are integers, and P and Q are true or false. The comparisons are those of a loop that doubles: of `S = 2 * I`,
//! `I <= N`, `0 <= N` and `N <= 1000` follows that `S + 2` is at most 2147483647.
ghost use Rattle.std.specs.Prelude.{◌≡◌, ◌+◌, pos, negsuc, true, false, Some, None, [], ◌∷◌};
ghost use Rattle.spx_term.specs.declared.term.Term.TheVariants.{Number};
ghost use Rattle.spx_term.specs.Meaning.{Valid};
ghost use Rattle.spx_term.specs.Negation.{negated};
ghost use Rattle.spx_term.specs.Values.{Types};
ghost use Rattle.spx_linear.specs.Forms.{part};
ghost use Rattle.spx_linear.specs.Linear.{is_comparison, linear_form};
ghost use Rattle.spx_linear.specs.Refutation.{refutation};
ghost use Rattle.spx_examples.specs.LinearExamples.{integer_s, integer_i, integer_n, boolean_p, boolean_q, number, sum, product, minus, equal, unequal, less, at_most, greater, at_least, equals_zero, hypotheses, s_fits, s_is_doubled, i_in_range, n_is_natural, n_is_small, s_is_wide, twice_is_less, i_is_itself};
ghost use Rattle.spx_examples.specs.LinearExamples.{equation, inequality, doubled_form, range_form, natural_form, small_form, wide_form, twice_form, itself_form, goal_and_bounds, certificate, constant, most, least, half};

/// A comparison has a form that lists each name once. A factor that is 0 stays.
pub fn comparisons_have_forms()
    ensures goal { linear_form s_is_wide ≡ Some wide_form }
    ensures equation { linear_form s_is_doubled ≡ Some doubled_form }
    ensures order { linear_form i_in_range ≡ Some range_form }
    ensures low { linear_form n_is_natural ≡ Some natural_form }
    ensures high { linear_form n_is_small ≡ Some small_form }
    ensures repeated { linear_form twice_is_less ≡ Some twice_form }
    ensures no_factor { linear_form i_is_itself ≡ Some itself_form }
{}

/// A comparison by each operator but `/=` has a form. `<` and `>` take 1 off.
pub fn each_order_has_a_form()
    ensures equal { linear_form (equal integer_s integer_i) ≡ Some (equation (part (pos 1) integer_s ∷ part (negsuc 0) integer_i ∷ []) (pos 0)) }
    ensures less { linear_form (less integer_s integer_i) ≡ Some (inequality (part (pos 1) integer_i ∷ part (negsuc 0) integer_s ∷ []) (negsuc 0)) }
    ensures at_most { linear_form (at_most integer_s integer_i) ≡ Some (inequality (part (pos 1) integer_i ∷ part (negsuc 0) integer_s ∷ []) (pos 0)) }
    ensures greater { linear_form (greater integer_s integer_i) ≡ Some (inequality (part (pos 1) integer_s ∷ part (negsuc 0) integer_i ∷ []) (negsuc 0)) }
    ensures at_least { linear_form (at_least integer_s integer_i) ≡ Some (inequality (part (pos 1) integer_s ∷ part (negsuc 0) integer_i ∷ []) (pos 0)) }
    ensures unequal { linear_form (unequal integer_s integer_i) ≡ None }
{}

/// A product with a literal on either side is a multiple of the other side.
pub fn a_product_with_a_literal_is_a_multiple()
    ensures left { linear_form (equals_zero (product (number 2) integer_i)) ≡ Some (equation (part (pos 2) integer_i ∷ []) (pos 0)) }
    ensures right { linear_form (equals_zero (product integer_i (number 2))) ≡ Some (equation (part (pos 2) integer_i ∷ []) (pos 0)) }
    ensures literals { linear_form (equals_zero (product (number 2) (number 3))) ≡ Some (constant (pos 6)) }
    ensures of_a_sum { linear_form (equals_zero (product (number 2) (sum integer_i (number 3)))) ≡ Some (equation (part (pos 2) integer_i ∷ []) (pos 6)) }
    ensures by_zero { linear_form (equals_zero (product (number 0) integer_i)) ≡ Some (equation (part (pos 0) integer_i ∷ []) (pos 0)) }
    ensures negation { linear_form (equals_zero (minus (sum integer_i (number 3)))) ≡ Some (equation (part (negsuc 0) integer_i ∷ []) (negsuc 2)) }
{}

/// A product of no literal is an atom, also where one side is a sum of literals. With its sides exchanged it is another one.
pub fn any_other_product_is_an_atom()
    ensures same { linear_form (less (product integer_i integer_n) (product integer_i integer_n)) ≡ Some (inequality (part (pos 0) (product integer_i integer_n) ∷ []) (negsuc 0)) }
    ensures exchanged { linear_form (equal (product integer_i integer_n) (product integer_n integer_i)) ≡ Some (equation (part (pos 1) (product integer_i integer_n) ∷ part (negsuc 0) (product integer_n integer_i) ∷ []) (pos 0)) }
    ensures sum_of_literals { linear_form (equals_zero (product (sum (number 1) (number 1)) integer_i)) ≡ Some (equation (part (pos 1) (product (sum (number 1) (number 1)) integer_i) ∷ []) (pos 0)) }
{}

/// A comparison has no form where a number on the way to it does not fit in 128 bits.
pub fn a_form_may_be_too_wide()
    ensures less { linear_form (less integer_s (Number least)) ≡ None }
    ensures at_most { linear_form (at_most integer_s (Number least)) ≡ Some (inequality (part (negsuc 0) integer_s ∷ []) least) }
    ensures negation { linear_form (equals_zero (minus (Number least))) ≡ None }
    ensures factor { linear_form (equals_zero (sum (product (Number most) integer_i) integer_i)) ≡ None }
{}

/// The sum of the goal that is negated and of multiples of hypotheses is a constant below 0.
pub fn a_certificate_refutes()
    ensures { refutation goal_and_bounds certificate ≡ Some true }
{}

/// A goal is valid where its negation and hypotheses are refuted.
pub fn a_goal_whose_negation_is_refuted_is_valid()
    ensures negation { negated s_fits ≡ s_is_wide }
    ensures valid { (types : Types) → Valid types hypotheses s_fits }
{}

/// Where a name is left in the sum, nothing is refuted.
pub fn a_certificate_that_leaves_a_name_refutes_nothing()
    ensures { refutation goal_and_bounds (pos 1 ∷ negsuc 0 ∷ pos 2 ∷ pos 1 ∷ []) ≡ Some false }
{}

/// A negative multiplier of an inequality refutes nothing, where the sum is a constant below 0 and where it is too wide.
pub fn a_negative_multiplier_of_an_inequality_refutes_nothing()
    ensures below { refutation (wide_form ∷ doubled_form ∷ range_form ∷ natural_form ∷ []) (pos 1 ∷ negsuc 0 ∷ pos 2 ∷ negsuc 1 ∷ []) ≡ Some false }
    ensures too_wide { refutation (wide_form ∷ doubled_form ∷ []) (negsuc 0 ∷ most ∷ []) ≡ Some false }
{}

/// A multiple has no answer where a factor of it does not fit in 128 bits. -2 times 2 ** 126 just fits.
pub fn a_multiple_may_be_too_wide()
    ensures factor { refutation (wide_form ∷ doubled_form ∷ []) (pos 1 ∷ most ∷ []) ≡ None }
    ensures last_that_fits { refutation (doubled_form ∷ []) (pos half ∷ []) ≡ Some false }
    ensures first_too_wide { refutation (doubled_form ∷ []) (pos (half + 1) ∷ []) ≡ None }
{}

/// A sum has no answer where it does not fit on the way, even if all of it does. In another order it has one.
pub fn a_sum_may_be_too_wide_on_the_way()
    ensures above { refutation (constant most ∷ constant (pos 1) ∷ constant (negsuc 0) ∷ []) (pos 1 ∷ pos 1 ∷ pos 1 ∷ []) ≡ None }
    ensures not_above { refutation (constant most ∷ constant (negsuc 0) ∷ constant (pos 1) ∷ []) (pos 1 ∷ pos 1 ∷ pos 1 ∷ []) ≡ Some true }
    ensures below { refutation (constant least ∷ constant (negsuc 0) ∷ constant (pos 1) ∷ []) (pos 1 ∷ pos 1 ∷ pos 1 ∷ []) ≡ None }
    ensures not_below { refutation (constant least ∷ constant (pos 1) ∷ constant (negsuc 0) ∷ []) (pos 1 ∷ pos 1 ∷ pos 1 ∷ []) ≡ Some true }
{}

/// An equation is refuted by a constant below 0 and by one above it, and an inequality by one below 0 alone. So is an equation beside an inequality,
/// even where the multiplier of that is 0.
pub fn equations_are_refuted_on_both_sides()
    ensures above { refutation (constant (pos 1) ∷ []) (pos 1 ∷ []) ≡ Some true }
    ensures below { refutation (constant (pos 1) ∷ []) (negsuc 0 ∷ []) ≡ Some true }
    ensures zero { refutation (constant (pos 0) ∷ []) (pos 1 ∷ []) ≡ Some false }
    ensures inequality_above { refutation (inequality [] (pos 1) ∷ []) (pos 1 ∷ []) ≡ Some false }
    ensures inequality_below { refutation (inequality [] (negsuc 0) ∷ []) (pos 1 ∷ []) ≡ Some true }
    ensures beside_an_inequality { refutation (constant (pos 1) ∷ inequality [] (pos 0) ∷ []) (pos 1 ∷ pos 0 ∷ []) ≡ Some false }
    ensures no_forms { refutation [] [] ≡ Some false }
{}

/// `/=`, a name and an equation of truth values are no comparisons of integers.
pub fn what_is_no_comparison()
    ensures unequal { is_comparison (unequal integer_s integer_i) ≡ false }
    ensures name { is_comparison integer_s ≡ false }
    ensures truths { is_comparison (equal boolean_p boolean_q) ≡ false }
    ensures integers { is_comparison (equal integer_s integer_i) ≡ true }
{}
