//! Which sequents the steps of proofs leave, and where a step does not apply. Each law is the contract of a function that does nothing. S, I and N
//! are integers, P and Q are true or false, and A is an array.
ghost use Rattle.std.specs.Prelude.{◌≡◌, pos, negsuc, Some, None, Ok, Err, [], ◌∷◌};
ghost use Rattle.spx_kernel.specs.declared.rule.RuleOf.TheVariants as rule;
ghost use Rattle.spx_kernel.specs.declared.fault.StepFault.TheVariants.{TooWide};
ghost use Rattle.spx_kernel.specs.Sequents.{refused};
ghost use Rattle.spx_kernel.specs.Steps.{step};
ghost use Rattle.spx_examples.specs.LinearExamples.{integer_s, integer_i, integer_n, boolean_p, boolean_q, number, sum, equal, unequal, less, at_most, greater, at_least, s_is_doubled, i_in_range, most};
ghost use Rattle.spx_examples.specs.StepExamples.{under, hyp_times, goal_times, both, either, implies, equivalent, negation, falsity, lies_in, quotient, remainder, modulus, bound_j, bound_k, new_j, all_to_n, all_k_to, all_below_s, some_below_s, one_in_another, two_bounds, i_is_small, s_by_i, n_of_update, i_of_update, n_of_a};

/// A hypothesis closes a goal where both fold to one term. Hypotheses count from 1.
pub fn hyp_takes_a_hypothesis_by_its_number()
    ensures second { step (under (boolean_p ∷ boolean_q ∷ []) boolean_q) (rule.Hyp (pos 2)) ≡ Ok [] }
    ensures folded { step (under (at_most integer_i (sum integer_n (number 0)) ∷ []) i_in_range) (rule.Hyp (pos 1)) ≡ Ok [] }
    ensures another { step (under (boolean_p ∷ boolean_q ∷ []) boolean_q) (rule.Hyp (pos 1)) ≡ refused }
    ensures zero { step (under (boolean_p ∷ boolean_q ∷ []) boolean_q) (rule.Hyp (pos 0)) ≡ refused }
    ensures below { step (under (boolean_p ∷ boolean_q ∷ []) boolean_q) (rule.Hyp (negsuc 0)) ≡ refused }
    ensures past_the_end { step (under (boolean_p ∷ boolean_q ∷ []) boolean_q) (rule.Hyp (pos 3)) ≡ refused }
{}

/// A plain sequent needs no more.
pub fn plain_takes_a_plain_sequent()
    ensures bound { step (under (at_most integer_i (number 5) ∷ []) (at_most integer_i (number 10))) rule.Plain ≡ Ok [] }
    ensures closer_bound { step (under (at_most integer_i (number 10) ∷ []) (at_most integer_i (number 5))) rule.Plain ≡ refused }
{}

/// A conjunction, an equivalence and an equation of integers are split into two goals; no equation of truth values is, and no disjunction.
pub fn split_takes_a_goal_in_two()
    ensures conjunction { step (under (s_is_doubled ∷ []) (both boolean_p boolean_q)) rule.Split ≡ Ok (under (s_is_doubled ∷ []) boolean_p ∷ under (s_is_doubled ∷ []) boolean_q ∷ []) }
    ensures equivalence { step (under [] (equivalent boolean_p boolean_q)) rule.Split ≡ Ok (under [] (implies boolean_p boolean_q) ∷ under [] (implies boolean_q boolean_p) ∷ []) }
    ensures integers { step (under [] (equal integer_s integer_i)) rule.Split ≡ Ok (under [] (at_most integer_s integer_i) ∷ under [] (at_least integer_s integer_i) ∷ []) }
    ensures truths { step (under [] (equal boolean_p boolean_q)) rule.Split ≡ refused }
    ensures disjunction { step (under [] (either boolean_p boolean_q)) rule.Split ≡ refused }
{}

/// What a goal assumes becomes the last hypothesis.
pub fn intro_takes_what_a_goal_assumes()
    ensures implication { step (under (s_is_doubled ∷ []) (implies boolean_p boolean_q)) rule.Intro ≡ Ok (under (s_is_doubled ∷ boolean_p ∷ []) boolean_q ∷ []) }
    ensures negative { step (under (s_is_doubled ∷ []) (negation boolean_p)) rule.Intro ≡ Ok (under (s_is_doubled ∷ boolean_p ∷ []) falsity ∷ []) }
    ensures conjunction { step (under (s_is_doubled ∷ []) (both boolean_p boolean_q)) rule.Intro ≡ refused }
{}

/// One side of a disjunction is picked, and none of a conjunction.
pub fn pick_takes_one_side()
    ensures left { step (under (s_is_doubled ∷ []) (either boolean_p boolean_q)) rule.PickLeft ≡ Ok (under (s_is_doubled ∷ []) boolean_p ∷ []) }
    ensures right { step (under (s_is_doubled ∷ []) (either boolean_p boolean_q)) rule.PickRight ≡ Ok (under (s_is_doubled ∷ []) boolean_q ∷ []) }
    ensures left_of_both { step (under [] (both boolean_p boolean_q)) rule.PickLeft ≡ refused }
    ensures right_of_both { step (under [] (both boolean_p boolean_q)) rule.PickRight ≡ refused }
{}

/// A disjunction has two cases, and two integers that differ have. The hypothesis itself stays.
pub fn cases_takes_a_hypothesis_in_two()
    ensures disjunction { step (under (either boolean_p boolean_q ∷ []) falsity) (rule.Cases (pos 1)) ≡ Ok (under (either boolean_p boolean_q ∷ boolean_p ∷ []) falsity ∷ under (either boolean_p boolean_q ∷ boolean_q ∷ []) falsity ∷ []) }
    ensures integers { step (under (unequal integer_s integer_i ∷ []) falsity) (rule.Cases (pos 1)) ≡ Ok (under (unequal integer_s integer_i ∷ less integer_s integer_i ∷ []) falsity ∷ under (unequal integer_s integer_i ∷ greater integer_s integer_i ∷ []) falsity ∷ []) }
    ensures truths { step (under (unequal boolean_p boolean_q ∷ []) falsity) (rule.Cases (pos 1)) ≡ refused }
    ensures conjunction { step (under (both boolean_p boolean_q ∷ []) falsity) (rule.Cases (pos 1)) ≡ refused }
    ensures past_the_end { step (under (either boolean_p boolean_q ∷ []) falsity) (rule.Cases (pos 2)) ≡ refused }
{}

/// What a hypothesis says is added at the end. What it assumes becomes a goal of its own.
pub fn use_takes_what_a_hypothesis_says()
    ensures conjunction { step (under (both boolean_p boolean_q ∷ []) falsity) (rule.UseHyp (pos 1)) ≡ Ok (under (both boolean_p boolean_q ∷ boolean_p ∷ boolean_q ∷ []) falsity ∷ []) }
    ensures implication { step (under (implies boolean_p boolean_q ∷ []) falsity) (rule.UseHyp (pos 1)) ≡ Ok (under (implies boolean_p boolean_q ∷ []) boolean_p ∷ under (implies boolean_p boolean_q ∷ boolean_q ∷ []) falsity ∷ []) }
    ensures equivalence { step (under (equivalent boolean_p boolean_q ∷ []) falsity) (rule.UseHyp (pos 1)) ≡ Ok (under (equivalent boolean_p boolean_q ∷ implies boolean_p boolean_q ∷ implies boolean_q boolean_p ∷ []) falsity ∷ []) }
    ensures negative { step (under (negation boolean_p ∷ []) boolean_q) (rule.UseHyp (pos 1)) ≡ Ok (under (negation boolean_p ∷ []) boolean_p ∷ []) }
    ensures disjunction { step (under (either boolean_p boolean_q ∷ []) falsity) (rule.UseHyp (pos 1)) ≡ refused }
    ensures past_the_end { step (under (both boolean_p boolean_q ∷ []) falsity) (rule.UseHyp (pos 2)) ≡ refused }
{}

/// A goal on all numbers is opened by a new name, whose number is one more than the greatest in the sequent. A goal on some number is not.
pub fn intro_opens_for_all()
    ensures first { step (under [] all_below_s) rule.Intro ≡ Ok (under (at_least (new_j 1) (number 1) ∷ at_most (new_j 1) integer_n ∷ []) (at_most (new_j 1) integer_s) ∷ []) }
    ensures third { step (under (at_most (new_j 2) integer_s ∷ []) all_below_s) rule.Intro ≡ Ok (under (at_most (new_j 2) integer_s ∷ at_least (new_j 3) (number 1) ∷ at_most (new_j 3) integer_n ∷ []) (at_most (new_j 3) integer_s) ∷ []) }
    ensures nested { step (under [] one_in_another) rule.Intro ≡ Ok (under (at_least (new_j 1) (number 1) ∷ at_most (new_j 1) integer_n ∷ []) (all_k_to 1 (new_j 1) (at_most (bound_k 1) (new_j 1))) ∷ []) }
    ensures some { step (under [] some_below_s) rule.Intro ≡ refused }
{}

/// A hypothesis on some number is opened by a new name. A number in the goal counts too. A hypothesis on all numbers is not opened.
pub fn use_opens_for_some()
    ensures first { step (under (some_below_s ∷ []) falsity) (rule.UseHyp (pos 1)) ≡ Ok (under (some_below_s ∷ at_least (new_j 1) (number 1) ∷ at_most (new_j 1) integer_n ∷ at_most (new_j 1) integer_s ∷ []) falsity ∷ []) }
    ensures third { step (under (some_below_s ∷ []) (at_most (new_j 2) integer_s)) (rule.UseHyp (pos 1)) ≡ Ok (under (some_below_s ∷ at_least (new_j 3) (number 1) ∷ at_most (new_j 3) integer_n ∷ at_most (new_j 3) integer_s ∷ []) (at_most (new_j 2) integer_s) ∷ []) }
    ensures all { step (under (all_below_s ∷ []) falsity) (rule.UseHyp (pos 1)) ≡ refused }
{}

/// A truth value over the names of the sequent is shown first and then assumed. The variable of its own quantifier is no name.
pub fn cut_takes_a_truth_value_over_the_names()
    ensures names { step (under (i_in_range ∷ []) (less integer_s integer_i)) (rule.Cut (less integer_s integer_n)) ≡ Ok (under (i_in_range ∷ []) (less integer_s integer_n) ∷ under (i_in_range ∷ less integer_s integer_n ∷ []) (less integer_s integer_i) ∷ []) }
    ensures no_names { step (under [] boolean_p) (rule.Cut falsity) ≡ Ok (under [] falsity ∷ under (falsity ∷ []) boolean_p ∷ []) }
    ensures quantifier { step (under [] (less integer_s integer_n)) (rule.Cut all_below_s) ≡ Ok (under [] all_below_s ∷ under (all_below_s ∷ []) (less integer_s integer_n) ∷ []) }
    ensures another_name { step (under (i_in_range ∷ []) boolean_p) (rule.Cut (less integer_s integer_n)) ≡ refused }
    ensures variable_of_a_quantifier { step (under (all_below_s ∷ []) boolean_p) (rule.Cut (at_most (bound_j 1) integer_s)) ≡ refused }
    ensures integer { step (under (i_in_range ∷ []) boolean_p) (rule.Cut (sum integer_i integer_n)) ≡ refused }
{}

/// What holds of all numbers holds of a term that lies between the bounds. A quantifier inside is then one level less deep.
pub fn inst_takes_an_integer_over_the_names()
    ensures term { step (under (all_below_s ∷ []) boolean_p) (rule.Inst (pos 1) integer_s) ≡ Ok (under (all_below_s ∷ []) (lies_in integer_s (number 1) integer_n) ∷ under (all_below_s ∷ at_most integer_s integer_s ∷ []) boolean_p ∷ []) }
    ensures nested { step (under (one_in_another ∷ []) boolean_p) (rule.Inst (pos 1) integer_n) ≡ Ok (under (one_in_another ∷ []) (lies_in integer_n (number 1) integer_n) ∷ under (one_in_another ∷ all_k_to 1 integer_n (at_most (bound_k 1) integer_n) ∷ []) boolean_p ∷ []) }
    ensures truth { step (under (all_below_s ∷ []) boolean_p) (rule.Inst (pos 1) boolean_p) ≡ refused }
    ensures another_name { step (under (all_below_s ∷ []) boolean_p) (rule.Inst (pos 1) integer_i) ≡ refused }
    ensures some { step (under (some_below_s ∷ []) boolean_p) (rule.Inst (pos 1) integer_s) ≡ refused }
{}

/// A goal on some number is shown at a term that lies between the bounds.
pub fn give_takes_an_integer_over_the_names()
    ensures term { step (under [] some_below_s) (rule.Give (sum integer_s (number 2))) ≡ Ok (under [] (lies_in (sum integer_s (number 2)) (number 1) integer_n) ∷ under [] (at_most (sum integer_s (number 2)) integer_s) ∷ []) }
    ensures truth { step (under [] some_below_s) (rule.Give falsity) ≡ refused }
    ensures another_name { step (under [] some_below_s) (rule.Give integer_i) ≡ refused }
    ensures all { step (under [] all_below_s) (rule.Give integer_s) ≡ refused }
{}

/// The right side of an equation takes the place of every left side, in the goal, or in a hypothesis, whose changed form is added at the end.
pub fn rewrite_puts_the_right_side_for_the_left()
    ensures goal { step (under (equal integer_s integer_i ∷ []) (less (sum integer_s integer_n) integer_s)) (rule.Rewrite (pos 1) None) ≡ Ok (under (equal integer_s integer_i ∷ []) (less (sum integer_i integer_n) integer_i) ∷ []) }
    ensures hypothesis { step (under (equal integer_s integer_i ∷ less integer_s integer_n ∷ []) boolean_p) (rule.Rewrite (pos 1) (Some (pos 2))) ≡ Ok (under (equal integer_s integer_i ∷ less integer_s integer_n ∷ less integer_i integer_n ∷ []) boolean_p ∷ []) }
    ensures right_to_left { step (under (equal integer_s integer_i ∷ []) (less integer_i integer_n)) (rule.Rewrite (pos 1) None) ≡ refused }
    ensures not_in_hypothesis { step (under (equal integer_s integer_i ∷ i_in_range ∷ []) (less integer_s integer_n)) (rule.Rewrite (pos 1) (Some (pos 2))) ≡ refused }
    ensures no_equation { step (under (at_most integer_s integer_i ∷ []) (less integer_s integer_n)) (rule.Rewrite (pos 1) None) ≡ refused }
    ensures past_the_end { step (under (equal integer_s integer_i ∷ []) (less integer_s integer_n)) (rule.Rewrite (pos 1) (Some (pos 2))) ≡ refused }
{}

/// Under a quantifier a name is found as elsewhere. A term with a quantifier is not found where a variable of an outer quantifier stands in it, and
/// no equation on the variable of a quantifier is used.
pub fn rewrite_goes_under_quantifiers()
    ensures name { step (under (equal integer_s integer_i ∷ []) all_below_s) (rule.Rewrite (pos 1) None) ≡ Ok (under (equal integer_s integer_i ∷ []) (all_to_n (at_most (bound_j 1) integer_i)) ∷ []) }
    ensures outer_variable { step (under (equal (all_k_to 1 integer_n (at_most (bound_k 1) integer_n)) boolean_p ∷ []) one_in_another) (rule.Rewrite (pos 1) None) ≡ refused }
    ensures variable_of_a_quantifier { step (under (equal (bound_j 1) integer_i ∷ []) all_below_s) (rule.Rewrite (pos 1) None) ≡ refused }
{}

/// An element of an updated array is the new one where the indexes are equal, and else that of the array before. The leftmost such element is taken.
pub fn elem_takes_an_element_of_an_update()
    ensures only { step (under (i_in_range ∷ []) (at_most n_of_update (number 5))) rule.Elem ≡ Ok (under (i_in_range ∷ []) (lies_in integer_i (number 1) (number 3)) ∷ under (i_in_range ∷ equal integer_i integer_n ∷ []) (at_most integer_s (number 5)) ∷ under (i_in_range ∷ unequal integer_i integer_n ∷ []) (at_most n_of_a (number 5)) ∷ []) }
    ensures leftmost { step (under [] (less n_of_update i_of_update)) rule.Elem ≡ Ok (under [] (lies_in integer_i (number 1) (number 3)) ∷ under (equal integer_i integer_n ∷ []) (less integer_s i_of_update) ∷ under (unequal integer_i integer_n ∷ []) (less n_of_a i_of_update) ∷ []) }
    ensures no_update { step (under [] (at_most n_of_a (number 5))) rule.Elem ≡ refused }
    ensures in_a_quantifier { step (under [] (all_to_n (at_most n_of_update (number 5)))) rule.Elem ≡ refused }
    ensures in_a_hypothesis { step (under (at_most n_of_update (number 5) ∷ []) (at_most n_of_a (number 5))) rule.Elem ≡ refused }
{}

/// A divisor that is not 0 gives what is known of the division, whichever of the three operations is named.
pub fn div_says_what_a_division_gives()
    ensures quotient { step (under [] (less integer_s integer_i)) (rule.Div (quotient integer_s integer_i)) ≡ Ok (under [] (unequal integer_i (number 0)) ∷ under s_by_i (less integer_s integer_i) ∷ []) }
    ensures remainder { step (under [] (less integer_s integer_i)) (rule.Div (remainder integer_s integer_i)) ≡ Ok (under [] (unequal integer_i (number 0)) ∷ under s_by_i (less integer_s integer_i) ∷ []) }
    ensures modulus { step (under [] (less integer_s integer_i)) (rule.Div (modulus integer_s integer_i)) ≡ Ok (under [] (unequal integer_i (number 0)) ∷ under s_by_i (less integer_s integer_i) ∷ []) }
    ensures total { step (under [] (less integer_s integer_i)) (rule.Div (sum integer_s integer_i)) ≡ refused }
{}

/// Multiples of hypotheses and of the negated goal close the goal where their sum is a constant below 0, or above 0 if all are equations.
pub fn linear_takes_a_certificate()
    ensures below { step (under two_bounds i_is_small) (rule.Linear (goal_times (pos 1) ∷ hyp_times 1 (pos 1) ∷ hyp_times 2 (pos 1) ∷ [])) ≡ Ok [] }
    ensures above { step (under (equal integer_i integer_n ∷ []) (unequal integer_i (sum integer_n (number 1)))) (rule.Linear (goal_times (negsuc 0) ∷ hyp_times 1 (pos 1) ∷ [])) ≡ Ok [] }
    ensures other_multiplier { step (under two_bounds i_is_small) (rule.Linear (goal_times (pos 1) ∷ hyp_times 1 (pos 2) ∷ hyp_times 2 (pos 1) ∷ [])) ≡ refused }
    ensures goal_left_out { step (under two_bounds i_is_small) (rule.Linear (hyp_times 1 (pos 1) ∷ hyp_times 2 (pos 1) ∷ [])) ≡ refused }
{}

/// An entry that cannot be listed is refused before any number is too wide. No multiplier of an inequality is below 0, also where the sum would be.
pub fn linear_looks_at_the_entries_first()
    ensures negative { step (under (at_least integer_i (number 1) ∷ at_least integer_i (number 0) ∷ []) falsity) (rule.Linear (hyp_times 1 (pos 1) ∷ hyp_times 2 (negsuc 0) ∷ [])) ≡ refused }
    ensures past_the_end { step (under two_bounds i_is_small) (rule.Linear (hyp_times 3 (pos 1) ∷ [])) ≡ refused }
    ensures equation_as_goal { step (under two_bounds (equal integer_i integer_n)) (rule.Linear (goal_times (pos 1) ∷ [])) ≡ refused }
    ensures truth { step (under (boolean_p ∷ []) i_is_small) (rule.Linear (hyp_times 1 (pos 1) ∷ [])) ≡ refused }
    ensures too_wide { step (under (s_is_doubled ∷ i_in_range ∷ []) boolean_p) (rule.Linear (hyp_times 1 most ∷ hyp_times 2 (pos 1) ∷ [])) ≡ Err TooWide }
    ensures negative_first { step (under (s_is_doubled ∷ i_in_range ∷ []) boolean_p) (rule.Linear (hyp_times 1 most ∷ hyp_times 2 (negsuc 0) ∷ [])) ≡ refused }
{}
